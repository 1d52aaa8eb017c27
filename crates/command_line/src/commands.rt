//! The command line as `clap` reads it: the subcommands, and the arguments of each.
ghost use Rattle.std.specs.Prelude.{◌≡◌, true, false, [], codes, IfOk};
ghost use Rattle.clap.specs.Words as clap;
ghost use Rattle.clap.specs.Words.{App, Shape, app_of, rule_of};
ghost use Rattle.command_line.specs.Program as words;
ghost use Rattle.command_line.specs.Program.{IsArgument, IsSubcommand, metronome};

use clap::{Arg, ArgAction, Command, value_parser};
use std::alloc::{AllocError, Global};

/// Returns the program, with its subcommands in the order of help.
pub fn program<'a>(alloc: Global) -> Result<Command<'a>, AllocError>
    ensures { IfOk result (λ command. app_of command ≡ metronome) }
{
    let top = Command::new(alloc, "metronome")
        .about("A real-time garbage-collected heap: plays, checks and measures its traces")
        .version("3")
        .subcommand_required(true);
    let program = with_subcommand(Ok(top), play(alloc));
    let program = with_subcommand(program, check(alloc));
    let program = with_subcommand(program, threads(alloc));
    let program = with_subcommand(program, inspect(alloc));
    let program = with_subcommand(program, cycles(alloc));
    let program = with_subcommand(program, path(alloc));
    let program = with_subcommand(program, mmu(alloc));
    let program = with_subcommand(program, draw(alloc));
    let program = with_subcommand(program, pages(alloc));
    with_subcommand(program, plan(alloc))
}

/// Returns a command with one more subcommand, unless memory for one of them was refused.
fn with_subcommand<'a>(
    command: Result<Command<'a>, AllocError>,
    more: Result<Command<'a>, AllocError>,
) -> Result<Command<'a>, AllocError>
    ensures { (before : App) (shape : Shape) → shape.is_plain ≡ true → IfOk command.entry (λ c. app_of c ≡ before)
        → IfOk more.entry (IsSubcommand shape) → IfOk result (λ c. app_of c ≡ clap.with_subcommand before shape) }
{
    command?.subcommand(more?)
}

fn play<'a>(alloc: Global) -> Result<Command<'a>, AllocError>
    ensures { IfOk result (IsSubcommand words.play) }
{
    let help = "Write the entry of each command, and not its reply alone";
    on_trace(alloc, "play", "Play a trace and write its replies")?.arg(flag(alloc, "history", help))
}

fn check<'a>(alloc: Global) -> Result<Command<'a>, AllocError>
    ensures { IfOk result (IsSubcommand words.check) }
{
    let file = place(alloc, "HISTORY", "The history, or - for standard input");
    on_file(alloc, "check", "Check the replies of a history", file)
}

fn threads<'a>(alloc: Global) -> Result<Command<'a>, AllocError>
    ensures { IfOk result (IsSubcommand words.threads) }
{
    let file = place(alloc, "SCRIPTS", "The scripts, or - for standard input");
    let about = "Run scripts on threads and write their history";
    let turns = "Quanta of the collector, 0 to 10000";
    let budget = "Units of each quantum, 256 to 1000000";
    on_file(alloc, "threads", about, file)?
        .arg(by_default(figure(alloc, "turns", "N", turns), "100"))?
        .arg(by_default(figure(alloc, "budget", "B", budget), "256"))
}

fn inspect<'a>(alloc: Global) -> Result<Command<'a>, AllocError>
    ensures { IfOk result (IsSubcommand words.inspect) }
{
    let by = "By what to report: page, root, shape or size";
    on_trace(alloc, "inspect", "Play a trace and report the heap")?
        .arg(by_default(word(alloc, "by", "PART", by), "page"))?
        .arg(after(alloc))
}

fn cycles<'a>(alloc: Global) -> Result<Command<'a>, AllocError>
    ensures { IfOk result (IsSubcommand words.cycles) }
{
    let csv = flag(alloc, "csv", "Write commas between the figures");
    on_trace(alloc, "cycles", "Play a trace and tell of each cycle")?.arg(csv)
}

fn path<'a>(alloc: Global) -> Result<Command<'a>, AllocError>
    ensures { IfOk result (IsSubcommand words.path) }
{
    let help = "The identity of the object, as the replies name it";
    let about = "Play a trace and tell why an object is alive";
    on_trace(alloc, "path", about)?
        .arg(number(alloc, "ID", help))?
        .arg(after(alloc))
}

fn mmu<'a>(alloc: Global) -> Result<Command<'a>, AllocError>
    ensures { IfOk result (IsSubcommand words.mmu) }
{
    let about = "Play a trace and write the least that mutators have of windows";
    let windows = "Windows, each of 1 to 1099511627776 ticks";
    on_trace(alloc, "mmu", about)?.arg(number(alloc, "WINDOW", windows).num_args(1..))
}

fn draw<'a>(alloc: Global) -> Result<Command<'a>, AllocError>
    ensures { IfOk result (IsSubcommand words.draw) }
{
    let help = "What to write: page, data, events or graph";
    let most = "Draw at most N objects of a graph, 500 if not said";
    let live = "Show the plans for N words of the blocks of live objects";
    let compare = "Show the run on this configuration, too";
    on_trace(
        alloc,
        "draw",
        "Play a trace and write a page that shows its run",
    )?
    .arg(by_default(word(alloc, "as", "PICTURE", help), "page"))?
    .arg(after(alloc))?
    .arg(figure(alloc, "most", "N", most))?
    .arg(long_figure(alloc, "live", "N", live))?
    .arg(word(alloc, "compare", "CONFIG", compare))
}

fn pages<'a>(alloc: Global) -> Result<Command<'a>, AllocError>
    ensures { IfOk result (IsSubcommand words.pages) }
{
    let about = "Play a trace and tell what it needs, in blocks and in pages";
    let pace = "Tell what the pace needs, whenever its cycles begin";
    let plan = "Tell the plans by which a heap paces itself, for the most words that are live";
    on_trace(alloc, "pages", about)?
        .arg(flag(alloc, "pace", pace))?
        .arg(flag(alloc, "plan", plan))
}

fn plan<'a>(alloc: Global) -> Result<Command<'a>, AllocError>
    ensures { IfOk result (IsSubcommand words.plan) }
{
    let live = "Words of the blocks of live objects, headers included";
    let objects = "Live objects in place of words: A objects of B cells each";
    let largest = "Words of the blocks of the largest object, 0 if not said";
    let sizes = "Words of a block of each size class that is asked for, all if not said";
    let asks = "Tell how long a program waits that asks for W words in T ticks of its own";
    on_config(alloc, "plan", "Tell how a heap would pace itself")?
        .arg(long_figure(alloc, "live", "N", live))?
        .arg(words(alloc, "objects", "AxB", objects))?
        .arg(long_figure(alloc, "largest", "M", largest))?
        .arg(figures(alloc, "classes", "S", sizes))?
        .arg(words(alloc, "asks", "WxT", asks))
}

/// Returns a subcommand that works on a trace.
fn on_trace<'a>(alloc: Global, name: &'a str, about: &'a str) -> Result<Command<'a>, AllocError>
    ensures { IfOk result (IsSubcommand (words.on_trace name.now [])) }
{
    let trace = place(alloc, "TRACE", "The trace, or - for standard input");
    on_file(alloc, name, about, trace)
}

/// Returns a subcommand with its configuration and its file.
fn on_file<'a>(
    alloc: Global,
    name: &'a str,
    about: &'a str,
    file: Arg<'a>,
) -> Result<Command<'a>, AllocError>
    requires { file.global ≡ false }
    ensures { IfOk result (IsSubcommand (words.on_file name.now (rule_of file.entry) [])) }
{
    on_config(alloc, name, about)?.arg(file)
}

/// Returns a subcommand with its configuration, and with the flags for progress and explanations.
fn on_config<'a>(alloc: Global, name: &'a str, about: &'a str) -> Result<Command<'a>, AllocError>
    ensures { IfOk result (IsSubcommand (words.on_config name.now [])) }
{
    let progress = "Tell on standard error how many lines were read";
    let explain = "Tell on standard error more of what is wrong";
    Command::new(alloc, name)
        .about(about)
        .arg(place(alloc, "CONFIG", "The configuration, in TOML"))?
        .arg(flag(alloc, "progress", progress))?
        .arg(flag(alloc, "explain", explain))
}

/// Returns the argument for the number of event lines to play, if not all.
fn after<'a>(alloc: Global) -> Arg<'a>
    ensures { IsArgument (words.figure (codes "after")) result }
{
    figure(alloc, "after", "N", "Play the first N event lines only")
}

/// Returns a required word in its place.
fn place<'a>(alloc: Global, name: &'a str, help: &'a str) -> Arg<'a>
    ensures { IsArgument (words.place name.now) result }
{
    needed(Arg::new(alloc, name).help(help))
}

/// Returns a required number in its place.
fn number<'a>(alloc: Global, name: &'a str, help: &'a str) -> Arg<'a>
    ensures { IsArgument (words.number name.now) result }
{
    place(alloc, name, help).value_parser(value_parser!(u64))
}

/// Returns the argument as a required one.
fn needed<'a>(arg: Arg<'a>) -> Arg<'a>
    requires { arg.global ≡ false }
    ensures { IsArgument (words.needed (rule_of arg.entry)) result }
{
    arg.required(true)
}

/// Returns the argument with this value as its default.
fn by_default<'a>(arg: Arg<'a>, value: &'a str) -> Arg<'a>
    requires { arg.global ≡ false }
    ensures { IsArgument (words.by_default value.now (rule_of arg.entry)) result }
{
    arg.default_value(value)
}

/// Returns an argument that is only a name.
fn flag<'a>(alloc: Global, name: &'a str, help: &'a str) -> Arg<'a>
    ensures { IsArgument (words.flag name.now) result }
{
    Arg::new(alloc, name)
        .help(help)
        .long(name)
        .action(ArgAction::SetTrue)
}

/// Returns the argument of a name and a word, which has another name in help.
fn word<'a>(alloc: Global, name: &'a str, value: &'a str, help: &'a str) -> Arg<'a>
    ensures { IsArgument (words.word name.now) result }
{
    Arg::new(alloc, name)
        .help(help)
        .long(name)
        .value_name(value)
}

/// Returns the argument of a name and one word or more, which have another name in help.
fn words<'a>(alloc: Global, name: &'a str, value: &'a str, help: &'a str) -> Arg<'a>
    ensures { IsArgument (words.words name.now) result }
{
    word(alloc, name, value, help).num_args(1..)
}

/// Returns the argument of a name and a number, which has another name in help.
fn figure<'a>(alloc: Global, name: &'a str, value: &'a str, help: &'a str) -> Arg<'a>
    ensures { IsArgument (words.figure name.now) result }
{
    word(alloc, name, value, help).value_parser(value_parser!(u32))
}

/// Returns the argument of a name and a number of 64 bits, which has another name in help.
fn long_figure<'a>(alloc: Global, name: &'a str, value: &'a str, help: &'a str) -> Arg<'a>
    ensures { IsArgument (words.long_figure name.now) result }
{
    word(alloc, name, value, help).value_parser(value_parser!(u64))
}

/// Returns the argument of a name and one number or more, which have another name in help.
fn figures<'a>(alloc: Global, name: &'a str, value: &'a str, help: &'a str) -> Arg<'a>
    ensures { IsArgument (words.figures name.now) result }
{
    figure(alloc, name, value, help).num_args(1..)
}
