//! The words of the command line.
ghost use Rattle.std.specs.Prelude.{◌≡◌, ◌⊎◌, ◌<◌, ◌≤◌, None, IfOk, IfErr, OnOk, length};
ghost use Rattle.std.specs.List.{All, Any};
ghost use Rattle.std.specs.Prelude.{[], Some, codes, map, option_map, unwrap_or};
ghost use Rattle.std.specs.List.{AllZip};
ghost use Rattle.clap.specs.Words.{found_of, rows_of, first_of, one_of, kind_of};
ghost use Rattle.command_line.specs.Job.{IsInRange, IsWindow, report_name, words_of};
ghost use Rattle.command_line.specs.Words.{AreWords, Asks, AsksFor, file_argument, NamesFile, IsFlag, IsNumber, IsSizing, IsAskedFor, IsAskedForBy, HelpIsAskedFor, IsHelp};

use crate::commands::program;
use crate::drawings::drawing;
use crate::fault::{Refusal, WordsFault};
use crate::job::{Job, Report, Sizing, Words};
use crate::live::plan;
use clap::ArgMatches;
use clap::error::ErrorKind;
use size_classes::{LEAST_BUDGET, MOST_BUDGET};
use std::alloc::Global;
use std::convert::AsStr;
use std::fmt::Display;

/// Returns the job that the words ask for; the first word is the program's name. If they ask for help, or are refused,
/// it returns the text for the user.
pub fn read_words<'a, S: AsStr>(alloc: Global, words: &'a [S]) -> Result<Job<'a>, WordsFault>
    ensures range { IfOk result IsInRange }
    ensures asked { IfOk result IsAskedFor }
    ensures by { IfOk result (IsAskedForBy (map S.text words.now)) }
    ensures help { IfErr result (HelpIsAskedFor (map S.text words.now)) }
{
    let Ok(command) = program(alloc) else {
        return Err(WordsFault::NoMemory);
    };
    let matches = match command.try_get_matches_from(words) {
        Ok(matches) => matches,
        Err(error) => return Err(fault_of(alloc, &error)),
    };
    let Some((name, found)) = matches.subcommand() else {
        return Err(WordsFault::from(refused(alloc, "a subcommand is missing")));
    };
    Ok(job_of(alloc, name, found)?)
}

/// Returns the argument that has the name of a subcommand's other file, if the subcommand has one.
fn file_argument(name: &str) -> Option<&'static str>
    ensures { option_map (λ argument. argument.now) result ≡ file_argument name.now }
{
    match name {
        "check" => Some("HISTORY"),
        "threads" => Some("SCRIPTS"),
        "plan" => None,
        _ => Some("TRACE"),
    }
}

/// Returns the name of a subcommand's other file, if the subcommand has one.
fn file_of<'a>(
    alloc: Global,
    name: &str,
    found: &ArgMatches<'a>,
) -> Result<Option<&'a str>, Refusal>
    ensures { IfOk result (NamesFile (file_argument name.now) (rows_of (found_of found.now))) }
{
    match file_argument(name) {
        Some(argument) => Ok(Some(file(alloc, found, argument)?)),
        None => Ok(None),
    }
}

/// Returns the names of a subcommand's files, and its flags.
fn words_of<'a>(alloc: Global, name: &str, found: &ArgMatches<'a>) -> Result<Words<'a>, Refusal>
    ensures { IfOk result (AreWords name.now (rows_of (found_of found.now))) }
{
    Ok(Words {
        config: file(alloc, found, "CONFIG")?,
        file: file_of(alloc, name, found)?,
        compare: word(found, "compare"),
        progress: flag(found, "progress"),
        explain: flag(found, "explain"),
    })
}

/// Returns the job that the words of a subcommand ask for.
fn job_of<'a>(alloc: Global, name: &str, found: &ArgMatches<'a>) -> Result<Job<'a>, Refusal>
    ensures range { IfOk result IsInRange }
    ensures asked { IfOk result (AsksFor name.now (rows_of (found_of found.now))) }
{
    let words = words_of(alloc, name, found)?;
    match name {
        "check" => Ok(Job::Check { words }),
        "plan" => plan(alloc, words, found),
        "threads" => threads(alloc, words, found),
        "inspect" | "path" => heap_job(alloc, words, name, found),
        _ => run_job(alloc, words, name, found),
    }
}

/// Returns the text for the user of an error of `clap`.
fn fault_of(alloc: Global, error: &clap::Error) -> WordsFault
    ensures { IsHelp result → (kind_of error.now ≡ ErrorKind.DisplayHelp) ⊎ (kind_of error.now ≡ ErrorKind.DisplayVersion) }
{
    if error.kind() == ErrorKind::OutOfMemory {
        return WordsFault::NoMemory;
    }
    match format!(in alloc; "{error}") {
        Ok(text) if error.use_stderr() => WordsFault::Refused(text),
        Ok(text) => WordsFault::Help(text),
        Err(_) => WordsFault::NoMemory,
    }
}

/// Makes a refusal in the form of those of `clap`.
pub(crate) fn refused<T: Display + Drop>(alloc: Global, why: T) -> Refusal {
    match format!(in alloc; "error: {why}\n\nFor more information, try '--help'.\n") {
        Ok(text) => Refusal::Refused(text),
        Err(_) => Refusal::NoMemory,
    }
}

/// Returns the job of `threads`.
fn threads<'a>(alloc: Global, words: Words<'a>, found: &ArgMatches) -> Result<Job<'a>, Refusal>
    ensures range { IfOk result IsInRange }
    ensures words { IfOk result (λ job. words_of job ≡ words.entry) }
    ensures asked { IfOk result (Asks (codes "threads") (rows_of (found_of found.now))) }
{
    // (clap gives each its default if it isn't named)
    let turns = number(found, "turns").unwrap_or(0);
    let budget = number(found, "budget").unwrap_or(0);
    within(alloc, "--turns <N>", u64::from(turns), 0, 10000)?;
    let (least, most) = (u64::from(LEAST_BUDGET), u64::from(MOST_BUDGET));
    within(alloc, "--budget <B>", u64::from(budget), least, most)?;
    Ok(Job::Threads {
        words,
        turns,
        budget,
    })
}

/// Returns the job of a subcommand over a run.
fn run_job<'a>(
    alloc: Global,
    words: Words<'a>,
    name: &str,
    found: &ArgMatches,
) -> Result<Job<'a>, Refusal>
    ensures range { IfOk result IsInRange }
    ensures words { IfOk result (λ job. words_of job ≡ words.entry) }
    ensures asked { IfOk result (Asks name.now (rows_of (found_of found.now))) }
{
    match name {
        "play" => Ok(Job::Play {
            words,
            history: flag(found, "history"),
        }),
        "cycles" => Ok(Job::Cycles {
            words,
            csv: flag(found, "csv"),
        }),
        "mmu" => Ok(Job::Mmu {
            words,
            windows: windows_of(alloc, found.get_strs("WINDOW").unwrap_or(&[]))?,
        }),
        "pages" => Ok(Job::Pages {
            words,
            by: sizing(alloc, flag(found, "pace"), flag(found, "plan"))?,
        }),
        "draw" => Ok(Job::Draw {
            words,
            drawing: drawing(alloc, found)?,
        }),
        _ => Err(refused(alloc, "a subcommand is missing")),
    }
}

/// Returns the job of a subcommand over the heap after some event lines, or all.
fn heap_job<'a>(
    alloc: Global,
    words: Words<'a>,
    name: &str,
    found: &ArgMatches,
) -> Result<Job<'a>, Refusal>
    ensures range { IfOk result IsInRange }
    ensures words { IfOk result (λ job. words_of job ≡ words.entry) }
    ensures asked { IfOk result (Asks name.now (rows_of (found_of found.now))) }
{
    let after = number(found, "after");
    match name {
        // (clap gives `by` its default if it isn't named)
        "inspect" => Ok(Job::Inspect {
            words,
            by: report(alloc, word(found, "by").unwrap_or(""))?,
            after,
        }),
        // (clap has refused words that are no such number)
        "path" => Ok(Job::Path {
            words,
            id: long_number(found, "ID").unwrap_or(0),
            after,
        }),
        _ => Err(refused(alloc, "a subcommand is missing")),
    }
}

/// Returns the choice that a word names, of those that an argument has.
pub(crate) fn chosen<T: Copy>(
    alloc: Global,
    word: &str,
    choices: &[(&str, T)],
    argument: &str,
    expected: &str,
) -> Result<T, Refusal>
    ensures { IfOk result (λ choice. Any (λ row. (row.0.now ≡ word.now) × (row.1 ≡ choice)) choices.now) }
{
    for (name, choice) in choices {
        if *name == word {
            return Ok(*choice);
        }
    }
    let why = format_args!("invalid value '{word}' for '{argument}': it is {expected}");
    Err(refused(alloc, why))
}

/// Returns the report of a heap that has this name.
fn report(alloc: Global, name: &str) -> Result<Report, Refusal>
    ensures { IfOk result (λ report. name.now ≡ report_name report) }
{
    let reports = [
        ("page", Report::Pages),
        ("size", Report::Sizes),
        ("shape", Report::Shapes),
        ("root", Report::Roots),
    ];
    let expected = "none of page, root, shape and size";
    chosen(alloc, name, &reports, "--by <PART>", expected)
}

/// Returns the base from which the pages are calculated. At most one may be asked for.
fn sizing(alloc: Global, pace: bool, plan: bool) -> Result<Sizing, Refusal>
    ensures { IfOk result (IsSizing pace plan) }
{
    match (pace, plan) {
        (false, false) => Ok(Sizing::Demand),
        (true, false) => Ok(Sizing::Pace),
        (false, true) => Ok(Sizing::Plan),
        (true, true) => Err(refused(alloc, "the argument '--pace' cannot be used with '--plan'")),
    }
}

/// Returns the ticks of each window: there is at least one.
fn windows_of(alloc: Global, words: &[&str]) -> Result<Vec<u64>, Refusal>
    ensures range { IfOk result (λ windows. (0 < length windows.items) × All IsWindow windows.items) }
    ensures each { IfOk result (λ windows. AllZip (λ word ticks. IsNumber 64 (Some word) (Some ticks))
        (map (λ word. word.now) words.now) windows.items) }
{
    let mut windows = Vec::new(alloc);
    for word in words {
        let Ok(ticks) = word.parse::<u64>() else {
            return Err(refused(alloc, "a window is not a number"));
        };
        within(alloc, "<WINDOW>...", ticks, 1, 1099511627776)?;
        let Ok(()) = windows.push(ticks) else {
            return Err(Refusal::NoMemory);
        };
    }
    if windows.is_empty() {
        return Err(refused(alloc, "a window is missing"));
    }
    Ok(windows)
}

/// Returns the name of a file.
fn file<'a>(alloc: Global, found: &ArgMatches<'a>, name: &str) -> Result<&'a str, Refusal>
    ensures { IfOk result (λ file. first_of name.now (rows_of (found_of found.now)) ≡ Some file.now) }
{
    match word(found, name) {
        Some(word) => Ok(word),
        None => Err(refused(alloc, "a file is missing")),
    }
}

/// Returns the first word of an argument.
pub(crate) fn word<'a>(found: &ArgMatches<'a>, name: &str) -> Option<&'a str>
    ensures { option_map (λ word. word.now) result ≡ first_of name.now (rows_of (found_of found.now)) }
{
    found.get_str(name)
}

/// Returns whether a flag is set.
fn flag(found: &ArgMatches, name: &str) -> bool
    ensures { IsFlag (one_of name.now (rows_of (found_of found.now))) result }
{
    found.get_flag(name)
}

/// Returns the number of an argument.
pub(crate) fn number(found: &ArgMatches, name: &str) -> Option<u32>
    ensures { IsNumber 32 (one_of name.now (rows_of (found_of found.now))) result }
{
    found.get_one(name)
}

/// Returns the number of an argument that may be long.
pub(crate) fn long_number(found: &ArgMatches, name: &str) -> Option<u64>
    ensures { IsNumber 64 (one_of name.now (rows_of (found_of found.now))) result }
{
    found.get_one(name)
}

/// Refuses a number outside its range, as `clap` does.
pub(crate) fn within(
    alloc: Global,
    name: &str,
    number: u64,
    least: u64,
    greatest: u64,
) -> Result<(), Refusal>
    ensures { OnOk result ((least ≤ number) × (number ≤ greatest)) }
{
    if least <= number && number <= greatest {
        return Ok(());
    }
    let why = format_args!(
        "invalid value '{number}' for '{name}': {number} is not in {least}..={greatest}"
    );
    Err(refused(alloc, why))
}
