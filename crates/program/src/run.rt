//! Runs the program.
ghost use Rattle.std.specs.Prelude.{◌≡◌, ◌+◌, [], map, Result, OnOk};
ghost use Rattle.std.specs.Io.KnownBytes.{Appends};
ghost use Rattle.program.specs.declared.fault.Ending.{Ending};
ghost use Rattle.program.specs.declared.fault.RunFault.{RunFault};
ghost use Rattle.trace.specs.Streams.{given_by, taken_by, Stays};
ghost use Rattle.program.specs.Done.{DrawingDone, JobDone, PagesDone, RunDrawn, style_of, layout_of};
ghost use Rattle.program.specs.Faults.{failed_reads, failed_writes};
ghost use Rattle.program.specs.Files.{read_from};
ghost use Rattle.program.specs.Run.{IsGivenOf, Obeyed, RunDone, RunFlushed, Flushes, words_line};
ghost use Rattle.program.specs.Status.{status_of};

use crate::after::{Telling, after_play};
use crate::answer_job::{Question, answer_job};
use crate::configs::{Configs, NamedConfig, read_configs};
use crate::demand_job::demand_job;
use crate::explain::explain;
use crate::fault::{Ending, RunFault};
use crate::files::{Opener, open_file};
use crate::jobs::{play_job, threads_job};
use crate::notes::Notes;
use crate::plan_job::plan_job;
use crate::progress::ToldSource;
use crate::two_runs::{TwoRuns, runs_job};
use command_line::{Drawing, Form, Job, Sizing, Words, WordsFault, read_words};
use inspector::Layout;
use size_classes::Config;
use std::alloc::Global;
use std::convert::AsStr;
use std::io::{self, Read, Write};
use std::sync::Wait;
use std::thread::Threads;
use trace::{MemorySource, PlayFault, ReadSource, Sink, Source, Style, write_all};

/// The parts of the machine that a run uses: threads, memory, and files by their names.
#[derive(Clone, Copy, Drop)]
struct Host<'a, O: Opener, T: Threads + Wait + Sync> {
    rt: &'a T,
    alloc: Global,
    opener: &'a O,
}

/// Runs the program and returns its exit status. Does what the words ask for (the first is the program's name), flushes
/// the sink, and writes the fault, if there is one, to the error stream. Then explains it there, if the words ask for
/// that. A failed write to the error stream changes no status, nor does an explanation. `input` is standard input.
pub fn run<S, O, R, K, E, T>(
    rt: &T,
    alloc: Global,
    words: &[S],
    opener: &O,
    input: R,
    sink: &mut K,
    errors: &mut E,
) -> u8
where
    S: AsStr,
    O: Opener,
    R: Read + Drop,
    K: Sink,
    E: Write,
    T: Threads + Wait + Sync,
    ensures { (how : Result Ending RunFault) × (result ≡ status_of how)
        × RunFlushed (record { named = O.known opener.now; input = read_from (R.remaining input) }) (map S.text words.now)
        (taken_by K.taken K.sent sink.old sink.new) how
        × (K.failures sink.new ≡ K.failures sink.old + failed_writes how) }
{
    let host = Host { rt, alloc, opener };
    let mut notes = Notes::new();
    let how = flushed(perform(&host, words, input, sink, errors, &mut notes), sink);
    if let Err(fault) = &how {
        tell(errors, fault);
    }
    let _ = explain(alloc, errors, notes, &how);
    status_of(&how)
}

/// Flushes the sink of a run, unless a write failed before. Returns how the run ends: as before, or in a failed write.
fn flushed<K: Sink>(how: Result<Ending, RunFault>, sink: &mut K) -> Result<Ending, RunFault>
    ensures taken { K.taken sink.new ≡ K.taken sink.old }
    ensures ends { Flushes (K.sent sink.old) (taken_by K.taken K.sent sink.old sink.new) how result }
    ensures writes { K.failures sink.new + failed_writes how ≡ K.failures sink.old + failed_writes result }
{
    if let Err(RunFault::Text(PlayFault::Write)) = how {
        return how;
    }
    match sink.flush() {
        Ok(()) => how,
        Err(_) => Err(RunFault::Text(PlayFault::Write)),
    }
}

/// Returns the exit status of a run.
fn status_of(how: &Result<Ending, RunFault>) -> u8
    ensures { result ≡ status_of how.now }
{
    match how {
        Ok(ending) => ending.status(),
        Err(fault) => fault.status(),
    }
}

/// Writes a fault as a line.
pub fn tell<E: Write>(errors: &mut E, fault: &RunFault) {
    let _ = match fault {
        RunFault::Words(text) => tell_words(errors, text.trim_end()),
        other => writeln!(errors, "metronome: {other}"),
    };
}

/// Writes why words are refused, in as many lines as the text has.
fn tell_words<E: Write>(errors: &mut E, text: &str) -> io::Result<()>
    ensures { OnOk result (Appends (E.contents errors.old) (E.contents errors.new) (words_line text.now)) }
{
    writeln!(errors, "metronome: {text}")
}

/// Reads the words, and writes the help or does the job that they ask for.
fn perform<'a, S, O, R, K, E, T>(
    host: &Host<O, T>,
    words: &'a [S],
    input: R,
    sink: &mut K,
    errors: &mut E,
    notes: &mut Notes<'a>,
) -> Result<Ending, RunFault>
where
    S: AsStr,
    O: Opener,
    R: Read + Drop,
    K: Sink,
    E: Write,
    T: Threads + Wait + Sync,
    ensures done { RunDone (record { named = O.known host.now.opener.now; input = read_from (R.remaining input) }) (map S.text words.now)
        (taken_by K.taken K.sent sink.old sink.new) result }
    ensures writes { K.failures sink.new ≡ K.failures sink.old + failed_writes result }
{
    let job = match read_words(host.alloc, words) {
        Ok(job) => job,
        Err(WordsFault::Help(text)) => {
            write_all(sink, text.as_bytes())?;
            return Ok(Ending::Done);
        }
        Err(WordsFault::Refused(text)) => return Err(RunFault::Words(text)),
        Err(WordsFault::NoMemory) => return Err(RunFault::Text(PlayFault::NoMemory)),
    };
    let asked = job.words();
    notes.ask(asked);
    obey(host, asked, &job, input, sink, errors, notes)
}

/// Does a job with the files that these words name.
fn obey<O: Opener, R: Read + Drop, K: Sink, E: Write, T: Threads + Wait + Sync>(
    host: &Host<O, T>,
    words: Words,
    job: &Job,
    input: R,
    sink: &mut K,
    errors: &mut E,
    notes: &mut Notes,
) -> Result<Ending, RunFault>
    ensures done { Obeyed (record { named = O.known host.now.opener.now; input = read_from (R.remaining input) }) words.entry job.now
        (taken_by K.taken K.sent sink.old sink.new) result }
    ensures writes { K.failures sink.new ≡ K.failures sink.old + failed_writes result }
{
    let configs = read_configs(host.alloc, host.opener, words, notes)?;
    let Some(name) = words.file else {
        let nothing = MemorySource::new(&[]);
        return serve(host, job, &configs, nothing, sink, errors, notes);
    };
    if name == "-" {
        let source = ReadSource::new(input);
        return serve(host, job, &configs, source, sink, errors, notes);
    }
    let file = open_file(host.opener, name, notes)?;
    serve(host, job, &configs, file, sink, errors, notes)
}

/// Does a job on the source of the other file. With `--progress`, the lines read are reported on the error stream; with
/// `--explain`, the end of the bytes read is noted. Nothing else depends on these two.
fn serve<S: Source + Drop, K: Sink, E: Write, O: Opener, T: Threads + Wait + Sync>(
    host: &Host<O, T>,
    job: &Job,
    configs: &Configs,
    source: S,
    sink: &mut K,
    errors: &mut E,
    notes: &mut Notes,
) -> Result<Ending, RunFault>
    requires { S.given source ≡ [] }
    ensures done { (after : S)
        × JobDone job.now configs.now (given_by S.given S.ended source after) (taken_by K.taken K.sent sink.old sink.new) result
        × (S.failures after ≡ S.failures source + failed_reads result)
        × IsGivenOf (S.input source) (given_by S.given S.ended source after) result }
    ensures writes { K.failures sink.new ≡ K.failures sink.old + failed_writes result }
{
    let tail = notes.tail(host.alloc);
    let mut told = ToldSource::new(source, errors, job.words().progress, tail);
    let how = work(host, job, configs, &mut told, sink, notes);
    let error = told.error();
    notes.keep_end(told.into_tail(), error);
    how
}

/// Does a job on the source of the other file.
fn work<S: Source, K: Sink, O: Opener, T: Threads + Wait + Sync>(
    host: &Host<O, T>,
    job: &Job,
    configs: &Configs,
    source: &mut S,
    sink: &mut K,
    notes: &mut Notes,
) -> Result<Ending, RunFault>
    ensures done { JobDone job.now configs.now (given_by S.given S.ended source.old source.new)
        (taken_by K.taken K.sent sink.old sink.new) result }
    ensures reads { S.failures source.new ≡ S.failures source.old + failed_reads result }
    ensures input { failed_reads result ≡ 0 → Stays (S.input source.old) (S.input source.new) }
    ensures writes { K.failures sink.new ≡ K.failures sink.old + failed_writes result }
{
    let (alloc, config) = (host.alloc, &configs.config);
    match job {
        Job::Play { history, .. } => play_job(alloc, config, source, sink, style_of(*history)),
        Job::Check { .. } => answer_job(alloc, config, source, sink, Question::History, notes),
        Job::Threads { turns, budget, .. } => {
            threads_job(host.rt, alloc, config, source, sink, *turns, *budget)
        }
        Job::Inspect { by, after, .. } => {
            after_play(alloc, config, source, sink, *after, Telling::Report(*by))
        }
        Job::Cycles { csv, .. } => {
            let question = Question::Cycles(layout_of(*csv));
            answer_job(alloc, config, source, sink, question, notes)
        }
        Job::Path { id, after, .. } => {
            after_play(alloc, config, source, sink, *after, Telling::Path(*id))
        }
        Job::Mmu { windows, .. } => {
            let telling = Telling::Windows(windows.as_slice());
            after_play(alloc, config, source, sink, None, telling)
        }
        Job::Draw { words, drawing } => {
            draw_job(alloc, *words, configs, source, sink, *drawing, notes)
        }
        Job::Pages { by, .. } => pages_job(alloc, config, source, sink, *by, notes),
        Job::Plan { program, .. } => plan_job(alloc, config, program, sink),
    }
}

/// Returns the style that a play writes: entries of the history, or replies.
fn style_of(history: bool) -> Style
    ensures { result ≡ style_of history }
{
    if history {
        Style::Entries
    } else {
        Style::Replies
    }
}

/// Returns the layout of the figures of cycles: with commas, or in columns.
fn layout_of(csv: bool) -> Layout
    ensures { result ≡ layout_of csv }
{
    if csv { Layout::Commas } else { Layout::Columns }
}

/// Draws the run of a trace: its data, its events or its graph.
fn draw_job<S: Source, K: Sink>(
    alloc: Global,
    words: Words,
    configs: &Configs,
    source: &mut S,
    sink: &mut K,
    drawing: Drawing,
    notes: &mut Notes,
) -> Result<Ending, RunFault>
    ensures done { DrawingDone words.entry drawing configs.now (given_by S.given S.ended source.old source.new)
        (taken_by K.taken K.sent sink.old sink.new) result }
    ensures reads { S.failures source.new ≡ S.failures source.old + failed_reads result }
    ensures input { failed_reads result ≡ 0 → Stays (S.input source.old) (S.input source.new) }
    ensures writes { K.failures sink.new ≡ K.failures sink.old + failed_writes result }
{
    let config = &configs.config;
    match drawing {
        Drawing::Run { form, live } => {
            run_job(alloc, words, configs, source, sink, form, live, notes)
        }
        Drawing::Events { after } => {
            after_play(alloc, config, source, sink, after, Telling::Events)
        }
        Drawing::Graph { after, most } => {
            after_play(alloc, config, source, sink, after, Telling::Graph(most))
        }
    }
}

/// Draws the data of the run of a trace; or of its runs on two configurations, if it is compared.
fn run_job<S: Source, K: Sink>(
    alloc: Global,
    words: Words,
    configs: &Configs,
    source: &mut S,
    sink: &mut K,
    form: Form,
    live: Option<u64>,
    notes: &mut Notes,
) -> Result<Ending, RunFault>
    ensures done { RunDrawn words.entry form live configs.now.config configs.now.compare
        (given_by S.given S.ended source.old source.new) (taken_by K.taken K.sent sink.old sink.new) result }
    ensures reads { S.failures source.new ≡ S.failures source.old + failed_reads result }
    ensures input { failed_reads result ≡ 0 → Stays (S.input source.old) (S.input source.new) }
    ensures writes { K.failures sink.new ≡ K.failures sink.old + failed_writes result }
{
    let config = configs.config;
    let Some(second) = configs.compare else {
        let question = Question::Run(form, live);
        return answer_job(alloc, &config, source, sink, question, notes);
    };
    let runs = TwoRuns {
        first: NamedConfig {
            name: words.config,
            config,
        },
        second,
        trace: words.file,
        form,
        live,
    };
    runs_job(alloc, &runs, source, sink, notes)
}

/// Writes how many pages suffice for a trace: for its demand, for its pace, or with a plan.
fn pages_job<S: Source, K: Sink>(
    alloc: Global,
    config: &Config,
    source: &mut S,
    sink: &mut K,
    by: Sizing,
    notes: &mut Notes,
) -> Result<Ending, RunFault>
    ensures done { PagesDone by config.now (given_by S.given S.ended source.old source.new)
        (taken_by K.taken K.sent sink.old sink.new) result }
    ensures reads { S.failures source.new ≡ S.failures source.old + failed_reads result }
    ensures input { failed_reads result ≡ 0 → Stays (S.input source.old) (S.input source.new) }
    ensures writes { K.failures sink.new ≡ K.failures sink.old + failed_writes result }
{
    match by {
        Sizing::Demand => demand_job(alloc, config, source, sink, notes),
        Sizing::Pace => answer_job(alloc, config, source, sink, Question::Pace, notes),
        Sizing::Plan => answer_job(alloc, config, source, sink, Question::Plan, notes),
    }
}
