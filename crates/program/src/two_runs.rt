//! Draws the runs of a trace on two configurations.
ghost use Rattle.std.specs.Prelude.{◌≡◌, ◌+◌, IfOk, string_bytes};
ghost use Rattle.trace.specs.LinesProcessed.{reads_failed, writes_failed};
ghost use Rattle.trace.specs.Streams.{given_by, taken_by, Stays};
ghost use Rattle.program.specs.Faults.{failed_reads, failed_writes};
ghost use Rattle.program.specs.TwoRuns.{trace_name, IsHeading, AreRuns, TextRun, BothTold, RunsTold, runs_in};

use crate::configs::NamedConfig;
use crate::fault::{Ending, RunFault};
use crate::files::read_bytes;
use crate::names::files_member;
use crate::notes::Notes;
use crate::told::tell_text;
use command_line::Form;
use pictures::run_data;
use plans::plans_data;
use size_classes::Config;
use std::alloc::{AllocError, Global};
use trace::{MemorySource, PlayFault, Sink, Source};
use viewer::{BETWEEN, FOOT, HEAD};

/// Two runs of a trace, and how to draw them.
#[derive(Clone, Copy)]
pub struct TwoRuns<'a> {
    /// The configuration of each.
    pub first: NamedConfig<'a>,
    pub second: NamedConfig<'a>,
    /// The file of the trace.
    pub trace: Option<&'a str>,
    pub form: Form,
    /// The live words for which plans are shown, if any are.
    pub live: Option<u64>,
}

/// Returns the name of the file of a trace.
fn trace_name<'a>(trace: Option<&'a str>) -> &'a str
    ensures { result.now ≡ trace_name trace.entry }
{
    match trace {
        Some(name) => name,
        None => "-",
    }
}

/// Plays the trace of a text on a new heap, and returns the data of the run.
fn text_run(alloc: Global, config: &Config, text: &[u8]) -> Result<String, PlayFault>
    ensures run { TextRun config.now text.now result }
    ensures reads { reads_failed result ≡ 0 }
    ensures writes { writes_failed result ≡ 0 }
{
    let mut source = MemorySource::new(text);
    run_data(alloc, config, &mut source)
}

/// Returns the members before the data of a run: the names of its files, and the plans.
fn heading(alloc: Global, runs: &TwoRuns, of: &NamedConfig) -> Result<String, AllocError>
    ensures { IfOk result (λ text. IsHeading runs.now of.now (string_bytes text)) }
{
    let files = files_member(alloc, of.name, trace_name(runs.trace))?;
    let plans = plans_data(alloc, &of.config, runs.live)?;
    [files.as_str(), plans.as_str()].concat(alloc)
}

/// Returns the data of two runs in a form: one behind the other, or in the page that shows them.
fn runs_in(
    alloc: Global,
    form: Form,
    head: &str,
    first: &str,
    other: &str,
    second: &str,
) -> Result<String, AllocError>
    ensures { IfOk result (λ text. string_bytes text ≡ runs_in form head.now first.now other.now second.now) }
{
    let end = "\"format\":\"metronome heap\",\"version\":1}\n";
    match form {
        Form::Page => [
            HEAD, "{\n", head, first, end, BETWEEN, "{\n", other, second, end, FOOT,
        ]
        .concat(alloc),
        Form::Data => ["{\n", head, first, end, "{\n", other, second, end].concat(alloc),
    }
}

/// Returns the text that shows two runs, by their data.
fn runs_text(alloc: Global, runs: &TwoRuns, first: &str, second: &str) -> Result<String, AllocError>
    ensures { IfOk result (λ text. AreRuns runs.now first.now second.now (string_bytes text)) }
{
    let head = heading(alloc, runs, &runs.first)?;
    let other = heading(alloc, runs, &runs.second)?;
    runs_in(
        alloc,
        runs.form,
        head.as_str(),
        first,
        other.as_str(),
        second,
    )
}

/// Plays the trace of a text on two new heaps, and writes both runs.
fn tell_both<K: Sink>(
    alloc: Global,
    runs: &TwoRuns,
    text: &[u8],
    sink: &mut K,
) -> Result<Ending, RunFault>
    ensures told { BothTold runs.now text.now (taken_by K.taken K.sent sink.old sink.new) result }
    ensures reads { failed_reads result ≡ 0 }
    ensures writes { K.failures sink.new ≡ K.failures sink.old + failed_writes result }
{
    let first = text_run(alloc, &runs.first.config, text)?;
    let second = text_run(alloc, &runs.second.config, text)?;
    tell_text(
        runs_text(alloc, runs, first.as_str(), second.as_str()),
        sink,
    )
}

/// Reads a trace into memory, since it is played twice, and writes its runs on two configurations. Notes the trace.
pub fn runs_job<S: Source, K: Sink>(
    alloc: Global,
    runs: &TwoRuns,
    source: &mut S,
    sink: &mut K,
    notes: &mut Notes,
) -> Result<Ending, RunFault>
    ensures done { RunsTold runs.now (given_by S.given S.ended source.old source.new)
        (taken_by K.taken K.sent sink.old sink.new) result }
    ensures reads { S.failures source.new ≡ S.failures source.old + failed_reads result }
    ensures input { failed_reads result ≡ 0 → Stays (S.input source.old) (S.input source.new) }
    ensures writes { K.failures sink.new ≡ K.failures sink.old + failed_writes result }
{
    let text = read_bytes(alloc, source, None)?;
    let told = tell_both(alloc, runs, text.as_slice(), sink);
    notes.keep_text(text);
    told
}
