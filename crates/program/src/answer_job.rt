//! Answers a question about an input.
ghost use Rattle.std.specs.Prelude.{◌≡◌, ◌+◌, IfOk, string_bytes};
ghost use Rattle.trace.specs.LinesProcessed.{reads_failed};
ghost use Rattle.trace.specs.Streams.{given_by, taken_by, Stays};
ghost use Rattle.program.specs.Faults.{failed_reads, failed_writes};
ghost use Rattle.program.specs.Told.{TextWritten};
ghost use Rattle.program.specs.Answered.{EntriesTaken, verdict, told_of, TellsPace, Offers, in_form, IsRunText, IsAnswer, Answered};

use crate::fault::{Ending, RunFault};
use crate::notes::Notes;
use command_line::Form;
use graph_heap::Reference;
use inspector::pages_needed::pace_report;
use inspector::{Layout, Log, cycles_text};
use pictures::run_data;
use plans::{LiveMeter, plans_data, run_plans};
use size_classes::Config;
use sizing::{Measured, Meter};
use std::alloc::{AllocError, Global};
use trace::transcripts::{Checked, check_entries};
use trace::{PlayFault, Sink, Source, survey_run, write_all};
use viewer::{FOOT, HEAD};

/// A question about an input.
#[derive(Clone, Copy)]
pub enum Question {
    /// How many entries does a history have, or which is the first wrong one?
    History,
    /// Which cycles did the run of a trace have? The answer has a line for each.
    Cycles(Layout),
    /// Which pace does a trace have, and how many pages suffice for it? If those of the configuration suffice, no reply
    /// of this run was the refusal for lack of space, nor is any reply of a run at this pace.
    Pace,
    /// By which plans does a heap pace itself, if live objects have as many words of blocks as they had at most in the
    /// run of a trace?
    Plan,
    /// How did the run of a trace go? The answer is its data in this form, with the plans for this many live words.
    Run(Form, Option<u64>),
}

/// A text to write, and how the run then ends.
#[derive(Drop)]
pub struct Answer {
    text: String,
    ending: Ending,
}

/// Checks the entries of a history from the opening graph heap, and notes the first wrong one.
fn check<S: Source>(
    alloc: Global,
    config: &Config,
    source: &mut S,
    notes: &mut Notes,
) -> Result<Checked, PlayFault>
    ensures checked { EntriesTaken config.now (given_by S.given S.ended source.old source.new) result }
    ensures reads { S.failures source.new ≡ S.failures source.old + reads_failed result }
    ensures input { reads_failed result ≡ 0 → Stays (S.input source.old) (S.input source.new) }
{
    let mut reference = Reference::new(alloc, &config.limits())?;
    let checked = check_entries(source, &mut reference);
    if let Ok(Checked::Wrong(number)) = checked {
        notes.keep_wrong(number, reference);
    }
    checked
}

/// Returns the line that reports on a checked history.
fn history_line(alloc: Global, checked: Checked) -> Result<String, AllocError>
    ensures { IfOk result (λ line. string_bytes line ≡ told_of checked) }
{
    match checked {
        Checked::Good(entries) => format!(in alloc; "ok {entries}\n"),
        Checked::Wrong(number) => format!(in alloc; "wrong at line {number}\n"),
    }
}

/// Returns how a run ends that checked a history: done, or in a wrong reply.
fn ending_of(checked: Checked) -> Ending
    ensures { result ≡ verdict checked }
{
    match checked {
        Checked::Good(_) => Ending::Done,
        Checked::Wrong(_) => Ending::WrongReply,
    }
}

/// Returns the lines of the pace of a trace.
fn pace_text(alloc: Global, config: &Config, measured: &Measured) -> Result<String, AllocError>
    ensures { IfOk result (λ text. TellsPace config.now measured.now (string_bytes text)) }
{
    let slow = measured.slowest(config);
    pace_report(alloc, &slow, &measured.pace)
}

/// Returns the data of a run in a form: alone, or in the page that shows them.
fn in_form(alloc: Global, form: Form, plans: &str, run: &str) -> Result<String, AllocError>
    ensures { IfOk result (λ text. string_bytes text ≡ in_form form plans.now run.now) }
{
    let end = "\"format\":\"metronome heap\",\"version\":1}\n";
    match form {
        Form::Page => [HEAD, "{\n", plans, run, end, FOOT].concat(alloc),
        Form::Data => ["{\n", plans, run, end].concat(alloc),
    }
}

/// Returns the data of a run in a form, with the plans for this many live words.
fn run_text(
    alloc: Global,
    config: &Config,
    run: &str,
    form: Form,
    live: Option<u64>,
) -> Result<String, AllocError>
    ensures { IfOk result (λ text. IsRunText form live config.now run.now (string_bytes text)) }
{
    let plans = plans_data(alloc, config, live)?;
    in_form(alloc, form, plans.as_str(), run)
}

/// Returns the answer with this text, or NoMemory if memory for the text was refused.
fn offer(text: Result<String, AllocError>, ending: Ending) -> Result<Answer, PlayFault>
    ensures { Offers text ending result }
{
    match text {
        Ok(text) => Ok(Answer { text, ending }),
        Err(_) => Err(PlayFault::NoMemory),
    }
}

/// Answers a question about an input.
fn answer_to<S: Source>(
    alloc: Global,
    config: &Config,
    source: &mut S,
    question: Question,
    notes: &mut Notes,
) -> Result<Answer, PlayFault>
    ensures answer { IsAnswer question config.now (given_by S.given S.ended source.old source.new) result }
    ensures reads { S.failures source.new ≡ S.failures source.old + reads_failed result }
    ensures input { reads_failed result ≡ 0 → Stays (S.input source.old) (S.input source.new) }
{
    match question {
        Question::History => {
            let checked = check(alloc, config, source, notes)?;
            offer(history_line(alloc, checked), ending_of(checked))
        }
        Question::Cycles(layout) => {
            let cycles = survey_run::<Log, S>(alloc, config, source)?;
            offer(
                cycles_text(alloc, cycles.items.as_slice(), layout),
                Ending::Done,
            )
        }
        Question::Pace => {
            let measured = survey_run::<Meter, S>(alloc, config, source)?;
            offer(pace_text(alloc, config, &measured), Ending::Done)
        }
        Question::Plan => {
            let live = survey_run::<LiveMeter, S>(alloc, config, source)?;
            offer(run_plans(alloc, config, &live), Ending::Done)
        }
        Question::Run(form, live) => {
            let run = run_data(alloc, config, source)?;
            offer(
                run_text(alloc, config, run.as_str(), form, live),
                Ending::Done,
            )
        }
    }
}

/// Writes an answer.
fn write_answer<K: Sink>(answer: &Answer, sink: &mut K) -> Result<Ending, RunFault>
    ensures written { TextWritten answer.now.ending (string_bytes answer.now.text)
        (taken_by K.taken K.sent sink.old sink.new) result }
    ensures reads { failed_reads result ≡ 0 }
    ensures writes { K.failures sink.new ≡ K.failures sink.old + failed_writes result }
{
    write_all(sink, answer.text.as_bytes())?;
    Ok(answer.ending)
}

/// Answers a question about an input, and writes the answer.
pub fn answer_job<S: Source, K: Sink>(
    alloc: Global,
    config: &Config,
    source: &mut S,
    sink: &mut K,
    question: Question,
    notes: &mut Notes,
) -> Result<Ending, RunFault>
    ensures done { Answered question config.now (given_by S.given S.ended source.old source.new)
        (taken_by K.taken K.sent sink.old sink.new) result }
    ensures reads { S.failures source.new ≡ S.failures source.old + failed_reads result }
    ensures input { failed_reads result ≡ 0 → Stays (S.input source.old) (S.input source.new) }
    ensures writes { K.failures sink.new ≡ K.failures sink.old + failed_writes result }
{
    let answer = answer_to(alloc, config, source, question, notes)?;
    write_answer(&answer, sink)
}
