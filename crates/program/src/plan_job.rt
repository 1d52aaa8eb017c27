//! Writes the plans by which a heap paces itself.
ghost use Rattle.std.specs.Prelude.{◌≡◌, ◌+◌};
ghost use Rattle.trace.specs.Streams.{taken_by};
ghost use Rattle.program.specs.Faults.{failed_reads, failed_writes, IsOfWords};
ghost use Rattle.program.specs.Plans.{ObjectsTold, PlansTold};

use crate::fault::{Ending, RunFault};
use crate::told::tell_text;
use command_line::{LiveData, Objects, Program};
use plans::{Needs, objects_report, plans_report, words_of_objects};
use size_classes::{Config, MOST_HEAP_PAGES, PAGE_WORDS};
use std::alloc::Global;
use trace::{PlayFault, Sink};

/// Returns the fault of a run with objects whose blocks have more than `most` words, as many as a heap may have.
fn too_many_words(alloc: Global, most: u64) -> RunFault
    ensures { IsOfWords result }
{
    let text = format!(in alloc;
        "error: invalid values for '--objects <AxB>...': the blocks of these objects take more than {most} words, the most of any heap\n\nFor more information, try '--help'."
    );
    match text {
        Ok(text) => RunFault::Words(text),
        Err(_) => RunFault::Text(PlayFault::NoMemory),
    }
}

/// Writes the plans for a program with some live objects, or refuses them if their blocks have more words than a heap may
/// have.
fn tell_objects<K: Sink>(
    alloc: Global,
    config: &Config,
    groups: &[Objects],
    program: &Program,
    sink: &mut K,
) -> Result<Ending, RunFault>
    ensures told { ObjectsTold groups.now program.now config.now (taken_by K.taken K.sent sink.old sink.new) result }
    ensures reads { failed_reads result ≡ 0 }
    ensures writes { K.failures sink.new ≡ K.failures sink.old + failed_writes result }
{
    let most = u64::from(MOST_HEAP_PAGES) * u64::from(PAGE_WORDS);
    if most < words_of_objects(groups) {
        return Err(too_many_words(alloc, most));
    }
    let (classes, asks) = (program.classes.as_deref(), program.asks.as_slice());
    let report = objects_report(alloc, config, groups, program.largest, classes, asks);
    tell_text(report, sink)
}

/// Writes the plans by which a heap paces itself for a program. They are the fewest pages with a plan, and the plan on some
/// numbers of pages, with the quanta for which the program waits if it asks for some words. For live objects also their
/// words are written, and the megabytes of the fewest pages.
pub fn plan_job<K: Sink>(
    alloc: Global,
    config: &Config,
    program: &Program,
    sink: &mut K,
) -> Result<Ending, RunFault>
    ensures told { PlansTold program.now config.now (taken_by K.taken K.sent sink.old sink.new) result }
    ensures reads { failed_reads result ≡ 0 }
    ensures writes { K.failures sink.new ≡ K.failures sink.old + failed_writes result }
{
    match &program.live {
        LiveData::Words(words) => {
            let needs = Needs {
                live: *words,
                largest: program.largest,
            };
            let (classes, asks) = (program.classes.as_deref(), program.asks.as_slice());
            tell_text(plans_report(alloc, config, needs, classes, asks), sink)
        }
        LiveData::Objects(groups) => tell_objects(alloc, config, groups.as_slice(), program, sink),
    }
}
