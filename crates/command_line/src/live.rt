//! The words of `plan`: the program for which a heap is planned. Its live data is a number of words, or objects.
ghost use Rattle.std.specs.Prelude.{◌≡◌, IfOk, codes, map, option_map};
ghost use Rattle.clap.specs.Words.{found_of, rows_of};
ghost use Rattle.command_line.specs.Job.{IsInRange, MayBeLive, words_of};
ghost use Rattle.command_line.specs.Words.{Asks, IsLiveData};

use crate::classes::classes_said;
use crate::fault::Refusal;
use crate::job::{Job, LiveData, Program, Words};
use crate::pairs::{asks_of, objects_of};
use crate::words::{long_number, refused};
use clap::ArgMatches;
use std::alloc::Global;

/// Returns the live data that is said, in words or in objects.
fn live_said(
    alloc: Global,
    words: Option<u64>,
    objects: Option<&[&str]>,
) -> Result<LiveData, Refusal>
    ensures range { IfOk result MayBeLive }
    ensures said { IfOk result (IsLiveData words (option_map (λ said. map (λ word. word.now) said.now) objects.entry)) }
{
    match (words, objects) {
        (Some(words), None) => Ok(LiveData::Words(words)),
        (None, Some(said)) => {
            let groups = objects_of(alloc, said)?;
            Ok(LiveData::Objects(groups))
        }
        (None, None) => {
            let why = "one of '--live <N>' and '--objects <AxB>...' is needed";
            Err(refused(alloc, why))
        }
        (Some(_), Some(_)) => {
            let why = "the argument '--live <N>' cannot be used with '--objects <AxB>...'";
            Err(refused(alloc, why))
        }
    }
}

/// Returns the job of `plan`.
pub(crate) fn plan<'a>(
    alloc: Global,
    words: Words<'a>,
    found: &ArgMatches,
) -> Result<Job<'a>, Refusal>
    ensures range { IfOk result IsInRange }
    ensures words { IfOk result (λ job. words_of job ≡ words.entry) }
    ensures asked { IfOk result (Asks (codes "plan") (rows_of (found_of found.now))) }
{
    let classes = classes_said(alloc, found.get_strs("classes"))?;
    let live = live_said(alloc, long_number(found, "live"), found.get_strs("objects"))?;
    let asks = asks_of(alloc, found.get_strs("asks").unwrap_or(&[]))?;
    let program = Program {
        live,
        // (clap has refused a word that is no such number)
        largest: long_number(found, "largest").unwrap_or(0),
        classes,
        asks,
    };
    Ok(Job::Plan { words, program })
}
