//! How many commands of a history were refused, and for which reasons.
ghost use Rattle.std.specs.Prelude.{◌≡◌, count_by};
ghost use Rattle.pictures.specs.Refused.{is_refused, refusals_of, makes};

use graph_heap::{Entry, Reply};

/// How many commands were refused for a reason.
#[derive(Clone, Copy, Debug, PartialEq, Eq)]
pub struct Refused {
    pub number: u8,
    pub count: u64,
}

/// Returns whether a command was refused for the reason of this number.
fn is_refused(entry: &Entry, number: u8) -> bool
    ensures { result ≡ is_refused number entry.now }
{
    match entry.reply {
        Reply::Refused(why) => why.number() == number,
        _ => false,
    }
}

/// Returns how many commands of a history were refused for the reason of this number.
fn count_of(history: &[Entry], number: u8) -> Refused
    ensures { result ≡ record { number = number; count = count_by (is_refused number) history.now } }
{
    let mut count = 0;
    for entry in history {
        count += u64::from(is_refused(entry, number));
    }
    Refused { number, count }
}

/// Returns how many commands of a history were refused for each of the reasons, in the order of their numbers.
pub(crate) fn refusals(history: &[Entry]) -> [Refused; 10]
    ensures { result ≡ refusals_of history.now }
{
    [
        count_of(history, 1),
        count_of(history, 2),
        count_of(history, 3),
        count_of(history, 4),
        count_of(history, 5),
        count_of(history, 6),
        count_of(history, 7),
        count_of(history, 8),
        count_of(history, 14),
        count_of(history, 15),
    ]
}

/// Returns how many objects the entries of a history made.
pub(crate) fn made(history: &[Entry]) -> u64
    ensures { result ≡ count_by makes history.now }
{
    let mut count = 0;
    for entry in history {
        count += u64::from(matches!(entry.reply, Reply::Made(_)));
    }
    count
}
