//! The forms of lines and of replies, a row of fields for each.
use crate::field::Spelled;
use crate::misread::rows::Field::{Number, Word};
use crate::replies::refusal;
use quanta::CLOCK_LIMIT;
use size_classes::{LEAST_BUDGET, MOST_BUDGET};
use std::fmt;

/// The values that a field of a form may have.
#[derive(Clone, Copy, Debug, PartialEq, Eq)]
pub(crate) enum Field {
    Word(&'static str),
    /// A number in this range, with an example.
    Number(u64, u64, u64),
    /// The number of a refusal.
    Refusal,
}

/// A number of 32 bits, and one of 64.
const N32: Field = Number(0, u32::MAX as u64, 0);

const N64: Field = Number(0, u64::MAX, 0);

/// The identity of an object.
const ID: Field = Number(0, u64::MAX, 1);

const UNITS: Field = Number(LEAST_BUDGET as u64, MOST_BUDGET as u64, LEAST_BUDGET as u64);

const TICKS: Field = Number(1, CLOCK_LIMIT, 1);

/// The number of forms of commands, and that of lines of a trace.
pub(crate) const COMMANDS: usize = 18;

pub(crate) const EVENTS: usize = 21;

/// The forms of commands, then those of lines for the collector, then those of replies.
pub(crate) const FORMS: [&[Field]; 34] = [
    &[N32, Word("new"), N32, Word("plain"), N32, N32],
    &[N32, Word("new"), N32, Word("refs"), N32],
    &[N32, Word("new"), N32, Word("words"), N32],
    &[N32, Word("load"), N32, N32, N32],
    &[N32, Word("store"), N32, N32, N32],
    &[N32, Word("cas"), N32, N32, N32, N32],
    &[N32, Word("get"), N32, N32],
    &[N32, Word("put"), N32, N32, N64],
    &[N32, Word("casput"), N32, N32, N64, N64],
    &[N32, Word("copy"), N32, N32],
    &[N32, Word("clear"), N32],
    &[N32, Word("loadstatic"), N32, N32],
    &[N32, Word("storestatic"), N32, N32],
    &[N32, Word("casstatic"), N32, N32, N32],
    &[N32, Word("same"), N32, N32],
    &[N32, Word("describe"), N32],
    &[N32, Word("join")],
    &[N32, Word("leave")],
    &[Word("begin")],
    &[Word("quantum"), UNITS],
    &[Word("tick"), TICKS],
    &[Word("made"), ID],
    &[Word("ref"), N64],
    &[Word("word"), N64],
    &[Word("done")],
    &[Word("stored")],
    &[Word("kept"), N64],
    &[Word("keptword"), N64],
    &[Word("is"), Word("yes")],
    &[Word("is"), Word("no")],
    &[Word("described"), ID, Word("plain"), N32, N32],
    &[Word("described"), ID, Word("refs"), N32],
    &[Word("described"), ID, Word("words"), N32],
    &[Word("refused"), Field::Refusal],
];

impl Field {
    /// Returns whether the field may be this text.
    fn admits(&self, text: &str) -> bool {
        match self {
            Word(word) => *word == text,
            Number(least, greatest, _) => {
                u64::read(text.as_bytes()).is_some_and(|n| *least <= n && n <= *greatest)
            }
            Field::Refusal => u64::read(text.as_bytes()).is_some_and(|n| refusal(n).is_some()),
        }
    }
}

/// Returns how many fields of a text are as a form has them, from the first on.
pub(crate) fn count_right(form: &[Field], text: &str) -> usize {
    form.iter()
        .zip(text.split(' '))
        .take_while(|(field, found)| field.admits(found))
        .count()
}

/// A line of a form.
#[derive(Clone, Copy)]
pub(crate) struct Example(pub(crate) &'static [Field]);

impl fmt::Display for Example {
    fn fmt<W: fmt::Write>(&self, f: &mut fmt::Formatter<W>) -> fmt::Result {
        let mut between = "";
        for field in self.0 {
            f.write_str(between)?;
            match field {
                Word(word) => f.write_str(word)?,
                Number(_, _, example) => write!(f, "{example}")?,
                Field::Refusal => f.write_str("1")?,
            }
            between = " ";
        }
        Ok(())
    }
}
