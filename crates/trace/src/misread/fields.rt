//! The wrong field of a text, and the values that it may have.
use crate::misread::rows::{COMMANDS, EVENTS, Example, FORMS, Field, count_right};
use crate::quoted::Quoted;
use std::fmt;

/// A part of a line that has a form.
#[derive(Clone, Copy, Debug, PartialEq, Eq)]
pub(crate) enum Part {
    /// A line of a trace.
    Event,
    /// A line of scripts.
    Command,
    /// The text of an entry before its arrow.
    EntryCommand,
    /// The text of an entry after its arrow.
    Reply,
}

impl Part {
    /// Returns the forms that it may have.
    fn forms(self) -> &'static [&'static [Field]] {
        match self {
            Part::Event => &FORMS[..EVENTS],
            Part::Command | Part::EntryCommand => &FORMS[..COMMANDS],
            Part::Reply => &FORMS[EVENTS..],
        }
    }

    /// Returns where in a line its fields stand.
    fn place(self) -> &'static str {
        match self {
            Part::Event | Part::Command => "",
            Part::EntryCommand => " of its command",
            Part::Reply => " of its reply",
        }
    }
}

/// A text that can't be read as its part of a line. All its bytes are printable, and its fields are separated by one
/// blank. Its text form says which field is wrong, and which values the field may have.
#[derive(Clone, Copy)]
pub(crate) struct WrongFields<'a> {
    pub(crate) part: Part,
    pub(crate) text: &'a str,
}

impl WrongFields<'_> {
    /// Returns the first form of which the most fields of the text are right, and how many these are.
    fn nearest(&self) -> (&'static [Field], usize) {
        let (mut nearest, mut right): (&'static [Field], usize) = (&[], 0);
        for form in self.part.forms() {
            let count = count_right(form, self.text);
            if count > right || nearest.is_empty() {
                nearest = *form;
                right = count;
            }
        }
        (nearest, right)
    }
}

impl fmt::Display for WrongFields<'_> {
    fn fmt<W: fmt::Write>(&self, f: &mut fmt::Formatter<W>) -> fmt::Result {
        let (form, right) = self.nearest();
        let (of, number) = (self.part.place(), right.saturating_add(1));
        let choices = Choices {
            forms: self.part.forms(),
            begun: form,
            place: right,
        };
        match (form.get(right), self.text.split(' ').nth(right)) {
            (None, None) => f.write_str("it is of version 2, and the first line isn't 'version 2'"),
            (Some(Field::Word(_)), None) => {
                write!(f, "field {number}{of} is missing, and may be {choices}")
            }
            (Some(_), Some(field)) => {
                let quoted = Quoted(field.as_bytes());
                write!(f, "field {number}{of} is {quoted}, and may be {choices}")
            }
            (None, Some(_)) | (Some(_), None) => {
                let (count, other) = (self.text.split(' ').count(), form.len());
                let example = Example(form);
                write!(
                    f,
                    "the number of fields{of} is {count}, and in '{example}' it is {other}"
                )
            }
        }
    }
}

/// The values that the field at a place may have, in forms that agree with this one before the place. Forms with the
/// same field there stand next to one another.
#[derive(Clone, Copy)]
struct Choices {
    forms: &'static [&'static [Field]],
    begun: &'static [Field],
    place: usize,
}

impl fmt::Display for Choices {
    fn fmt<W: fmt::Write>(&self, f: &mut fmt::Formatter<W>) -> fmt::Result {
        let begun = self.begun.get(..self.place);
        let mut last = None;
        for form in self.forms {
            let field = form.get(self.place);
            if field == last || form.get(..self.place) != begun {
                continue;
            }
            f.write_str(if last.is_some() { ", " } else { "" })?;
            let example = Example(form);
            match field {
                Some(Field::Word(word)) => f.write_str(word)?,
                Some(Field::Number(least, greatest, _)) => {
                    write!(f, "a number from {least} to {greatest} as in '{example}'")?;
                }
                Some(Field::Refusal) | None => write!(f, "a number as in '{example}'")?,
            }
            last = field;
        }
        Ok(())
    }
}
