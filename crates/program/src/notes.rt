//! The notes that a run keeps to explain its fault.
ghost use Rattle.std.specs.Prelude.{◌≡◌, Some, None, true, false, is_some, if◌then◌else◌, IsSome, IsNone};

use crate::tail::Tail;
use command_line::Words;
use graph_heap::Reference;
use size_classes::Config;
use std::alloc::Global;
use std::io;

/// The first wrong entry of a history.
#[derive(Drop)]
pub struct WrongEntry {
    /// The number of its line, counted from 1.
    pub number: u64,
    /// The graph heap after the entries before it.
    pub before: Reference,
}

/// The parts of a run's input that may explain its fault. They are kept only if the words ask for explanations.
#[derive(Drop)]
pub struct Notes<'a> {
    /// The words, if they ask for that.
    pub words: Option<Words<'a>>,
    /// The bytes of the configuration that was read last.
    pub document: Option<Vec<u8>>,
    /// The configuration.
    pub config: Option<Config>,
    /// Whether all configurations are read that the words name.
    pub are_configs_read: bool,
    /// The last bytes that were read of the other file.
    pub text: Option<Tail>,
    /// The system's error for a file that can't be opened, or for a read that failed.
    pub error: Option<io::Error>,
    pub wrong: Option<WrongEntry>,
}

impl<'a> Notes<'a> {
    /// Returns empty notes, for words that ask for no explanation.
    pub fn new() -> Notes<'a>
        ensures { result.words ≡ None }
    {
        Notes {
            words: None,
            document: None,
            config: None,
            are_configs_read: false,
            text: None,
            error: None,
            wrong: None,
        }
    }

    /// Keeps the words, if they ask for explanations.
    pub fn ask(&mut self, words: Words<'a>)
        ensures asked { words.entry.explain ≡ true → IsSome self.new.words }
        ensures unasked { words.entry.explain ≡ false → self.new ≡ self.old }
    {
        if words.explain {
            self.words = Some(words);
        }
    }

    /// Keeps the bytes of a configuration, if the words ask for explanations.
    pub fn keep_document(&mut self, bytes: Vec<u8>)
        ensures asked { IsSome self.old.words → self.new ≡ record self.old { document = Some bytes } }
        ensures unasked { IsNone self.old.words → self.new ≡ self.old }
    {
        if self.words.is_some() {
            self.document = Some(bytes);
        }
    }

    /// Returns an empty tail for the text of a source, if the words ask for explanations and there is memory for it.
    pub fn tail(&self, alloc: Global) -> Option<Tail>
        ensures asked { IsNone self.now.words → result ≡ None }
    {
        match self.words {
            Some(_) => Tail::new(alloc),
            None => None,
        }
    }

    /// Keeps the end of a source's text, and the error of a failed read. A text that is already kept stays.
    pub fn keep_end(&mut self, tail: Option<Tail>, error: Option<io::Error>)
        ensures { self.new ≡ record self.old { error = error; text = if is_some self.old.text then self.old.text else tail } }
    {
        self.error = error;
        if self.text.is_none() {
            self.text = tail;
        }
    }

    /// Keeps a whole text, if the words ask for explanations.
    pub fn keep_text(&mut self, text: Vec<u8>)
        ensures asked { IsSome self.old.words
            → self.new ≡ record self.old { text = Some (record { bytes = text; before = 0; version = None }) } }
        ensures unasked { IsNone self.old.words → self.new ≡ self.old }
    {
        if self.words.is_some() {
            self.text = Some(Tail::whole(text));
        }
    }

    /// Keeps the line number of a wrong entry and the graph heap before it, if the words ask for explanations.
    pub fn keep_wrong(&mut self, number: u64, before: Reference)
        ensures asked { IsSome self.old.words
            → self.new ≡ record self.old { wrong = Some (record { number = number; before = before }) } }
        ensures unasked { IsNone self.old.words → self.new ≡ self.old }
    {
        if self.words.is_some() {
            self.wrong = Some(WrongEntry { number, before });
        }
    }
}
