//! The place word: the length of the running history, which is read without waiting.
ghost use Rattle.std.specs.Prelude.{◌≡◌, ◌+◌, ◌==◌, ◌<◌, ◌≤◌, ◌^◌, ◌++◌, ◌∷◌, [], length, MatchBool};
ghost use mathlib.Core.List.{IsPrefix};
ghost use Rattle.heap_server.specs.HistoryLength.{word_of, Commits};

use crate::naming::Naming;
use graph_heap::Entry;
use logbook::{Gain, Offer, Plain, Play, Rule, Seen, Start, Word};
use std::marker::{Model, PhantomData};

/// The rule of the place word: it is the length of the log of entries, and no more.
pub struct LengthRule;

impl Rule<Entry, u64> for LengthRule {
    ghost use Rattle.std.specs.Prelude.{[]};
    ghost use base.Fml.{ftrue};
    ghost use Rattle.heap_server.specs.HistoryLength.{IsLength};

    ghost holds = { λ cells log. IsLength cells log };

    ghost first = { [] };

    ghost hinted = { λ n log. Unit {0} };

    ghost shows = { λ log. [] };

    ghost keeps = { λ names log. ftrue };

    ghost moves = { λ ask before after answer. Unit {0} };
}

/// Nothing is traded in a step.
pub struct NoGain;

impl Gain<Entry, u64> for NoGain {
    ghost use base.Fml.{ftrue};

    ghost after = { λ names about answer. ftrue };
}

/// The log at the start.
pub struct EmptyLog;

impl logbook::Opening<u64, Entry> for EmptyLog {
    ghost use Rattle.std.specs.Prelude.{[]};

    ghost log = { λ count about. [] };
}

/// A step that loads the word.
pub struct LoadStep;

impl Play<Entry, u64> for LoadStep {
    ghost use Rattle.heap_server.specs.HistoryLength.{Loads};

    ghost then = { Loads };
}

/// A step that appends an entry to the log, if its length is still the one that was loaded.
pub struct AppendStep;

impl Play<Entry, u64> for AppendStep {
    ghost use Rattle.heap_server.specs.HistoryLength.{Appends};

    ghost then = { Appends };
}

impl Plain<u64, Entry, u64> for LoadStep {
    ghost use Rattle.std.specs.Prelude.{None};
    ghost use Rattle.graph_heap.specs.declared.command.Command.TheVariants as commands;
    ghost use Rattle.graph_heap.specs.declared.command.Reply.TheVariants as replies;

    ghost ask = { λ n. record { mutator = n; command = commands.Clear n; reply = replies.Done } };

    ghost state = { λ n. None };
}

impl Plain<Entry, Entry, u64> for AppendStep {
    ghost use Rattle.std.specs.Prelude.{None};

    ghost ask = { λ entry. entry };

    ghost state = { λ entry. None };
}

/// A place word with an empty log, which has no name yet.
#[derive(Drop)]
pub struct Opened {
    word: Word<Entry, u64, LengthRule>,
    seen: Seen<Entry, u64, LengthRule>,
    ghost empty: { seen.log ≡ [] },
    ghost word_is: { word ≡ word_of seen.book },
}

impl Opened {
    /// Returns a word that is 0.
    pub fn new() -> Opened {
        let (seen, mut pens) = Seen::open_row::<u64, EmptyLog>(&0, Start::alone(), 1);
        let mut pen = pens.take();
        Opened {
            word: Word::tracked(0, &mut pen),
            seen,
        }
    }

    /// Returns the word under a name, and a front that has seen nothing.
    pub fn named<N: Naming>(self) -> (HistoryLength<N>, Front<N>)
        requires { self.seen.book ≡ N.names.book }
        ensures { result.1 ≡ [] }
    {
        let Opened { word, seen } = self;
        (
            HistoryLength {
                word,
                of: PhantomData,
            },
            Front {
                seen,
                of: PhantomData,
            },
        )
    }
}

/// The word that all threads share: the length of the running history.
#[derive(Drop)]
pub struct HistoryLength<N: Naming> {
    word: Word<Entry, u64, LengthRule>,
    of: PhantomData<N>,
    ghost word_is: { word ≡ word_of N.names.book },
}

/// A beginning of the running history that was seen. It takes no bytes: contracts see its entries.
#[derive(Drop)]
pub struct Front<N: Naming> {
    seen: Seen<Entry, u64, LengthRule>,
    of: PhantomData<N>,
}

impl<N: Naming> Model for Front<N> {
    ghost use Rattle.std.specs.Prelude.{◌≡◌, List};
    ghost use Rattle.graph_heap.specs.declared.command.Entry.{Entry};

    ghost Value = { List Entry };

    ghost view = { λ f. f.seen.log };

    ghost invariant = { λ f. f.seen.book ≡ N.names.book };
}

impl<N: Naming> Front<N> {
    /// Returns a copy of the front.
    pub fn again(&self) -> Front<N>
        ensures { result ≡ self.now }
    {
        Front {
            seen: self.seen.again(),
            of: PhantomData,
        }
    }

    /// Learns the part that another front has seen: afterwards it has seen both parts.
    pub fn learn(&mut self, other: &Front<N>)
        ensures this { IsPrefix self.old self.new }
        ensures that { IsPrefix other.now self.new }
    {
        self.seen.learn(&other.seen);
    }

    /// Loads the length of the log, which is then seen.
    pub fn observe(&mut self, place: &HistoryLength<N>) -> u64
        ensures found { result ≡ length self.new }
        ensures grows { IsPrefix self.old self.new }
    {
        let mut offer: Offer<Entry, u64, LengthRule, NoGain> = self
            .seen
            .plain::<NoGain, u64, LoadStep>(&0);
        place
            .word
            .load::<LoadStep, NoGain>(&mut self.seen, &mut offer)
    }

    /// Adds the entry by one exchange, if the log has the length given, and returns the length found.
    pub(crate) fn add(&mut self, place: &HistoryLength<N>, at: u64, next: &Entry) -> u64
        requires room { at + 1 < 2 ^ 64 }
        requires known { at ≤ length self.old }
        ensures grows { IsPrefix self.old self.new }
        ensures added { MatchBool (result == at) ((self.new ≡ self.old ++ next.now ∷ []) × (length self.old ≡ at))
            (result ≡ length self.new) }
    {
        let mut offer: Offer<Entry, u64, LengthRule, NoGain> = self
            .seen
            .plain::<NoGain, Entry, AppendStep>(next);
        let mut pen = self.seen.no_pen();
        place
            .word
            .compare_exchange::<AppendStep, NoGain>(
                at,
                at + 1,
                &mut self.seen,
                &mut offer,
                &mut pen,
            )
    }

    /// Adds the entry by one exchange, if this front, of the length given, is the whole log. Both fronts then know the
    /// log; or the log is longer, and the other front knows it.
    pub(crate) fn commit(
        &mut self,
        place: &HistoryLength<N>,
        mine: &mut Front<N>,
        at: u64,
        next: &Entry,
    ) -> u64
        requires room { at + 1 < 2 ^ 64 }
        requires whole { at ≡ length self.old }
        ensures grows { IsPrefix mine.old mine.new }
        ensures done { Commits self.old mine.old next.now result self.new mine.new }
    {
        let mut both = self.again();
        both.learn(mine);
        let found = both.add(place, at, next);
        *mine = both.again();
        if found == at {
            *self = both;
        }
        found
    }
}
