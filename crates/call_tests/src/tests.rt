//! The settings and commands that the tests share.
use graph_heap::{Command, Shape};
use machine::Event;
use size_classes::{Config, Settings};
use std::process::Abort;

mod drawn;
mod heaps;
mod lists;
mod meeting;
mod memory;
mod pacing;
mod players;
mod refusing;
mod servers;
mod slow_heap;

/// A page.
const ONE_PAGE: Settings = Settings {
    slots: 9,
    ..Settings::DEFAULTS
};

/// Four pages, for two mutators.
const FOUR_PAGES: Settings = Settings {
    pages: 4,
    mutators: 2,
    slots: 4,
    statics: 1,
    live: 2,
    ..Settings::DEFAULTS
};

/// 512 roots: two quanta of 256 units scan them.
const MANY_SLOTS: Settings = Settings {
    slots: 256,
    statics: 0,
    ..FOUR_PAGES
};

/// Few identities, so that an object may be refused for want of one.
const TWO_IDENTITIES: Settings = Settings {
    identities: 2,
    ..FOUR_PAGES
};

/// Commands with many refusals among their replies.
const COMMANDS: &str =
    "2 clear 0\n0 clear 4\n0 load 0 1 0\n0 new 0 refs 2\n0 get 0 0\n0 load 1 0 2\n\
    0 loadstatic 1 1\n0 new 1 plain 200 53\n0 new 1 words 1\n0 put 1 0 18446744073709551615\n0 casput 1 0 5 6\n\
    0 casput 1 0 18446744073709551615 6\n0 get 1 0\n0 new 2 words 1\n0 store 1 0 0\n0 cas 0 1 0 0\n0 cas 0 1 2 0\n\
    0 load 2 0 1\n";

/// Their replies.
const REPLIES: &str =
    "refused 1\nrefused 1\nrefused 2\nmade 1\nrefused 4\nrefused 3\nrefused 8\nrefused 5\n\
    made 2\ndone\nkeptword 18446744073709551615\nstored\nword 6\nrefused 6\nrefused 4\nkept 0\nstored\nref 1\n";

/// Returns the configuration of settings.
fn config_of(rt: &impl Abort, settings: &Settings) -> Config {
    let Ok(config) = Config::check(settings) else {
        panic!(rt; "the settings are good");
    };
    config
}

/// Returns a request for a plain object.
fn plain(dst: u32, refs: u32, words: u32) -> Command {
    let shape = Shape::Plain { refs, words };
    Command::New { dst, shape }
}

/// Returns a request for an array of words.
fn words(dst: u32, cells: u32) -> Command {
    Command::New {
        dst,
        shape: Shape::WordArray(cells),
    }
}

/// Returns a command of mutator 0.
fn called(command: Command) -> Event {
    Event::Command {
        mutator: 0,
        command,
    }
}
