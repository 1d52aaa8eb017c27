//! Schedules, refusals, faults, histories and settings.
use super::{A, F, Row};

/// The rows.
pub const ROWS: &[Row] = &[
    // Intervals of a schedule.
    Row {
        words: &["metronome", "mmu", "config", "text", "22", "15", "10", "67"],
        config: F,
        text: "begin\ntick 66\n",
        output: "window 22 least 12 bound 12 permille 545\nwindow 15 least 5 bound 5 permille 333\n\
            window 10 least 0 bound 0 permille 0\nwindow 67 none\n",
        errors: "",
        status: 0,
    },
    // Refusals.
    Row {
        words: &["metronome", "play", "config", "text"],
        config: "pages = 4\nmutators = 2\nslots = 4\nstatics = 1\nidentities = 2\n",
        text: "2 clear 0\n0 clear 4\n0 load 0 1 0\n0 new 0 refs 2\n0 get 0 0\n0 load 1 0 2\n\
            0 loadstatic 1 1\n0 new 1 plain 200 53\n0 new 1 words 1\n\
            0 put 1 0 18446744073709551615\n0 casput 1 0 5 6\n\
            0 casput 1 0 18446744073709551615 6\n0 get 1 0\n0 new 2 words 1\n0 store 1 0 0\n\
            0 cas 0 1 0 0\n0 cas 0 1 2 0\n0 load 2 0 1\n",
        output: "refused 1\nrefused 1\nrefused 2\nmade 1\nrefused 4\nrefused 3\nrefused 8\nrefused 5\n\
            made 2\ndone\nkeptword 18446744073709551615\nstored\nword 6\nrefused 6\nrefused 4\n\
            kept 0\nstored\nref 1\n",
        errors: "",
        status: 0,
    },
    // A line has no end.
    Row {
        words: &["metronome", "play", "config", "text"],
        config: A,
        text: "0 new 0 plain 0 0\n0 describe 0",
        output: "made 1\n",
        errors: "metronome: line 2: line not ended\n",
        status: 4,
    },
    // A line with two blanks.
    Row {
        words: &["metronome", "play", "config", "text"],
        config: A,
        text: "0 new 0 plain 0 0\n0  describe 0\n",
        output: "made 1\n",
        errors: "metronome: line 2: not an event\n",
        status: 4,
    },
    // The trace comes from standard input.
    Row {
        words: &["metronome", "play", "config", "-"],
        config: A,
        text: "0 new 0 plain 0 0\n0 describe 0\n",
        output: "made 1\ndescribed 1 plain 0 0\n",
        errors: "",
        status: 0,
    },
    // A history is right.
    Row {
        words: &["metronome", "check", "config", "text"],
        config: A,
        text: "0 new 0 plain 0 0 => made 1\n0 new 1 plain 0 0 => refused 7\n\
            0 new 1 plain 0 0 => made 2\n0 same 0 1 => is no\n",
        output: "ok 4\n",
        errors: "",
        status: 0,
    },
    // A history has a wrong reply.
    Row {
        words: &["metronome", "check", "config", "text"],
        config: A,
        text: "0 new 0 plain 0 0 => made 1\n0 new 1 plain 0 0 => refused 7\n\
            0 new 1 plain 0 0 => made 3\n0 same 0 1 => is no\n",
        output: "wrong at line 3\n",
        errors: "",
        status: 7,
    },
    // A configuration of 0 pages is refused.
    Row {
        words: &["metronome", "play", "config", "text"],
        config: "pages = 0\n",
        text: "",
        output: "",
        errors: "metronome: config: pages out of range\n",
        status: 3,
    },
    // A quantum of too few units.
    Row {
        words: &["metronome", "play", "config", "text"],
        config: "pages = 4\nmutators = 2\nslots = 4\nstatics = 1\ncollector_ticks = 1\n",
        text: "",
        output: "",
        errors: "metronome: config: budget out of range\n",
        status: 3,
    },
    // The report comes before the first line.
    Row {
        words: &["metronome", "inspect", "config", "text", "--after", "0"],
        config: A,
        text: "0 new 0 plain 0 0\n0 describe 0\n",
        output: "phase idle\nunits 0\npages 4 free 4\nroots 9 used 0\nobjects 0 parts 0 old 0\n",
        errors: "",
        status: 0,
    },
    // A script of a mutator that isn't there.
    Row {
        words: &["metronome", "threads", "config", "text"],
        config: A,
        text: "2 clear 0\n",
        output: "",
        errors: "metronome: line 1: no such mutator\n",
        status: 4,
    },
    // A setting that is no number.
    Row {
        words: &["metronome", "play", "config", "text"],
        config: "pages = \"4\"\n",
        text: "",
        output: "",
        errors: "metronome: config: pages not a whole number\n",
        status: 3,
    },
    // A setting that is unknown.
    Row {
        words: &["metronome", "play", "config", "text"],
        config: "pages = 4\ncolour = 1\n",
        text: "",
        output: "",
        errors: "metronome: config: unknown key\n",
        status: 3,
    },
    // A setting that is missing.
    Row {
        words: &["metronome", "play", "config", "text"],
        config: "pages = 4\n",
        text: "",
        output: "",
        errors: "metronome: config: mutators missing\n",
        status: 3,
    },
    // A file that isn't there.
    Row {
        words: &["metronome", "play", "config", "none"],
        config: A,
        text: "",
        output: "",
        errors: "metronome: cannot read\n",
        status: 5,
    },
];
