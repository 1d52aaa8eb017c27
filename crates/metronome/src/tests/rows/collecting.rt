//! A heap and its collector at work.
use super::{A, B, C, D, E, Row};

/// The rows.
pub const ROWS: &[Row] = &[
    // An empty trace.
    Row {
        words: &["metronome", "play", "config", "text"],
        config: A,
        text: "",
        output: "",
        errors: "",
        status: 0,
    },
    // The report of a new heap.
    Row {
        words: &["metronome", "inspect", "config", "text"],
        config: A,
        text: "",
        output: "phase idle\nunits 0\npages 4 free 4\nroots 9 used 0\nobjects 0 parts 0 old 0\n",
        errors: "",
        status: 0,
    },
    // An object without cells.
    Row {
        words: &["metronome", "play", "config", "text"],
        config: A,
        text: "0 new 0 plain 0 0\n0 describe 0\n",
        output: "made 1\ndescribed 1 plain 0 0\n",
        errors: "",
        status: 0,
    },
    // Its report.
    Row {
        words: &["metronome", "inspect", "config", "text"],
        config: A,
        text: "0 new 0 plain 0 0\n0 describe 0\n",
        output: "phase idle\nunits 0\npages 4 free 3\npage 0 size 4 held 1 of 512\nroots 9 used 1\n\
            objects 1 parts 1 old 0\n",
        errors: "",
        status: 0,
    },
    // An object of three parts.
    Row {
        words: &["metronome", "play", "config", "text"],
        config: A,
        text: "0 new 0 refs 253\n0 store 0 252 0\n0 load 1 0 252\n0 load 1 0 253\n",
        output: "made 1\ndone\nref 1\nrefused 3\n",
        errors: "",
        status: 0,
    },
    // Their report.
    Row {
        words: &["metronome", "inspect", "config", "text"],
        config: A,
        text: "0 new 0 refs 253\n0 store 0 252 0\n0 load 1 0 252\n0 load 1 0 253\n",
        output: "phase idle\nunits 0\npages 4 free 1\npage 0 size 6 held 1 of 341\n\
            page 1 size 256 held 1 of 8\npage 2 size 5 held 1 of 409\nroots 9 used 2\n\
            objects 1 parts 3 old 0\n",
        errors: "",
        status: 0,
    },
    // The largest object fits.
    Row {
        words: &["metronome", "play", "config", "text"],
        config: "pages = 32\nmutators = 2\nslots = 4\nstatics = 1\n",
        text: "0 new 0 words 63504\n0 new 1 words 4000001\n",
        output: "made 1\nrefused 5\n",
        errors: "",
        status: 0,
    },
    // It finds no room on a page less.
    Row {
        words: &["metronome", "play", "config", "text"],
        config: "pages = 31\nmutators = 2\nslots = 4\nstatics = 1\n",
        text: "0 new 0 words 63504\n",
        output: "refused 7\n",
        errors: "",
        status: 0,
    },
    // A full page.
    Row {
        words: &["metronome", "play", "config", "text"],
        config: B,
        text: "0 new 0 words 252\n0 new 1 words 252\n0 new 2 words 252\n0 new 3 words 252\n\
            0 new 4 words 252\n0 new 5 words 252\n0 new 6 words 252\n0 new 7 words 252\n\
            0 new 8 words 252\n0 describe 7\n0 describe 8\n",
        output: "made 1\nmade 2\nmade 3\nmade 4\nmade 5\nmade 6\nmade 7\nmade 8\nrefused 7\n\
            described 8 words 252\nrefused 2\n",
        errors: "",
        status: 0,
    },
    // A page of another class.
    Row {
        words: &["metronome", "play", "config", "text"],
        config: B,
        text: "0 new 0 plain 0 0\n0 new 1 plain 0 1\n",
        output: "made 1\nrefused 7\n",
        errors: "",
        status: 0,
    },
    // A cycle makes room.
    Row {
        words: &["metronome", "play", "config", "text"],
        config: B,
        text: "0 new 0 words 252\n0 new 1 words 252\n0 new 2 words 252\n0 new 3 words 252\n\
            0 new 4 words 252\n0 new 5 words 252\n0 new 6 words 252\n0 new 7 words 252\n\
            0 new 8 words 252\n0 describe 7\n0 describe 8\n0 clear 3\nbegin\nquantum 256\n\
            0 new 3 words 252\n",
        output: "made 1\nmade 2\nmade 3\nmade 4\nmade 5\nmade 6\nmade 7\nmade 8\nrefused 7\n\
            described 8 words 252\nrefused 2\ndone\nmade 9\n",
        errors: "",
        status: 0,
    },
    // The report has the units that the cycle spent.
    Row {
        words: &["metronome", "inspect", "config", "text"],
        config: B,
        text: "0 new 0 words 252\n0 new 1 words 252\n0 new 2 words 252\n0 new 3 words 252\n\
            0 new 4 words 252\n0 new 5 words 252\n0 new 6 words 252\n0 new 7 words 252\n\
            0 new 8 words 252\n0 describe 7\n0 describe 8\n0 clear 3\nbegin\nquantum 256\n\
            0 new 3 words 252\n",
        output: "phase idle\nunits 28\npages 1 free 0\npage 0 size 256 held 8 of 8\nroots 9 used 8\n\
            objects 8 parts 8 old 0\n",
        errors: "",
        status: 0,
    },
    // A reference that is overwritten while roots are scanned.
    Row {
        words: &["metronome", "play", "config", "text"],
        config: C,
        text: "0 new 0 plain 1 0\n0 new 1 plain 0 1\n0 put 1 0 77\n0 store 0 0 1\n0 clear 1\nbegin\n\
            quantum 256\n0 load 2 0 0\n0 store 0 0 5\nquantum 256\nquantum 256\nquantum 256\n\
            0 get 2 0\n",
        output: "made 1\nmade 2\ndone\ndone\ndone\nref 2\ndone\nword 77\n",
        errors: "",
        status: 0,
    },
    // A slot that is cleared before it is scanned.
    Row {
        words: &["metronome", "play", "config", "text"],
        config: C,
        text: "1 new 100 plain 0 1\n1 put 100 0 78\nbegin\nquantum 300\n1 copy 0 100\n1 clear 100\n\
            quantum 1000\n1 get 0 0\n",
        output: "made 1\ndone\ndone\ndone\nword 78\n",
        errors: "",
        status: 0,
    },
    // A ring that nothing reaches.
    Row {
        words: &["metronome", "inspect", "config", "text"],
        config: D,
        text: "0 new 0 plain 1 0\n0 new 1 plain 1 0\n0 store 0 0 1\n0 store 1 0 0\n0 clear 0\n\
            0 clear 1\nbegin\nquantum 1000\n",
        output: "phase idle\nunits 416\npages 2 free 2\nroots 2 used 0\nobjects 0 parts 0 old 0\n",
        errors: "",
        status: 0,
    },
    // A ring that was reached when the cycle began.
    Row {
        words: &["metronome", "inspect", "config", "text"],
        config: D,
        text: "0 new 0 plain 1 0\n0 new 1 plain 1 0\n0 store 0 0 1\n0 store 1 0 0\nbegin\n0 clear 0\n\
            0 clear 1\nquantum 1000\n",
        output: "phase idle\nunits 420\npages 2 free 1\npage 0 size 5 held 2 of 409\nroots 2 used 0\n\
            objects 2 parts 2 old 0\n",
        errors: "",
        status: 0,
    },
    // It goes with the next cycle.
    Row {
        words: &["metronome", "inspect", "config", "text"],
        config: D,
        text: "0 new 0 plain 1 0\n0 new 1 plain 1 0\n0 store 0 0 1\n0 store 1 0 0\nbegin\n0 clear 0\n\
            0 clear 1\nquantum 1000\nbegin\nquantum 1000\n",
        output: "phase idle\nunits 416\npages 2 free 2\nroots 2 used 0\nobjects 0 parts 0 old 0\n",
        errors: "",
        status: 0,
    },
    // An object that is made while its page is swept.
    Row {
        words: &["metronome", "play", "config", "text"],
        config: "pages = 1\nmutators = 1\nslots = 2\n",
        text: "0 new 0 plain 0 1\n0 new 1 plain 0 1\n0 clear 0\nbegin\nquantum 256\n\
            0 new 0 plain 0 1\n0 put 0 0 9\nquantum 256\n0 get 0 0\n",
        output: "made 1\nmade 2\ndone\nmade 3\ndone\nword 9\n",
        errors: "",
        status: 0,
    },
    // Its report.
    Row {
        words: &["metronome", "inspect", "config", "text"],
        config: "pages = 1\nmutators = 1\nslots = 2\n",
        text: "0 new 0 plain 0 1\n0 new 1 plain 0 1\n0 clear 0\nbegin\nquantum 256\n\
            0 new 0 plain 0 1\n0 put 0 0 9\nquantum 256\n0 get 0 0\n",
        output: "phase idle\nunits 416\npages 1 free 0\npage 0 size 5 held 2 of 409\nroots 2 used 2\n\
            objects 2 parts 2 old 0\n",
        errors: "",
        status: 0,
    },
    // A block that is moved.
    Row {
        words: &["metronome", "play", "config", "text"],
        config: E,
        text: "0 new 0 words 252\n0 new 1 words 252\n0 new 2 words 252\n0 new 3 words 252\n\
            0 new 4 words 252\n0 new 5 words 252\n0 new 6 words 252\n0 new 7 words 252\n\
            0 new 8 words 252\n0 new 9 plain 1 0\n0 store 9 0 8\n0 clear 0\n0 clear 1\nbegin\n\
            quantum 1000\n0 load 10 9 0\n0 same 8 10\n0 cas 9 0 10 11\n0 describe 8\n",
        output: "made 1\nmade 2\nmade 3\nmade 4\nmade 5\nmade 6\nmade 7\nmade 8\nmade 9\nmade 10\n\
            done\ndone\ndone\nref 9\nis yes\nstored\ndescribed 9 words 252\n",
        errors: "",
        status: 0,
    },
    // The report of its heap.
    Row {
        words: &["metronome", "inspect", "config", "text"],
        config: E,
        text: "0 new 0 words 252\n0 new 1 words 252\n0 new 2 words 252\n0 new 3 words 252\n\
            0 new 4 words 252\n0 new 5 words 252\n0 new 6 words 252\n0 new 7 words 252\n\
            0 new 8 words 252\n0 new 9 plain 1 0\n0 store 9 0 8\n0 clear 0\n0 clear 1\nbegin\n\
            quantum 1000\n0 load 10 9 0\n0 same 8 10\n0 cas 9 0 10 11\n0 describe 8\n",
        output: "phase idle\nunits 823\npages 3 free 0\npage 0 size 256 held 7 of 8\n\
            page 1 size 256 held 1 of 8 leaving\npage 2 size 5 held 1 of 409\nroots 12 used 9\n\
            objects 8 parts 8 old 1\n",
        errors: "",
        status: 0,
    },
    // The next cycle frees the old copy.
    Row {
        words: &["metronome", "inspect", "config", "text"],
        config: E,
        text: "0 new 0 words 252\n0 new 1 words 252\n0 new 2 words 252\n0 new 3 words 252\n\
            0 new 4 words 252\n0 new 5 words 252\n0 new 6 words 252\n0 new 7 words 252\n\
            0 new 8 words 252\n0 new 9 plain 1 0\n0 store 9 0 8\n0 clear 0\n0 clear 1\nbegin\n\
            quantum 1000\n0 load 10 9 0\n0 same 8 10\n0 cas 9 0 10 11\n0 describe 8\nbegin\n\
            quantum 1000\n",
        output: "phase idle\nunits 567\npages 3 free 1\npage 0 size 256 held 7 of 8\n\
            page 2 size 5 held 1 of 409\nroots 12 used 9\nobjects 8 parts 8 old 0\n",
        errors: "",
        status: 0,
    },
    // The move is spread over five quanta.
    Row {
        words: &["metronome", "play", "config", "text"],
        config: E,
        text: "0 new 0 words 252\n0 new 1 words 252\n0 new 2 words 252\n0 new 3 words 252\n\
            0 new 4 words 252\n0 new 5 words 252\n0 new 6 words 252\n0 new 7 words 252\n\
            0 new 8 words 252\n0 new 9 plain 1 0\n0 store 9 0 8\n0 clear 0\n0 clear 1\nbegin\n\
            quantum 256\nquantum 256\nquantum 256\nquantum 256\nquantum 256\n0 load 10 9 0\n\
            0 same 8 10\n0 cas 9 0 10 11\n0 describe 8\n",
        output: "made 1\nmade 2\nmade 3\nmade 4\nmade 5\nmade 6\nmade 7\nmade 8\nmade 9\nmade 10\n\
            done\ndone\ndone\nref 9\nis yes\nstored\ndescribed 9 words 252\n",
        errors: "",
        status: 0,
    },
    // No quantum has 255 units.
    Row {
        words: &["metronome", "play", "config", "text"],
        config: E,
        text: "quantum 255\n",
        output: "",
        errors: "metronome: line 1: not an event\n",
        status: 4,
    },
];
