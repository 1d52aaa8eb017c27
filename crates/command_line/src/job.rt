//! The jobs that the words of a command line ask for.
ghost use Rattle.std.specs.Prelude.{◌≡◌};
ghost use Rattle.command_line.specs.Job.{words_of};

use size_classes::Class;

/// How the data of a run are written.
#[derive(Clone, Copy)]
pub enum Form {
    /// As a page that a browser opens.
    Page,
    /// Alone, in JSON.
    Data,
}

/// How a heap is reported.
#[derive(Clone, Copy)]
pub enum Report {
    /// Page by page, with its phase, its roots and its objects.
    Pages,
    /// By size class.
    Sizes,
    /// By the shapes of objects.
    Shapes,
    /// By the roots that keep objects.
    Roots,
}

/// The base from which the pages that suffice are calculated.
#[derive(Clone, Copy)]
pub enum Sizing {
    /// The needs of the trace.
    Demand,
    /// The pace at which it asked.
    Pace,
    /// The most words that the trace has live, for which a heap that paces itself is to have a plan.
    Plan,
}

/// A drawing of the run of a trace.
#[derive(Clone, Copy)]
pub enum Drawing {
    /// The run's data; with the plans for this many words of live blocks, if it is said.
    Run { form: Form, live: Option<u64> },
    /// The quanta that took ticks, as events; of the first event lines, if their number is said.
    Events { after: Option<u32> },
    /// The objects that can be reached, at most this many; after the first event lines, if their number is said.
    Graph { after: Option<u32>, most: u32 },
}

/// Some objects that have equally many cells.
#[derive(Clone, Copy, Debug, PartialEq, Eq)]
pub struct Objects {
    /// How many objects there are.
    pub count: u64,
    /// How many cells each of them has.
    pub cells: u32,
}

/// The words of blocks for which a program asks at most, headers included, while it runs for some ticks.
#[derive(Clone, Copy, Debug, PartialEq, Eq)]
pub struct Asked {
    /// How many words these are.
    pub words: u64,
    /// For how many ticks it runs.
    pub ticks: u64,
}

/// The live data for which a heap is planned.
#[derive(Drop)]
pub enum LiveData {
    /// Blocks of this many words, headers included.
    Words(u64),
    /// The blocks of these objects.
    Objects(Vec<Objects>),
}

/// The program for which a heap is planned.
#[derive(Drop)]
pub struct Program {
    /// The live data that it has at most.
    pub live: LiveData,
    /// The words of the blocks of its largest object, for which a plan has room; 0 if it isn't said.
    pub largest: u64,
    /// The size classes of which it asks for blocks, if not for all.
    pub classes: Option<Vec<Class>>,
    /// For how many words it asks in a time.
    pub asks: Vec<Asked>,
}

/// The words that subcommands have: the names of their files, and two flags.
#[derive(Clone, Copy)]
pub struct Words<'a> {
    /// The file of the configuration.
    pub config: &'a str,
    /// The other file, if the subcommand has one; `-` is standard input.
    pub file: Option<&'a str>,
    /// The file of the configuration on which the run is compared, if it is.
    pub compare: Option<&'a str>,
    /// Whether standard error gets the number of lines that were read.
    pub progress: bool,
    /// Whether standard error gets an explanation of a fault.
    pub explain: bool,
}

/// A job: a case for each subcommand, with its words and numbers.
#[derive(Drop)]
pub enum Job<'a> {
    /// Play a trace, and write its replies, or with `history` its entries.
    Play {
        words: Words<'a>,
        history: bool,
    },
    /// Check the entries of a history.
    Check {
        words: Words<'a>,
    },
    /// Run scripts on threads, beside this many quanta of the collector, each of this many units.
    Threads {
        words: Words<'a>,
        turns: u32,
        budget: u32,
    },
    /// Play a trace, or its first event lines, and report the heap.
    Inspect {
        words: Words<'a>,
        by: Report,
        after: Option<u32>,
    },
    /// Play a trace, and write the utilisation of windows of some numbers of ticks.
    Mmu {
        words: Words<'a>,
        windows: Vec<u64>,
    },
    /// Play a trace, and draw this of its run.
    Draw {
        words: Words<'a>,
        drawing: Drawing,
    },
    /// Play a trace, and report each cycle; `csv` puts commas between the figures.
    Cycles {
        words: Words<'a>,
        csv: bool,
    },
    /// Play a trace, or its first event lines, and report why the object of an identity is alive.
    Path {
        words: Words<'a>,
        id: u64,
        after: Option<u32>,
    },
    /// Play a trace, and report how many pages suffice.
    Pages {
        words: Words<'a>,
        by: Sizing,
    },
    /// Report how a heap would pace itself for this program, on some numbers of pages, and for how long the program waits.
    /// It has no other file.
    Plan {
        words: Words<'a>,
        program: Program,
    },
}

impl<'a> Job<'a> {
    /// Returns the words that name its files, and its flags.
    pub fn words(&self) -> Words<'a>
        ensures { result ≡ words_of self.now }
    {
        match self {
            Job::Play { words, .. } => *words,
            Job::Check { words } => *words,
            Job::Threads { words, .. } => *words,
            Job::Inspect { words, .. } => *words,
            Job::Mmu { words, .. } => *words,
            Job::Draw { words, .. } => *words,
            Job::Cycles { words, .. } => *words,
            Job::Path { words, .. } => *words,
            Job::Pages { words, .. } => *words,
            Job::Plan { words, .. } => *words,
        }
    }
}
