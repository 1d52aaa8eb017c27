//! Why a command line is refused.
use thiserror::Error;

/// Why the words of a subcommand give no job.
#[derive(Debug, Drop, Error)]
pub enum Refusal {
    /// They are refused: the text for the user.
    #[error("{0}")]
    Refused(String),
    /// Memory was refused while they were read.
    #[error("no memory")]
    NoMemory,
}

/// Why words give no job.
#[derive(Debug, Drop, Error)]
pub enum WordsFault {
    /// Help or the version was asked for: the text, for standard output.
    #[error("{0}")]
    Help(String),
    /// The words are refused: the text, for standard error.
    #[error("{0}")]
    Refused(String),
    /// Memory was refused while the words were read.
    #[error("no memory")]
    NoMemory,
}

impl From<Refusal> for WordsFault {
    ghost use Rattle.command_line.specs.Words.{IsHelp};

    ghost from_gives = { λ why fault. IsHelp fault → ⊥ };

    fn from(why: Refusal) -> WordsFault {
        match why {
            Refusal::Refused(text) => WordsFault::Refused(text),
            Refusal::NoMemory => WordsFault::NoMemory,
        }
    }
}
