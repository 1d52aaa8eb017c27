//! Why a report could not be written.
use thiserror::Error;
use trace::WriteFailed;

/// The sink failed. It has taken a beginning of the report.
#[derive(Clone, Copy, Debug, PartialEq, Eq, Error)]
#[error("cannot write")]
pub struct WriteFault;

impl From<WriteFailed> for WriteFault {
    fn from(_failed: WriteFailed) -> WriteFault {
        WriteFault
    }
}
