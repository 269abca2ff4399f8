//! Why a text is no journal of a script that is legal.
ghost use Rattle.std.specs.Prelude.{◌≡◌};
ghost use Rattle.nomos_replay.specs.declared.error.ReplayError.TheVariants.{NoMemory};

use nomos_legal::journal::End;
use std::alloc::{AllocError, AllocFailed};
use thiserror::Error;

/// Why a text is the text of no legal journal of a script (docs/TEXTS.md, "How a journal is read"). Its lines are
/// counted from 1; the first line that spoils it is named, and at one line the first of these causes, in this order.
#[derive(Drop, Debug, Error)]
pub enum ReplayError {
    /// The text has more than 1,073,741,824 bytes.
    #[error("the journal has more than 1073741824 bytes")]
    TooLong,
    /// This line has no form that may stand there, or it is missing, or it is one too many.
    #[error("line {0} of the journal may not stand there")]
    BadLine(u32),
    /// In this line the process of this number fires, which has no step.
    #[error("line {0} of the journal fires process {1}, which has no step")]
    NotEnabled(u32, u32),
    /// In this line the process of this number fires, whose step has another form or other gas.
    #[error("line {0} of the journal is not that of the step of process {1}")]
    WrongFiring(u32, u32),
    /// The end that is kept in this line is not one that may be there; another one is found, or none.
    #[error("line {line} of the journal keeps another end than is found")]
    WrongEnd {
        line: u32,
        kept: End,
        found: Option<End>,
    },
    /// Memory is wanting.
    #[error("out of memory")]
    NoMemory,
}

impl From<AllocError> for ReplayError {
    ghost from_gives = { λ _ e. e ≡ NoMemory };

    fn from(_error: AllocError) -> ReplayError {
        ReplayError::NoMemory
    }
}

impl<T: Drop> From<AllocFailed<T>> for ReplayError {
    ghost from_gives = { λ _ e. e ≡ NoMemory };

    fn from(_error: AllocFailed<T>) -> ReplayError {
        ReplayError::NoMemory
    }
}
