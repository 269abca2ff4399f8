//! Why a ledger is not saved, and why a text is not loaded.
ghost use Rattle.std.specs.Prelude.{◌≡◌};
ghost use Rattle.nomos_snapshot.specs.declared.error.LoadError.TheVariants.{NoMemory as LoadWants};
ghost use Rattle.nomos_snapshot.specs.declared.error.SaveError.TheVariants.{NoMemory as SaveWants};

use std::alloc::{AllocError, AllocFailed};
use thiserror::Error;

/// Why a ledger has no snapshot (docs/TEXTS.md, "Snapshots"): the first of these causes, in this order.
#[derive(Drop, Debug, Error)]
pub enum SaveError {
    /// The number that the next object will have, or the one that the next name will have, is over 2^31: these two.
    #[error("the next object has the number {0}, and the next name {1}")]
    Numbers(u32, u32),
    /// The snapshot has more than 1,073,741,824 bytes.
    #[error("the snapshot has more than 1073741824 bytes")]
    TooLong,
    /// Memory is wanting.
    #[error("out of memory")]
    NoMemory,
}

/// Why a text is the snapshot of no ledger (docs/TEXTS.md, "Snapshots"): the first of these causes, in this order.
#[derive(Drop, Debug, Error)]
pub enum LoadError {
    /// The text has more than 1,073,741,824 bytes.
    #[error("the snapshot has more than 1073741824 bytes")]
    TooLong,
    /// This line, counted from 1, is the first that is missing or may not stand there.
    #[error("line {0} of the snapshot may not stand there")]
    BadLine(u32),
    /// The state that the text tells is not typed, a contract has no name of mode S, or a transaction is left.
    #[error("the snapshot is not that of a typed state")]
    NotTyped,
    /// The gas, in Dths, is no whole number of units, or has over 2^64 - 1 units.
    #[error("the snapshot's gas is {0} Dths, which no deposits are")]
    Gas(u128),
    /// A process is ready; the lowest one has this number.
    #[error("process {0} of the snapshot is ready")]
    NotQuiet(u32),
    /// Memory is wanting.
    #[error("out of memory")]
    NoMemory,
}

impl From<AllocError> for SaveError {
    ghost from_gives = { λ _ e. e ≡ SaveWants };

    fn from(_error: AllocError) -> SaveError {
        SaveError::NoMemory
    }
}

impl<T: Drop> From<AllocFailed<T>> for SaveError {
    ghost from_gives = { λ _ e. e ≡ SaveWants };

    fn from(_error: AllocFailed<T>) -> SaveError {
        SaveError::NoMemory
    }
}

impl From<AllocError> for LoadError {
    ghost from_gives = { λ _ e. e ≡ LoadWants };

    fn from(_error: AllocError) -> LoadError {
        LoadError::NoMemory
    }
}

impl<T: Drop> From<AllocFailed<T>> for LoadError {
    ghost from_gives = { λ _ e. e ≡ LoadWants };

    fn from(_error: AllocFailed<T>) -> LoadError {
        LoadError::NoMemory
    }
}
