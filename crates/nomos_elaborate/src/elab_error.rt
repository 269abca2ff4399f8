//! Why a tree has no program.
ghost use Rattle.std.specs.Prelude.{◌≡◌};
ghost use Rattle.nomos_elaborate.specs.declared.elab_error.ElabError.TheVariants.{NoMemory};

use std::alloc::{AllocError, AllocFailed};
use thiserror::Error;

/// Why a tree has no program. Offsets are those of the text, in bytes.
#[derive(Clone, Copy, PartialEq, Eq, Debug, Error)]
pub enum ElabError {
    /// The name at this offset breaks a rule of names.
    #[error("the name at {0} breaks a rule of names")]
    Name(u32),
    /// The `work` at this offset is written, and the cost model puts all `work` in.
    #[error("the cost model allows no `work` at {0}")]
    Cost(u32),
    #[error("out of memory")]
    NoMemory,
}

impl From<AllocError> for ElabError {
    ghost from_gives = { λ _ e. e ≡ NoMemory };

    fn from(_e: AllocError) -> ElabError {
        ElabError::NoMemory
    }
}

impl<T: Drop> From<AllocFailed<T>> for ElabError {
    ghost from_gives = { λ _ e. e ≡ NoMemory };

    fn from(_e: AllocFailed<T>) -> ElabError {
        ElabError::NoMemory
    }
}
