//! Why the reader of a line gives nothing.
ghost use Rattle.std.specs.Prelude.{◌≡◌};
ghost use Rattle.nomos_script.specs.declared.stop.LineStop.TheVariants.{NoMemory};

use std::alloc::{AllocError, AllocFailed};

/// Why the reader of a line gives nothing: the line has no form, or memory ran out.
#[derive(Clone, Copy, PartialEq, Eq, Debug)]
pub(crate) enum LineStop {
    NoForm,
    NoMemory,
}

impl From<AllocError> for LineStop {
    ghost from_gives = { λ _ e. e ≡ NoMemory };

    fn from(_e: AllocError) -> LineStop {
        LineStop::NoMemory
    }
}

impl<T: Drop> From<AllocFailed<T>> for LineStop {
    ghost from_gives = { λ _ e. e ≡ NoMemory };

    fn from(_e: AllocFailed<T>) -> LineStop {
        LineStop::NoMemory
    }
}
