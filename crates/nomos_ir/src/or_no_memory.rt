//! An answer, or want of memory.
ghost use Rattle.std.specs.Prelude.{◌≡◌};
ghost use Rattle.nomos_ir.specs.declared.or_no_memory.OrNoMemory.TheVariants.{NoMemory};

use std::alloc::{AllocError, AllocFailed};

/// Why a function of a crate stops: an answer that its caller gives, or memory ran out.
#[derive(Drop, Debug)]
pub enum OrNoMemory<E> {
    Answer(E),
    NoMemory,
}

impl<E> From<AllocError> for OrNoMemory<E> {
    ghost from_gives = { λ _ e. e ≡ NoMemory };

    fn from(_error: AllocError) -> OrNoMemory<E> {
        OrNoMemory::NoMemory
    }
}

impl<E, T: Drop> From<AllocFailed<T>> for OrNoMemory<E> {
    ghost from_gives = { λ _ e. e ≡ NoMemory };

    fn from(_error: AllocFailed<T>) -> OrNoMemory<E> {
        OrNoMemory::NoMemory
    }
}
