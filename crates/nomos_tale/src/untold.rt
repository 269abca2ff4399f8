//! Why there is no tale.
use std::alloc::AllocError;

/// Why there is no tale.
#[derive(Clone, Copy, Debug)]
pub enum Untold {
    /// Memory was wanting, or a number for one more process, message or name.
    NoMemory,
    /// The line of this number, counted from 1, of the journal that is kept is not the one that is due there.
    Unfit(u32),
}

impl From<AllocError> for Untold {
    fn from(_error: AllocError) -> Untold {
        Untold::NoMemory
    }
}
