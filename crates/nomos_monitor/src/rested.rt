//! How the firings of a talk come to rest.

use nomos_machine::rest::Rest;

/// How many firings were made, and how they came to rest.
#[derive(Clone, Copy, PartialEq, Eq, Debug)]
pub struct Rested {
    pub made: u32,
    pub how: Rest,
}
