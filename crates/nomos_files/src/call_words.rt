//! The words of a call, as the operating system has them.

use std::alloc::{AllocError, AllocGlobal};
use std::env::Env;
use std::io::ErrorKind;

/// The words after the program's own name. Where one of them is no text, they have no form, and so has the empty list
/// that is given then. An error is want of memory.
pub fn own_words<R: Env + AllocGlobal>(rt: &R) -> Result<Vec<String>, AllocError> {
    match std::env::args(rt) {
        Ok(words) => words.skip(1).collect(rt.alloc()),
        Err(error) if error.kind() == ErrorKind::InvalidData => Ok(Vec::new(rt.alloc())),
        Err(_) => Err(AllocError),
    }
}
