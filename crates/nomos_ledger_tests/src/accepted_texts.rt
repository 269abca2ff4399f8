//! Accepted contracts.

use nomos_accept::accepting::accept;
use nomos_types::accepted::Accepted;
use std::process::Abort;

/// The contract of a text that is accepted.
pub(crate) fn accepted_of<R: Abort + AllocGlobal>(rt: &R, contract: &str) -> Accepted {
    match accept(rt.alloc(), contract.as_bytes()) {
        Ok(accepted) => accepted,
        Err(_) => panic!(rt; "not accepted"),
    }
}
