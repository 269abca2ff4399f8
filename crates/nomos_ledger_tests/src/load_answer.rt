//! What is answered of a text that is to be loaded.
ghost use Rattle.nomos_legal.specs.StandsFor.{StandsFor};

use nomos_ledger::ledger::Ledger;
use nomos_snapshot::error::LoadError;
use nomos_snapshot::ledger_loading::load;
use nomos_snapshot::saving::save;
use nomos_state::indexed::IndexedState;
use nomos_types::accepted::Accepted;
use std::alloc::{AllocError, Global};

/// What is answered of a text.
#[derive(Clone, Copy, PartialEq, Eq, Debug)]
pub(crate) enum Answer {
    /// It is loaded, and saved as the same text.
    Loaded,
    /// It is loaded, and saved as another one.
    Unlike,
    TooLong,
    BadLine(u32),
    NotTyped,
    Gas(u128),
    NotQuiet(u32),
}

// What is answered where a text was refused.
fn refused(why: LoadError) -> Result<Answer, AllocError> {
    match why {
        LoadError::TooLong => Ok(Answer::TooLong),
        LoadError::BadLine(at) => Ok(Answer::BadLine(at)),
        LoadError::NotTyped => Ok(Answer::NotTyped),
        LoadError::Gas(gas) => Ok(Answer::Gas(gas)),
        LoadError::NotQuiet(pid) => Ok(Answer::NotQuiet(pid)),
        LoadError::NoMemory => Err(AllocError),
    }
}

// Whether a ledger is saved as this text.
fn is_saved_as(
    alloc: Global,
    accepted: &Accepted,
    ledger: &Ledger<IndexedState>,
    text: &[u8],
) -> bool
    requires { StandsFor accepted.now ledger.now }
{
    match save(alloc, accepted, ledger) {
        Ok(saved) => saved.as_slice() == text,
        Err(_) => false,
    }
}

/// What is answered of a text.
pub(crate) fn answer_of(
    alloc: Global,
    accepted: &Accepted,
    text: &[u8],
) -> Result<Answer, AllocError> {
    let loaded: Result<Ledger<IndexedState>, LoadError> = load(alloc, accepted, text);
    match loaded {
        Ok(ledger) => {
            let is_same = is_saved_as(alloc, accepted, &ledger, text);
            drop(ledger);
            Ok(if is_same {
                Answer::Loaded
            } else {
                Answer::Unlike
            })
        }
        Err(why) => refused(why),
    }
}
