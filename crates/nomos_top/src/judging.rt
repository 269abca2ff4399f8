//! What is found of a contract.

ghost use Rattle.std.specs.Prelude.{◌≡◌};
ghost use Rattle.nomos_answers.specs.Benches.{load_contract};
ghost use Rattle.nomos_answers.specs.Outside.{source_state};
ghost use Rattle.nomos_top.specs.mirror.Judging.{ReadsContract, unaccepted_of, JudgesText, Judges, JudgesLeast};

use nomos_accept::accepting::accept;
use nomos_accept::why::{AcceptError, Why};
use nomos_base::{ReadError, Source, read_all};
use nomos_ir::limits::TEXT_LIMIT;
use nomos_least::least::{LeastBounds, least};
use nomos_simplex::solved::Stop;
use nomos_types::accepted::Accepted;
use nomos_words::load::auction_text;
use std::alloc::Global;

/// Why a contract is not accepted.
#[derive(Drop)]
pub(crate) enum Unaccepted {
    Refused(Why),
    Unsolved(Stop),
    ReadFault,
    NoMemory,
}

/// Accepts the auction of `bench`, or says why not.
pub(crate) fn judge_auction(alloc: Global) -> Result<Accepted, Unaccepted>
    ensures { JudgesText load_contract result }
{
    judge_text(alloc, auction_text())
}

/// Accepts a contract, or says why not.
pub(crate) fn judge<S: Source>(alloc: Global, contract: &mut S) -> Result<Accepted, Unaccepted>
    ensures { Judges (source_state (S.left contract.old) (S.faults contract.old) (S.faults contract.new)) result }
{
    let text = read_contract(alloc, contract)?;
    judge_text(alloc, &text)
}

/// Finds the least bounds of a contract, or says why it has none.
pub(crate) fn judge_least<S: Source>(
    alloc: Global,
    contract: &mut S,
) -> Result<LeastBounds, Unaccepted>
    ensures { JudgesLeast (source_state (S.left contract.old) (S.faults contract.old) (S.faults contract.new)) result }
{
    let text = read_contract(alloc, contract)?;
    match least(alloc, &text) {
        Ok(bounds) => Ok(bounds),
        Err(error) => Err(of_error(error)),
    }
}

// Accepts a text, or says why not.
fn judge_text(alloc: Global, text: &[u8]) -> Result<Accepted, Unaccepted>
    ensures { JudgesText text.now result }
{
    match accept(alloc, text) {
        Ok(accepted) => Ok(accepted),
        Err(error) => Err(of_error(error)),
    }
}

// The text of a contract.
fn read_contract<S: Source>(alloc: Global, contract: &mut S) -> Result<Vec<u8>, Unaccepted>
    ensures { ReadsContract
        (source_state (S.left contract.old) (S.faults contract.old) (S.faults contract.new)) result }
{
    match read_all(alloc, contract, TEXT_LIMIT) {
        Ok(text) => Ok(text),
        Err(ReadError::TooLong) => Err(Unaccepted::Refused(Why::TooLong)),
        Err(ReadError::ReadFault) => Err(Unaccepted::ReadFault),
        Err(ReadError::NoMemory) => Err(Unaccepted::NoMemory),
    }
}

// Why a contract whose text was read is not accepted.
fn of_error(error: AcceptError) -> Unaccepted
    ensures { result ≡ unaccepted_of error }
{
    match error {
        AcceptError::Refused(why) => Unaccepted::Refused(why),
        AcceptError::Unsolved(stop) => Unaccepted::Unsolved(stop),
        AcceptError::NoMemory => Unaccepted::NoMemory,
    }
}
