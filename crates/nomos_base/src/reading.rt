//! All bytes in.

ghost use Rattle.std.specs.Prelude.{◌≡◌, ◌+◌, ◌-◌, ℕ, ◌≤◌, ◌<◌, length, IfOk, IsErrOf, vec_len};
ghost use Rattle.nomos_base.specs.Faults.{Rose};
ghost use Rattle.nomos_base.specs.Source.{TakesAll, TakesAtMost, TakesExactly};
ghost use Rattle.nomos_base.specs.WholeRead.{TakesPiece};

use crate::source::{Got, Source};
use std::alloc::{AllocError, Global};
use thiserror::Error;

/// Why bytes were not all read.
#[derive(Debug, Drop, Error)]
pub enum ReadError {
    #[error("the input is too long")]
    TooLong,
    #[error("the input could not be read")]
    ReadFault,
    #[error("out of memory")]
    NoMemory,
}

impl From<AllocError> for ReadError {
    ghost use Rattle.nomos_base.specs.declared.reading.ReadError.TheVariants.{NoMemory};

    ghost from_gives = { λ _ e. e ≡ NoMemory };

    fn from(_error: AllocError) -> ReadError {
        ReadError::NoMemory
    }
}

/// The most bytes that are asked for at once.
const PIECE: usize = 4096;

/// Reads all the bytes that are left, if they are no more than `limit`. It asks the source for at
/// most one byte more than that, so that it can tell, and takes that byte only where it answers
/// `TooLong`. Want of memory is the one answer for which no reason is given.
pub fn read_all<S: Source>(
    alloc: Global,
    source: &mut S,
    limit: usize,
) -> Result<Vec<u8>, ReadError>
    ensures within { IfOk result (λ bytes. vec_len bytes ≤ limit) }
    ensures whole { IfOk result (λ bytes.
        TakesAll bytes.items (S.left source.old) (S.left source.new)) }
    ensures too_long { IsErrOf result ReadError.TooLong →
        TakesExactly (limit + 1) (S.left source.old) (S.left source.new) }
    ensures fault_rose { IsErrOf result ReadError.ReadFault →
        Rose (S.faults source.old) (S.faults source.new) }

    // After every answer the source stands where it was read to. No answer but `TooLong` takes more than `limit` bytes.
    ensures front { TakesAtMost (limit + 1) (S.left source.old) (S.left source.new) }
    ensures at_most { ¬ IsErrOf result ReadError.TooLong →
        TakesAtMost limit (S.left source.old) (S.left source.new) }
    ensures never_falls { S.faults source.old ≤ S.faults source.new }
{
    let mut buffer = [0; PIECE];
    let mut bytes = Vec::new(alloc);
    while read_piece(source, &mut buffer, &mut bytes, limit)? {}
    Ok(bytes)
}

// Reads once and appends what came. It tells whether more may come.
fn read_piece<S: Source>(
    source: &mut S,
    buffer: &mut [u8],
    bytes: &mut Vec<u8>,
    limit: usize,
) -> Result<bool, ReadError>
    requires room { 0 < length buffer.old }
    requires within { vec_len bytes.old ≤ limit }
    ensures within { IfOk result (λ _. vec_len bytes.new ≤ limit) }
    ensures piece { IfOk result (λ more.
        TakesPiece more bytes.old.items bytes.new.items (S.left source.old) (S.left source.new)) }
    ensures too_long { IsErrOf result ReadError.TooLong →
        TakesExactly (limit - vec_len bytes.old + 1) (S.left source.old) (S.left source.new) }
    ensures fault_rose { IsErrOf result ReadError.ReadFault →
        Rose (S.faults source.old) (S.faults source.new) }
    ensures front { TakesAtMost (limit - vec_len bytes.old + 1) (S.left source.old) (S.left source.new) }
    ensures at_most { ¬ IsErrOf result ReadError.TooLong →
        TakesAtMost (limit - vec_len bytes.old) (S.left source.old) (S.left source.new) }
    ensures never_falls { S.faults source.old ≤ S.faults source.new }
{
    let room = limit - bytes.len();
    let most = room.min(buffer.len() - 1) + 1;
    match source.read(&mut buffer[..most]) {
        Got::Got(count) if count > room => Err(ReadError::TooLong),
        Got::Got(count) => {
            bytes.extend_from_slice(&buffer[..count])?;
            Ok(true)
        }
        Got::End => Ok(false),
        Got::Failed => Err(ReadError::ReadFault),
    }
}
