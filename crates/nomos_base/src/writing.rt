//! All bytes out.

ghost use Rattle.std.specs.Prelude.{◌≡◌, ◌≤◌, OnOk, OnErr};
ghost use Rattle.nomos_base.specs.Faults.{Rose};
ghost use Rattle.nomos_base.specs.Sink.{with_end, AppendsSome};

use crate::sink::{Put, Sink};
use thiserror::Error;

/// Why bytes were not all written.
#[derive(Debug, Drop, Error)]
pub enum WriteError {
    #[error("the output could not be written")]
    WriteFault,
}

/// Writes all the bytes. No bytes are written without a call of the sink. After a fault the bytes
/// before it stay written.
pub fn write_all<K: Sink>(sink: &mut K, bytes: &[u8]) -> Result<(), WriteError>
    ensures whole { OnOk result (K.written sink.new ≡ with_end (K.written sink.old) bytes.now) }
    ensures fault_rose { OnErr result (Rose (K.faults sink.old) (K.faults sink.new)) }
    ensures fault_prefix { OnErr result (AppendsSome bytes.now (K.written sink.old) (K.written sink.new)) }
    ensures never_falls { K.faults sink.old ≤ K.faults sink.new }
{
    let mut done = 0;
    while done < bytes.len() {
        match sink.write(&bytes[done..]) {
            Put::Wrote(count) => done += count,
            Put::Failed => return Err(WriteError::WriteFault),
        }
    }
    Ok(())
}
