//! Amounts of gas as text.

ghost use Rattle.std.specs.Prelude.{◌≡◌, ◌++◌, codes, decimal, take, vec_len, OnOk, OnErr};
ghost use Rattle.nomos_base.specs.Gas.{gas_text};

use itoa::Buffer;
use std::alloc::AllocError;

/// Appends an amount of gas: `dths` counts parts of a unit of gas, of which a whole one has `unit`. The
/// fraction is not reduced. Want of memory appends nothing.
pub fn push_gas(text: &mut Vec<u8>, dths: u128, unit: u32) -> Result<(), AllocError>
    ensures ok { OnOk result (text.new.items ≡ text.old.items ++ gas_text dths unit) }
    ensures err { OnErr result (text.new.items ≡ text.old.items) }
{
    let start = text.len();
    let pushed = push_amount(text, dths, unit);
    if pushed.is_err() {
        text.truncate(start);
    }
    pushed
}

// Appends an amount of gas, or a front of it where memory runs out.
fn push_amount(text: &mut Vec<u8>, dths: u128, unit: u32) -> Result<(), AllocError>
    ensures ok { OnOk result (text.new.items ≡ text.old.items ++ gas_text dths unit) }
    ensures front { OnErr result (take (vec_len text.old) text.new.items ≡ text.old.items) }
{
    let mut buffer = Buffer::new();
    text.extend_from_slice(buffer.format(dths).as_bytes())?;
    if unit == 1 {
        return Ok(());
    }
    text.extend_from_slice(b"/")?;
    text.extend_from_slice(buffer.format(unit).as_bytes())?;
    Ok(())
}
