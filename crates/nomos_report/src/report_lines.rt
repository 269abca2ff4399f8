//! Parts of the lines of a report.

ghost use Rattle.std.specs.Prelude.{◌≡◌, ◌++◌, codes, decimal, OnOk};
ghost use Rattle.nomos_base.specs.Gas.{gas_text};
ghost use Rattle.nomos_report.specs.ReportLines.{line};

use nomos_base::push_gas;
use nomos_printing::number::push_number;
use std::alloc::AllocError;

/// Appends a word.
pub(crate) fn push_word(text: &mut Vec<u8>, word: &[u8]) -> Result<(), AllocError>
    ensures { OnOk result (text.new.items ≡ text.old.items ++ word.now) }
{
    text.extend_from_slice(word)?;
    Ok(())
}

/// Appends a word and a name.
pub(crate) fn push_named(text: &mut Vec<u8>, word: &[u8], name: &str) -> Result<(), AllocError>
    ensures { OnOk result (text.new.items ≡ text.old.items ++ (word.now ++ name.now)) }
{
    text.extend_from_slice(word)?;
    text.extend_from_slice(name.as_bytes())?;
    Ok(())
}

/// Appends a word and a number.
pub(crate) fn push_counted(text: &mut Vec<u8>, word: &[u8], count: u64) -> Result<(), AllocError>
    ensures { OnOk result (text.new.items ≡ text.old.items ++ (word.now ++ decimal count)) }
{
    text.extend_from_slice(word)?;
    push_number(text, count)
}

/// Appends a line of a word and an amount of gas, in Dths, of which a unit has so many.
pub(crate) fn push_amount_line(
    text: &mut Vec<u8>,
    word: &[u8],
    dths: u128,
    unit: u32,
) -> Result<(), AllocError>
    ensures { OnOk result (text.new.items ≡ text.old.items ++ line (word.now ++ gas_text dths unit)) }
{
    text.extend_from_slice(word)?;
    push_gas(text, dths, unit)?;
    text.push(b'\n')?;
    Ok(())
}

/// Appends the front of the line for a line of the script.
pub(crate) fn push_front(text: &mut Vec<u8>, line: u32) -> Result<(), AllocError>
    ensures { OnOk result (text.new.items ≡ text.old.items ++ (codes "line " ++ decimal line ++ codes " ")) }
{
    push_counted(text, b"line ", u64::from(line))?;
    text.push(b' ')?;
    Ok(())
}
