//! A word with a number behind it.

ghost use Rattle.std.specs.Prelude.{◌≡◌, ◌++◌, decimal, OnOk};

use nomos_printing::number::push_number;
use std::alloc::AllocError;

/// Appends a word and a number.
pub(crate) fn push_counted(text: &mut Vec<u8>, word: &[u8], count: u64) -> Result<(), AllocError>
    ensures { OnOk result (text.new.items ≡ text.old.items ++ (word.now ++ decimal count)) }
{
    text.extend_from_slice(word)?;
    push_number(text, count)
}
