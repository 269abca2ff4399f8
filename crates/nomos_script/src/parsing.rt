//! How a text is read as a script.
ghost use Rattle.std.specs.Prelude.{◌≡◌, ◌↔◌, ◌<◌, ◌≤◌, ℕ, List, length, IfOk, IsErrOf, IsOkUnless};
ghost use Rattle.nomos_ir.specs.Limits.{text_limit};
ghost use Rattle.nomos_script.specs.declared.item.ScriptItem.{ScriptItem};
ghost use Rattle.nomos_script.specs.ScriptReading.{ReadsAs, IsSyntaxAt, IsRefusedAs};

use crate::assembly::Assembly;
use crate::item::ScriptItems;
use crate::lines::split_line;
use crate::script::Script;
use crate::stop::LineStop;
use nomos_ir::limits::TEXT_LIMIT;
use std::alloc::{AllocFailed, Global};
use thiserror::Error;

/// Why a text is no script. Lines are counted from 1.
#[derive(Clone, Copy, PartialEq, Eq, Debug, Error)]
pub enum ScriptError {
    #[error("the script has more than 1048576 bytes")]
    TooLong,
    /// The first line up to which no script goes; or else the line of a `begin` without an `end`.
    #[error("line {0} has no form, or may not stand there")]
    Syntax(u32),
    #[error("out of memory")]
    NoMemory,
}

impl<T: Drop> From<AllocFailed<T>> for ScriptError {
    ghost use Rattle.std.specs.Prelude.{◌≡◌};
    ghost use Rattle.nomos_script.specs.declared.parsing.ScriptError.TheVariants as error;

    ghost from_gives = { λ _ e. e ≡ error.NoMemory };

    fn from(_e: AllocFailed<T>) -> ScriptError {
        ScriptError::NoMemory
    }
}

/// The items of a text that is not too long.
fn read_items(alloc: Global, text: &[u8]) -> Result<ScriptItems, ScriptError>
    requires { length text.now ≤ text_limit }
    ensures read { IfOk result (λ items. ReadsAs text.now items) }
    ensures fits { ¬ IsErrOf result ScriptError.TooLong }
    ensures syntax { (k : ℕ) → IsErrOf result (ScriptError.Syntax k) → IsSyntaxAt text.now k }
{
    let mut assembly = Assembly::new(alloc);
    let mut rest = text;
    let mut number = 1;
    while !rest.is_empty() {
        let (line, after) = split_line(rest);
        match assembly.read(alloc, number, line) {
            Ok(()) => {}
            Err(LineStop::NoForm) => return Err(ScriptError::Syntax(number)),
            Err(LineStop::NoMemory) => return Err(ScriptError::NoMemory),
        }
        rest = after;
        number += 1;
    }
    match assembly.finish() {
        Ok(items) => Ok(items),
        Err(first) => Err(ScriptError::Syntax(first)),
    }
}

/// The script of a text, as docs/TEXTS.md, "The script", defines it. A text that is too long is refused as such,
/// whatever its bytes are. Want of memory is the one answer for which no reason is given.
///
/// ```
/// let script = parse_script(alloc, b"deposit ann 5\nexec ann twice(21;)\n")?;
/// assert_eq!(script.items().as_slice().len(), 2);
/// ```
pub fn parse_script(alloc: Global, bytes: &[u8]) -> Result<Script, ScriptError>
    ensures read { IfOk result (λ script. ReadsAs bytes.now script) }
    ensures only { IfOk result (λ script. (items : List ScriptItem) → ReadsAs bytes.now items → items ≡ script) }
    ensures readable { (items : List ScriptItem) → ReadsAs bytes.now items → IsOkUnless result ScriptError.NoMemory }
    ensures too_long { IsErrOf result ScriptError.TooLong ↔ (text_limit < length bytes.now) }
    ensures syntax { (k : ℕ) → IsErrOf result (ScriptError.Syntax k) → IsSyntaxAt bytes.now k }
    ensures syntax_refused { (k : ℕ) → IsSyntaxAt bytes.now k → IsRefusedAs (ScriptError.Syntax k) result }
{
    if bytes.len() > TEXT_LIMIT {
        return Err(ScriptError::TooLong);
    }
    Ok(Script::of_items(read_items(alloc, bytes)?))
}
