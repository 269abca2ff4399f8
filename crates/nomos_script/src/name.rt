//! Names as they stand in a script.
ghost use Rattle.std.specs.Prelude.{◌≡◌, ◌↔◌, IsTrue, IfOk};
ghost use Rattle.nomos_script.specs.ScriptNames.{IsScriptName};

use nomos_ir::items::Items;
use nomos_ir::letters::{is_letter, is_word_byte};
use nomos_ir::limits::NAME_LIMIT;
use smallvec::SmallVec;
use std::alloc::{AllocError, Global};
use std::marker::Model;

/// The most bytes of a name that lies in the value itself, which is then no larger than it is for a longer one.
const INLINE_LIMIT: usize = 16;

/// A name of a script, which contracts see as the list of its bytes: a letter or `_`, then letters, digits and
/// `_`, at most 64 bytes in all. No word is reserved in scripts.
#[derive(Drop, Debug)]
pub struct ScriptName {
    bytes: SmallVec<u8, INLINE_LIMIT>,
}

impl Model for ScriptName {
    ghost use Rattle.std.specs.Prelude.{List, ℕ};
    ghost use Rattle.nomos_script.specs.ScriptNames.{IsScriptName};

    ghost Value = { List ℕ };

    ghost view = { λ name. name.bytes.items };

    ghost invariant = { λ name. IsScriptName name.bytes.items };
}

/// Names of a script in a row.
pub type ScriptNames = Items<ScriptName>;

impl ScriptName {
    /// The name with these bytes. A long one keeps the vector's memory.
    pub fn of_vec(bytes: Vec<u8>) -> ScriptName
        requires { IsScriptName bytes.items }
        ensures { result ≡ bytes.items }
    {
        ScriptName {
            bytes: SmallVec::from_vec(bytes),
        }
    }

    // A name of its own with these bytes.
    pub(crate) fn copied(alloc: Global, text: &[u8]) -> Result<ScriptName, AllocError>
        requires { IsScriptName text.now }
        ensures { IfOk result (λ name. name ≡ text.now) }
    {
        Ok(ScriptName {
            bytes: SmallVec::from_slice(alloc, text)?,
        })
    }

    /// The bytes of the name.
    pub fn as_bytes(&self) -> &[u8]
        ensures bytes { result.now ≡ self.now }
        ensures name { IsScriptName self.now }
    {
        self.bytes.as_slice()
    }

    /// The name as text.
    pub fn as_str(&self) -> &str
        ensures text { result.now ≡ self.now }
        ensures name { IsScriptName self.now }
    {
        str::from_utf8(self.as_bytes()).unwrap()
    }
}

/// Whether the text is a name of a script.
pub fn is_script_name(text: &[u8]) -> bool
    ensures { IsTrue result ↔ IsScriptName text.now }
{
    match text {
        [first, ..] => {
            text.len() <= NAME_LIMIT
                && is_letter(*first)
                && text.iter().all(|byte| is_word_byte(*byte))
        }
        [] => false,
    }
}
