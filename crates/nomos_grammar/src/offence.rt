//! The first token of a text that the grammar or a limit does not allow.
ghost use Rattle.std.specs.Prelude.{◌≡◌, ◌≤◌, length};
ghost use Rattle.nomos_ir.specs.Limits.{text_limit};
ghost use Rattle.nomos_syntax.specs.Scan.{tokens_of};
ghost use Rattle.nomos_syntax.specs.Spans.{StandFor};
ghost use Rattle.nomos_grammar.specs.declared.offence.GrammarError.TheVariants.{NoMemory as memory};
ghost use Rattle.nomos_grammar.specs.Offence.{Answers};

use crate::reader::Reader;
use crate::token_sight::look_at;
use nomos_syntax::token::TokenList;
use std::alloc::{AllocError, Global};
use thiserror::Error;

/// What a limit is of.
#[derive(Clone, Copy, PartialEq, Eq, Debug)]
pub enum Which {
    /// The bytes of a name.
    Name,
    /// A number.
    Number,
    /// The productions, branches, braced codes and operators that are open.
    Nesting,
    /// The nodes of a text.
    Nodes,
    /// The stars of a text.
    Stars,
}

/// Why tokens are no text of the grammar within its limits.
#[derive(Clone, Copy, PartialEq, Eq, Debug, Error)]
pub enum GrammarError {
    /// The offset of the first token with which the text can become none, or the length of a text that ends too early.
    #[error("no text of the grammar goes on so at offset {0}")]
    Syntax(u32),
    /// The limit, and the offset of the first token that passes it.
    #[error("the limit {0:?} is passed at offset {1}")]
    Limit(Which, u32),
    #[error("out of memory")]
    NoMemory,
}

impl From<AllocError> for GrammarError {
    ghost from_gives = { λ _ e. e ≡ memory };

    fn from(_e: AllocError) -> GrammarError {
        GrammarError::NoMemory
    }
}

/// Whether the tokens of a text are a text of the grammar within its limits, as docs/LANGUAGE.md, "Grammar", has them,
/// and if not, why: the first token that breaks a rule, and the first rule that it breaks, or that the text ends too
/// early. Offsets count bytes from 0.
pub fn first_offence(alloc: Global, text: &[u8], tokens: &TokenList) -> Result<(), GrammarError>
    requires short { length text.now ≤ text_limit }
    requires tokens { StandFor text.now tokens.now (tokens_of text.now) }
    ensures { Answers (tokens_of text.now) (length text.now) result }
{
    let mut reader = Reader::new(alloc)?;
    for token in tokens.as_slice() {
        reader.read(look_at(text, *token))?;
    }
    if reader.may_end()? {
        Ok(())
    } else {
        Err(GrammarError::Syntax(text.len() as u32))
    }
}
