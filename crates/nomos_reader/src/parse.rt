//! From the bytes of a contract text to its tree.
ghost use Rattle.std.specs.Prelude.{IfOk, ◌≡◌};
ghost use Rattle.nomos_surface.specs.TreeBounds.{IsWithinLimits};
ghost use Rattle.nomos_surface.specs.FileView.{file_tree};
ghost use Rattle.nomos_reader.specs.Parsing.{AnswersParse};
ghost use Rattle.nomos_reader.specs.mirror.Errors.{of_tokens, of_grammar};
ghost use Rattle.nomos_syntax.specs.Reading.{IsPlainText};
ghost use Rattle.nomos_syntax.specs.Scan.{tokens_of};
ghost use Rattle.nomos_syntax.specs.Spans.{StandFor};

use crate::tree_reading::read_tree;
use nomos_grammar::offence::{GrammarError, Which, first_offence};
use nomos_surface::surface::Surface;
use nomos_syntax::scan::{TokenError, tokens};
use nomos_syntax::token::TokenList;
use std::alloc::Global;
use thiserror::Error;

/// Why a text has no tree. Offsets count bytes from 0; docs/LANGUAGE.md, "Grammar", has the rules.
#[derive(Clone, Copy, PartialEq, Eq, Debug, Error)]
pub enum ParseError {
    #[error("the text has more than 1048576 bytes")]
    TooLong,
    /// The offset of the first byte over 127.
    #[error("the byte at offset {0} is not ASCII")]
    NotAscii(u32),
    /// The offset of the first token with which the text can become none, or the length of a text that ends too early.
    #[error("no text of the grammar goes on so at offset {0}")]
    Syntax(u32),
    /// The limit, and the offset of the first token that passes it.
    #[error("the limit {0:?} is passed at offset {1}")]
    Limit(Which, u32),
    #[error("out of memory")]
    NoMemory,
}

/// The answer for a text that has no tokens.
fn of_tokens(error: TokenError) -> ParseError
    ensures { result ≡ of_tokens error }
{
    match error {
        TokenError::TooLong => ParseError::TooLong,
        TokenError::NotAscii(at) => ParseError::NotAscii(at),
        TokenError::NoMemory => ParseError::NoMemory,
    }
}

/// The answer for a text whose tokens are no text of the grammar within its limits.
fn of_grammar(error: GrammarError) -> ParseError
    ensures { result ≡ of_grammar error }
{
    match error {
        GrammarError::Syntax(at) => ParseError::Syntax(at),
        GrammarError::Limit(which, at) => ParseError::Limit(which, at),
        GrammarError::NoMemory => ParseError::NoMemory,
    }
}

/// The tree of a text with these tokens, or why it has none.
fn read_tokens(alloc: Global, text: &[u8], found: &TokenList) -> Result<Surface, ParseError>
    requires plain { IsPlainText text.now }
    requires tokens { StandFor text.now found.now (tokens_of text.now) }
    ensures { AnswersParse text.now result }
{
    match first_offence(alloc, text, found) {
        Ok(()) => {}
        Err(error) => return Err(of_grammar(error)),
    }
    match read_tree(alloc, text, found.as_slice()) {
        Ok(surface) => Ok(surface),
        Err(_) => Err(ParseError::NoMemory),
    }
}

/// The tree as which a text reads. It is given exactly where the text reads as one, and then it is the only one.
/// Otherwise the text is too long, or the error has its first byte over 127, or its first offending token with why it
/// offends, or its length, where it ends too early; and it reads as no tree. A tree that is given is within the limits
/// of texts.
pub fn parse(alloc: Global, text: &[u8]) -> Result<Surface, ParseError>
    ensures answer { AnswersParse text.now result }
    ensures limits { IfOk result (λ surface. IsWithinLimits (file_tree surface)) }
{
    match tokens(alloc, text) {
        Ok(found) => read_tokens(alloc, text, &found),
        Err(error) => Err(of_tokens(error)),
    }
}
