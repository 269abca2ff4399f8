//! The tokens of a text.
ghost use Rattle.std.specs.Prelude.{◌≡◌, ◌↔◌, ◌<◌, ◌≤◌, ℕ, length, map, All, OnOk, IfOk, IfSome, IfNone, IsErrOf};
ghost use Rattle.nomos_syntax.specs.Apart.{ComesApart};
ghost use Rattle.nomos_ir.specs.Limits.{text_limit};
ghost use Rattle.nomos_syntax.specs.Longest.{IsTakenIn};
ghost use Rattle.nomos_syntax.specs.Reading.{IsPlainText};
ghost use Rattle.nomos_syntax.specs.Scan.{tokens_of};
ghost use Rattle.nomos_syntax.specs.Spans.{StandFor, placed_of, first_not_ascii, IsFirstNotAscii};

use crate::pieces::piece_of;
use crate::token::{Token, TokenList};
use nomos_ir::items::Items;
use nomos_ir::limits::TEXT_LIMIT;
use std::alloc::{AllocError, Global};
use thiserror::Error;

/// Why a text has no tokens.
#[derive(Clone, Copy, PartialEq, Eq, Debug, Error)]
pub enum TokenError {
    #[error("the text has more than 1048576 bytes")]
    TooLong,
    /// The offset of the first byte over 127.
    #[error("the byte at offset {0} is not ASCII")]
    NotAscii(u32),
    #[error("out of memory")]
    NoMemory,
}

/// The offset of the first byte over 127.
fn first_not_ascii(text: &[u8]) -> Option<usize>
    ensures first { result ≡ first_not_ascii text.now }
    ensures within { IfSome result (λ at. at < length text.now) }
    ensures none { IfNone result (All (λ byte. byte < 128) text.now) }
{
    text.iter().position(|byte| *byte >= 128)
}

/// The tokens of a text that is not too long.
fn scan(alloc: Global, text: &[u8]) -> Result<TokenList, AllocError>
    requires { length text.now ≤ text_limit }
    ensures { IfOk result (λ tokens. StandFor text.now tokens (tokens_of text.now)) }
{
    let mut tokens = Vec::new(alloc);
    let mut at = 0;
    while at < text.len() {
        let piece = piece_of(&text[at..]);
        let to = at + piece.more + 1;
        if let Some(kind) = piece.kind {
            let token = Token {
                kind,
                from: at as u32,
                to: to as u32,
            };
            tokens.push(token)?;
        }
        at = to;
    }
    Ok(Items::of_vec(tokens))
}

/// The tokens of a text, in order, as docs/LANGUAGE.md, "Tokens", defines them. A text that is too long
/// is refused as such, whatever its bytes are.
pub fn tokens(alloc: Global, text: &[u8]) -> Result<TokenList, TokenError>
    ensures tokens { IfOk result (λ tokens. StandFor text.now tokens (tokens_of text.now)) }
    ensures longest { IfOk result (λ tokens. All (IsTakenIn text.now) tokens) }
    ensures apart { IfOk result (λ tokens. ComesApart 0 text.now (map (placed_of text.now) tokens)) }
    ensures plain { OnOk result (IsPlainText text.now) }
    ensures too_long { IsErrOf result TokenError.TooLong ↔ (text_limit < length text.now) }
    ensures not_ascii { (at : ℕ) → IsErrOf result (TokenError.NotAscii at) ↔ IsFirstNotAscii text.now at }
{
    if text.len() > TEXT_LIMIT {
        return Err(TokenError::TooLong);
    }
    if let Some(at) = first_not_ascii(text) {
        return Err(TokenError::NotAscii(at as u32));
    }
    match scan(alloc, text) {
        Ok(tokens) => Ok(tokens),
        Err(_) => Err(TokenError::NoMemory),
    }
}
