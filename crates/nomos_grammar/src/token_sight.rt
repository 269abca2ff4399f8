//! What is seen of a token.
ghost use Rattle.std.specs.Prelude.{◌≡◌, ◌≤◌, ◌↔◌, IsTrue};
ghost use Rattle.std.specs.Str.Parse.{IsNumeral, digits_value};
ghost use Rattle.nomos_syntax.specs.Spans.{lexeme_of, placed_of, LiesIn};
ghost use Rattle.nomos_grammar.specs.Producing.{terminal_of};
ghost use Rattle.nomos_grammar.specs.Offence.{number_limit};
ghost use Rattle.nomos_grammar.specs.mirror.ReaderStates.{IsWritten, PassesItself};
ghost use Rattle.nomos_grammar.specs.mirror.Sights.{IsSeen};

use crate::offence::Which;
use crate::part::Terminal;
use nomos_ir::limits::NAME_LIMIT;
use nomos_syntax::token::{Token, TokenKind};

/// The largest number.
const NUMBER_LIMIT: u32 = 1_000_000_000;

/// What is seen of a token.
#[derive(Clone, Copy)]
pub(crate) struct TokenSight {
    /// What the grammar sees of it: nothing of a bad byte.
    pub(crate) terminal: Option<Terminal>,
    /// The limit that the token passes by itself.
    pub(crate) passed: Option<Which>,
    pub(crate) at: u32,
}

/// Whether the number that the digits write is within the limit.
fn is_small(digits: &[u8]) -> bool
    requires { IsNumeral 10 digits.now }
    ensures { IsTrue result ↔ (digits_value 10 digits.now ≤ number_limit) }
{
    let Ok(text) = str::from_utf8(digits) else {
        return false;
    };
    match text.parse::<u32>() {
        Ok(number) => number <= NUMBER_LIMIT,
        Err(_) => false,
    }
}

/// What the grammar sees of a token of this kind and text.
fn terminal_of(kind: TokenKind, text: &[u8]) -> Option<Terminal>
    ensures { result ≡ terminal_of (lexeme_of kind text.now) }
{
    match kind {
        TokenKind::Name => Some(Terminal::Name),
        TokenKind::Reserved(word) => Some(Terminal::Reserved(word)),
        TokenKind::Number if text == b"1".as_slice() => Some(Terminal::One),
        TokenKind::Number => Some(Terminal::Number),
        TokenKind::Symbol(symbol) => Some(Terminal::Symbol(symbol)),
        TokenKind::Bad => None,
    }
}

/// The limit that a token of this kind and text passes by itself.
fn passed_by(kind: TokenKind, text: &[u8]) -> Option<Which>
    requires { IsWritten (lexeme_of kind text.now) }
    ensures { PassesItself (lexeme_of kind text.now) result }
{
    match kind {
        TokenKind::Name if text.len() > NAME_LIMIT => Some(Which::Name),
        TokenKind::Number if !is_small(text) => Some(Which::Number),
        _ => None,
    }
}

/// What is seen of a token of the text.
pub(crate) fn look_at(text: &[u8], token: Token) -> TokenSight
    requires inside { LiesIn text.now token }
    requires written { IsWritten (placed_of text.now token).lexeme }
    ensures { IsSeen (placed_of text.now token) result }
{
    let own = &text[token.from as usize..token.to as usize];
    TokenSight {
        terminal: terminal_of(token.kind, own),
        passed: passed_by(token.kind, own),
        at: token.from,
    }
}
