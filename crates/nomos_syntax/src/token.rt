//! A token and where it stands.

use crate::symbol::Symbol;
use nomos_ir::items::Items;
use nomos_ir::word::Word;

/// What kind of token it is. The text of a name, a number or a bad byte is the slice at its span.
#[derive(Clone, Copy, PartialEq, Eq, Debug)]
pub enum TokenKind {
    Name,
    Reserved(Word),
    Number,
    Symbol(Symbol),
    /// A byte that begins no token.
    Bad,
}

/// A token of a text: its kind, and its span in bytes, from the first to behind the last.
#[derive(Clone, Copy, PartialEq, Eq, Debug)]
pub struct Token {
    pub kind: TokenKind,
    pub from: u32,
    pub to: u32,
}

/// Tokens in order of text.
pub type TokenList = Items<Token>;
