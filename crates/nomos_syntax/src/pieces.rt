//! What begins at a place of a text: a token, a blank or a comment.
ghost use Rattle.std.specs.Prelude.{◌≡◌, ◌<◌, ◌≤◌, ◌+◌, ◌∷◌, length};
ghost use Rattle.std.specs.List.{prefix_len};
ghost use Rattle.nomos_ir.specs.Word.{reserved_word};
ghost use Rattle.nomos_syntax.specs.Scan.{is_comment_byte, double_symbol, single_symbol, begins_lollipop, begins_comment, longest_symbol, word_lexeme, symbol_piece, piece_at};
ghost use Rattle.nomos_syntax.specs.Spans.{lexeme_of};
ghost use Rattle.nomos_syntax.specs.Found.{Finds, first_piece};

use crate::bytes::{is_blank, is_comment_byte};
use crate::reserved_words::word_of;
use crate::symbol::Symbol;
use crate::token::TokenKind;
use nomos_ir::letters::{digits_length, is_digit, is_letter, is_word_byte, word_length};

/// A piece of a text: a token of this kind, or a blank or a comment, with the number of its bytes after
/// the first one.
#[derive(Clone, Copy)]
pub(crate) struct Piece {
    pub(crate) kind: Option<TokenKind>,
    pub(crate) more: usize,
}

/// How many bytes stand before the end of the line.
fn comment_length(bytes: &[u8]) -> usize
    ensures value { result ≡ prefix_len is_comment_byte bytes.now }
    ensures within { result ≤ length bytes.now }
{
    bytes
        .iter()
        .take_while(|byte| is_comment_byte(**byte))
        .count()
}

/// The symbol that two bytes make.
fn double_symbol(first: u8, second: u8) -> Option<Symbol>
    ensures { result ≡ double_symbol first second }
{
    match (first, second) {
        (b'-', b'>') => Some(Symbol::Arrow),
        (b'=', b'>') => Some(Symbol::FatArrow),
        (b':', b':') => Some(Symbol::DoubleColon),
        (b'/', b'\\') => Some(Symbol::Wedge),
        _ => None,
    }
}

/// The symbol that one byte makes.
fn single_symbol(byte: u8) -> Option<Symbol>
    ensures { result ≡ single_symbol byte }
{
    match byte {
        b'(' => Some(Symbol::OpenParen),
        b')' => Some(Symbol::CloseParen),
        b'{' => Some(Symbol::OpenBrace),
        b'}' => Some(Symbol::CloseBrace),
        b',' => Some(Symbol::Comma),
        b';' => Some(Symbol::Semicolon),
        b':' => Some(Symbol::Colon),
        b'.' => Some(Symbol::Dot),
        b'=' => Some(Symbol::Equals),
        b'+' => Some(Symbol::Plus),
        b'-' => Some(Symbol::Minus),
        b'*' => Some(Symbol::Star),
        b'/' => Some(Symbol::Slash),
        b'%' => Some(Symbol::Percent),
        b'<' => Some(Symbol::Less),
        b'>' => Some(Symbol::Greater),
        b'|' => Some(Symbol::Bar),
        b'&' => Some(Symbol::Ampersand),
        _ => None,
    }
}

/// Whether a comment begins with this byte, before the others.
fn begins_comment(first: u8, after: &[u8]) -> bool
    ensures { result ≡ begins_comment first after.now }
{
    first == b'/' && !after.is_empty() && after[0] == b'/'
}

/// Whether `-o` begins with this byte, before the others, as a symbol.
fn begins_lollipop(first: u8, after: &[u8]) -> bool
    ensures { result ≡ begins_lollipop first after.now }
{
    if after.is_empty() || first != b'-' || after[0] != b'o' {
        return false;
    }
    after.len() == 1 || !is_word_byte(after[1])
}

/// The symbol of two bytes that begins with this byte, before the others.
fn longest_symbol(first: u8, after: &[u8]) -> Option<Symbol>
    ensures { result ≡ longest_symbol first after.now }
{
    if after.is_empty() {
        None
    } else if begins_lollipop(first, after) {
        Some(Symbol::Lollipop)
    } else {
        double_symbol(first, after[0])
    }
}

/// The piece at this byte, before the others, where no word, number, blank or comment begins.
fn symbol_piece(first: u8, after: &[u8]) -> Piece
    ensures found { Finds (first ∷ after.now) (symbol_piece first after.now) result }
    ensures within { result.more ≤ length after.now }
{
    if let Some(symbol) = longest_symbol(first, after) {
        return Piece {
            kind: Some(TokenKind::Symbol(symbol)),
            more: 1,
        };
    }
    let kind = match single_symbol(first) {
        Some(symbol) => TokenKind::Symbol(symbol),
        None => TokenKind::Bad,
    };
    Piece {
        kind: Some(kind),
        more: 0,
    }
}

/// Whether the word is a reserved one or a name.
fn word_kind(text: &[u8]) -> TokenKind
    ensures { lexeme_of result text.now ≡ word_lexeme (reserved_word text.now) text.now }
{
    match word_of(text) {
        Some(word) => TokenKind::Reserved(word),
        None => TokenKind::Name,
    }
}

/// The piece that begins these bytes, which are the first one and those after it.
fn piece_at(first: u8, after: &[u8], bytes: &[u8]) -> Piece
    requires { bytes.now ≡ first ∷ after.now }
    ensures found { Finds bytes.now (piece_at first after.now) result }
    ensures within { result.more ≤ length after.now }
{
    if is_blank(first) {
        Piece {
            kind: None,
            more: 0,
        }
    } else if begins_comment(first, after) {
        Piece {
            kind: None,
            more: comment_length(after),
        }
    } else if is_letter(first) {
        let more = word_length(after);
        Piece {
            kind: Some(word_kind(&bytes[..=more])),
            more,
        }
    } else if is_digit(first) {
        Piece {
            kind: Some(TokenKind::Number),
            more: digits_length(after),
        }
    } else {
        symbol_piece(first, after)
    }
}

/// The piece that begins these bytes.
pub(crate) fn piece_of(bytes: &[u8]) -> Piece
    requires { 0 < length bytes.now }
    ensures found { Finds bytes.now (first_piece bytes.now) result }
    ensures within { result.more < length bytes.now }
{
    piece_at(bytes[0], &bytes[1..], bytes)
}
