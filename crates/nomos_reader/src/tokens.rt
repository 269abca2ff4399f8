//! The tokens that are left to read.
ghost use Rattle.std.specs.Prelude.{◌≡◌, ◌≤◌, IfOk, IsTrue, MatchOption, [], ◌∷◌, length, map, Some, None};
ghost use Rattle.std.specs.Str.Parse.{IsNumeral, digits_value};
ghost use Rattle.nomos_grammar.specs.Offence.{number_limit};
ghost use Rattle.nomos_reader.specs.mirror.Front.{is_bar, is_comma, is_list_end, is_open_brace, is_open_paren, none_left, front_kind, front_at, front_number, front_text, rest_of, read_name};
ghost use Rattle.nomos_reader.specs.Readable.{AreReadable};
ghost use Rattle.nomos_syntax.specs.Spans.{placed_of};

use nomos_ir::name::Name;
use nomos_surface::name_at::NameAt;
use nomos_syntax::symbol::Symbol;
use nomos_syntax::token::{Token, TokenKind};
use std::alloc::{AllocError, Global};
use std::marker::Model;
use std::str;

/// The tokens of a text that are left to read.
#[derive(Drop)]
pub(crate) struct Tokens<'a> {
    alloc: Global,
    text: &'a [u8],
    left: &'a [Token],
}

impl<'a> Model for Tokens<'a> {
    ghost use Rattle.std.specs.Prelude.{List, map};
    ghost use Rattle.nomos_reader.specs.Readable.{AreReadable};
    ghost use Rattle.nomos_syntax.specs.Lexeme.{Placed};
    ghost use Rattle.nomos_syntax.specs.Spans.{placed_of};

    ghost Value = { List Placed };

    ghost view = { λ t. map (placed_of t.text.now) t.left.now };

    ghost invariant = { λ t. AreReadable t.text.now t.left.now };
}

/// The value of a numeral within the limit.
fn value_of(digits: &[u8]) -> u32
    requires digits { IsNumeral 10 digits.now }
    requires limit { digits_value 10 digits.now ≤ number_limit }
    ensures { result ≡ digits_value 10 digits.now }
{
    let Ok(text) = str::from_utf8(digits) else {
        return 0;
    };
    text.parse::<u32>().unwrap_or(0)
}

impl<'a> Tokens<'a> {
    /// The tokens of the text.
    pub(crate) fn new(alloc: Global, text: &'a [u8], tokens: &'a [Token]) -> Tokens<'a>
        requires { AreReadable text.now tokens.now }
        ensures { result ≡ map (placed_of text.now) tokens.now }
    {
        Tokens {
            alloc,
            text,
            left: tokens,
        }
    }

    /// Where what is read lies.
    pub(crate) fn alloc(&self) -> Global {
        self.alloc
    }

    /// Whether a `,` is next.
    pub(crate) fn at_comma(&self) -> bool
        ensures { result ≡ is_comma (front_kind self.now) }
    {
        matches!(self.kind(), Some(TokenKind::Symbol(Symbol::Comma)))
    }

    /// Whether a `|` is next.
    pub(crate) fn at_bar(&self) -> bool
        ensures { result ≡ is_bar (front_kind self.now) }
    {
        matches!(self.kind(), Some(TokenKind::Symbol(Symbol::Bar)))
    }

    /// Whether a `(` is next.
    pub(crate) fn at_open_paren(&self) -> bool
        ensures { result ≡ is_open_paren (front_kind self.now) }
    {
        matches!(self.kind(), Some(TokenKind::Symbol(Symbol::OpenParen)))
    }

    /// Whether a list ends here: its `)` or `;` is next.
    pub(crate) fn at_list_end(&self) -> bool
        ensures { result ≡ is_list_end (front_kind self.now) }
    {
        matches!(
            self.kind(),
            Some(TokenKind::Symbol(Symbol::CloseParen | Symbol::Semicolon))
        )
    }

    /// Whether a `{` stands behind the next token.
    pub(crate) fn brace_behind(&self) -> bool
        ensures { result ≡ is_open_brace (front_kind (rest_of self.now)) }
    {
        match self.left {
            [_, second, ..] => matches!(second.kind, TokenKind::Symbol(Symbol::OpenBrace)),
            _ => false,
        }
    }

    /// Whether no token is left.
    pub(crate) fn is_empty(&self) -> bool
        ensures { result ≡ none_left self.now }
    {
        self.left.is_empty()
    }

    /// How many tokens are left.
    pub(crate) fn len(&self) -> usize
        ensures { result ≡ length self.now }
    {
        self.left.len()
    }

    /// The kind of the next token, if there is one.
    pub(crate) fn kind(&self) -> Option<TokenKind>
        ensures { result ≡ front_kind self.now }
    {
        match self.left {
            [] => None,
            [first, ..] => Some(first.kind),
        }
    }

    /// The offset of the next token, which is passed.
    pub(crate) fn skip(&mut self) -> u32
        ensures at { result ≡ front_at self.old }
        ensures rest { self.new ≡ rest_of self.old }
    {
        match self.left {
            [] => 0,
            [first, rest @ ..] => {
                self.left = rest;
                first.from
            }
        }
    }

    /// The text of the next token.
    fn front_text(&self) -> &'a [u8]
        ensures { result.now ≡ front_text self.now }
    {
        match self.left {
            [] => &[],
            [first, ..] => &self.text[first.from as usize..first.to as usize],
        }
    }

    /// The value of the next token, 0 where it is no number.
    pub(crate) fn number(&self) -> u32
        ensures { result ≡ front_number self.now }
    {
        match self.left {
            [first, ..] if first.kind == TokenKind::Number => {
                value_of(&self.text[first.from as usize..first.to as usize])
            }
            _ => 0,
        }
    }

    /// The next token as a name, which is passed.
    pub(crate) fn name(&mut self) -> Result<NameAt, AllocError>
        ensures { IfOk result (λ n. (n, self.new) ≡ read_name self.old) }
    {
        let text = Vec::from_slice(self.alloc, self.front_text())?;
        let at = self.skip();
        Ok(NameAt {
            name: Name::of_vec(text),
            at,
        })
    }
}
