//! The tokens of a line that are left to read.
ghost use Rattle.std.specs.Prelude.{◌≡◌, ◌≢◌, ◌<◌, ◌≤◌, ℕ, MatchOption, IfSome, IfOk, OnOk, IsErrOf, true, false, List, [], ◌∷◌, length, drop, slice_index};
ghost use Rattle.std.specs.List.{prefix_len};
ghost use Rattle.nomos_script.specs.ScriptNames.{IsScriptName};
ghost use Rattle.nomos_script.specs.ScriptScan.{Token as Lexeme, word, mark, is_blank, begins_comment, tokens_of};
ghost use Rattle.nomos_script.specs.mirror.ReaderSeen.{token_seen, HasDigits, IsPlainMark, BeginsWithName, BeginsWithUnits};

use crate::bytes::is_blank;
use crate::digits::units_of;
use crate::name::is_script_name;
use crate::stop::LineStop;
use nomos_ir::letters::{digits_length, is_digit, is_letter, word_length};
use std::marker::Model;

/// What a token says: a word, a number, or any other byte.
#[derive(Clone, Copy, Debug)]
pub(crate) enum Token<'a> {
    Word(&'a [u8]),
    Number(&'a [u8]),
    Mark(u8),
}

/// The tokens of a line that are left to read, which contracts see as the list of them.
#[derive(Drop)]
pub(crate) struct Tokens<'a> {
    left: &'a [u8],
}

impl<'a> Model for Tokens<'a> {
    ghost use Rattle.std.specs.Prelude.{List};
    ghost use Rattle.nomos_script.specs.ScriptScan.{Token as Lexeme, tokens_of};

    ghost Value = { List Lexeme };

    ghost view = { λ t. tokens_of t.left.now };
}

/// How many blanks stand in front.
fn blanks_length(bytes: &[u8]) -> usize
    ensures value { result ≡ prefix_len is_blank bytes.now }
    ensures within { result ≤ length bytes.now }
{
    bytes.iter().take_while(|byte| is_blank(**byte)).count()
}

/// Whether a comment begins with this byte, before the others.
fn begins_comment(first: u8, after: &[u8]) -> bool
    ensures { result ≡ begins_comment first after.now }
{
    first == b'/' && !after.is_empty() && after[0] == b'/'
}

/// The token that begins this text, which is the first byte and those after it, and the number of its bytes.
fn token_at<'a>(first: u8, after: &[u8], text: &'a [u8]) -> (Token<'a>, usize)
    requires split { text.now ≡ first ∷ after.now }
    requires solid { is_blank first ≡ false }
    requires code { begins_comment first after.now ≡ false }
    ensures token { tokens_of text.now ≡ token_seen result.0 ∷ tokens_of (drop result.1 text.now) }
    ensures digits { HasDigits result.0 }
    ensures within { result.1 ≤ length text.now }
{
    if is_letter(first) {
        let length = word_length(after) + 1;
        (Token::Word(&text[..length]), length)
    } else if is_digit(first) {
        let length = digits_length(after) + 1;
        (Token::Number(&text[..length]), length)
    } else {
        (Token::Mark(first), 1)
    }
}

/// The line without the blanks in front.
fn after_blanks(line: &[u8]) -> &[u8]
    ensures same { tokens_of result.now ≡ tokens_of line.now }
    ensures solid { is_blank (slice_index result.now 0) ≡ false }
{
    &line[blanks_length(line)..]
}

/// The first token of a line, and what comes after it.
fn split_token(line: &[u8]) -> (Option<Token<'_>>, &[u8])
    ensures next { MatchOption result.0 ((tokens_of line.now ≡ []) × (tokens_of result.1.now ≡ []))
        (λ t. tokens_of line.now ≡ token_seen t ∷ tokens_of result.1.now) }
    ensures digits { IfSome result.0 HasDigits }
{
    let text = after_blanks(line);
    let [first, after @ ..] = text else {
        return (None, text);
    };
    if begins_comment(*first, after) {
        return (None, &[]);
    }
    let (token, length) = token_at(*first, after, text);
    (Some(token), &text[length..])
}

// What comes after this byte, where it stands in front.
fn behind(byte: u8, line: &[u8]) -> Option<&[u8]>
    requires { IsPlainMark byte }
    ensures { IfSome result (λ after. tokens_of line.now ≡ mark (byte ∷ []) ∷ tokens_of after.now) }
{
    match line {
        [first, after @ ..] if *first == byte => Some(after),
        _ => None,
    }
}

impl<'a> Tokens<'a> {
    /// The tokens of a line.
    pub(crate) fn new(line: &'a [u8]) -> Tokens<'a>
        ensures { result ≡ tokens_of line.now }
    {
        Tokens { left: line }
    }

    /// Takes this byte, where it stands next without blanks before it, and says whether it does: most of the bytes
    /// between names and values stand so, and need no look at what else they could be.
    pub(crate) fn takes_close(&mut self, byte: u8) -> bool
        requires { IsPlainMark byte }
        ensures taken { result ≡ true → self.old ≡ mark (byte ∷ []) ∷ self.new }
        ensures other { result ≡ false → self.new ≡ self.old }
    {
        match behind(byte, self.left) {
            Some(after) => {
                self.left = after;
                true
            }
            None => false,
        }
    }

    /// The next token, which is taken.
    pub(crate) fn next(&mut self) -> Option<Token<'a>>
        ensures next { MatchOption result ((self.old ≡ []) × (self.new ≡ []))
            (λ t. self.old ≡ token_seen t ∷ self.new) }
        ensures digits { IfSome result HasDigits }
    {
        let (token, left) = split_token(self.left);
        self.left = left;
        token
    }

    /// Takes the next token, which has to be a name.
    pub(crate) fn name(&mut self) -> Result<&'a [u8], LineStop>
        ensures name { IfOk result (λ n. (self.old ≡ word n.now ∷ self.new) × IsScriptName n.now) }
        ensures none { IsErrOf result LineStop.NoForm → ¬ BeginsWithName self.old }
    {
        match self.next() {
            Some(Token::Word(text)) if is_script_name(text) => Ok(text),
            _ => Err(LineStop::NoForm),
        }
    }

    /// Takes the next token, which has to be the number of units of a deposit.
    pub(crate) fn units(&mut self) -> Result<u64, LineStop>
        ensures units { IfOk result (λ n. BeginsWithUnits n self.old self.new) }
        ensures none { IsErrOf result LineStop.NoForm → (n : ℕ) (rest : List Lexeme)
            → ¬ BeginsWithUnits n self.old rest }
    {
        match self.next() {
            Some(Token::Number(digits)) => units_of(digits).ok_or(LineStop::NoForm),
            _ => Err(LineStop::NoForm),
        }
    }

    /// Takes the next token, which has to be this word.
    pub(crate) fn word(&mut self, text: &[u8]) -> Result<(), LineStop>
        ensures word { OnOk result (self.old ≡ word text.now ∷ self.new) }
        ensures none { IsErrOf result LineStop.NoForm → (rest : List Lexeme) → self.old ≢ word text.now ∷ rest }
    {
        match self.next() {
            Some(Token::Word(found)) if found == text => Ok(()),
            _ => Err(LineStop::NoForm),
        }
    }

    /// Takes the next token, which has to be this byte.
    pub(crate) fn expect(&mut self, byte: u8) -> Result<(), LineStop>
        requires { IsPlainMark byte }
        ensures mark { OnOk result (self.old ≡ mark (byte ∷ []) ∷ self.new) }
        ensures none { IsErrOf result LineStop.NoForm → (rest : List Lexeme) → self.old ≢ mark (byte ∷ []) ∷ rest }
    {
        if self.takes_close(byte) {
            return Ok(());
        }
        match self.next() {
            Some(Token::Mark(found)) if found == byte => Ok(()),
            _ => Err(LineStop::NoForm),
        }
    }

    /// Sees that no token is left.
    pub(crate) fn end(&mut self) -> Result<(), LineStop>
        ensures end { OnOk result (self.old ≡ []) }
        ensures none { IsErrOf result LineStop.NoForm → self.old ≢ [] }
    {
        match self.next() {
            None => Ok(()),
            Some(_) => Err(LineStop::NoForm),
        }
    }
}
