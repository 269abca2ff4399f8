//! How the values of a line are read, token by token.
ghost use Rattle.std.specs.Prelude.{◌≡◌, ◌≢◌, ◌≤◌, length, ◌∷◌, ◌++◌, [], ℕ, true, false, nat_le, IfOk, OnOk, IsErrOf, Some, None, codes};
ghost use Rattle.nomos_ir.specs.Value.{Value as Meaning, int, truth, list, value_list};
ghost use Rattle.nomos_ir.specs.ValueNode.{value_of};
ghost use Rattle.nomos_ir.specs.Weight.{list_weight, max_weight};
ghost use Rattle.nomos_script.specs.mirror.ValueReading.{nothing_read, awaits_value, may_end, put, put_number, take_digits, take_word, open_list, close_list, take_mark, take_token, ends_values, read_values};
ghost use Rattle.nomos_script.specs.ScriptScan.{mark};
ghost use Rattle.nomos_script.specs.mirror.ReaderSeen.{token_seen, HasDigits};
ghost use Rattle.std.specs.Str.Parse.{IsNumeral};

use crate::digits::signed_number;
use crate::growing;
use crate::stop::LineStop;
use crate::tokens::{Token, Tokens};
use crate::weighed::{OpenList, WeighedValue};
use nomos_ir::stack::Stack;
use nomos_ir::value::{Value, Values};
use nomos_ir::value_node::ValueNode;
use std::alloc::Global;
use std::marker::Model;

/// The most lists of a value that stand in one another.
const MAX_NESTING: usize = 64;

/// What may come next among values.
#[derive(Clone, Copy, PartialEq, Eq, Debug)]
pub(crate) enum Awaited {
    /// A value, or the end of the list or of all values: behind the begin.
    FirstValue,
    /// A value: behind a comma.
    NextValue,
    /// The digits of a number: behind `-`.
    Digits,
    /// A comma, or the end: behind a value.
    Separator,
}

impl Awaited {
    /// Whether a value may begin here.
    fn awaits_value(self) -> bool
        ensures { result ≡ awaits_value self }
    {
        matches!(self, Awaited::FirstValue | Awaited::NextValue)
    }

    /// Whether the values, or a list, may end here.
    fn may_end(self) -> bool
        ensures { result ≡ may_end self }
    {
        matches!(self, Awaited::FirstValue | Awaited::Separator)
    }
}

/// The values that were read to their end, the lists that are open, and what may come next.
#[derive(Drop)]
struct ValueReader {
    values: Vec<ValueNode>,
    open_lists: Stack<OpenList>,
    next: Awaited,
}

impl Model for ValueReader {
    ghost use Rattle.std.specs.Prelude.{map};
    ghost use Rattle.nomos_ir.specs.ValueNode.{value_of};
    ghost use Rattle.nomos_ir.specs.ValueCode.{value_code};
    ghost use Rattle.std.specs.Coded.{codes};
    ghost use Rattle.nomos_script.specs.mirror.ValueReading.{ReadValues};

    ghost Value = { ReadValues };

    ghost coded = { Prim.hlevel (codes, value_code) };

    ghost view = { λ r. record {
      values = map value_of r.values.items;
      open_lists = r.open_lists;
      next = r.next;
    } };
}

impl ValueReader {
    // Nothing was read yet.
    fn new(alloc: Global) -> ValueReader
        ensures { result ≡ nothing_read }
    {
        ValueReader {
            values: Vec::new(alloc),
            open_lists: Stack::new(alloc),
            next: Awaited::FirstValue,
        }
    }

    // Puts a value to the innermost open list, or behind the values.
    fn put(&mut self, value: WeighedValue) -> Result<(), LineStop>
        ensures ok { OnOk result (put value self.old ≡ Some self.new) }
        ensures none { IsErrOf result LineStop.NoForm → put value self.old ≡ None }
    {
        match self.open_lists.pop() {
            None => growing::put(&mut self.values, 2, value.into_node())?,
            Some(mut list) => {
                list.put(value)?;
                self.open_lists.push(list)?;
            }
        }
        self.next = Awaited::Separator;
        Ok(())
    }

    // Puts the number that digits write, with `-` before them or without it.
    fn put_number(&mut self, minus: bool, digits: &[u8]) -> Result<(), LineStop>
        requires { IsNumeral 10 digits.now }
        ensures ok { OnOk result (put_number minus digits.now self.old ≡ Some self.new) }
        ensures none { IsErrOf result LineStop.NoForm → put_number minus digits.now self.old ≡ None }
    {
        match signed_number(minus, digits) {
            Some(n) => self.put(WeighedValue::int(n)),
            None => Err(LineStop::NoForm),
        }
    }

    // Takes digits.
    fn take_digits(&mut self, digits: &[u8]) -> Result<(), LineStop>
        requires { IsNumeral 10 digits.now }
        ensures ok { OnOk result (take_digits self.old.next digits.now self.old ≡ Some self.new) }
        ensures none { IsErrOf result LineStop.NoForm → take_digits self.old.next digits.now self.old ≡ None }
    {
        match self.next {
            Awaited::FirstValue | Awaited::NextValue => self.put_number(false, digits),
            Awaited::Digits => self.put_number(true, digits),
            Awaited::Separator => Err(LineStop::NoForm),
        }
    }

    // Takes a word, where a value may begin.
    fn take_word(&mut self, text: &[u8]) -> Result<(), LineStop>
        ensures ok { OnOk result (take_word text.now self.old ≡ Some self.new) }
        ensures none { IsErrOf result LineStop.NoForm → take_word text.now self.old ≡ None }
    {
        if text == b"true".as_slice() {
            self.put(WeighedValue::truth(true))
        } else if text == b"false".as_slice() {
            self.put(WeighedValue::truth(false))
        } else {
            Err(LineStop::NoForm)
        }
    }

    // Opens a list.
    fn open_list(&mut self, alloc: Global) -> Result<(), LineStop>
        ensures ok { OnOk result (open_list self.old ≡ Some self.new) }
        ensures none { IsErrOf result LineStop.NoForm → open_list self.old ≡ None }
    {
        if self.open_lists.len() >= MAX_NESTING {
            return Err(LineStop::NoForm);
        }
        self.open_lists.push(OpenList::new(alloc))?;
        self.next = Awaited::FirstValue;
        Ok(())
    }

    // Closes the innermost list.
    fn close_list(&mut self, alloc: Global) -> Result<(), LineStop>
        ensures ok { OnOk result (close_list self.old.values self.old.open_lists ≡ Some self.new) }
        ensures none { IsErrOf result LineStop.NoForm → close_list self.old.values self.old.open_lists ≡ None }
    {
        match self.open_lists.pop() {
            Some(list) => self.put(list.into_value(alloc)?),
            None => Err(LineStop::NoForm),
        }
    }

    // Takes a byte that belongs to no word and no number.
    fn take_mark(&mut self, alloc: Global, byte: u8) -> Result<(), LineStop>
        ensures ok { OnOk result (take_mark byte self.old ≡ Some self.new) }
        ensures none { IsErrOf result LineStop.NoForm → take_mark byte self.old ≡ None }
    {
        match byte {
            b'[' if self.next.awaits_value() => self.open_list(alloc),
            b'-' if self.next.awaits_value() => {
                self.next = Awaited::Digits;
                Ok(())
            }
            b']' if self.next.may_end() => self.close_list(alloc),
            b',' if self.next == Awaited::Separator => {
                self.next = Awaited::NextValue;
                Ok(())
            }
            _ => Err(LineStop::NoForm),
        }
    }

    // Takes a token.
    fn take(&mut self, alloc: Global, token: Token<'_>) -> Result<(), LineStop>
        requires { HasDigits token }
        ensures ok { OnOk result (take_token (token_seen token.entry) self.old ≡ Some self.new) }
        ensures none { IsErrOf result LineStop.NoForm → take_token (token_seen token.entry) self.old ≡ None }
    {
        match token {
            Token::Word(text) if self.next.awaits_value() => self.take_word(text),
            Token::Word(_) => Err(LineStop::NoForm),
            Token::Number(digits) => self.take_digits(digits),
            Token::Mark(byte) => self.take_mark(alloc, byte),
        }
    }

    // Takes a comma that stands right behind a value, if there is one, which changes nothing of what will be read.
    fn take_comma(&mut self, tokens: &mut Tokens<'_>)
        ensures same { read_values self.old tokens.old ≡ read_values self.new tokens.new }
        ensures less { length tokens.new ≤ length tokens.old }
    {
        if self.next == Awaited::Separator && tokens.takes_close(b',') {
            self.next = Awaited::NextValue;
        }
    }

    // Whether the token ends the values.
    fn ends_at(&self, token: Token<'_>) -> bool
        ensures { result ≡ ends_values (token_seen token.entry) self.now }
    {
        matches!(token, Token::Mark(b';')) && self.open_lists.len() == 0 && self.next.may_end()
    }

    // The one value that was read, where there is one and the values may end.
    fn into_single(self) -> Result<Value, LineStop>
        ensures ok { IfOk result (λ v. read_values self (mark (codes ";") ∷ []) ≡ Some (v ∷ [], [])) }
        ensures none { IsErrOf result LineStop.NoForm → (v : Meaning)
            → read_values self (mark (codes ";") ∷ []) ≢ Some (v ∷ [], []) }
    {
        if !self.ends_at(Token::Mark(b';')) {
            return Err(LineStop::NoForm);
        }
        let mut values = self.values;
        match values.pop() {
            Some(node) if values.is_empty() => Ok(value_from(node)),
            _ => Err(LineStop::NoForm),
        }
    }
}

/// Takes values with commas between them, and the `;` behind them.
pub(crate) fn read_values(alloc: Global, tokens: &mut Tokens<'_>) -> Result<Values, LineStop>
    ensures ok { IfOk result (λ values. read_values nothing_read tokens.old ≡ Some (values, tokens.new)) }
    ensures none { IsErrOf result LineStop.NoForm → read_values nothing_read tokens.old ≡ None }
{
    if tokens.takes_close(b';') {
        return Ok(Values::empty());
    }
    let mut reader = ValueReader::new(alloc);
    while let Some(token) = tokens.next() {
        if reader.ends_at(token) {
            return Ok(Values::of_vec(alloc, reader.values)?);
        }
        reader.take(alloc, token)?;
        reader.take_comma(tokens);
    }
    Err(LineStop::NoForm)
}

// The value of a node.
fn value_from(node: ValueNode) -> Value
    ensures { result ≡ value_of node }
{
    match node {
        ValueNode::Int(n) => Value::int(n),
        ValueNode::Bool(b) => Value::truth(b),
        ValueNode::List(values) => Value::list(values),
    }
}

/// Takes one value, which has to be the last of the line. It is read as if `;` stood behind it.
pub(crate) fn read_single_value(alloc: Global, tokens: &mut Tokens<'_>) -> Result<Value, LineStop>
    ensures ok { IfOk result (λ v. read_values nothing_read (tokens.old ++ mark (codes ";") ∷ []) ≡ Some (v ∷ [], [])) }
    ensures none { IsErrOf result LineStop.NoForm → (v : Meaning)
        → read_values nothing_read (tokens.old ++ mark (codes ";") ∷ []) ≢ Some (v ∷ [], []) }
{
    let mut reader = ValueReader::new(alloc);
    while let Some(token) = tokens.next() {
        if reader.ends_at(token) {
            return Err(LineStop::NoForm);
        }
        reader.take(alloc, token)?;
    }
    reader.into_single()
}
