//! How the lines of a snapshot are written, word by word.
ghost use Rattle.std.specs.Prelude.{◌≡◌, ◌++◌, ◌∷◌, [], OnOk, codes, decimal, map};
ghost use Rattle.nomos_ir.specs.declared.lists.ProgramLists.{ProgramLists};
ghost use Rattle.nomos_ir.specs.Value.{list, value_list};
ghost use Rattle.nomos_printing.specs.ValueTexts.{value_text};
ghost use Rattle.nomos_snapshot.specs.Line.{label_word, line_text, mode_word, name_word, way_word};
ghost use Rattle.nomos_snapshot.specs.LineWords.{joined};
ghost use Rattle.nomos_snapshot.specs.mirror.WrittenWords.{word_text};

use crate::line::SnapshotLine;
use nomos_base::push_gas;
use nomos_deeds::sight::SeenProcess;
use nomos_ir::ids::{Label, TypeId, VarId};
use nomos_ir::mode::Mode;
use nomos_ir::program::Program;
use nomos_ir::value::{Value, Values};
use nomos_machine::object::{Message, Payload};
use nomos_printing::number::push_number;
use nomos_printing::value_texts::push_value;
use std::alloc::AllocError;

/// A word of a line behind its first one.
#[derive(Clone, Copy)]
enum LineWord<'a> {
    Text(&'a [u8]),
    Number(u32),
    /// A name that may be absent.
    Name(Option<u32>),
    /// In Dths.
    Gas(u128),
    Value(&'a Value),
    List(&'a Values),
}

// Appends an amount in Dths.
fn push_dths(text: &mut Vec<u8>, dths: u128) -> Result<(), AllocError>
    ensures { OnOk result (text.new.items ≡ text.old.items ++ decimal dths) }
{
    push_gas(text, dths, 1)
}

// Appends a name, or that there is none.
fn push_name(text: &mut Vec<u8>, name: Option<u32>) -> Result<(), AllocError>
    ensures { OnOk result (text.new.items ≡ text.old.items ++ name_word name) }
{
    match name {
        Some(name) => push_number(text, u64::from(name)),
        None => {
            text.push(b'-')?;
            Ok(())
        }
    }
}

// Appends a list of values.
fn push_list(text: &mut Vec<u8>, items: &Values) -> Result<(), AllocError>
    ensures { OnOk result (text.new.items ≡ text.old.items ++ value_text (list (value_list items.now))) }
{
    let value = Value::list(items.copy()?);
    push_value(text, &value)
}

// Appends a word.
fn push_word(text: &mut Vec<u8>, word: &LineWord<'_>) -> Result<(), AllocError>
    ensures { OnOk result (text.new.items ≡ text.old.items ++ word_text word.now) }
{
    match word {
        LineWord::Text(bytes) => {
            text.extend_from_slice(bytes)?;
            Ok(())
        }
        LineWord::Number(n) => push_number(text, u64::from(*n)),
        LineWord::Name(name) => push_name(text, *name),
        LineWord::Gas(dths) => push_dths(text, *dths),
        LineWord::Value(value) => push_value(text, value),
        LineWord::List(items) => push_list(text, items),
    }
}

// Appends a line of these words, with its line feed.
fn push_words(text: &mut Vec<u8>, first: &[u8], others: &[LineWord<'_>]) -> Result<(), AllocError>
    ensures { OnOk result (text.new.items
        ≡ text.old.items ++ (joined (first.now ∷ map word_text others.now) ++ 10 ∷ [])) }
{
    text.extend_from_slice(first)?;
    for word in others {
        text.push(b' ')?;
        push_word(text, word)?;
    }
    text.push(b'\n')?;
    Ok(())
}

/// Appends the first line.
pub(crate) fn push_head(text: &mut Vec<u8>) -> Result<(), AllocError>
    ensures { (lists : ProgramLists) → OnOk result (text.new.items
        ≡ text.old.items ++ (line_text lists SnapshotLine.Head ++ 10 ∷ [])) }
{
    push_words(text, b"nomos-ledger", &[LineWord::Text(b"1")])
}

/// Appends the line of the unit.
pub(crate) fn push_unit(text: &mut Vec<u8>, unit: u32) -> Result<(), AllocError>
    ensures { (lists : ProgramLists) → OnOk result (text.new.items
        ≡ text.old.items ++ (line_text lists (SnapshotLine.Unit unit) ++ 10 ∷ [])) }
{
    push_words(text, b"unit", &[LineWord::Number(unit)])
}

/// Appends the line of the gas spent.
pub(crate) fn push_spent(text: &mut Vec<u8>, dths: u128) -> Result<(), AllocError>
    ensures { (lists : ProgramLists) → OnOk result (text.new.items
        ≡ text.old.items ++ (line_text lists (SnapshotLine.Spent dths) ++ 10 ∷ [])) }
{
    push_words(text, b"spent", &[LineWord::Gas(dths)])
}

/// Appends the line of the next numbers.
pub(crate) fn push_next(
    text: &mut Vec<u8>,
    next_object: u32,
    next_name: u32,
) -> Result<(), AllocError>
    ensures { (lists : ProgramLists) → OnOk result (text.new.items
        ≡ text.old.items ++ (line_text lists (SnapshotLine.Next next_object next_name) ++ 10 ∷ [])) }
{
    push_words(
        text,
        b"next",
        &[LineWord::Number(next_object), LineWord::Number(next_name)],
    )
}

/// Appends the line of an account.
pub(crate) fn push_account(text: &mut Vec<u8>, name: &[u8], dths: u128) -> Result<(), AllocError>
    ensures { (lists : ProgramLists) → OnOk result (text.new.items
        ≡ text.old.items ++ (line_text lists (SnapshotLine.Account name.now dths) ++ 10 ∷ [])) }
{
    push_words(
        text,
        b"account",
        &[LineWord::Text(name), LineWord::Gas(dths)],
    )
}

/// Appends the line of a contract.
pub(crate) fn push_contract(text: &mut Vec<u8>, name: &[u8], shared: u32) -> Result<(), AllocError>
    ensures { (lists : ProgramLists) → OnOk result (text.new.items
        ≡ text.old.items ++ (line_text lists (SnapshotLine.Contract name.now shared) ++ 10 ∷ [])) }
{
    push_words(
        text,
        b"contract",
        &[LineWord::Text(name), LineWord::Number(shared)],
    )
}

/// Appends the line of a name.
pub(crate) fn push_typed_name(text: &mut Vec<u8>, name: u32, t: TypeId) -> Result<(), AllocError>
    ensures { (lists : ProgramLists) → OnOk result (text.new.items
        ≡ text.old.items ++ (line_text lists (SnapshotLine.Name name t) ++ 10 ∷ [])) }
{
    push_words(
        text,
        b"name",
        &[LineWord::Number(name), LineWord::Number(t.0)],
    )
}

// The word for a mode.
fn mode_text(mode: Mode) -> &'static [u8]
    ensures { result.now ≡ mode_word mode }
{
    match mode {
        Mode::R => b"R",
        Mode::S => b"S",
        Mode::L => b"L",
        Mode::T => b"T",
    }
}

/// Appends the line of a process.
pub(crate) fn push_process(text: &mut Vec<u8>, p: &SeenProcess) -> Result<(), AllocError>
    ensures { (lists : ProgramLists) → OnOk result (text.new.items
        ≡ text.old.items ++ (line_text lists (SnapshotLine.Process p.now) ++ 10 ∷ [])) }
{
    let words = [
        LineWord::Number(p.pid),
        LineWord::Text(mode_text(p.mode)),
        LineWord::Number(p.code.0),
        LineWord::Text(b"offers"),
        LineWord::Number(p.offers),
        LineWord::Text(b"base"),
        LineWord::Name(p.base),
        LineWord::Text(b"purse"),
        LineWord::Gas(p.purse),
        LineWord::Text(b"payer"),
        LineWord::Number(p.payer),
    ];
    push_words(text, b"process", &words)
}

/// Appends the line of a variable with its value.
pub(crate) fn push_value_line(text: &mut Vec<u8>, v: VarId, value: &Value) -> Result<(), AllocError>
    ensures { (lists : ProgramLists) → OnOk result (text.new.items
        ≡ text.old.items ++ (line_text lists (SnapshotLine.Value v value.now) ++ 10 ∷ [])) }
{
    push_words(
        text,
        b"value",
        &[LineWord::Number(v.0), LineWord::Value(value)],
    )
}

/// Appends the line of a variable with its list.
pub(crate) fn push_list_line(
    text: &mut Vec<u8>,
    v: VarId,
    amount: u128,
    items: &Values,
) -> Result<(), AllocError>
    ensures { (lists : ProgramLists) → OnOk result (text.new.items
        ≡ text.old.items ++ (line_text lists (SnapshotLine.List v amount items.now) ++ 10 ∷ [])) }
{
    let words = [
        LineWord::Number(v.0),
        LineWord::Gas(amount),
        LineWord::List(items),
    ];
    push_words(text, b"list", &words)
}

/// Appends the line of a variable with its channel.
pub(crate) fn push_channel_line(text: &mut Vec<u8>, v: VarId, name: u32) -> Result<(), AllocError>
    ensures { (lists : ProgramLists) → OnOk result (text.new.items
        ≡ text.old.items ++ (line_text lists (SnapshotLine.Channel v name) ++ 10 ∷ [])) }
{
    push_words(
        text,
        b"chan",
        &[LineWord::Number(v.0), LineWord::Number(name)],
    )
}

// The text of a label of the program.
fn label_text(program: &Program, l: Label) -> &[u8]
    ensures { result.now ≡ label_word program.now l.0 }
{
    match program.lists().labels.as_slice().get(l.0 as usize) {
        Some(label) => label.as_bytes(),
        None => &[],
    }
}

// The word for the way of a message.
fn way_text(to_client: bool) -> &'static [u8]
    ensures { result.now ≡ way_word to_client }
{
    if to_client { b"client" } else { b"provider" }
}

// Appends the line of a message that brings these words.
fn push_bringing<'a>(
    text: &mut Vec<u8>,
    message: &Message,
    kind: &'a [u8],
    word: LineWord<'a>,
) -> Result<(), AllocError>
    ensures { OnOk result (text.new.items ≡ text.old.items ++ (joined (codes "message" ∷ decimal message.now.number
        ∷ way_word message.now.to_client ∷ decimal message.now.from ∷ name_word message.now.next ∷ kind.now
        ∷ word_text word.entry ∷ codes "purse" ∷ decimal message.now.purse ∷ []) ++ 10 ∷ [])) }
{
    let words = [
        LineWord::Number(message.number),
        LineWord::Text(way_text(message.to_client)),
        LineWord::Number(message.from),
        LineWord::Name(message.next),
        LineWord::Text(kind),
        word,
        LineWord::Text(b"purse"),
        LineWord::Gas(message.purse),
    ];
    push_words(text, b"message", &words)
}

// Appends the line of a message that brings nothing but what this word says.
fn push_plain(text: &mut Vec<u8>, message: &Message, kind: &[u8]) -> Result<(), AllocError>
    ensures { OnOk result (text.new.items ≡ text.old.items ++ (joined (codes "message" ∷ decimal message.now.number
        ∷ way_word message.now.to_client ∷ decimal message.now.from ∷ name_word message.now.next ∷ kind.now
        ∷ codes "purse" ∷ decimal message.now.purse ∷ []) ++ 10 ∷ [])) }
{
    let words = [
        LineWord::Number(message.number),
        LineWord::Text(way_text(message.to_client)),
        LineWord::Number(message.from),
        LineWord::Name(message.next),
        LineWord::Text(kind),
        LineWord::Text(b"purse"),
        LineWord::Gas(message.purse),
    ];
    push_words(text, b"message", &words)
}

/// Appends the line of a message.
pub(crate) fn push_message(
    text: &mut Vec<u8>,
    program: &Program,
    message: &Message,
) -> Result<(), AllocError>
    ensures { OnOk result (text.new.items
        ≡ text.old.items ++ (line_text program.now (SnapshotLine.Message message.now) ++ 10 ∷ [])) }
{
    match &message.payload {
        Payload::Label(l) => {
            push_bringing(
                text,
                message,
                b"label",
                LineWord::Text(label_text(program, *l)),
            )
        }
        Payload::Value(value) => push_bringing(text, message, b"value", LineWord::Value(value)),
        Payload::Channel(name) => push_bringing(text, message, b"channel", LineWord::Number(*name)),
        Payload::Pay => push_plain(text, message, b"pay"),
        Payload::Close => push_plain(text, message, b"close"),
    }
}

/// Appends a line with its line feed. A label that the program lacks is an empty word.
pub fn push_line(
    text: &mut Vec<u8>,
    program: &Program,
    line: &SnapshotLine,
) -> Result<(), AllocError>
    ensures { OnOk result (text.new.items ≡ text.old.items ++ (line_text program.now line.now ++ 10 ∷ [])) }
{
    match line {
        SnapshotLine::Head => push_head(text),
        SnapshotLine::Unit(unit) => push_unit(text, *unit),
        SnapshotLine::Next(object, name) => push_next(text, *object, *name),
        SnapshotLine::Spent(dths) => push_spent(text, *dths),
        SnapshotLine::Account(name, dths) => push_account(text, name.as_bytes(), *dths),
        SnapshotLine::Contract(name, shared) => push_contract(text, name.as_bytes(), *shared),
        SnapshotLine::Name(name, t) => push_typed_name(text, *name, *t),
        SnapshotLine::Process(p) => push_process(text, p),
        SnapshotLine::Value(v, value) => push_value_line(text, *v, value),
        SnapshotLine::List(v, amount, items) => push_list_line(text, *v, *amount, items),
        SnapshotLine::Channel(v, name) => push_channel_line(text, *v, *name),
        SnapshotLine::Message(message) => push_message(text, program, message),
    }
}
