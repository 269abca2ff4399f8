//! How the lines of messages are read.
ghost use Rattle.std.specs.Prelude.{◌≡◌, ◌≢◌, ◌∷◌, ◌++◌, [], List, ℕ, IfOk, MatchOption, decimal, codes};
ghost use Rattle.nomos_ir.specs.declared.ids.Label.{Label as LabelNumber};
ghost use Rattle.nomos_ir.specs.declared.lists.ProgramLists.{ProgramLists};
ghost use Rattle.nomos_machine.specs.declared.object.Payload.{Payload as Brought};
ghost use Rattle.nomos_printing.specs.ReadAs.{ReadsAs};
ghost use Rattle.nomos_snapshot.specs.Line.{IsGas, IsLabel, IsLinePayload, label_word, payload_words, way_word};
ghost use Rattle.nomos_snapshot.specs.declared.message_lines.MessageHead.{MessageHead as Head};
ghost use Rattle.nomos_snapshot.specs.mirror.LineKinds.{ReadsWords, IsMessageHead, IsMessageOf, head_words};

use crate::label_table::LabelTable;
use crate::line::SnapshotLine;
use crate::line_words::Words;
use crate::marked::{gas_behind, read_any_name};
use crate::value_reading::read_value;
use nomos_ir::ids::Label;
use nomos_machine::object::{Message, Payload};
use nomos_printing::number::read_u32;
use nomos_printing::splitting::is_word;
use std::alloc::{AllocError, Global};

/// What stands in the line of a message before what it brings.
#[derive(Clone, Copy)]
struct MessageHead {
    number: u32,
    to_client: bool,
    from: u32,
    next: Option<u32>,
}

// Whether a message goes to the client, as a word says.
fn read_way(word: &[u8]) -> Option<bool>
    ensures { ReadsAs (λ b. Unit {0}) way_word word.now result }
{
    if is_word(word, b"client") {
        Some(true)
    } else if is_word(word, b"provider") {
        Some(false)
    } else {
        None
    }
}

// The number, the way and the names of a message, which are the next words.
fn take_head(words: &mut Words<'_>) -> Option<MessageHead>
    ensures { MatchOption result
        ((h : Head) (rest : List (List ℕ)) → IsMessageHead h → words.old ≢ head_words h rest)
        (λ h. IsMessageHead h × (words.old ≡ head_words h words.new)) }
{
    let number = read_u32(words.next_word()?)?;
    let to_client = read_way(words.next_word()?)?;
    let from = read_u32(words.next_word()?)?;
    let next = read_any_name(words.next_word()?)?;
    Some(MessageHead {
        number,
        to_client,
        from,
        next,
    })
}

// The label that a word is.
fn read_label(labels: &LabelTable, word: &[u8]) -> Option<Label>
    ensures { (lists : ProgramLists) → labels.now ≡ lists.labels → MatchOption result
        ((l : LabelNumber) → IsLabel lists l → word.now ≢ label_word lists l.0)
        (λ l. IsLabel lists l × (word.now ≡ label_word lists l.0)) }
{
    Some(Label(labels.number_of(word)?))
}

// What a message brings that is one word and another.
fn read_brought(
    alloc: Global,
    labels: &LabelTable,
    kind: &[u8],
    word: &[u8],
) -> Result<Option<Payload>, AllocError>
    ensures { (lists : ProgramLists) → labels.now ≡ lists.labels → IfOk result (λ found. MatchOption found
        ((p : Brought) → IsLinePayload lists p → kind.now ∷ word.now ∷ [] ≢ payload_words lists p)
        (λ p. IsLinePayload lists p × (kind.now ∷ word.now ∷ [] ≡ payload_words lists p))) }
{
    if is_word(kind, b"label") {
        return match read_label(labels, word) {
            Some(label) => Ok(Some(Payload::Label(label))),
            None => Ok(None),
        };
    }
    if is_word(kind, b"channel") {
        return match read_u32(word) {
            Some(name) => Ok(Some(Payload::Channel(name))),
            None => Ok(None),
        };
    }
    if !is_word(kind, b"value") {
        return Ok(None);
    }
    match read_value(alloc, word)? {
        Some(value) => Ok(Some(Payload::Value(value))),
        None => Ok(None),
    }
}

// What a message brings, which is the next word, or the next two.
fn take_payload(
    alloc: Global,
    labels: &LabelTable,
    words: &mut Words<'_>,
) -> Result<Option<Payload>, AllocError>
    ensures { (lists : ProgramLists) → labels.now ≡ lists.labels → IfOk result (λ found. MatchOption found
        ((p : Brought) (rest : List (List ℕ)) → IsLinePayload lists p → words.old ≢ payload_words lists p ++ rest)
        (λ p. IsLinePayload lists p × (words.old ≡ payload_words lists p ++ words.new))) }
{
    let Some(kind) = words.next_word() else {
        return Ok(None);
    };
    if is_word(kind, b"pay") {
        return Ok(Some(Payload::Pay));
    }
    if is_word(kind, b"close") {
        return Ok(Some(Payload::Close));
    }
    match words.next_word() {
        Some(word) => read_brought(alloc, labels, kind, word),
        None => Ok(None),
    }
}

// The purse, where the line ends with it.
fn last_purse(words: &mut Words<'_>) -> Option<u128>
    ensures { MatchOption result ((n : ℕ) → IsGas n → words.old ≢ codes "purse" ∷ decimal n ∷ [])
        (λ n. IsGas n × (words.old ≡ codes "purse" ∷ decimal n ∷ [])) }
{
    let purse = gas_behind(words, b"purse")?;
    match words.next_word() {
        Some(_) => None,
        None => Some(purse),
    }
}

/// A message, behind its word.
pub(crate) fn read_message(
    alloc: Global,
    labels: &LabelTable,
    words: &mut Words<'_>,
) -> Result<Option<SnapshotLine>, AllocError>
    ensures { (lists : ProgramLists) → labels.now ≡ lists.labels
        → IfOk result (ReadsWords (IsMessageOf lists) lists words.old) }
{
    let Some(head) = take_head(words) else {
        return Ok(None);
    };
    let Some(payload) = take_payload(alloc, labels, words)? else {
        return Ok(None);
    };
    let Some(purse) = last_purse(words) else {
        return Ok(None);
    };
    Ok(Some(SnapshotLine::Message(Message {
        number: head.number,
        to_client: head.to_client,
        from: head.from,
        next: head.next,
        payload,
        purse,
    })))
}
