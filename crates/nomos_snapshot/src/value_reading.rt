//! How the values of a snapshot's lines are read.
ghost use Rattle.std.specs.Prelude.{◌≡◌, ◌≢◌, ◌≤◌, ◌<◌, ◌^◌, ◌++◌, ◌↔◌, ℕ, List, IfOk, IsTrue, MatchOption, SomeIff, codes, map, pos, neg_ℤ};
ghost use Rattle.std.specs.Fmt.{signed_decimal};
ghost use Rattle.nomos_ir.specs.Value.{Value as Meaning, ValueList, list, value_list};
ghost use Rattle.nomos_ir.specs.ValueNode.{value_of};
ghost use Rattle.nomos_printing.specs.ReadAs.{ReadsAs};
ghost use Rattle.nomos_printing.specs.ValueTexts.{value_text};
ghost use Rattle.nomos_snapshot.specs.LineValue.{IsLineNumber, IsLineValue};
ghost use Rattle.nomos_snapshot.specs.mirror.ValueReading.{IsScalar, Ends, BeginsScalar, BeginsValue, HasNoValue, BeginsRow, HasNoRow};

use nomos_ir::value::{Value, Values};
use nomos_ir::value_node::ValueNode;
use nomos_printing::number::read_number;
use nomos_printing::splitting::{behind, is_word};
use std::alloc::{AllocError, Global};

/// The most lists of a value that stand in one another.
pub(crate) const MAX_NESTING: u32 = 256;

// The number below zero of this size.
fn negative(size: u64) -> Option<i64>
    requires { size ≤ 2 ^ 63 }
    ensures { SomeIff result (0 < size) (neg_ℤ (pos size)) }
{
    if size == 0 {
        None
    } else {
        0i64.checked_sub_unsigned(size)
    }
}

// The number with its sign that a text writes.
fn read_signed(text: &[u8]) -> Option<i64>
    ensures { ReadsAs IsLineNumber signed_decimal text.now result }
{
    match behind(text, b"-") {
        Some(digits) => negative(read_number(digits, 1 << 63)?),
        None => Some(read_number(text, (1 << 63) - 1)? as i64),
    }
}

// The number or truth value that a text writes.
fn read_scalar(text: &[u8]) -> Option<ValueNode>
    ensures { MatchOption result ((v : Meaning) → IsScalar v → text.now ≢ value_text v)
        (λ node. IsScalar (value_of node) × (text.now ≡ value_text (value_of node))) }
{
    if is_word(text, b"true") {
        return Some(ValueNode::Bool(true));
    }
    if is_word(text, b"false") {
        return Some(ValueNode::Bool(false));
    }
    Some(ValueNode::Int(read_signed(text)?))
}

// What stands before the first comma or `]`, and the rest.
fn split_scalar(text: &[u8]) -> (&[u8], &[u8])
    ensures { BeginsScalar text.now result.0.now result.1.now }
{
    let length = text
        .iter()
        .take_while(|byte| **byte != b',' && **byte != b']')
        .count();
    (&text[..length], &text[length..])
}

// Whether a text may stand behind a value: it is empty, or begins with a comma or `]`.
fn ends(text: &[u8]) -> bool
    ensures { IsTrue result ↔ Ends text.now }
{
    match text {
        [] => true,
        [first, ..] => *first == b',' || *first == b']',
    }
}

// The values of a list before its `]`, and what is left behind that; none where it does not stand there.
fn close_list(
    alloc: Global,
    nodes: Vec<ValueNode>,
    text: &[u8],
) -> Result<Option<(Values, &[u8])>, AllocError>
    ensures { IfOk result (λ found. MatchOption found ((left : List ℕ) → text.now ≢ codes "]" ++ left)
        (λ p. (p.0 ≡ map value_of nodes.items) × (text.now ≡ codes "]" ++ p.1.now))) }
{
    match behind(text, b"]") {
        Some(left) => Ok(Some((Values::of_vec(alloc, nodes)?, left))),
        None => Ok(None),
    }
}

// The value that stands first in a text, up to a comma, `]` or the end, and what is left behind it, where no more than
// so many lists stand in one another. It uses the machine's stack in step with that.
#[cycle(nested)]
fn take_value(
    alloc: Global,
    text: &[u8],
    depth: u32,
) -> Result<Option<(ValueNode, &[u8])>, AllocError>
    ensures { IfOk result (λ found. MatchOption found (HasNoValue depth text.now)
        (λ p. BeginsValue depth text.now (value_of p.0) p.1.now)) }
{
    let Some(items) = behind(text, b"[") else {
        let (word, left) = split_scalar(text);
        return match read_scalar(word) {
            Some(node) => Ok(Some((node, left))),
            None => Ok(None),
        };
    };
    if depth == 0 {
        return Ok(None);
    }
    let Some((values, left)) = take_items(alloc, items, depth - 1)? else {
        return Ok(None);
    };
    if ends(left) {
        Ok(Some((ValueNode::List(values), left)))
    } else {
        Ok(None)
    }
}

// The values of the list whose `[` stands before a text, and what is left behind its `]`, where no more than so many
// lists stand in one another in each of them.
#[cycle(nested)]
fn take_items(alloc: Global, text: &[u8], depth: u32) -> Result<Option<(Values, &[u8])>, AllocError>
    ensures { IfOk result (λ found. MatchOption found (HasNoRow depth text.now)
        (λ p. BeginsRow depth text.now (value_list p.0) p.1.now)) }
{
    if let Some(left) = behind(text, b"]") {
        return Ok(Some((Values::empty(), left)));
    }
    let mut nodes = Vec::new(alloc);
    let mut left = text;
    while let Some((node, rest)) = take_value(alloc, left, depth)? {
        nodes.push(node)?;
        match behind(rest, b",") {
            Some(more) => left = more,
            None => return close_list(alloc, nodes, rest),
        }
    }
    Ok(None)
}

// The value of a node.
fn value_from(node: ValueNode) -> Value
    ensures { result ≡ value_of node }
{
    match node {
        ValueNode::Int(n) => Value::int(n),
        ValueNode::Bool(b) => Value::truth(b),
        ValueNode::List(values) => Value::list(values),
    }
}

// The node of the value that a whole text writes, if it is one of a snapshot.
fn read_node(alloc: Global, text: &[u8]) -> Result<Option<ValueNode>, AllocError>
    ensures { IfOk result (λ found. MatchOption found ((v : Meaning) → IsLineValue v → text.now ≢ value_text v)
        (λ node. IsLineValue (value_of node) × (text.now ≡ value_text (value_of node)))) }
{
    let Some((node, left)) = take_value(alloc, text, MAX_NESTING)? else {
        return Ok(None);
    };
    if left.is_empty() {
        Ok(Some(node))
    } else {
        Ok(None)
    }
}

/// The value that a text writes, if it is one of a snapshot: numbers of 64 bits, and at most 256 lists in one another.
pub(crate) fn read_value(alloc: Global, text: &[u8]) -> Result<Option<Value>, AllocError>
    ensures { IfOk result (λ found. MatchOption found ((v : Meaning) → IsLineValue v → text.now ≢ value_text v)
        (λ v. IsLineValue v × (text.now ≡ value_text v))) }
{
    match read_node(alloc, text)? {
        Some(node) => Ok(Some(value_from(node))),
        None => Ok(None),
    }
}

// The values of a list's node.
fn list_of(node: ValueNode) -> Option<Values>
    ensures { MatchOption result ((vs : ValueList) → value_of node ≢ list vs)
        (λ items. value_of node ≡ list (value_list items)) }
{
    match node {
        ValueNode::Int(_) => None,
        ValueNode::Bool(_) => None,
        ValueNode::List(values) => Some(values),
    }
}

/// The values of the list that a text writes, if it is one of a snapshot.
pub(crate) fn read_list(alloc: Global, text: &[u8]) -> Result<Option<Values>, AllocError>
    ensures { IfOk result (λ found. MatchOption found
        ((items : List Meaning) → IsLineValue (list (value_list items))
        → text.now ≢ value_text (list (value_list items)))
        (λ items. IsLineValue (list (value_list items)) × (text.now ≡ value_text (list (value_list items))))) }
{
    match read_node(alloc, text)? {
        Some(node) => Ok(list_of(node)),
        None => Ok(None),
    }
}
