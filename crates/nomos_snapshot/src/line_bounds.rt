//! Which numbers and values of a ledger the lines of its snapshot may have.
ghost use Rattle.std.specs.Prelude.{◌↔◌, IsTrue};
ghost use Rattle.nomos_ir.specs.Value.{list, value_list};
ghost use Rattle.nomos_ir.specs.ValueNode.{value_of};
ghost use Rattle.nomos_snapshot.specs.Line.{IsGas, IsLabel, IsLinePayload, IsMessageLine, IsNumberIfAny, IsPlace, IsProcessLine, IsTypeNumber};
ghost use Rattle.nomos_snapshot.specs.LineValue.{IsLineValue};
ghost use Rattle.nomos_snapshot.specs.mirror.ValueReading.{AreWithin, IsWithin};

use crate::plain_lines::GAS_LIMIT;
use crate::value_reading::MAX_NESTING;
use nomos_deeds::sight::SeenProcess;
use nomos_ir::ids::{CodeId, Label, TypeId};
use nomos_ir::program::Program;
use nomos_ir::value::{Value, Values};
use nomos_ir::value_node::ValueNode;
use nomos_machine::object::{Message, Payload};

/// Whether an amount of gas, in Dths, is one that a line may have.
pub(crate) fn is_gas(dths: u128) -> bool
    ensures { IsTrue result ↔ IsGas dths }
{
    dths < GAS_LIMIT
}

/// Whether a type is one of the program's.
pub(crate) fn is_type(program: &Program, t: TypeId) -> bool
    ensures { IsTrue result ↔ IsTypeNumber program.now t }
{
    (t.0 as usize) < program.lists().types.len()
}

/// Whether an instruction is one of the program's.
pub(crate) fn is_place(program: &Program, c: CodeId) -> bool
    ensures { IsTrue result ↔ IsPlace program.now c }
{
    (c.0 as usize) < program.lists().code.len()
}

// Whether a label is one of the program's.
fn is_label(program: &Program, l: Label) -> bool
    ensures { IsTrue result ↔ IsLabel program.now l }
{
    (l.0 as usize) < program.lists().labels.len()
}

// Whether no more than so many lists stand in one another in a value. It uses the machine's stack in step with that.
#[cycle(within)]
fn is_within(node: &ValueNode, depth: u32) -> bool
    ensures { IsTrue result ↔ IsWithin depth (value_of node.now) }
{
    match node {
        ValueNode::Int(n) => {
            // A number that is read is known to have 64 bits.
            let _number = *n;
            true
        }
        ValueNode::Bool(_) => true,
        ValueNode::List(items) => depth > 0 && are_within(items, depth - 1),
    }
}

// Whether no more than so many lists stand in one another in each of these values.
#[cycle(within)]
fn are_within(items: &Values, depth: u32) -> bool
    ensures { IsTrue result ↔ AreWithin depth (value_list items.now) }
{
    let mut left = items;
    while let Some((first, others)) = left.parts() {
        if !is_within(first, depth) {
            return false;
        }
        left = others;
    }
    true
}

/// Whether a value is one that a line may have.
pub(crate) fn is_line_value(value: &Value) -> bool
    ensures { IsTrue result ↔ IsLineValue value.now }
{
    is_within(value.node(), MAX_NESTING)
}

/// Whether the list of these values is one that a line may have.
pub(crate) fn is_line_list(items: &Values) -> bool
    ensures { IsTrue result ↔ IsLineValue (list (value_list items.now)) }
{
    are_within(items, MAX_NESTING - 1)
}

/// Whether what a message brings is what a line may have.
pub(crate) fn is_line_payload(program: &Program, payload: &Payload) -> bool
    ensures { IsTrue result ↔ IsLinePayload program.now payload.now }
{
    match payload {
        Payload::Label(l) => is_label(program, *l),
        Payload::Value(value) => is_line_value(value),
        Payload::Channel(name) => {
            // A name that is read is known to have 32 bits.
            let _name = *name;
            true
        }
        Payload::Pay | Payload::Close => true,
    }
}

/// Whether the line of a process has the form.
pub(crate) fn is_process_line(program: &Program, seen: SeenProcess) -> bool
    ensures { IsTrue result ↔ IsProcessLine program.now seen }
{
    is_place(program, seen.code) && is_gas(seen.purse)
}

// Whether a name that may be absent has 32 bits: where it is read it is known to.
fn is_any_name(name: Option<u32>) -> bool
    ensures { IsTrue result ↔ IsNumberIfAny name }
{
    match name {
        Some(_name) => true,
        None => true,
    }
}

/// Whether the line of a message has the form.
pub(crate) fn is_message_line(program: &Program, message: &Message) -> bool
    ensures { IsTrue result ↔ IsMessageLine program.now message.now }
{
    // Numbers that are read are known to have 32 bits.
    let _number = message.number;
    let _from = message.from;
    is_any_name(message.next) && is_line_payload(program, &message.payload) && is_gas(message.purse)
}
