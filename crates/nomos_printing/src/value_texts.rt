//! Values as text.

ghost use Rattle.std.specs.Prelude.{◌≡◌, ◌++◌, codes, OnOk, if◌then◌else◌};
ghost use Rattle.std.specs.Fmt.{signed_decimal};
ghost use Rattle.nomos_ir.specs.Value.{value_list};
ghost use Rattle.nomos_ir.specs.ValueNode.{value_of};
ghost use Rattle.nomos_printing.specs.ValueTexts.{value_text, row_text};

use itoa::Buffer;
use nomos_ir::value::{Value, Values};
use nomos_ir::value_node::ValueNode;
use std::alloc::AllocError;

// Appends a number with its sign.
fn push_signed(text: &mut Vec<u8>, n: i64) -> Result<(), AllocError>
    ensures { OnOk result (text.new.items ≡ text.old.items ++ signed_decimal n) }
{
    let mut buffer = Buffer::new();
    text.extend_from_slice(buffer.format(n).as_bytes())?;
    Ok(())
}

// The word for a truth value.
fn truth_word(b: bool) -> &'static [u8]
    ensures { result.now ≡ (if b then codes "true" else codes "false") }
{
    if b { b"true" } else { b"false" }
}

// Appends values, with a comma between one and the next.
#[cycle(appended)]
fn push_row(text: &mut Vec<u8>, values: &Values) -> Result<(), AllocError>
    ensures { OnOk result (text.new.items ≡ text.old.items ++ row_text (value_list values.now)) }
{
    let Some((first, rest)) = values.parts() else {
        return Ok(());
    };
    push_node(text, first)?;
    let mut left = rest;
    while let Some((next, rest)) = left.parts() {
        text.push(b',')?;
        push_node(text, next)?;
        left = rest;
    }
    Ok(())
}

// Appends the value of a node. It uses the machine's stack in step with how deep lists are nested in the value.
#[cycle(appended)]
fn push_node(text: &mut Vec<u8>, node: &ValueNode) -> Result<(), AllocError>
    ensures { OnOk result (text.new.items ≡ text.old.items ++ value_text (value_of node.now)) }
{
    match node {
        ValueNode::Int(n) => push_signed(text, *n),
        ValueNode::Bool(b) => {
            text.extend_from_slice(truth_word(*b))?;
            Ok(())
        }
        ValueNode::List(values) => {
            text.push(b'[')?;
            push_row(text, values)?;
            text.push(b']')?;
            Ok(())
        }
    }
}

/// Appends a value: in decimal, as `true` or `false`, or as `[a,b]` without blanks. It uses the machine's stack in step
/// with how deep lists are nested in the value.
pub fn push_value(text: &mut Vec<u8>, value: &Value) -> Result<(), AllocError>
    ensures { OnOk result (text.new.items ≡ text.old.items ++ value_text value.now) }
{
    push_node(text, value.node())
}
