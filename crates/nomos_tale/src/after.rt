//! What is told of a firing behind it: what came to be, and what the process knows now.
use crate::tale_words::{Actor, name_at, push_found, push_pair};
use nomos_deeds::machine::Machine;
use nomos_deeds::sight::Sight;
use nomos_ir::code_node::{Chan, CodeNode};
use nomos_ir::ids::{CodeId, VarId};
use nomos_ir::value::Value;
use nomos_printing::value_texts::push_value;
use std::alloc::AllocError;

/// How far a state was before a firing: the number of its next object, and how many values were emitted.
#[derive(Clone, Copy)]
pub(crate) struct Reached {
    next_object: u32,
    emitted: usize,
}

impl Reached {
    /// How far a state is.
    pub(crate) fn of<M: Machine>(state: &M) -> Reached {
        Reached {
            next_object: state.next_object(),
            emitted: state.results().len(),
        }
    }
}

// Appends a value.
fn push_told(text: &mut Vec<u8>, value: &Value) -> Result<(), AllocError> {
    text.extend_from_slice(b" value ")?;
    push_value(text, value)
}

// Appends the value of a variable.
fn push_bound<S: Sight>(
    text: &mut Vec<u8>,
    state: &S,
    pid: u32,
    v: VarId,
) -> Result<(), AllocError> {
    match state.values(pid).iter().find(|bound| bound.0 == v) {
        Some((_, value)) => push_told(text, value),
        None => Ok(()),
    }
}

// Appends the object that came to be, if one did, and the name that a process offers which was spawned.
fn push_made<M: Machine>(
    text: &mut Vec<u8>,
    state: &M,
    actor: Actor<'_>,
    before: Reached,
) -> Result<(), AllocError> {
    let number = before.next_object;
    if state.next_object() == number {
        return Ok(());
    }
    push_pair(text, b" made ", number)?;
    match (actor.node, state.process(number)) {
        (CodeNode::Spawn(..), Some(seen)) => push_pair(text, b" offers ", seen.offers),
        _ => Ok(()),
    }
}

// Appends which branch a process took: the first of two, if it stands at this instruction now.
fn push_branch<S: Sight>(
    text: &mut Vec<u8>,
    state: &S,
    pid: u32,
    first: CodeId,
    words: (&[u8], &[u8]),
) -> Result<(), AllocError> {
    if let Some(seen) = state.process(pid) {
        let word = if seen.code == first { words.0 } else { words.1 };
        text.extend_from_slice(word)?;
    }
    Ok(())
}

/// Appends what a process has done at the instruction at which it stood.
pub(crate) fn push_after<M: Machine>(
    text: &mut Vec<u8>,
    state: &M,
    actor: Actor<'_>,
    before: Reached,
) -> Result<(), AllocError> {
    push_made(text, state, actor, before)?;
    let pid = actor.pid;
    match actor.node {
        CodeNode::Take(_, _, v, _) | CodeNode::Let(_, v, _, _) => push_bound(text, state, pid, *v),
        CodeNode::Label(_, chan, _, _)
        | CodeNode::Send(_, chan, _, _)
        | CodeNode::Put(_, chan, _, _)
        | CodeNode::Pay(_, chan, _, _) => push_found(text, b" goes ", name_at(state, pid, *chan)),
        CodeNode::Acquire(_, _, v, _) => {
            push_found(text, b" goes ", name_at(state, pid, Chan::Var(*v)))
        }
        CodeNode::Emit(..) => match state.results().get(before.emitted) {
            Some((_, value)) => push_told(text, value),
            None => Ok(()),
        },
        CodeNode::If(_, _, then, _) => {
            push_branch(text, state, pid, *then, (b" is true", b" is false"))
        }
        CodeNode::Match(_, _, empty, _, _, _) => {
            push_branch(text, state, pid, *empty, (b" is empty", b" is full"))
        }
        _ => Ok(()),
    }
}
