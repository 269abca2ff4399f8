//! What is told of a firing before it is made: where it is, on which channel, and what it reads.
ghost use Rattle.std.specs.Prelude.{All};
ghost use Rattle.nomos_ir.specs.CodeParts.{code_amounts};
ghost use Rattle.nomos_types.specs.Acceptance.{IsAmountOf};

use crate::tale_words::{Actor, name_at, push_found, push_name, push_pair};
use nomos_deeds::sight::{SeenPayload, Sight};
use nomos_ir::amount::Amount;
use nomos_ir::code_node::{Chan, CodeNode};
use nomos_ir::ids::{Label, ProcId, VarId};
use nomos_printing::number::push_number;
use nomos_types::accepted::Accepted;
use std::alloc::AllocError;

// Appends a label.
fn push_label(text: &mut Vec<u8>, accepted: &Accepted, label: Label) -> Result<(), AllocError> {
    let labels = accepted.program().lists().labels.as_slice();
    match labels.get(label.0 as usize) {
        Some(name) => push_name(text, b" says ", name.as_bytes()),
        None => Ok(()),
    }
}

// Appends the name of a declaration behind a word.
fn push_declaration(
    text: &mut Vec<u8>,
    accepted: &Accepted,
    word: &[u8],
    declaration: ProcId,
) -> Result<(), AllocError> {
    let procs = accepted.program().lists().procs.as_slice();
    match procs.get(declaration.0 as usize) {
        Some(found) => push_name(text, word, found.name.as_bytes()),
        None => Ok(()),
    }
}

// Appends an amount that is paid, in Dths.
fn push_gas(text: &mut Vec<u8>, accepted: &Accepted, gas: Amount) -> Result<(), AllocError>
    requires { IsAmountOf accepted.now.program gas }
{
    text.extend_from_slice(b" pays ")?;
    push_number(text, accepted.amount(gas))
}

// Appends the channel at which a process works.
fn push_on<S: Sight>(
    text: &mut Vec<u8>,
    state: &S,
    pid: u32,
    chan: Chan,
) -> Result<(), AllocError> {
    push_found(text, b" on ", name_at(state, pid, chan))
}

// Appends what a message brings that can be told of it while it is there.
fn push_brought(
    text: &mut Vec<u8>,
    accepted: &Accepted,
    brings: SeenPayload,
) -> Result<(), AllocError> {
    match brings {
        SeenPayload::Label(label) => push_label(text, accepted, label),
        SeenPayload::Channel(name) => push_pair(text, b" gives ", name),
        SeenPayload::Value | SeenPayload::Pay | SeenPayload::Close => Ok(()),
    }
}

// Appends the channel at which a process works, and the message that it reads there.
fn push_read<S: Sight>(
    text: &mut Vec<u8>,
    state: &S,
    actor: Actor<'_>,
    chan: Chan,
) -> Result<(), AllocError> {
    let Some(name) = name_at(state, actor.pid, chan) else {
        return Ok(());
    };
    push_pair(text, b" on ", name)?;
    let is_client = chan != Chan::Own;
    match state.message_on(is_client, name) {
        Some(message) => {
            push_pair(text, b" read ", message.number)?;
            push_brought(text, actor.accepted, message.brings)
        }
        None => Ok(()),
    }
}

// Appends the channel that is acquired or released, and who offers it.
fn push_keeper<S: Sight>(
    text: &mut Vec<u8>,
    state: &S,
    pid: u32,
    v: VarId,
) -> Result<(), AllocError> {
    let Some(name) = state.channel(pid, v) else {
        return Ok(());
    };
    push_pair(text, b" on ", name)?;
    match state.offering(name) {
        Some(keeper) => push_pair(text, b" of ", keeper.pid),
        None => Ok(()),
    }
}

// Appends what a process is about to do at an instruction that sends.
fn push_sending<S: Sight>(text: &mut Vec<u8>, state: &S, actor: Actor<'_>) -> Result<(), AllocError>
    requires { All (IsAmountOf actor.accepted.now.program) (code_amounts actor.node.now) }
{
    match actor.node {
        CodeNode::Label(_, chan, label, _) => {
            push_on(text, state, actor.pid, *chan)?;
            push_label(text, actor.accepted, *label)
        }
        CodeNode::Send(_, chan, given, _) => {
            push_on(text, state, actor.pid, *chan)?;
            push_found(text, b" gives ", state.channel(actor.pid, *given))
        }
        CodeNode::Put(_, chan, _, _) => push_on(text, state, actor.pid, *chan),
        CodeNode::Pay(_, chan, gas, _) => {
            push_on(text, state, actor.pid, *chan)?;
            push_gas(text, actor.accepted, *gas)
        }
        _ => Ok(()),
    }
}

// Appends what a process is about to do at an instruction that reads.
fn push_reading<S: Sight>(text: &mut Vec<u8>, state: &S, actor: Actor<'_>) -> Result<(), AllocError>
    requires { All (IsAmountOf actor.accepted.now.program) (code_amounts actor.node.now) }
{
    match actor.node {
        CodeNode::Case(_, chan, _)
        | CodeNode::Recv(_, chan, _, _)
        | CodeNode::Take(_, chan, _, _) => push_read(text, state, actor, *chan),
        CodeNode::Get(_, chan, gas, _) => {
            push_read(text, state, actor, *chan)?;
            push_gas(text, actor.accepted, *gas)
        }
        CodeNode::Wait(_, v, _) => push_read(text, state, actor, Chan::Var(*v)),
        _ => Ok(()),
    }
}

/// Appends what a process is about to do where it stands.
pub(crate) fn push_before<S: Sight>(
    text: &mut Vec<u8>,
    state: &S,
    actor: Actor<'_>,
) -> Result<(), AllocError>
    requires { All (IsAmountOf actor.accepted.now.program) (code_amounts actor.node.now) }
{
    push_pair(text, b" : at ", actor.node.offset())?;
    push_sending(text, state, actor)?;
    push_reading(text, state, actor)?;
    match actor.node {
        CodeNode::Acquire(_, v, _, _) | CodeNode::Release(_, v, _, _) => {
            push_keeper(text, state, actor.pid, *v)
        }
        CodeNode::Spawn(_, _, spawned, _, _) => {
            push_declaration(text, actor.accepted, b" spawns ", *spawned)
        }
        CodeNode::Call(_, called, _) => {
            push_declaration(text, actor.accepted, b" calls ", *called)
        }
        CodeNode::Fwd(_, v) => push_found(text, b" for ", state.channel(actor.pid, *v)),
        _ => Ok(()),
    }
}
