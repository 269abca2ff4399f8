//! Acts, each as the small changes that it is made of.
ghost use Rattle.std.specs.Prelude.{◌≡◌, ◌≤◌, ◌+◌, IsOk, OnOk, OnErr};
ghost use Rattle.nomos_deeds.specs.Acting.{CanAct, IsFrugalAct, after_act};
ghost use Rattle.nomos_changes.specs.Performing.{made_by_act};

use crate::acts_alone::{act_emit, act_revision, act_work};
use crate::calling::{Call, act_call};
use crate::leaving::{act_close, act_forward};
use crate::messages::{act_receive, act_send, act_wait};
use crate::parts::Parts;
use crate::sharing::{act_acquire, act_release};
use crate::spawning::{Spawn, act_spawn};
use nomos_deeds::act::Act;
use nomos_ir::value::Values;
use nomos_types::accepted::Accepted;
use std::alloc::{AllocError, Global};

/// For how many small changes there has to be room before an act. None makes more of them.
pub const ROOM_OF_AN_ACT: usize = 8;

/// What a process is about to do: its number, the act, and the values of the terms of its instruction.
#[derive(Drop, Debug)]
pub struct Intent {
    pub pid: u32,
    pub act: Act,
    pub values: Values,
}

// Makes the change of an act; names that nobody mentions any more may still have a type.
#[inline(always)]
fn make<P: Parts>(
    parts: &mut P,
    alloc: Global,
    accepted: &Accepted,
    intent: Intent,
) -> Result<(), AllocError>
    requires can { CanAct accepted.now (P.state parts.old) intent.pid intent.values intent.act }
    requires room { ROOM_OF_AN_ACT ≤ P.room parts.old }
    ensures ok { OnOk result (P.state parts.new
        ≡ made_by_act accepted.now (P.state parts.old) intent.pid intent.values intent.act) }
    ensures err { OnErr result (P.state parts.new ≡ P.state parts.old) }
    ensures room { P.room parts.old ≤ P.room parts.new + ROOM_OF_AN_ACT }
    ensures frugal { IsFrugalAct intent.act → IsOk result }
    ensures marked { P.marked parts.new ≡ P.marked parts.old }
{
    let Intent { pid, act, values } = intent;
    match act {
        Act::Send(send) => act_send(parts, alloc, pid, send, values),
        Act::Receive(receive) => act_receive(parts, alloc, pid, receive),
        Act::Wait {
            variable,
            message,
            next,
        } => {
            act_wait(parts, pid, variable, message, next);
            Ok(())
        }
        Act::Acquire(acquire) => {
            act_acquire(parts, accepted, pid, &values, acquire);
            Ok(())
        }
        Act::Release(release) => {
            act_release(parts, accepted, pid, &values, release);
            Ok(())
        }
        Act::Spawn {
            variable,
            declaration,
            next,
        } => {
            let spawn = Spawn {
                pid,
                variable,
                declaration,
                next,
            };
            act_spawn(parts, alloc, accepted, spawn, values)
        }
        Act::Call { declaration } => act_call(
            parts,
            alloc,
            accepted,
            Call { pid, declaration },
            values,
        ),
        Act::Close => {
            act_close(parts, alloc, accepted, pid, &values);
            Ok(())
        }
        Act::Forward { name } => {
            act_forward(parts, accepted, pid, &values, name);
            Ok(())
        }
        Act::Work { gas, next } => {
            act_work(parts, pid, gas, next);
            Ok(())
        }
        Act::Emit { next } => act_emit(parts, pid, next, values),
        _ => act_revision(parts, alloc, pid, act, values),
    }
}

/// Makes an act. It makes room for it first: want of memory leaves the state as it was, and where there is room already
/// no frugal act comes to it.
#[inline(always)]
pub fn perform<P: Parts>(
    parts: &mut P,
    alloc: Global,
    accepted: &Accepted,
    intent: Intent,
) -> Result<(), AllocError>
    requires can { CanAct accepted.now (P.state parts.old) intent.pid intent.values intent.act }
    ensures ok { OnOk result (P.state parts.new
        ≡ after_act accepted.now (P.state parts.old) intent.pid intent.values intent.act) }
    ensures err { OnErr result (P.state parts.new ≡ P.state parts.old) }
    ensures room { P.room parts.old ≤ P.room parts.new + ROOM_OF_AN_ACT }
    ensures frugal { ROOM_OF_AN_ACT ≤ P.room parts.old → IsFrugalAct intent.act → IsOk result }
    ensures marked { P.marked parts.new ≡ P.marked parts.old }
{
    parts.make_room(ROOM_OF_AN_ACT)?;
    make(parts, alloc, accepted, intent)?;
    parts.tidy();
    Ok(())
}
