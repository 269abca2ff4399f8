//! What a process does where it stands: one line for each instruction.
ghost use Rattle.std.specs.Prelude.{◌≡◌, map, All, Some, option_and_then, slice_get};
ghost use Rattle.std.specs.List.Sorted.{IsStrictlySortedBy};
ghost use Rattle.std.specs.Ordering.{nat_cmp};
ghost use Rattle.nomos_ir.specs.CodeParts.{code_amounts};
ghost use Rattle.nomos_types.specs.Acceptance.{IsAmountOf};
ghost use Rattle.nomos_machine.specs.Deeds.{deed_at};
ghost use Rattle.nomos_machine.specs.Objects.{object_number};
ghost use Rattle.nomos_machine.specs.Readiness.{is_met_at};
ghost use Rattle.nomos_machine.specs.State.{process_at};
ghost use Rattle.nomos_machine.specs.declared.object.Process.{Process};
ghost use Rattle.nomos_deeds.specs.Acting.{IsFrugal, IsFrugalDoing, IsFrugalNode};
ghost use Rattle.nomos_deeds.specs.Acts.{DecidesWith, doing_deed, looks_ready_at};

use crate::act::{Act, Doing};
use crate::alone::{add_at, call_at, empty_at, fwd_at, if_at, match_at, spawn_at, work_at};
use crate::arms::code_at;
use crate::receiving::{case_at, get_at, is_read, recv_at, take_at, wait_at};
use crate::sending::{label_at, pay_at, put_at, send_at};
use crate::sharing::{acquire_at, is_accepting, is_detaching, release_at};
use crate::sight::Sight;
use nomos_ir::code_node::{Chan, CodeNode};
use nomos_ir::value::Values;
use nomos_types::accepted::Accepted;

/// What the process does at this instruction.
pub(crate) fn deed_at_node<S: Sight>(
    sight: &S,
    accepted: &Accepted,
    pid: u32,
    node: &CodeNode,
    values: &Values,
) -> Option<Doing>
    requires ordered { IsStrictlySortedBy nat_cmp (map object_number (S.state sight.now).objects) }
    requires amounts { All (IsAmountOf accepted.now.program) (code_amounts node.now) }
    ensures decides { DecidesWith accepted.now (S.state sight.now) pid values.now node.now result }
    ensures frugal { IsFrugalNode accepted.now.program node.now → IsFrugalDoing result }
{
    match node {
        CodeNode::Label(_, c, l, next) => label_at(sight, accepted, pid, (*c, *l), *next),
        CodeNode::Case(_, c, arms) => case_at(sight, pid, *c, arms),
        CodeNode::Send(_, c, y, next) => send_at(sight, accepted, pid, (*c, *y), *next),
        CodeNode::Recv(_, c, y, next) => recv_at(sight, pid, *c, *y, *next),
        CodeNode::Put(_, c, _, next) => put_at(sight, accepted, pid, *c, *next),
        CodeNode::Take(_, c, v, next) => take_at(sight, pid, *c, *v, *next),
        CodeNode::Pay(_, c, r, next) => pay_at(sight, accepted, pid, (*c, *r), *next),
        CodeNode::Get(_, c, _, next) => get_at(sight, pid, *c, *next),
        CodeNode::Work(_, r, next) => work_at(sight, accepted, pid, *r, *next),
        CodeNode::Wait(_, v, next) => wait_at(sight, pid, *v, *next),
        CodeNode::Accept(_, _) | CodeNode::Detach(_, _) => None,
        CodeNode::Acquire(_, r, v, next) => acquire_at(sight, accepted, pid, (*r, *v), *next),
        CodeNode::Release(_, v, r, next) => release_at(sight, accepted, pid, (*v, *r), *next),
        CodeNode::Spawn(_, v, f, _, next) => spawn_at(sight, accepted, pid, (*v, *f), *next),
        CodeNode::Let(_, v, _, next) => Some(Doing::Acts(Act::Let {
            variable: *v,
            next: *next,
        })),
        CodeNode::Emit(_, _, next) => Some(Doing::Acts(Act::Emit { next: *next })),
        CodeNode::If(_, _, yes, no) => if_at(sight, accepted, pid, values, (*yes, *no)),
        CodeNode::Close(_) => Some(Doing::Acts(Act::Close)),
        CodeNode::Fwd(_, v) => fwd_at(sight, accepted, pid, *v),
        CodeNode::Call(_, f, _) => call_at(sight, accepted, pid, *f),
        CodeNode::Empty(_, v, r, _, next) => empty_at(sight, accepted, pid, (*v, *r), *next),
        CodeNode::Add(_, v, _, w, next) => add_at(sight, accepted, pid, values, (*v, *w, *next)),
        CodeNode::Match(_, w, empty, head, tail, full) => {
            match_at(sight, accepted, pid, *w, (*empty, *head, *tail, *full))
        }
    }
}

/// What the process of this number does, whose instruction's terms have these values: an act, or the fault of a list
/// that would be too heavy; or nothing, where what it needs is not there. docs/MACHINE.md has the table. It takes no
/// memory.
pub fn deed_of<S: Sight>(sight: &S, accepted: &Accepted, pid: u32, values: &Values) -> Option<Doing>
    requires { IsStrictlySortedBy nat_cmp (map object_number (S.state sight.now).objects) }
    ensures decides { (p : Process) → process_at (S.state sight.now) pid ≡ Some p
        → doing_deed accepted.now (S.state sight.now) p values.now result
        ≡ option_and_then (deed_at accepted.now (S.state sight.now) p values.now)
        (slice_get accepted.now.program.code p.code.0) }
    ensures frugal { IsFrugal accepted.now (S.state sight.now) pid → IsFrugalDoing result }
{
    let seen = sight.process(pid)?;
    let node = code_at(accepted, seen.code)?;
    deed_at_node(sight, accepted, pid, node, values)
}

// Whether what the instruction waits for is there.
fn is_met_at<S: Sight>(sight: &S, accepted: &Accepted, pid: u32, node: &CodeNode) -> bool
    ensures { (p : Process) → process_at (S.state sight.now) pid ≡ Some p
        → result ≡ is_met_at accepted.now (S.state sight.now) p node.now }
{
    match node {
        CodeNode::Case(_, c, _) => is_read(sight, pid, *c),
        CodeNode::Recv(_, c, _, _) => is_read(sight, pid, *c),
        CodeNode::Take(_, c, _, _) => is_read(sight, pid, *c),
        CodeNode::Get(_, c, _, _) => is_read(sight, pid, *c),
        CodeNode::Wait(_, v, _) => is_read(sight, pid, Chan::Var(*v)),
        CodeNode::Acquire(_, r, _, _) => is_accepting(sight, accepted, pid, *r),
        CodeNode::Release(_, v, _, _) => is_detaching(sight, accepted, pid, *v),
        CodeNode::Accept(_, _) | CodeNode::Detach(_, _) => false,
        _ => true,
    }
}

/// Whether the process of this number is ready, by one look: at a receive and at `wait` where the message is there, at
/// `acquire` and `release` where the other process stands as it must, never at `accept` and `detach`, and always
/// elsewhere. It evaluates nothing, and takes no memory.
pub fn looks_ready<S: Sight>(sight: &S, accepted: &Accepted, pid: u32) -> bool
    ensures { result ≡ looks_ready_at accepted.now (S.state sight.now) pid }
{
    match sight.process(pid) {
        Some(seen) => match code_at(accepted, seen.code) {
            Some(node) => is_met_at(sight, accepted, pid, node),
            None => false,
        },
        None => false,
    }
}
