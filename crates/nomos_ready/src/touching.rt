//! What the firing of a process touches, told by the instruction at which it stands.
ghost use Rattle.std.specs.Prelude.{◌≡◌, Some, option_copied, option_and_then, slice_get};
ghost use Rattle.std.specs.Option.{option_map};
ghost use Rattle.nomos_ir.specs.Bindings.{bound_to};
ghost use Rattle.nomos_machine.specs.Sight.{is_own, offering};
ghost use Rattle.nomos_machine.specs.State.{process_at};
ghost use Rattle.nomos_machine.specs.declared.object.Process.{Process};
ghost use Rattle.nomos_deeds.specs.Readers.{acquires_at, waits};
ghost use Rattle.nomos_ready.specs.Touching.{hands_on, heard_on, meets, no_touch, says_on, touch_at, touch_of};

use crate::touch::{Incoming, Touch};
use nomos_deeds::sight::Sight;
use nomos_ir::code_node::{Chan, CodeNode};
use nomos_ir::find::find_code;
use nomos_ir::ids::{CodeId, VarId};
use nomos_types::accepted::Accepted;

/// The instruction of this number, if there is one.
#[inline(always)]
pub(crate) fn node_at(accepted: &Accepted, code: CodeId) -> Option<&CodeNode>
    ensures { option_copied result ≡ slice_get accepted.now.program.code code.0 }
{
    find_code(accepted.program().lists(), code)
}

// Nothing else is touched.
fn no_touch() -> Touch
    ensures { result ≡ no_touch }
{
    Touch {
        partner: None,
        heard: None,
    }
}

// Where a message comes this way on a name, if there is one.
fn heard_on(to_client: bool, name: Option<u32>) -> Option<Incoming>
    ensures { result ≡ heard_on to_client name }
{
    name.map(|name| Incoming { to_client, name })
}

// It says something on a channel.
fn says_on<S: Sight>(sight: &S, pid: u32, offers: u32, channel: Chan) -> Touch
    ensures { (p : Process) → process_at (S.state sight.now) pid ≡ Some p → p.offers ≡ offers
        → result ≡ says_on p channel }
{
    let heard = match channel {
        Chan::Own => heard_on(true, Some(offers)),
        Chan::Var(v) => heard_on(false, sight.channel(pid, v)),
    };
    Touch {
        partner: None,
        heard,
    }
}

// The process that offers the name of a variable goes on with it.
fn meets<S: Sight>(sight: &S, pid: u32, v: VarId) -> Touch
    ensures { (p : Process) → process_at (S.state sight.now) pid ≡ Some p
        → result ≡ meets (S.state sight.now) (bound_to v.0 p.channels) }
{
    let partner = match sight.channel(pid, v) {
        Some(name) => sight.offering(name).map(|other| other.pid),
        None => None,
    };
    Touch {
        partner,
        heard: None,
    }
}

// Whoever used its name goes on under the one of a variable.
fn forwards<S: Sight>(sight: &S, pid: u32, offers: u32, v: VarId) -> Touch
    ensures { (p : Process) → process_at (S.state sight.now) pid ≡ Some p → p.offers ≡ offers
        → result ≡ hands_on (S.state sight.now) p v }
{
    Touch {
        partner: sight.user(offers),
        heard: heard_on(false, sight.channel(pid, v)),
    }
}

// What the firing of the process touches at this instruction.
fn touch_at<S: Sight>(sight: &S, pid: u32, offers: u32, node: &CodeNode) -> Touch
    ensures { (p : Process) → process_at (S.state sight.now) pid ≡ Some p → p.offers ≡ offers
        → result ≡ touch_at (S.state sight.now) p node.now }
{
    match node {
        CodeNode::Label(_, c, _, _)
        | CodeNode::Send(_, c, _, _)
        | CodeNode::Put(_, c, _, _)
        | CodeNode::Pay(_, c, _, _) => says_on(sight, pid, offers, *c),
        CodeNode::Acquire(_, r, _, _) => meets(sight, pid, *r),
        CodeNode::Release(_, v, _, _) => meets(sight, pid, *v),
        CodeNode::Close(_) => Touch {
            partner: None,
            heard: heard_on(true, Some(offers)),
        },
        CodeNode::Fwd(_, v) => forwards(sight, pid, offers, *v),
        _ => no_touch(),
    }
}

// The shared name for which the process waits at this instruction, if it does.
fn waits_at<S: Sight>(sight: &S, pid: u32, node: &CodeNode) -> Option<u32>
    ensures { (p : Process) → process_at (S.state sight.now) pid ≡ Some p → result ≡ acquires_at p node.now }
{
    match node {
        CodeNode::Acquire(_, r, _, _) => sight.channel(pid, *r),
        _ => None,
    }
}

/// What the firing of the process with this number touches, and the shared name for which it waits, if it does. It
/// takes no memory.
#[inline(always)]
pub fn touch_of<S: Sight>(sight: &S, accepted: &Accepted, pid: u32) -> (Touch, Option<u32>)
    ensures touch { result.0 ≡ touch_of accepted.now (S.state sight.now) pid }
    ensures waits { result.1 ≡ waits accepted.now (S.state sight.now).objects pid }
{
    let Some(seen) = sight.process(pid) else {
        return (no_touch(), None);
    };
    match node_at(accepted, seen.code) {
        Some(node) => {
            let touch = touch_at(sight, pid, seen.offers, node);
            (touch, waits_at(sight, pid, node))
        }
        None => (no_touch(), None),
    }
}
