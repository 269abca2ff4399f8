//! Acts by which a process leaves.
ghost use Rattle.std.specs.Prelude.{◌≡◌, ◌+◌, ◌-◌, ◌<◌, ◌≤◌, ◌^◌, Some, length, slice_index};
ghost use Rattle.nomos_deeds.specs.Acting.{CanAct};
ghost use Rattle.nomos_deeds.specs.declared.act.Act.TheVariants as act;
ghost use Rattle.nomos_machine.specs.State.{process_at};
ghost use Rattle.nomos_machine.specs.declared.object.Process.{Process};
ghost use Rattle.nomos_changes.specs.Leavings.{close_message, closed, forwarded, left, told};
ghost use Rattle.nomos_changes.specs.Performing.{made_by_act};

use crate::parts::Parts;
use nomos_deeds::sight::SeenProcess;
use nomos_ir::mode::Mode;
use nomos_ir::value::Values;
use nomos_machine::object::{Message, Payload};
use nomos_types::accepted::Accepted;
use std::alloc::Global;

// The message that a talk on this name has ended.
fn close_message(name: u32, number: u32) -> Message
    ensures { result ≡ close_message name number }
{
    Message {
        number,
        to_client: true,
        from: name,
        next: None,
        payload: Payload::Close,
        purse: 0,
    }
}

// A process of this mode, which offered this name, tells its client that it ended. It takes no memory.
fn tell_end<P: Parts>(parts: &mut P, alloc: Global, mode: Mode, name: u32)
    requires room { 0 < P.room parts.old }
    requires fits { (P.state parts.old).next_object < 2 ^ 32 - 1 }
    ensures state { P.state parts.new ≡ told mode name (P.state parts.old) }
    ensures room { P.room parts.old ≤ P.room parts.new + 1 }
    ensures marked { P.marked parts.new ≡ P.marked parts.old }
{
    match mode {
        Mode::R => {
            let message = close_message(name, parts.next_number());
            let _ = parts.come_message(alloc, message);
        }
        _ => {}
    }
}

// The process that is seen so leaves, and its purse goes to its payer's account.
fn leave_purse<P: Parts>(parts: &mut P, process: SeenProcess)
    requires room { 2 ≤ P.room parts.old }
    requires account { process.payer < length (P.state parts.old).balances }
    requires fits { slice_index (P.state parts.old).balances process.payer + process.purse < 2 ^ 128 }
    ensures state { P.state parts.new ≡ left process (P.state parts.old) }
    ensures room { P.room parts.old ≤ P.room parts.new + 2 }
    ensures marked { P.marked parts.new ≡ P.marked parts.old }
{
    parts.leave(process.pid);
    parts.pay_in(process.payer, process.purse);
}

// The process ends.
fn end_process<P: Parts>(parts: &mut P, alloc: Global, pid: u32)
    requires room { 8 ≤ P.room parts.old }
    requires number { (P.state parts.old).next_object < 2 ^ 32 - 1 }
    requires account { (p : Process) → process_at (P.state parts.old) pid ≡ Some p
        → p.payer < length (P.state parts.old).balances }
    requires fits { (p : Process) → process_at (P.state parts.old) pid ≡ Some p
        → slice_index (P.state parts.old).balances p.payer + p.purse < 2 ^ 128 }
    ensures state { (p : Process) → process_at (P.state parts.old) pid ≡ Some p
        → P.state parts.new ≡ closed (P.state parts.old) p }
    ensures room { P.room parts.old ≤ P.room parts.new + 7 }
    ensures marked { P.marked parts.new ≡ P.marked parts.old }
{
    let Some(process) = parts.process(pid) else {
        return;
    };
    leave_purse(parts, process);
    tell_end(parts, alloc, process.mode, process.offers);
}

// The process leaves, and whoever uses its name uses this one instead, an outside party too.
fn give_way<P: Parts>(parts: &mut P, pid: u32, name: u32)
    requires room { 8 ≤ P.room parts.old }
    requires account { (p : Process) → process_at (P.state parts.old) pid ≡ Some p
        → p.payer < length (P.state parts.old).balances }
    requires fits { (p : Process) → process_at (P.state parts.old) pid ≡ Some p
        → slice_index (P.state parts.old).balances p.payer + p.purse < 2 ^ 128 }
    ensures state { (p : Process) → process_at (P.state parts.old) pid ≡ Some p
        → P.state parts.new ≡ forwarded (P.state parts.old) name p }
    ensures room { P.room parts.old ≤ P.room parts.new + 7 }
    ensures marked { P.marked parts.new ≡ P.marked parts.old }
{
    let Some(process) = parts.process(pid) else {
        return;
    };
    parts.redirect(process.offers, name);
    leave_purse(parts, process);
}

/// The process ends. It takes no memory.
pub(crate) fn act_close<P: Parts>(
    parts: &mut P,
    alloc: Global,
    accepted: &Accepted,
    pid: u32,
    values: &Values,
)
    requires can { CanAct accepted.now (P.state parts.old) pid values.now act.Close }
    requires room { 8 ≤ P.room parts.old }
    ensures state { P.state parts.new ≡ made_by_act accepted.now (P.state parts.old) pid values.now act.Close }
    ensures room { P.room parts.old ≤ P.room parts.new + 7 }
    ensures marked { P.marked parts.new ≡ P.marked parts.old }
{
    end_process(parts, alloc, pid);
}

/// The process leaves, and whoever uses its name uses this one instead. It takes no memory.
pub(crate) fn act_forward<P: Parts>(
    parts: &mut P,
    accepted: &Accepted,
    pid: u32,
    values: &Values,
    name: u32,
)
    requires can { CanAct accepted.now (P.state parts.old) pid values.now (act.Forward name) }
    requires room { 8 ≤ P.room parts.old }
    ensures state { P.state parts.new
        ≡ made_by_act accepted.now (P.state parts.old) pid values.now (act.Forward name) }
    ensures room { P.room parts.old ≤ P.room parts.new + 7 }
    ensures marked { P.marked parts.new ≡ P.marked parts.old }
{
    give_way(parts, pid, name);
}
