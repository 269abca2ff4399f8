//! Acts that send a message, and acts that take one in.
ghost use Rattle.std.specs.Prelude.{◌≡◌, ◌≤◌, ◌<◌, ◌+◌, ◌^◌, Some, None, IsOk, OnOk, OnErr, ℕ};
ghost use Rattle.std.specs.Option.{option_map};
ghost use Rattle.nomos_ir.specs.Value.{Value as Meaning};
ghost use Rattle.nomos_deeds.specs.Acting.{HasNumbers, IsFrugalInto};
ghost use Rattle.nomos_deeds.specs.Acts.{message_at, taken};
ghost use Rattle.nomos_deeds.specs.SeenObjects.{seen_channel, seen_payload, seen_process};
ghost use Rattle.nomos_machine.specs.Deeds.{value_in};
ghost use Rattle.nomos_machine.specs.Revised.{richer, standing_at, under_name, with_channel, with_value, without_channel};
ghost use Rattle.nomos_machine.specs.Sight.{is_own, present_name};
ghost use Rattle.nomos_machine.specs.State.{process_at};
ghost use Rattle.nomos_machine.specs.declared.object.Message.{Message as Sent};
ghost use Rattle.nomos_machine.specs.declared.object.Process.{Process};
ghost use Rattle.nomos_changes.specs.PlainFields.{uses_under};
ghost use Rattle.nomos_changes.specs.Sendings.{after_sending, gas_of_sending, handing_over, with_sent};
ghost use Rattle.nomos_changes.specs.SmallChanges.{Becomes, with_process, without_object};

use crate::parts::Parts;
use crate::plain_fields::{earning, going_on, going_under, spending};
use nomos_deeds::act::{Into, Receive, Send, Sending};
use nomos_deeds::sight::{SeenMessage, SeenPayload, SeenProcess, Sight};
use nomos_ir::code_node::Chan;
use nomos_ir::ids::{CodeId, VarId};
use nomos_machine::object::{Message, Payload};
use std::alloc::{AllocError, Global};

// Whether the process provides the channel.
fn is_own(channel: Chan) -> bool
    ensures { result ≡ is_own channel }
{
    matches!(channel, Chan::Own)
}

// The gas that a message carries.
fn gas_of(sending: Sending) -> u128
    ensures { result ≡ gas_of_sending sending }
{
    match sending {
        Sending::Potential(gas) => u128::from(gas),
        _ => 0,
    }
}

// The present name of a process's channel.
fn name_on<P: Parts>(parts: &P, seen: SeenProcess, channel: Chan) -> Option<u32>
    ensures { (p : Process) → process_at (P.state parts.now) seen.pid ≡ Some p → seen ≡ seen_process p
        → result ≡ present_name p channel }
{
    match channel {
        Chan::Own => Some(seen.offers),
        Chan::Var(v) => parts.channel(seen.pid, v),
    }
}

// A channel that is sent goes out of the sender's hands, unless it is a reference.
fn hand_over<P: Parts>(parts: &mut P, pid: u32, sending: Sending)
    ensures state { Becomes (P.state parts.old) pid (handing_over sending) (P.state parts.new) }
    ensures room { P.room parts.old ≤ P.room parts.new }
    ensures marked { P.marked parts.new ≡ P.marked parts.old }
{
    match sending {
        Sending::Channel {
            variable,
            is_reference,
            ..
        } => {
            if !is_reference {
                parts.unbind_channel(pid, variable);
            }
        }
        Sending::Potential(_) => {}
        Sending::Label(_) => {}
        Sending::Value => {}
    }
}

// A channel that the process uses goes on under a name.
fn go_under<P: Parts>(parts: &mut P, pid: u32, channel: Chan, name: u32)
    requires room { 0 < P.room parts.old }
    ensures state { Becomes (P.state parts.old) pid (uses_under channel name) (P.state parts.new) }
    ensures room { P.room parts.old ≤ P.room parts.new + 1 }
    ensures marked { P.marked parts.new ≡ P.marked parts.old }
{
    match channel {
        Chan::Own => {}
        Chan::Var(v) => parts.bind_channel(pid, v, name),
    }
}

// The message comes, and so does the name under which the talk goes on.
fn come<P: Parts>(
    parts: &mut P,
    alloc: Global,
    from: u32,
    send: Send,
    payload: Payload,
) -> Result<(), AllocError>
    requires room { 2 ≤ P.room parts.old }
    requires numbers { HasNumbers (P.state parts.old) }
    ensures ok { OnOk result (P.state parts.new
        ≡ with_sent (is_own send.channel) from payload (gas_of_sending send.sending) send.goes (P.state parts.old)) }
    ensures err { OnErr result (P.state parts.new ≡ P.state parts.old) }
    ensures room { P.room parts.old ≤ P.room parts.new + 2 }
    ensures marked { P.marked parts.new ≡ P.marked parts.old }
{
    let message = Message {
        number: parts.next_number(),
        to_client: is_own(send.channel),
        from,
        next: Some(parts.fresh_name()),
        payload,
        purse: gas_of(send.sending),
    };
    parts.come_message(alloc, message)?;
    parts.come_name(send.goes);
    Ok(())
}

/// The process sends a message that brings this. Want of memory leaves the state as it was.
pub(crate) fn send_message<P: Parts>(
    parts: &mut P,
    alloc: Global,
    pid: u32,
    send: Send,
    payload: Payload,
) -> Result<(), AllocError>
    requires room { 5 ≤ P.room parts.old }
    requires numbers { HasNumbers (P.state parts.old) }
    ensures ok { (p : Process) (from : ℕ) → process_at (P.state parts.old) pid ≡ Some p
        → present_name p send.channel ≡ Some from
        → OnOk result (P.state parts.new ≡ with_process pid
        (standing_at send.next (under_name send.channel (P.state parts.old).next_name (after_sending send.sending p)))
        (with_sent (is_own send.channel) from payload (gas_of_sending send.sending) send.goes (P.state parts.old))) }
    ensures err { OnErr result (P.state parts.new ≡ P.state parts.old) }
    ensures room { P.room parts.old ≤ P.room parts.new + 5 }
    ensures marked { P.marked parts.new ≡ P.marked parts.old }
{
    let Some(seen) = parts.process(pid) else {
        return Ok(());
    };
    let from = name_on(parts, seen, send.channel).unwrap_or(0);
    let name = parts.fresh_name();
    come(parts, alloc, from, send, payload)?;
    hand_over(parts, pid, send.sending);
    go_under(parts, pid, send.channel, name);
    let spent = spending(seen, gas_of(send.sending));
    parts.set_fields(going_on(going_under(spent, send.channel, name), send.next));
    Ok(())
}

// The value that the message brings is bound, where it goes to a variable.
fn take_value<P: Parts>(
    parts: &mut P,
    alloc: Global,
    pid: u32,
    message: u32,
    v: VarId,
) -> Result<(), AllocError>
    requires room { 0 < P.room parts.old }
    ensures ok { (p : Process) (m : Sent) (x : Meaning) → process_at (P.state parts.old) pid ≡ Some p
        → message_at (P.state parts.old).objects message ≡ Some m → value_in m.payload ≡ Some x
        → OnOk result (P.state parts.new ≡ with_process pid (with_value v x p) (P.state parts.old)) }
    ensures err { OnErr result (P.state parts.new ≡ P.state parts.old) }
    ensures room { P.room parts.old ≤ P.room parts.new + 1 }
    ensures marked { P.marked parts.new ≡ P.marked parts.old }
{
    match parts.message_value(alloc, message)? {
        Some(x) => parts.bind_value(alloc, pid, v, x),
        None => Ok(()),
    }
}

// The channel that a message brings is bound to a variable.
fn take_channel<P: Parts>(parts: &mut P, pid: u32, brings: SeenPayload, v: VarId)
    requires room { 0 < P.room parts.old }
    ensures state { (p : Process) (name : ℕ) → process_at (P.state parts.old) pid ≡ Some p
        → seen_channel brings ≡ Some name
        → P.state parts.new ≡ with_process pid (with_channel v name p) (P.state parts.old) }
    ensures room { P.room parts.old ≤ P.room parts.new + 1 }
    ensures marked { P.marked parts.new ≡ P.marked parts.old }
{
    if let SeenPayload::Channel(name) = brings {
        parts.bind_channel(pid, v, name);
    }
}

// A channel that the process uses goes on under a name, and what the message brings is taken in. Want of memory leaves
// the state as it was.
fn take_in<P: Parts>(
    parts: &mut P,
    alloc: Global,
    pid: u32,
    receive: Receive,
    seen: (u32, SeenPayload),
) -> Result<(), AllocError>
    requires room { 2 ≤ P.room parts.old }
    ensures ok { (p q : Process) (m : Sent) → process_at (P.state parts.old) pid ≡ Some p
        → message_at (P.state parts.old).objects receive.message ≡ Some m → seen.1 ≡ seen_payload m.payload
        → taken receive.into m.payload (uses_under receive.channel seen.0 p) ≡ Some q
        → OnOk result (P.state parts.new ≡ with_process pid q (P.state parts.old)) }
    ensures err { OnErr result (P.state parts.new ≡ P.state parts.old) }
    ensures room { P.room parts.old ≤ P.room parts.new + 2 }
    ensures frugal { IsFrugalInto receive.into → IsOk result }
    ensures marked { P.marked parts.new ≡ P.marked parts.old }
{
    let (name, brings) = seen;
    match receive.into {
        Into::Nothing => go_under(parts, pid, receive.channel, name),
        Into::Channel(v) => {
            go_under(parts, pid, receive.channel, name);
            take_channel(parts, pid, brings, v);
        }
        Into::Value(v) => {
            take_value(parts, alloc, pid, receive.message, v)?;
            go_under(parts, pid, receive.channel, name);
        }
    }
    Ok(())
}

/// The process receives a message. Want of memory leaves the state as it was.
pub(crate) fn receive_message<P: Parts>(
    parts: &mut P,
    alloc: Global,
    pid: u32,
    receive: Receive,
) -> Result<(), AllocError>
    requires room { 4 ≤ P.room parts.old }
    ensures ok { (p q : Process) (m : Sent) (name : ℕ) → process_at (P.state parts.old) pid ≡ Some p
        → message_at (P.state parts.old).objects receive.message ≡ Some m → m.next ≡ Some name
        → taken receive.into m.payload (under_name receive.channel name p) ≡ Some q → q.purse + m.purse < 2 ^ 128
        → OnOk result (P.state parts.new ≡ without_object receive.message
        (with_process pid (richer m.purse (standing_at receive.next q)) (P.state parts.old))) }
    ensures err { OnErr result (P.state parts.new ≡ P.state parts.old) }
    ensures room { P.room parts.old ≤ P.room parts.new + 4 }
    ensures frugal { IsFrugalInto receive.into → IsOk result }
    ensures marked { P.marked parts.new ≡ P.marked parts.old }
{
    let Some(seen) = parts.message(receive.message) else {
        return Ok(());
    };
    let Some(name) = seen.next else {
        return Ok(());
    };
    let Some(process) = parts.process(pid) else {
        return Ok(());
    };
    let purse = parts.message_purse(receive.message);
    take_in(parts, alloc, pid, receive, (name, seen.brings))?;
    let earned = earning(process, purse);
    parts.set_fields(going_on(going_under(earned, receive.channel, name), receive.next));
    parts.leave(receive.message);
    Ok(())
}

/// The process receives the end of a talk.
pub(crate) fn hear_end<P: Parts>(parts: &mut P, pid: u32, v: VarId, message: u32, next: CodeId)
    requires room { 2 ≤ P.room parts.old }
    ensures state { (p : Process) (m : Sent) → process_at (P.state parts.old) pid ≡ Some p
        → message_at (P.state parts.old).objects message ≡ Some m → p.purse + m.purse < 2 ^ 128
        → P.state parts.new ≡ without_object message
        (with_process pid (richer m.purse (standing_at next (without_channel v p))) (P.state parts.old)) }
    ensures room { P.room parts.old ≤ P.room parts.new + 2 }
    ensures marked { P.marked parts.new ≡ P.marked parts.old }
{
    let Some(process) = parts.process(pid) else {
        return;
    };
    let purse = parts.message_purse(message);
    parts.unbind_channel(pid, v);
    parts.set_fields(going_on(earning(process, purse), next));
    parts.leave(message);
}
