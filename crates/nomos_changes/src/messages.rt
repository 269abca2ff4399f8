//! Acts that send and take in messages, as what the machine's table says.
ghost use Rattle.std.specs.Prelude.{◌≡◌, ◌≤◌, ◌+◌, Some, IsOk, IfOk, OnOk, OnErr, List};
ghost use Rattle.nomos_ir.specs.Value.{Value as Meaning};
ghost use Rattle.nomos_types.specs.Acceptance.{Acceptance};
ghost use Rattle.nomos_deeds.specs.Acting.{CanAct, HasNumbers, IsFrugalInto};
ghost use Rattle.nomos_deeds.specs.declared.act.Act.TheVariants as act;
ghost use Rattle.nomos_changes.specs.Performing.{made_by_act};
ghost use Rattle.nomos_changes.specs.Sendings.{brought_by};

use crate::acts_alone::the_value;
use crate::messaging::{hear_end, receive_message, send_message};
use crate::parts::Parts;
use nomos_deeds::act::{Receive, Send, Sending};
use nomos_ir::ids::{CodeId, VarId};
use nomos_ir::value::Values;
use nomos_machine::object::Payload;
use std::alloc::{AllocError, Global};

// What a message that is sent brings.
fn payload_of(sending: Sending, values: Values) -> Result<Option<Payload>, AllocError>
    ensures { IfOk result (λ found. found ≡ brought_by sending values) }
{
    match sending {
        Sending::Label(label) => Ok(Some(Payload::Label(label))),
        Sending::Channel { name, .. } => Ok(Some(Payload::Channel(name))),
        Sending::Value => match the_value(values)? {
            Some(value) => Ok(Some(Payload::Value(value))),
            None => Ok(None),
        },
        Sending::Potential(_) => Ok(Some(Payload::Pay)),
    }
}

/// The process sends.
pub(crate) fn act_send<P: Parts>(
    parts: &mut P,
    alloc: Global,
    pid: u32,
    send: Send,
    values: Values,
) -> Result<(), AllocError>
    requires room { 8 ≤ P.room parts.old }
    requires numbers { HasNumbers (P.state parts.old) }
    ensures ok { (a : Acceptance) → CanAct a (P.state parts.old) pid values (act.Send send)
        → OnOk result (P.state parts.new ≡ made_by_act a (P.state parts.old) pid values (act.Send send)) }
    ensures err { OnErr result (P.state parts.new ≡ P.state parts.old) }
    ensures room { P.room parts.old ≤ P.room parts.new + 7 }
    ensures marked { P.marked parts.new ≡ P.marked parts.old }
{
    match payload_of(send.sending, values)? {
        Some(payload) => send_message(parts, alloc, pid, send, payload),
        None => Ok(()),
    }
}

/// The process receives.
pub(crate) fn act_receive<P: Parts>(
    parts: &mut P,
    alloc: Global,
    pid: u32,
    receive: Receive,
) -> Result<(), AllocError>
    requires room { 8 ≤ P.room parts.old }
    ensures ok { (a : Acceptance) (vs : List Meaning) → CanAct a (P.state parts.old) pid vs (act.Receive receive)
        → OnOk result (P.state parts.new ≡ made_by_act a (P.state parts.old) pid vs (act.Receive receive)) }
    ensures err { OnErr result (P.state parts.new ≡ P.state parts.old) }
    ensures room { P.room parts.old ≤ P.room parts.new + 7 }
    ensures frugal { IsFrugalInto receive.into → IsOk result }
    ensures marked { P.marked parts.new ≡ P.marked parts.old }
{
    receive_message(parts, alloc, pid, receive)
}

/// The process hears that a talk has ended.
pub(crate) fn act_wait<P: Parts>(parts: &mut P, pid: u32, v: VarId, message: u32, next: CodeId)
    requires room { 8 ≤ P.room parts.old }
    ensures state { (a : Acceptance) (vs : List Meaning) → CanAct a (P.state parts.old) pid vs (act.Wait v message next)
        → P.state parts.new ≡ made_by_act a (P.state parts.old) pid vs (act.Wait v message next) }
    ensures room { P.room parts.old ≤ P.room parts.new + 7 }
    ensures marked { P.marked parts.new ≡ P.marked parts.old }
{
    hear_end(parts, pid, v, message, next);
}
