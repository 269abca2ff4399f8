//! Sends: what a channel's present name and type are, and what is sent.
ghost use Rattle.std.specs.Prelude.{◌≡◌, ℕ, List, Some, option_copied, option_and_then};
ghost use Rattle.std.specs.Option.{option_map};
ghost use Rattle.nomos_ir.specs.Value.{Value};
ghost use Rattle.nomos_ir.specs.declared.code_node.CodeNode.TheVariants as code;
ghost use Rattle.nomos_ir.specs.declared.ids.TermId.{TermId};
ghost use Rattle.nomos_types.specs.Acceptance.{Acceptance, IsAmountOf};
ghost use Rattle.nomos_machine.specs.Deeds.{changes};
ghost use Rattle.nomos_machine.specs.Sight.{present_name, head_on, is_shared_name, after_label, after_channel, after_value, after_potential};
ghost use Rattle.nomos_machine.specs.State.{State, process_at, node_of};
ghost use Rattle.nomos_machine.specs.declared.object.Process.{Process};
ghost use Rattle.nomos_deeds.specs.Acts.{Decides, sending_change, doing_deed};

use crate::act::{Act, Doing, Send, Sending};
use crate::sight::Sight;
use crate::unfolded_types::{
    after_channel, after_label, after_potential, after_value, shows_shared, unfolded,
};
use nomos_ir::amount::Amount;
use nomos_ir::code_node::Chan;
use nomos_ir::ids::{CodeId, Label, TypeId, VarId};
use nomos_ir::type_node::TypeNode;
use nomos_types::accepted::Accepted;

/// The present name of a process's channel.
pub(crate) fn name_on<S: Sight>(sight: &S, pid: u32, channel: Chan) -> Option<u32>
    ensures { (p : Process) → process_at (S.state sight.now) pid ≡ Some p → result ≡ present_name p channel }
{
    match channel {
        Chan::Own => {
            let seen = sight.process(pid)?;
            Some(seen.offers)
        }
        Chan::Var(v) => sight.channel(pid, v),
    }
}

/// The node to which the type of a name unfolds.
pub(crate) fn node_of<'a, S: Sight>(
    sight: &S,
    accepted: &'a Accepted,
    name: u32,
) -> Option<&'a TypeNode>
    ensures { option_copied result ≡ node_of accepted.now.program (S.state sight.now).types name }
{
    let t = sight.type_of(name)?;
    unfolded(accepted.program(), t)
}

/// The node to which the type of a channel's present name unfolds.
pub(crate) fn head_on<'a, S: Sight>(
    sight: &S,
    accepted: &'a Accepted,
    pid: u32,
    channel: Chan,
) -> Option<&'a TypeNode>
    ensures { (p : Process) → process_at (S.state sight.now) pid ≡ Some p
        → option_copied result ≡ head_on accepted.now.program (S.state sight.now).types p channel }
{
    let name = name_on(sight, pid, channel)?;
    node_of(sight, accepted, name)
}

/// Whether a name is a shared one.
pub(crate) fn is_shared_name<S: Sight>(sight: &S, accepted: &Accepted, name: u32) -> bool
    ensures { result ≡ is_shared_name accepted.now.program (S.state sight.now).types name }
{
    match sight.type_of(name) {
        Some(t) => shows_shared(accepted.program(), t),
        None => false,
    }
}

/// A send on a channel that goes on at a type; nothing, where it has none.
pub(crate) fn sends(
    channel: Chan,
    sending: Sending,
    goes: Option<TypeId>,
    next: CodeId,
) -> Option<Doing>
    ensures { (a : Acceptance) (s : State) (p : Process) (vs : List Value)
        → doing_deed a s p vs result ≡ option_map changes (sending_change a s p vs channel sending goes next) }
{
    let goes = goes?;
    Some(Doing::Acts(Act::Send(Send {
        channel,
        sending,
        goes,
        next,
    })))
}

// The type with which a channel of a process goes on after a label, a channel, a value and potential.
fn goes_after_label<S: Sight>(
    sight: &S,
    accepted: &Accepted,
    pid: u32,
    channel: Chan,
    label: Label,
) -> Option<TypeId>
    ensures { (p : Process) → process_at (S.state sight.now) pid ≡ Some p → result ≡ option_and_then (after_label label)
        (head_on accepted.now.program (S.state sight.now).types p channel) }
{
    after_label(head_on(sight, accepted, pid, channel)?, label)
}

fn goes_after_channel<S: Sight>(
    sight: &S,
    accepted: &Accepted,
    pid: u32,
    channel: Chan,
) -> Option<TypeId>
    ensures { (p : Process) → process_at (S.state sight.now) pid ≡ Some p → result ≡ option_and_then after_channel
        (head_on accepted.now.program (S.state sight.now).types p channel) }
{
    after_channel(head_on(sight, accepted, pid, channel)?)
}

fn goes_after_value<S: Sight>(
    sight: &S,
    accepted: &Accepted,
    pid: u32,
    channel: Chan,
) -> Option<TypeId>
    ensures { (p : Process) → process_at (S.state sight.now) pid ≡ Some p → result ≡ option_and_then after_value
        (head_on accepted.now.program (S.state sight.now).types p channel) }
{
    after_value(head_on(sight, accepted, pid, channel)?)
}

fn goes_after_potential<S: Sight>(
    sight: &S,
    accepted: &Accepted,
    pid: u32,
    channel: Chan,
) -> Option<TypeId>
    ensures { (p : Process) → process_at (S.state sight.now) pid ≡ Some p → result ≡ option_and_then after_potential
        (head_on accepted.now.program (S.state sight.now).types p channel) }
{
    after_potential(head_on(sight, accepted, pid, channel)?)
}

/// A label is sent.
pub(crate) fn label_at<S: Sight>(
    sight: &S,
    accepted: &Accepted,
    pid: u32,
    says: (Chan, Label),
    next: CodeId,
) -> Option<Doing>
    ensures { (at : ℕ) → Decides accepted.now (S.state sight.now) pid (code.Label at says.0 says.1 next) result }
{
    let goes = goes_after_label(sight, accepted, pid, says.0, says.1);
    sends(says.0, Sending::Label(says.1), goes, next)
}

/// A `send`: a channel is sent.
pub(crate) fn send_at<S: Sight>(
    sight: &S,
    accepted: &Accepted,
    pid: u32,
    says: (Chan, VarId),
    next: CodeId,
) -> Option<Doing>
    ensures { (at : ℕ) → Decides accepted.now (S.state sight.now) pid (code.Send at says.0 says.1 next) result }
{
    let name = sight.channel(pid, says.1)?;
    let sending = Sending::Channel {
        variable: says.1,
        name,
        is_reference: is_shared_name(sight, accepted, name),
    };
    let goes = goes_after_channel(sight, accepted, pid, says.0);
    sends(says.0, sending, goes, next)
}

/// A `put`: the value of a term is sent.
pub(crate) fn put_at<S: Sight>(
    sight: &S,
    accepted: &Accepted,
    pid: u32,
    channel: Chan,
    next: CodeId,
) -> Option<Doing>
    ensures { (at : ℕ) (e : TermId) → Decides accepted.now (S.state sight.now) pid (code.Put at channel e next) result }
{
    let goes = goes_after_value(sight, accepted, pid, channel);
    sends(channel, Sending::Value, goes, next)
}

/// A `pay`: so many Dths are sent, where the purse has them.
pub(crate) fn pay_at<S: Sight>(
    sight: &S,
    accepted: &Accepted,
    pid: u32,
    says: (Chan, Amount),
    next: CodeId,
) -> Option<Doing>
    requires { IsAmountOf accepted.now.program says.1 }
    ensures { (at : ℕ) → Decides accepted.now (S.state sight.now) pid (code.Pay at says.0 says.1 next) result }
{
    let gas = accepted.amount(says.1);
    if !sight.affords(pid, gas) {
        return None;
    }
    let goes = goes_after_potential(sight, accepted, pid, says.0);
    sends(says.0, Sending::Potential(gas), goes, next)
}
