//! Receives: which message is read, and what is taken of it.
ghost use Rattle.std.specs.Prelude.{◌≡◌, ℕ, not, map, List, Some, None, option_and_then, if◌then◌else◌};
ghost use Rattle.std.specs.Option.{is_some, option_map};
ghost use Rattle.std.specs.List.Sorted.{IsStrictlySortedBy};
ghost use Rattle.std.specs.Ordering.{nat_cmp};
ghost use Rattle.nomos_ir.specs.Value.{Value};
ghost use Rattle.nomos_ir.specs.declared.amount.Amount.{Amount};
ghost use Rattle.nomos_ir.specs.declared.code_node.CodeNode.TheVariants as code;
ghost use Rattle.nomos_types.specs.Acceptance.{Acceptance};
ghost use Rattle.nomos_machine.specs.Deeds.{changes, arm_for, takes, close_in};
ghost use Rattle.nomos_machine.specs.Objects.{object_number};
ghost use Rattle.nomos_machine.specs.Revised.{standing_at, without_channel};
ghost use Rattle.nomos_machine.specs.Sight.{is_own};
ghost use Rattle.nomos_machine.specs.State.{State, process_at};
ghost use Rattle.nomos_machine.specs.declared.object.Message.{Message};
ghost use Rattle.nomos_machine.specs.declared.object.Process.{Process};
ghost use Rattle.nomos_deeds.specs.Acting.{IsFrugalDoing, IsFrugalInto};
ghost use Rattle.nomos_deeds.specs.Acts.{Decides, doing_deed, message_at, read_by, received_change};
ghost use Rattle.nomos_deeds.specs.SeenObjects.{seen_message, seen_label, seen_channel, brings_value, brings_potential};

use crate::act::{Act, Doing, Into, Receive};
use crate::arms::arm_for;
use crate::sending::name_on;
use crate::sight::{SeenMessage, SeenPayload, Sight};
use nomos_ir::code_node::{Arms, Chan};
use nomos_ir::ids::{CodeId, VarId};

// Whether what comes on the channel goes to a client.
fn comes_to_client(channel: Chan) -> bool
    ensures { result ≡ not (is_own channel) }
{
    match channel {
        Chan::Own => false,
        Chan::Var(_) => true,
    }
}

// The message that a process reads on a channel.
fn message_read<S: Sight>(sight: &S, pid: u32, channel: Chan) -> Option<SeenMessage>
    ensures { (p : Process) → process_at (S.state sight.now) pid ≡ Some p
        → result ≡ option_map seen_message (read_by (S.state sight.now) p channel) }
{
    let name = name_on(sight, pid, channel)?;
    sight.message_on(comes_to_client(channel), name)
}

// The branch of the label that is brought.
fn branch_for(brings: SeenPayload, arms: &Arms) -> Option<CodeId>
    ensures { result ≡ option_and_then (arm_for arms.now) (seen_label brings) }
{
    match brings {
        SeenPayload::Label(label) => arm_for(arms.as_slice(), label),
        _ => None,
    }
}

// Where it goes on after a channel, a value and potential.
fn after_channel(brings: SeenPayload, next: CodeId) -> Option<CodeId>
    ensures { result ≡ option_map (λ name. next) (seen_channel brings) }
{
    match brings {
        SeenPayload::Channel(_) => Some(next),
        _ => None,
    }
}

fn after_value(brings: SeenPayload, next: CodeId) -> Option<CodeId>
    ensures { result ≡ (if brings_value brings then Some next else None) }
{
    match brings {
        SeenPayload::Value => Some(next),
        _ => None,
    }
}

fn after_potential(brings: SeenPayload, next: CodeId) -> Option<CodeId>
    ensures { result ≡ (if brings_potential brings then Some next else None) }
{
    match brings {
        SeenPayload::Pay => Some(next),
        _ => None,
    }
}

// It takes the message in, and goes on; nothing, where it goes on nowhere or the talk under no name.
fn receives(message: SeenMessage, channel: Chan, into: Into, next: Option<CodeId>) -> Option<Doing>
    ensures decides { (a : Acceptance) (s : State) (p : Process) (vs : List Value) (m : Message)
        → message ≡ seen_message m → message_at s.objects m.number ≡ Some m
        → doing_deed a s p vs result
        ≡ option_map changes (option_and_then (received_change a s p vs m channel into) next) }
    ensures frugal { IsFrugalInto into → IsFrugalDoing result }
{
    let next = next?;
    let _name = message.next?;
    Some(Doing::Acts(Act::Receive(Receive {
        channel,
        message: message.number,
        into,
        next,
    })))
}

/// A `case`: the branch of the label that it receives.
pub(crate) fn case_at<S: Sight>(sight: &S, pid: u32, channel: Chan, arms: &Arms) -> Option<Doing>
    requires { IsStrictlySortedBy nat_cmp (map object_number (S.state sight.now).objects) }
    ensures decides { (a : Acceptance) (at : ℕ)
        → Decides a (S.state sight.now) pid (code.Case at channel arms.now) result }
    ensures frugal { IsFrugalDoing result }
{
    let message = message_read(sight, pid, channel)?;
    let next = branch_for(message.brings, arms);
    receives(message, channel, Into::Nothing, next)
}

/// A `recv`: the channel that it receives is bound to the variable.
pub(crate) fn recv_at<S: Sight>(
    sight: &S,
    pid: u32,
    channel: Chan,
    variable: VarId,
    next: CodeId,
) -> Option<Doing>
    requires { IsStrictlySortedBy nat_cmp (map object_number (S.state sight.now).objects) }
    ensures decides { (a : Acceptance) (at : ℕ)
        → Decides a (S.state sight.now) pid (code.Recv at channel variable next) result }
    ensures frugal { IsFrugalDoing result }
{
    let message = message_read(sight, pid, channel)?;
    let next = after_channel(message.brings, next);
    receives(message, channel, Into::Channel(variable), next)
}

/// A `take`: the value that it receives is bound to the variable.
pub(crate) fn take_at<S: Sight>(
    sight: &S,
    pid: u32,
    channel: Chan,
    variable: VarId,
    next: CodeId,
) -> Option<Doing>
    requires { IsStrictlySortedBy nat_cmp (map object_number (S.state sight.now).objects) }
    ensures { (a : Acceptance) (at : ℕ)
        → Decides a (S.state sight.now) pid (code.Take at channel variable next) result }
{
    let message = message_read(sight, pid, channel)?;
    let next = after_value(message.brings, next);
    receives(message, channel, Into::Value(variable), next)
}

/// A `get`: it has the message's purse.
pub(crate) fn get_at<S: Sight>(sight: &S, pid: u32, channel: Chan, next: CodeId) -> Option<Doing>
    requires { IsStrictlySortedBy nat_cmp (map object_number (S.state sight.now).objects) }
    ensures decides { (a : Acceptance) (at : ℕ) (r : Amount)
        → Decides a (S.state sight.now) pid (code.Get at channel r next) result }
    ensures frugal { IsFrugalDoing result }
{
    let message = message_read(sight, pid, channel)?;
    let next = after_potential(message.brings, next);
    receives(message, channel, Into::Nothing, next)
}

// It hears of the end, and goes on; nothing, where the message brings something else.
fn hears(message: SeenMessage, variable: VarId, next: CodeId) -> Option<Doing>
    ensures decides { (a : Acceptance) (s : State) (p : Process) (vs : List Value) (m : Message)
        → message ≡ seen_message m → message_at s.objects m.number ≡ Some m
        → doing_deed a s p vs result ≡ option_map changes (option_and_then (λ over.
        Some (takes a s p m (standing_at next (without_channel variable p)))) (close_in m.payload)) }
    ensures frugal { IsFrugalDoing result }
{
    match message.brings {
        SeenPayload::Close => Some(Doing::Acts(Act::Wait {
            variable,
            message: message.number,
            next,
        })),
        _ => None,
    }
}

/// A `wait`: the channel of the variable is gone.
pub(crate) fn wait_at<S: Sight>(sight: &S, pid: u32, variable: VarId, next: CodeId) -> Option<Doing>
    requires { IsStrictlySortedBy nat_cmp (map object_number (S.state sight.now).objects) }
    ensures decides { (a : Acceptance) (at : ℕ)
        → Decides a (S.state sight.now) pid (code.Wait at variable next) result }
    ensures frugal { IsFrugalDoing result }
{
    let message = message_read(sight, pid, Chan::Var(variable))?;
    hears(message, variable, next)
}

/// Whether there is a message that a process reads on a channel.
pub(crate) fn is_read<S: Sight>(sight: &S, pid: u32, channel: Chan) -> bool
    ensures { (p : Process) → process_at (S.state sight.now) pid ≡ Some p
        → result ≡ is_some (read_by (S.state sight.now) p channel) }
{
    message_read(sight, pid, channel).is_some()
}
