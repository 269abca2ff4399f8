//! The names with which objects have to do.
ghost use Rattle.std.specs.Prelude.{◌≡◌, ◌++◌, IfOk, OnOk, map};
ghost use Rattle.std.specs.Option.{option_to_list};
ghost use Rattle.nomos_machine.specs.Objects.{provided, used, based, mentioned, shared_names, talk_end, carried};
ghost use Rattle.nomos_typed.specs.mirror.Ties.{tied, all_tied};

use crate::tie::Tie;
use nomos_ir::ids::VarId;
use nomos_ir::mode::Mode;
use nomos_machine::object::{Message, Object, Payload};
use std::alloc::{AllocError, Global};

/// The name that an object provides.
fn provided_by(object: &Object) -> Option<u32>
    ensures { option_to_list result ≡ provided object.now }
{
    match object {
        Object::Process(process) => Some(process.offers),
        Object::Message(message) => if message.to_client {
            Some(message.from)
        } else {
            message.next
        },
    }
}

/// The other end of a message's talk.
pub(crate) fn talk_end_of(message: &Message) -> Option<u32>
    ensures { option_to_list result ≡ talk_end message.now }
{
    if message.to_client {
        message.next
    } else {
        Some(message.from)
    }
}

/// The channel that a message brings.
fn carried_by(payload: &Payload) -> Option<u32>
    ensures { option_to_list result ≡ carried payload.now }
{
    match payload {
        Payload::Channel(name) => Some(*name),
        _ => None,
    }
}

/// The base of an object.
fn base_of(object: &Object) -> Option<u32>
    ensures { option_to_list result ≡ based object.now }
{
    match object {
        Object::Process(process) => process.base,
        Object::Message(_) => None,
    }
}

/// The shared name for which an object stands.
fn shared_by(object: &Object) -> Option<u32>
    ensures { option_to_list result ≡ shared_names object.now }
{
    match object {
        Object::Process(process) => match process.mode {
            Mode::S => Some(process.offers),
            Mode::L => process.base,
            _ => None,
        },
        Object::Message(_) => None,
    }
}

fn push_name(names: &mut Vec<u32>, name: Option<u32>) -> Result<(), AllocError>
    ensures { OnOk result (names.new.items ≡ names.old.items ++ option_to_list name) }
{
    if let Some(name) = name {
        names.push(name)?;
    }
    Ok(())
}

fn push_channels(names: &mut Vec<u32>, channels: &[(VarId, u32)]) -> Result<(), AllocError>
    ensures { OnOk result (names.new.items ≡ names.old.items ++ map (λ e. e.1) channels.now) }
{
    for channel in channels {
        names.push(channel.1)?;
    }
    Ok(())
}

fn push_used(names: &mut Vec<u32>, object: &Object) -> Result<(), AllocError>
    ensures { OnOk result (names.new.items ≡ names.old.items ++ used object.now) }
{
    match object {
        Object::Process(process) => push_channels(names, process.channels.as_slice()),
        Object::Message(message) => {
            push_name(names, talk_end_of(message))?;
            push_name(names, carried_by(&message.payload))
        }
    }
}

fn push_mentioned(names: &mut Vec<u32>, object: &Object) -> Result<(), AllocError>
    ensures { OnOk result (names.new.items ≡ names.old.items ++ mentioned object.now) }
{
    push_name(names, provided_by(object))?;
    push_used(names, object)?;
    push_name(names, base_of(object))
}

fn push_tied(names: &mut Vec<u32>, tie: Tie, object: &Object) -> Result<(), AllocError>
    ensures { OnOk result (names.new.items ≡ names.old.items ++ tied tie object.now) }
{
    match tie {
        Tie::Provides => push_name(names, provided_by(object)),
        Tie::Uses => push_used(names, object),
        Tie::Shares => push_name(names, shared_by(object)),
        Tie::Mentions => push_mentioned(names, object),
    }
}

/// All names with which objects have to do in this way, each as often as they do.
pub(crate) fn all_tied(alloc: Global, tie: Tie, objects: &[Object]) -> Result<Vec<u32>, AllocError>
    ensures { IfOk result (λ names. names.items ≡ all_tied tie objects.now) }
{
    let mut names = Vec::new(alloc);
    for object in objects {
        push_tied(&mut names, tie, object)?;
    }
    Ok(names)
}
