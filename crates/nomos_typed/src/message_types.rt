//! Whether messages bring what the types of their names ask for.
ghost use Rattle.std.specs.Prelude.{◌≡◌, ◌↔◌, IsTrue, IfOk, IfSome, All};
ghost use Rattle.nomos_contents.specs.Data.{IsOrdered};
ghost use Rattle.nomos_equality.specs.Comparing.{HasCompared};
ghost use Rattle.nomos_machine.specs.TypedMessage.{MessageTyped};
ghost use Rattle.nomos_types.specs.Acceptance.{IsAmountOf};
ghost use Rattle.nomos_typed.specs.Messages.{IsMessageTyped, AreMessagesTyped};
ghost use Rattle.nomos_typed.specs.Telling.{Tells};
ghost use Rattle.nomos_typed.specs.mirror.MessageHeads.{SentFits, KindFits, AmountFits, PayloadFits};
ghost use Rattle.nomos_typed.specs.mirror.ComparedWith.{acceptance_of, program_of, amounts_in};
ghost use Rattle.nomos_typed.specs.mirror.ComparedWith.{IsTold, IsTypeIn, IsHeadIn, GoesOn};

use crate::heads::{due_by, goes_of, is_end, kind_by, label_fits, sent_by};
use crate::likeness::has_type;
use crate::told::Told;
use crate::worth::same_worth;
use nomos_contents::data::StateData;
use nomos_deeds::value_kinds::has_kind;
use nomos_equality::equalities::Equalities;
use nomos_ir::amount::Amount;
use nomos_ir::ids::TypeId;
use nomos_ir::kind::Kind;
use nomos_ir::type_node::TypeNode;
use nomos_ir::value::Value;
use nomos_machine::object::{Message, Object, Payload};
use nomos_types::accepted::Accepted;
use nomos_types::mode_table::mode_table;
use nomos_types::unfolding::unfold;
use std::alloc::{AllocError, Global};

/// Whether the gas is as much as is asked for.
fn amount_fits(told: &Told<'_>, due: Option<Amount>, purse: u128) -> bool
    requires due { IfSome due (IsAmountOf (program_of told.now)) }
    ensures { IsTrue result ↔ AmountFits told.now due purse }
{
    match due {
        Some(amount) => purse == u128::from(told.accepted.amount(amount)),
        None => false,
    }
}

/// Whether it fits, with no gas.
fn if_unpaid(purse: u128, fits: bool) -> bool
    ensures { IsTrue result ↔ ((purse ≡ 0) × IsTrue fits) }
{
    purse == 0 && fits
}

/// Whether the value has the kind that is asked for.
fn kind_fits(kind: Option<Kind>, value: &Value) -> bool
    ensures { IsTrue result ↔ KindFits kind value.now }
{
    match kind {
        Some(kind) => has_kind(value.node(), kind),
        None => false,
    }
}

/// Whether the name has the type that is asked for.
fn sent_fits(
    told: &Told<'_>,
    equalities: &mut Equalities,
    sent: Option<TypeId>,
    name: u32,
) -> Result<bool, AllocError>
    requires told { IsTold told.now }
    requires sent { IfSome sent (IsTypeIn told.now) }
    requires compared { HasCompared (program_of told.now) equalities.old }
    ensures compared { HasCompared (program_of told.now) equalities.new }
    ensures tells { IfOk result (Tells (amounts_in told.now) equalities.old.amounts equalities.new.amounts
        (SentFits told.now sent name)) }
{
    match sent {
        Some(t) => has_type(told, equalities, name, t),
        None => Ok(false),
    }
}

/// Whether what a message brings is asked for, with its gas.
fn payload_fits(
    told: &Told<'_>,
    equalities: &mut Equalities,
    head: &TypeNode,
    message: &Message,
) -> Result<bool, AllocError>
    requires told { IsTold told.now }
    requires head { IsHeadIn told.now head.now }
    requires compared { HasCompared (program_of told.now) equalities.old }
    ensures compared { HasCompared (program_of told.now) equalities.new }
    ensures tells { IfOk result (Tells (amounts_in told.now) equalities.old.amounts equalities.new.amounts
        (PayloadFits told.now message.now.to_client head.now message.now.payload message.now.purse)) }
{
    told.accepted.know();
    let to_client = message.to_client;
    match &message.payload {
        Payload::Label(label) => Ok(if_unpaid(message.purse, label_fits(head, to_client, *label))),
        Payload::Channel(name) => if message.purse == 0 {
            sent_fits(told, equalities, sent_by(head, to_client), *name)
        } else {
            Ok(false)
        },
        Payload::Value(value) => {
            let fits = kind_fits(kind_by(head, to_client), value);
            Ok(if_unpaid(message.purse, fits))
        }
        Payload::Pay => Ok(amount_fits(told, due_by(head, to_client), message.purse)),
        Payload::Close => Ok(if_unpaid(message.purse, is_end(head, to_client))),
    }
}

/// Whether the talk goes on at this type, or ends where there is none.
fn goes_on(
    told: &Told<'_>,
    equalities: &mut Equalities,
    next: Option<u32>,
    goes: Option<TypeId>,
) -> Result<bool, AllocError>
    requires told { IsTold told.now }
    requires goes { IfSome goes (IsTypeIn told.now) }
    requires compared { HasCompared (program_of told.now) equalities.old }
    ensures compared { HasCompared (program_of told.now) equalities.new }
    ensures tells { IfOk result (Tells (amounts_in told.now) equalities.old.amounts equalities.new.amounts
        (GoesOn told.now next goes)) }
{
    match next {
        Some(name) => match goes {
            Some(t) => has_type(told, equalities, name, t),
            None => Ok(false),
        },
        None => Ok(goes.is_none()),
    }
}

/// Whether a message is typed.
fn message_typed(
    told: &Told<'_>,
    equalities: &mut Equalities,
    message: &Message,
) -> Result<bool, AllocError>
    requires told { IsTold told.now }
    requires compared { HasCompared (program_of told.now) equalities.old }
    ensures compared { HasCompared (program_of told.now) equalities.new }
    ensures tells { IfOk result (Tells (amounts_in told.now) equalities.old.amounts equalities.new.amounts
        (MessageTyped (acceptance_of told.now) told.now.types.now message.now)) }
{
    let program = told.accepted.program();
    let own = match told.type_of(message.from) {
        Some(own) => own,
        None => return Ok(false),
    };
    let head = program.node(unfold(program, own));
    if !payload_fits(told, equalities, head, message)? {
        return Ok(false);
    }
    goes_on(
        told,
        equalities,
        message.next,
        goes_of(head, &message.payload),
    )
}

/// Whether an object is typed where it is a message.
fn is_typed_message(
    told: &Told<'_>,
    equalities: &mut Equalities,
    object: &Object,
) -> Result<bool, AllocError>
    requires told { IsTold told.now }
    requires compared { HasCompared (program_of told.now) equalities.old }
    ensures compared { HasCompared (program_of told.now) equalities.new }
    ensures tells { IfOk result (Tells (amounts_in told.now) equalities.old.amounts equalities.new.amounts
        (IsMessageTyped (acceptance_of told.now) told.now.types.now object.now)) }
{
    match object {
        Object::Message(message) => message_typed(told, equalities, message),
        Object::Process(_) => Ok(true),
    }
}

/// Whether all messages among objects are typed.
fn all_typed(
    told: &Told<'_>,
    equalities: &mut Equalities,
    objects: &[Object],
) -> Result<bool, AllocError>
    requires told { IsTold told.now }
    requires compared { HasCompared (program_of told.now) equalities.old }
    ensures compared { HasCompared (program_of told.now) equalities.new }
    ensures tells { IfOk result (Tells (amounts_in told.now) equalities.old.amounts equalities.new.amounts
        (All (IsMessageTyped (acceptance_of told.now) told.now.types.now) objects.now)) }
{
    for object in objects {
        if !is_typed_message(told, equalities, object)? {
            return Ok(false);
        }
    }
    Ok(true)
}

/// Whether each message of a state brings what the type of the name asks for on which it is read, with as much gas, and
/// goes on as that does: a part of what makes a state typed. Two types are compared once.
pub fn are_messages_typed(
    alloc: Global,
    accepted: &Accepted,
    state: &StateData,
) -> Result<bool, AllocError>
    requires ordered { IsOrdered state.now }
    ensures { IfOk result (λ yes. IsTrue yes ↔ AreMessagesTyped accepted.now state.now) }
{
    let modes = mode_table(alloc, accepted.program())?;
    let told = Told {
        accepted,
        modes: modes.as_slice(),
        types: state.types.as_slice(),
    };
    let mut equalities = Equalities::new(alloc);
    if !all_typed(&told, &mut equalities, state.objects.as_slice())? {
        return Ok(false);
    }
    let amounts = equalities.into_amounts()?;
    Ok(same_worth(accepted, amounts.as_slice()))
}
