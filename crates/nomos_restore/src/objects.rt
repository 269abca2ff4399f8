//! Objects come under their numbers.
ghost use Rattle.std.specs.Prelude.{◌≡◌, ◌≤◌, ◌<◌, ◌+◌, ◌-◌, ◌^◌, ◌++◌, ◌∷◌, [], All, OnOk, length};
ghost use Rattle.nomos_machine.specs.Objects.{object_number};
ghost use Rattle.nomos_machine.specs.TypedState.{HasVariables, VariablesDiffer};
ghost use Rattle.nomos_changes.specs.SmallChanges.{process_born, with_object};
ghost use Rattle.nomos_restore.specs.Numbering.{AreNext};

use crate::restoring::Restoring;
use nomos_changes::newborn::Newborn;
use nomos_deeds::sight::SeenProcess;
use nomos_machine::object::{Object, Process};
use std::alloc::{AllocError, Global};

// The number of an object.
fn number_of(o: &Object) -> u32
    ensures { result ≡ object_number o.now }
{
    match o {
        Object::Process(p) => p.pid,
        Object::Message(m) => m.number,
    }
}

// This process is to come.
fn newborn_of(p: Process) -> Newborn
    requires { VariablesDiffer p }
    ensures { process_born result ≡ p }
{
    let fields = SeenProcess {
        pid: p.pid,
        mode: p.mode,
        code: p.code,
        offers: p.offers,
        base: p.base,
        purse: p.purse,
        payer: p.payer,
    };
    Newborn {
        fields,
        values: p.values.into_vec(),
        lists: p.lists.into_vec(),
        channels: p.channels.into_vec(),
    }
}

// An object comes, which has the next number.
fn come_object<P: Restoring>(parts: &mut P, alloc: Global, o: Object) -> Result<(), AllocError>
    requires room { 0 < P.room parts.old }
    requires number { object_number o ≡ (P.state parts.old).next_object }
    requires fits { (P.state parts.old).next_object < 2 ^ 32 - 1 }
    requires variables { HasVariables o }
    ensures ok { OnOk result (P.state parts.new ≡ with_object o (P.state parts.old)) }
    ensures room { P.room parts.old ≤ P.room parts.new + 1 }
    ensures marked { P.marked parts.new ≡ P.marked parts.old }
{
    match o {
        Object::Process(p) => parts.come_process(alloc, newborn_of(p)),
        Object::Message(m) => parts.come_message(alloc, m),
    }
}

// An object comes under its number.
fn come_object_at<P: Restoring>(parts: &mut P, alloc: Global, o: Object) -> Result<(), AllocError>
    requires room { 0 < P.room parts.old }
    requires above { (P.state parts.old).next_object ≤ object_number o }
    requires fits { object_number o < 2 ^ 32 - 1 }
    requires variables { HasVariables o }
    ensures ok { OnOk result (P.state parts.new ≡ record (P.state parts.old)
        { next_object = object_number o + 1; objects = (P.state parts.old).objects ++ o ∷ [] }) }
    ensures room { P.room parts.old ≤ P.room parts.new + 1 }
    ensures marked { P.marked parts.new ≡ P.marked parts.old }
{
    let name = parts.fresh_name();
    parts.draw_up_to(number_of(&o), name);
    come_object(parts, alloc, o)
}

/// These objects come. All numbers below the next one are drawn then.
pub(crate) fn come_objects<P: Restoring>(
    parts: &mut P,
    alloc: Global,
    objects: Vec<Object>,
    next_object: u32,
) -> Result<(), AllocError>
    requires room { length objects.items ≤ P.room parts.old }
    requires next { AreNext object_number (P.state parts.old).next_object next_object objects.items }
    requires above { (P.state parts.old).next_object ≤ next_object }
    requires variables { All HasVariables objects.items }
    ensures ok { OnOk result (P.state parts.new ≡ record (P.state parts.old)
        { next_object = next_object; objects = (P.state parts.old).objects ++ objects.items }) }
    ensures marked { P.marked parts.new ≡ P.marked parts.old }
{
    for o in objects {
        come_object_at(parts, alloc, o)?;
    }
    let name = parts.fresh_name();
    parts.draw_up_to(next_object, name);
    Ok(())
}
