//! Which names lead to bases, by the messages that wait between.
ghost use Rattle.std.specs.Prelude.{◌≡◌, ◌<◌, ◌≤◌, ◌↔◌, IsTrue, length, All, IfOk, OnOk};
ghost use Rattle.std.specs.List.{flat_map};
ghost use Rattle.std.specs.List.Sorted.{IsNonDecreasingBy, IsPermutation, IsPartitionPoint};
ghost use Rattle.std.specs.Option.{option_to_list};
ghost use Rattle.nomos_typed.specs.mirror.Leading.{onward_by, onward_of, led_from, led_of, PushesOnward, AreLed};

use nomos_ir::mode::Mode;
use nomos_machine::object::{Message, Object, Process};
use std::alloc::{AllocError, Global};

/// The end of a message's talk, and the name that the message provides.
#[derive(Clone, Copy)]
pub(crate) struct Onward {
    pub(crate) end: u32,
    pub(crate) name: u32,
}

/// A name that leads to a base.
#[derive(Clone, Copy)]
pub(crate) struct Led {
    pub(crate) name: u32,
    pub(crate) base: u32,
}

fn message_onward(message: &Message, next: u32) -> Onward
    ensures { result ≡ onward_by message.now.to_client message.now.from next }
{
    if message.to_client {
        Onward {
            end: next,
            name: message.from,
        }
    } else {
        Onward {
            end: message.from,
            name: next,
        }
    }
}

/// From the end of a message's talk to what it provides.
fn onward_of(object: &Object) -> Option<Onward>
    ensures { option_to_list result ≡ onward_of object.now }
{
    match object {
        Object::Process(_) => None,
        Object::Message(message) => match message.next {
            Some(next) => Some(message_onward(message, next)),
            None => None,
        },
    }
}

fn process_led(process: &Process, base: u32) -> Led
    ensures { result ≡ record { name = process.now.offers; base = base } }
{
    Led {
        name: process.offers,
        base,
    }
}

/// What a process of mode L offers, with its base.
fn led_of(object: &Object) -> Option<Led>
    ensures { option_to_list result ≡ led_of object.now }
{
    match object {
        Object::Message(_) => None,
        Object::Process(process) => match process.mode {
            Mode::L => match process.base {
                Some(base) => Some(process_led(process, base)),
                None => None,
            },
            _ => None,
        },
    }
}

fn all_onward(alloc: Global, objects: &[Object]) -> Result<Vec<Onward>, AllocError>
    ensures { IfOk result (λ made. made.items ≡ flat_map onward_of objects.now) }
{
    let mut made = Vec::new(alloc);
    for object in objects {
        if let Some(onward) = onward_of(object) {
            made.push(onward)?;
        }
    }
    Ok(made)
}

fn first_led(alloc: Global, objects: &[Object]) -> Result<Vec<Led>, AllocError>
    ensures { IfOk result (λ made. made.items ≡ flat_map led_of objects.now) }
{
    let mut made = Vec::new(alloc);
    for object in objects {
        if let Some(led) = led_of(object) {
            made.push(led)?;
        }
    }
    Ok(made)
}

fn by_end(onwards: Vec<Onward>) -> Vec<Onward>
    ensures same { IsPermutation onwards.items result.items }
    ensures sorted { IsNonDecreasingBy (λ o. o.end) result.items }
{
    let mut sorted = onwards;
    sorted.sort_unstable_by_key(|onward| onward.end);
    sorted
}

fn first_at(onwards: &[Onward], end: u32) -> usize
    requires { IsNonDecreasingBy (λ o. o.end) onwards.now }
    ensures bound { result ≤ length onwards.now }
    ensures point { IsPartitionPoint (λ o. o.end < end) (λ o. end ≤ o.end) onwards.now result }
{
    onwards.partition_point(|onward| onward.end < end)
}

fn ends_at(onward: &Onward, end: u32) -> bool
    ensures { IsTrue result ↔ (onward.now.end ≡ end) }
{
    onward.end == end
}

fn led_from(from: Led, onward: &Onward) -> Led
    ensures { result ≡ led_from from onward.now }
{
    Led {
        name: onward.name,
        base: from.base,
    }
}

/// What one comes to from a name is added, of what stands where no end is before the name.
fn push_later(led: &mut Vec<Led>, later: &[Onward], from: Led) -> Result<(), AllocError>
    requires sorted { IsNonDecreasingBy (λ o. o.end) later.now }
    requires late { All (λ o. from.name ≤ o.end) later.now }
    ensures { OnOk result (PushesOnward later.now from led.old.items led.new.items) }
{
    for onward in later {
        if !ends_at(onward, from.name) {
            return Ok(());
        }
        led.push(led_from(from, onward))?;
    }
    Ok(())
}

/// What one comes to from a name is added to what leads to its base.
fn push_onward(led: &mut Vec<Led>, onwards: &[Onward], from: Led) -> Result<(), AllocError>
    requires { IsNonDecreasingBy (λ o. o.end) onwards.now }
    ensures { OnOk result (PushesOnward onwards.now from led.old.items led.new.items) }
{
    let start = first_at(onwards, from.name);
    push_later(led, &onwards[start..], from)
}

/// All names that lead to bases, each with its base. It ends: each name that one comes to takes memory.
fn all_led(first: Vec<Led>, onwards: &[Onward]) -> Result<Vec<Led>, AllocError>
    requires { IsNonDecreasingBy (λ o. o.end) onwards.now }
    ensures { IfOk result (λ led. AreLed first.items onwards.now led.items) }
{
    let mut led = first;
    let mut next = 0;
    while next < led.len() {
        let from = led[next];
        push_onward(&mut led, onwards, from)?;
        next += 1;
    }
    Ok(led)
}

/// All names from which one comes to a process of mode L, each with the base of that process.
pub(crate) fn led_names(alloc: Global, objects: &[Object]) -> Result<Vec<Led>, AllocError>
    ensures { IfOk result (λ led. AreLed (flat_map led_of objects.now) (flat_map onward_of objects.now) led.items) }
{
    let first = first_led(alloc, objects)?;
    let onwards = by_end(all_onward(alloc, objects)?);
    all_led(first, onwards.as_slice())
}
