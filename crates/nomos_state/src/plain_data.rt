//! What an indexed state holds, once more as plain data.
ghost use Rattle.std.specs.Prelude.{◌≡◌, ◌+◌, ◌++◌, ℕ, IfOk, IsSome, OnOk};
ghost use Rattle.std.specs.Option.{option_to_list};
ghost use Rattle.nomos_slots.specs.Cells.{name_in};
ghost use Rattle.nomos_state.specs.Copying.{AreChannelsBelow};
ghost use Rattle.nomos_state.specs.Indexed.{IsHolding, held_now, standing_at, state_of};
ghost use Rattle.nomos_state.specs.Looked.{lists_at, values_at};
ghost use Rattle.nomos_state.specs.Objects.{channels_of, message_held, payload_of, process_held, types_of};
ghost use Rattle.nomos_state.specs.Spanning.{HasVariable};

use crate::copying::copy_values;
use crate::inside::{Columns, Inside};
use crate::kept::{Kept, KeptMessage, KeptProcess};
use crate::list_rows::lists_left;
use crate::looking::kept_at;
use crate::span::{Span, next_in};
use crate::walking::typed_at;
use nomos_changes::process_lists::copy_lists;
use nomos_deeds::sight::SeenPayload;
use nomos_ir::ids::{TypeId, VarId};
use nomos_ir::items::Items;
use nomos_machine::object::{Message, Object, Payload, Process};
use std::alloc::{AllocError, Global};

// The channel of one variable more, if it has one.
fn push_channel(
    made: &mut Vec<(VarId, u32)>,
    contents: &Columns,
    pid: u32,
    variable: u32,
) -> Result<(), AllocError>
    requires { AreChannelsBelow contents.now.channels.now pid variable made.old.items }
    ensures { OnOk result (AreChannelsBelow contents.now.channels.now pid (variable + 1) made.new.items) }
{
    if let Some(name) = contents.channels.get(pid, variable) {
        made.push((VarId(variable), name))?;
    }
    Ok(())
}

// The channels of a process, which stand in this span.
fn copy_channels(
    contents: &Columns,
    alloc: Global,
    pid: u32,
    span: Option<Span>,
) -> Result<Vec<(VarId, u32)>, AllocError>
    requires { (v : ℕ) → IsSome (name_in contents.now.channels.now pid v) → HasVariable span v }
    ensures { IfOk result (λ made. made.items ≡ channels_of contents.now.channels.now pid) }
{
    let mut made = Vec::new(alloc);
    let Some(within) = span else {
        return Ok(made);
    };
    let mut variable = within.low;
    while variable < within.high {
        push_channel(&mut made, contents, pid, variable)?;
        variable = next_in(within, &contents.channels, pid, variable + 1);
    }
    push_channel(&mut made, contents, pid, variable)?;
    Ok(made)
}

// The process of a number that is kept at a place.
fn copy_process(
    contents: &Columns,
    alloc: Global,
    pid: u32,
    place: usize,
    p: &KeptProcess,
) -> Result<Process, AllocError>
    requires { (v : ℕ) → IsSome (name_in contents.now.channels.now pid v) → HasVariable p.now.span v }
    ensures { IfOk result (λ made. made ≡ process_held contents.now.channels.now pid
        (values_at (held_now contents.now) place) (lists_at (held_now contents.now) place) p.now) }
{
    let values = copy_values(alloc, contents.values.row(place))?;
    let lists = copy_lists(alloc, lists_left(contents.lists.row(place), p.gone))?;
    let channels = copy_channels(contents, alloc, pid, p.span)?;
    Ok(Process {
        pid,
        mode: p.mode,
        code: p.code,
        values: Items::of_vec(values),
        lists: Items::of_vec(lists),
        channels: Items::of_vec(channels),
        offers: p.offers,
        base: p.base,
        purse: p.purse.dths(),
        payer: p.payer,
    })
}

// What the message that is kept at a place brings.
fn copy_payload(
    contents: &Columns,
    place: usize,
    brings: SeenPayload,
) -> Result<Payload, AllocError>
    ensures { IfOk result (λ made. made ≡ payload_of brings (values_at (held_now contents.now) place)) }
{
    match brings {
        SeenPayload::Label(label) => Ok(Payload::Label(label)),
        SeenPayload::Value => match contents.values.row(place).first() {
            Some(pair) => Ok(Payload::Value(pair.1.copy()?)),
            None => Ok(Payload::Close),
        },
        SeenPayload::Channel(name) => Ok(Payload::Channel(name)),
        SeenPayload::Pay => Ok(Payload::Pay),
        SeenPayload::Close => Ok(Payload::Close),
    }
}

// The message of a number that is kept at a place.
fn copy_message(
    contents: &Columns,
    number: u32,
    place: usize,
    m: &KeptMessage,
) -> Result<Message, AllocError>
    ensures { IfOk result (λ made. made ≡ message_held number (values_at (held_now contents.now) place) m.now) }
{
    Ok(Message {
        number,
        to_client: m.to_client,
        from: m.from,
        next: m.next,
        payload: copy_payload(contents, place, m.brings)?,
        purse: m.purse.dths(),
    })
}

// The object at a place, if one stands there.
fn copy_object(
    contents: &Columns,
    alloc: Global,
    place: usize,
) -> Result<Option<Object>, AllocError>
    requires { IsHolding (held_now contents.now) }
    ensures { IfOk result (λ made. made ≡ standing_at (held_now contents.now) place) }
{
    match kept_at(contents, place) {
        Some((pid, Kept::Process(p))) => {
            let process = copy_process(contents, alloc, pid, place, &p)?;
            Ok(Some(Object::Process(process)))
        }
        Some((number, Kept::Message(m))) => {
            let message = copy_message(contents, number, place, &m)?;
            Ok(Some(Object::Message(message)))
        }
        None => Ok(None),
    }
}

// The object at a place comes too, if one stands there.
fn push_object(
    made: &mut Vec<Object>,
    contents: &Columns,
    alloc: Global,
    place: usize,
) -> Result<(), AllocError>
    requires { IsHolding (held_now contents.now) }
    ensures { OnOk result (made.new.items
        ≡ made.old.items ++ option_to_list (standing_at (held_now contents.now) place)) }
{
    if let Some(o) = copy_object(contents, alloc, place)? {
        made.push(o)?;
    }
    Ok(())
}

// The objects, in order of number.
fn copy_objects(contents: &Columns, alloc: Global) -> Result<Vec<Object>, AllocError>
    requires { IsHolding (held_now contents.now) }
    ensures { IfOk result (λ made. made.items ≡ (state_of (held_now contents.now)).objects) }
{
    let mut made = Vec::new(alloc);
    for place in 0..contents.objects.len() {
        push_object(&mut made, contents, alloc, place)?;
    }
    Ok(made)
}

// The names that have types, in order of number.
fn copy_types(contents: &Columns, alloc: Global) -> Result<Vec<(u32, TypeId)>, AllocError>
    ensures { IfOk result (λ made. made.items ≡ types_of contents.now.names.now) }
{
    let mut made = Vec::new(alloc);
    for place in 0..contents.names.len() {
        if let Some(typed) = typed_at(contents, place) {
            made.push(typed)?;
        }
    }
    Ok(made)
}

// What each account has, by number.
fn copy_balances(contents: &Columns, alloc: Global) -> Result<Vec<u128>, AllocError>
    ensures { IfOk result (λ made. made.items ≡ contents.now.balances.now) }
{
    let mut made = Vec::new(alloc);
    for account in 0..contents.balances.len() {
        if let Some(dths) = contents.balances.get(account) {
            made.push(dths)?;
        }
    }
    Ok(made)
}

impl Inside {
    /// The objects once more, in order of number.
    pub fn objects(&self, alloc: Global) -> Result<Items<Object>, AllocError>
        ensures { IfOk result (λ made. made ≡ self.now.state.objects) }
    {
        Ok(Items::of_vec(copy_objects(&self.contents, alloc)?))
    }

    /// The names that have types once more, in order of number, each with its type.
    pub fn types(&self, alloc: Global) -> Result<Items<(u32, TypeId)>, AllocError>
        ensures { IfOk result (λ made. made ≡ self.now.state.types) }
    {
        Ok(Items::of_vec(copy_types(&self.contents, alloc)?))
    }

    /// What each account has once more, in Dths, by number.
    pub fn balances(&self, alloc: Global) -> Result<Items<u128>, AllocError>
        ensures { IfOk result (λ made. made ≡ self.now.state.balances) }
    {
        Ok(Items::of_vec(copy_balances(&self.contents, alloc)?))
    }
}
