//! Copies of a plain state.
ghost use Rattle.std.specs.Prelude.{◌≡◌, ◌≤◌, IfOk, All, map};
ghost use Rattle.std.specs.Vec.{vec_len, vec_capacity};
ghost use Rattle.nomos_plain.specs.Parts.{HasRoom, IsSound, object_in, process_in, state_of};

use crate::plain_object::{PlainObject, PlainProcess};
use crate::plain_parts::PlainParts;
use nomos_changes::process_lists::copy_lists;
use nomos_ir::ids::VarId;
use nomos_ir::value::Value;
use nomos_machine::object::{Message, Payload};
use std::alloc::{AllocError, Global};

// A copy of items that own nothing.
fn copy_items<T: Copy>(alloc: Global, items: &[T]) -> Result<Vec<T>, AllocError>
    ensures items { IfOk result (λ made. made.items ≡ items.now) }
    ensures room { IfOk result (λ made. vec_len made ≤ vec_capacity made) }
{
    let mut made = Vec::new(alloc);
    made.extend_from_slice(items)?;
    Ok(made)
}

// A copy of variables with their values.
fn copy_values(alloc: Global, values: &[(VarId, Value)]) -> Result<Vec<(VarId, Value)>, AllocError>
    ensures { IfOk result (λ made. made.items ≡ values.now) }
{
    let mut made = Vec::new(alloc);
    for pair in values {
        made.push((pair.0, pair.1.copy()?))?;
    }
    Ok(made)
}

// A copy of a process.
fn copy_process(alloc: Global, p: &PlainProcess) -> Result<PlainProcess, AllocError>
    ensures process { IfOk result (λ made. process_in made ≡ process_in p.now) }
    ensures room { IfOk result (λ made. vec_len made.channels ≤ vec_capacity made.channels) }
{
    Ok(PlainProcess {
        pid: p.pid,
        mode: p.mode,
        code: p.code,
        values: copy_values(alloc, &p.values)?,
        lists: copy_lists(alloc, &p.lists)?,
        channels: copy_items(alloc, &p.channels)?,
        offers: p.offers,
        base: p.base,
        purse: p.purse,
        payer: p.payer,
    })
}

// A copy of what a message brings.
fn copy_payload(payload: &Payload) -> Result<Payload, AllocError>
    ensures { IfOk result (λ made. made ≡ payload.now) }
{
    match payload {
        Payload::Label(label) => Ok(Payload::Label(*label)),
        Payload::Value(value) => Ok(Payload::Value(value.copy()?)),
        Payload::Channel(name) => Ok(Payload::Channel(*name)),
        Payload::Pay => Ok(Payload::Pay),
        Payload::Close => Ok(Payload::Close),
    }
}

// A copy of a message.
fn copy_message(m: &Message) -> Result<Message, AllocError>
    ensures { IfOk result (λ made. made ≡ m.now) }
{
    Ok(Message {
        number: m.number,
        to_client: m.to_client,
        from: m.from,
        next: m.next,
        payload: copy_payload(&m.payload)?,
        purse: m.purse,
    })
}

// A copy of an object.
fn copy_object(alloc: Global, o: &PlainObject) -> Result<PlainObject, AllocError>
    ensures object { IfOk result (λ made. object_in made ≡ object_in o.now) }
    ensures room { IfOk result (λ made. HasRoom 0 made) }
{
    match o {
        PlainObject::Process(p) => Ok(PlainObject::Process(copy_process(alloc, p)?)),
        PlainObject::Message(m) => Ok(PlainObject::Message(copy_message(m)?)),
    }
}

// Copies of objects, in order.
fn copy_objects(alloc: Global, objects: &[PlainObject]) -> Result<Vec<PlainObject>, AllocError>
    ensures objects { IfOk result (λ made. map object_in made.items ≡ map object_in objects.now) }
    ensures room { IfOk result (λ made. All (HasRoom 0) made.items) }
    ensures fits { IfOk result (λ made. vec_len made ≤ vec_capacity made) }
{
    let mut made = Vec::new(alloc);
    for o in objects {
        made.push(copy_object(alloc, o)?)?;
    }
    Ok(made)
}

// A copy of what processes emitted.
fn copy_results(alloc: Global, results: &[(u32, Value)]) -> Result<Vec<(u32, Value)>, AllocError>
    ensures { IfOk result (λ made. made.items ≡ results.now) }
{
    let mut made = Vec::new(alloc);
    for pair in results {
        made.push((pair.0, pair.1.copy()?))?;
    }
    Ok(made)
}

impl PlainParts {
    /// The same state once more. It has room for nothing ahead.
    pub(crate) fn copy(&self, alloc: Global) -> Result<PlainParts, AllocError>
        requires { IsSound self.now }
        ensures state { IfOk result (λ made. state_of made ≡ state_of self.now) }
        ensures sound { IfOk result IsSound }
    {
        Ok(PlainParts {
            alloc,
            objects: copy_objects(alloc, &self.objects)?,
            next_object: self.next_object,
            next_name: self.next_name,
            types: copy_items(alloc, &self.types)?,
            balances: copy_items(alloc, &self.balances)?,
            spent: self.spent,
            results: copy_results(alloc, &self.results)?,
            outside: copy_items(alloc, &self.outside)?,
            room: 0,
        })
    }
}
