//! Objects, found by scanning their list.
ghost use Rattle.std.specs.Prelude.{◌≡◌, ◌==◌, ◌+◌, nat_le, Some, None, map, find, option_copied, option_and_then};
ghost use Rattle.std.specs.List.{list_any, position};
ghost use Rattle.std.specs.Option.{option_map};
ghost use Rattle.nomos_ir.specs.Bindings.{bound_to};
ghost use Rattle.nomos_machine.specs.Objects.{object_number, object_at, process_of, message_of, mentioned, used};
ghost use Rattle.nomos_machine.specs.declared.object.Object.TheVariants as object;
ghost use Rattle.nomos_machine.specs.Sight.{same_way, is_read_on, message_on, is_offered, offering, user_of};
ghost use Rattle.nomos_deeds.specs.Acts.{message_at};
ghost use Rattle.nomos_deeds.specs.SeenObjects.{seen_process, seen_payload, seen_message};
ghost use Rattle.nomos_plain.specs.Parts.{any_mentions, has_number, object_in, process_in};

use crate::plain_object::{PlainObject, PlainProcess};
use nomos_deeds::sight::{SeenMessage, SeenPayload, SeenProcess};
use nomos_ir::ids::VarId;
use nomos_machine::object::{Message, Payload};

// The number of an object.
fn number_of(o: &PlainObject) -> u32
    ensures { result ≡ object_number (object_in o.now) }
{
    match o {
        PlainObject::Process(p) => p.pid,
        PlainObject::Message(m) => m.number,
    }
}

// The object of this number.
fn object_at(objects: &[PlainObject], number: u32) -> Option<&PlainObject>
    ensures { option_copied result ≡ find (λ o. object_number (object_in o) == number) objects.now }
{
    objects.iter().find(|o| number_of(o) == number)
}

/// The place of the object of this number.
pub(crate) fn place_of(objects: &[PlainObject], number: u32) -> Option<usize>
    ensures { result ≡ position (has_number number) objects.now }
{
    objects.iter().position(|o| number_of(o) == number)
}

/// The process of this number.
#[tactic(auto, using(crate::proofs::FindLemmas::process_found))]
pub(crate) fn process_at(objects: &[PlainObject], pid: u32) -> Option<&PlainProcess>
    ensures { option_map process_in (option_copied result)
        ≡ option_and_then process_of (object_at (map object_in objects.now) pid) }
{
    match object_at(objects, pid) {
        Some(PlainObject::Process(p)) => Some(p),
        _ => None,
    }
}

/// The message of this number.
#[tactic(auto, using(crate::proofs::FindLemmas::message_numbered))]
pub(crate) fn message_at(objects: &[PlainObject], number: u32) -> Option<&Message>
    ensures { option_copied result ≡ message_at (map object_in objects.now) number }
{
    match object_at(objects, number) {
        Some(PlainObject::Message(m)) => Some(m),
        _ => None,
    }
}

/// What is seen of a process.
pub(crate) fn seen_process(p: &PlainProcess) -> SeenProcess
    ensures { result ≡ seen_process (process_in p.now) }
{
    SeenProcess {
        pid: p.pid,
        mode: p.mode,
        code: p.code,
        offers: p.offers,
        base: p.base,
        purse: p.purse,
        payer: p.payer,
    }
}

// What is seen of what a message brings.
fn seen_payload(payload: &Payload) -> SeenPayload
    ensures { result ≡ seen_payload payload.now }
{
    match payload {
        Payload::Label(label) => SeenPayload::Label(*label),
        Payload::Value(_) => SeenPayload::Value,
        Payload::Channel(name) => SeenPayload::Channel(*name),
        Payload::Pay => SeenPayload::Pay,
        Payload::Close => SeenPayload::Close,
    }
}

/// What is seen of a message.
pub(crate) fn seen_message(m: &Message) -> SeenMessage
    ensures { result ≡ seen_message m.now }
{
    SeenMessage {
        number: m.number,
        next: m.next,
        brings: seen_payload(&m.payload),
    }
}

// Whether two ways are one.
fn same_way(way: bool, other: bool) -> bool
    ensures { result ≡ same_way way other }
{
    if way { other } else { !other }
}

// Whether it is a message that is read on this name and goes this way.
fn is_read_on(o: &PlainObject, to_client: bool, name: u32) -> bool
    ensures { result ≡ is_read_on to_client name (object_in o.now) }
{
    match o {
        PlainObject::Process(_) => false,
        PlainObject::Message(m) => same_way(to_client, m.to_client) && m.from == name,
    }
}

// The first message that is read on this name and goes this way, as an object.
fn object_on(objects: &[PlainObject], to_client: bool, name: u32) -> Option<&PlainObject>
    ensures { option_copied result ≡ find (λ o. is_read_on to_client name (object_in o)) objects.now }
{
    objects.iter().find(|o| is_read_on(o, to_client, name))
}

/// The first message that is read on this name and goes this way.
#[tactic(auto, using(crate::proofs::FindLemmas::message_found))]
pub(crate) fn message_on(objects: &[PlainObject], to_client: bool, name: u32) -> Option<&Message>
    ensures { option_copied result ≡ message_on (map object_in objects.now) to_client name }
{
    match object_on(objects, to_client, name) {
        Some(PlainObject::Message(m)) => Some(m),
        _ => None,
    }
}

// Whether it is a process that offers this name.
fn is_offered(o: &PlainObject, name: u32) -> bool
    ensures { result ≡ is_offered name (object_in o.now) }
{
    match o {
        PlainObject::Process(p) => p.offers == name,
        PlainObject::Message(_) => false,
    }
}

// The first process that offers this name, as an object.
fn object_offering(objects: &[PlainObject], name: u32) -> Option<&PlainObject>
    ensures { option_copied result ≡ find (λ o. is_offered name (object_in o)) objects.now }
{
    objects.iter().find(|o| is_offered(o, name))
}

/// The first process that offers this name.
#[tactic(auto, using(crate::proofs::FindLemmas::offering_found))]
pub(crate) fn offering(objects: &[PlainObject], name: u32) -> Option<&PlainProcess>
    ensures { option_map process_in (option_copied result) ≡ offering (map object_in objects.now) name }
{
    match object_offering(objects, name) {
        Some(PlainObject::Process(p)) => Some(p),
        _ => None,
    }
}

// Whether the list has the name.
fn has_name(pairs: &[(VarId, u32)], name: u32) -> bool
    ensures { result ≡ list_any (λ k. k == name) (map (λ e. e.1) pairs.now) }
{
    pairs.iter().map(|pair| pair.1).any(|k| k == name)
}

// Whether a message uses this name: as the other end of its talk, or since it brings it.
fn message_uses(m: &Message, name: u32) -> bool
    ensures { result ≡ list_any (λ k. k == name) (used (object.Message m.now)) }
{
    let at_end = if m.to_client {
        m.next == Some(name)
    } else {
        m.from == name
    };
    let brought = match &m.payload {
        Payload::Channel(k) => *k == name,
        _ => false,
    };
    at_end || brought
}

// Whether an object uses this name.
fn uses(o: &PlainObject, name: u32) -> bool
    ensures { result ≡ list_any (λ k. k == name) (used (object_in o.now)) }
{
    match o {
        PlainObject::Process(p) => has_name(&p.channels, name),
        PlainObject::Message(m) => message_uses(m, name),
    }
}

// The first object that uses this name.
fn object_using(objects: &[PlainObject], name: u32) -> Option<&PlainObject>
    ensures { option_copied result ≡ find (λ o. list_any (λ k. k == name) (used (object_in o))) objects.now }
{
    objects.iter().find(|o| uses(o, name))
}

/// The number of the first object that uses this name.
#[tactic(auto, using(crate::proofs::FindLemmas::user_found))]
pub(crate) fn user(objects: &[PlainObject], name: u32) -> Option<u32>
    ensures { result ≡ option_map object_number (user_of (map object_in objects.now) name) }
{
    let o = object_using(objects, name)?;
    Some(number_of(o))
}

// Whether a message mentions a name.
fn message_mentions(m: &Message, name: u32) -> bool
    ensures { result ≡ list_any (λ n. n == name) (mentioned (object.Message m.now)) }
{
    let carries = match &m.payload {
        Payload::Channel(k) => *k == name,
        _ => false,
    };
    m.from == name || m.next == Some(name) || carries
}

// Whether an object provides the name, uses it or has it as base.
fn mentions(o: &PlainObject, name: u32) -> bool
    ensures { result ≡ list_any (λ n. n == name) (mentioned (object_in o.now)) }
{
    match o {
        PlainObject::Process(p) => {
            p.offers == name || has_name(&p.channels, name) || p.base == Some(name)
        }
        PlainObject::Message(m) => message_mentions(m, name),
    }
}

/// Whether one of the objects does.
pub(crate) fn any_mentions(objects: &[PlainObject], name: u32) -> bool
    ensures { result ≡ any_mentions objects.now name }
{
    objects.iter().any(|o| mentions(o, name))
}
