//! What an outside party does that has the client's end of a channel, as small changes of a state.
ghost use Rattle.std.specs.Prelude.{◌≡◌, ◌≤◌, ◌<◌, ◌+◌, ◌^◌, ◌∷◌, [], None, Some, IfOk, OnOk, OnErr, length, slice_index};
ghost use Rattle.nomos_deeds.specs.Acting.{HasNumbers};
ghost use Rattle.nomos_deeds.specs.Acts.{message_at};
ghost use Rattle.nomos_deeds.specs.Firings.{MayFire};
ghost use Rattle.nomos_machine.specs.Change.{CanGive, changed, paid_out, tidied};
ghost use Rattle.nomos_machine.specs.Hearing.{AnswersHearing, IsHearable, heard_names, hears};
ghost use Rattle.nomos_machine.specs.Opening.{CanOpen, OpensTalk};
ghost use Rattle.nomos_machine.specs.Saying.{CanSay, Says, brought, says};
ghost use Rattle.nomos_machine.specs.State.{gas_of};
ghost use Rattle.nomos_machine.specs.TypedState.{IsTyped};
ghost use Rattle.nomos_machine.specs.declared.object.Message.{Message as Sent};
ghost use Rattle.nomos_changes.specs.Beginnings.{with_come};
ghost use Rattle.nomos_changes.specs.Hearings.{IsThere, heard_at};
ghost use Rattle.nomos_changes.specs.SmallChanges.{process_born};

use crate::beginning::{Beginning, begin};
use crate::given::Given;
use crate::newborn::Newborn;
use crate::outside::Outside;
use crate::parts::Parts;
use crate::performing::ROOM_OF_AN_ACT;
use crate::starting::{come, declared};
use nomos_deeds::awaiting::{Way, way_on};
use nomos_deeds::sight::{SeenMessage, SeenPayload};
use nomos_ir::ids::{ProcId, TypeId};
use nomos_machine::object::{Heard, Message, Payload, Said};
use nomos_types::accepted::Accepted;
use std::alloc::{AllocError, Global};

/// A talk that is to be opened: with a process of which declaration, and the number of the account that pays for it.
#[derive(Clone, Copy, Debug)]
pub struct Opening {
    pub declaration: ProcId,
    pub account: u32,
}

/// What is to be said, and the number of the account that pays what goes with it.
#[derive(Clone, Copy)]
pub struct Saying<'a> {
    pub account: u32,
    pub said: &'a Said,
}

// On which name something is said, how the talk goes on then, and the number of the account that pays.
#[derive(Clone, Copy)]
struct TalkTurn {
    name: u32,
    way: Way,
    account: u32,
}

// Nothing is given.
fn nothing_given(alloc: Global) -> Given
    ensures values { result.values.items ≡ [] }
    ensures lists { result.lists.items ≡ [] }
    ensures channels { result.channels.items ≡ [] }
{
    Given {
        values: Vec::new(alloc),
        lists: Vec::new(alloc),
        channels: Vec::new(alloc),
    }
}

// A process comes, whose name has this type and goes outside, and its payer gives so many Dths. The name goes outside
// first, so that it is taken back where the process cannot come. Want of memory leaves the state as it was.
fn come_outside<P: Outside>(
    parts: &mut P,
    alloc: Global,
    child: Newborn,
    offers: TypeId,
    dths: u128,
) -> Result<(), AllocError>
    requires room { 3 ≤ P.room parts.old }
    requires unmarked { P.marked parts.old ≡ None }
    requires nobody { (P.state parts.old).outside ≡ [] }
    requires number { child.fields.pid ≡ (P.state parts.old).next_object }
    requires numbers { HasNumbers (P.state parts.old) }
    requires account { child.fields.payer < length (P.state parts.old).balances }
    requires has { dths ≤ slice_index (P.state parts.old).balances child.fields.payer }
    ensures ok { OnOk result (P.state parts.new ≡ tidied (with_come (record (P.state parts.old) {
      balances = paid_out (Some (child.fields.payer, dths)) (P.state parts.old).balances;
      outside = child.fields.offers ∷ [];
    }) (process_born child) offers)) }
    ensures err { OnErr result (P.state parts.new ≡ P.state parts.old) }
    ensures room { P.room parts.old ≤ P.room parts.new + 3 }
    ensures marked { P.marked parts.new ≡ None }
{
    parts.send_outside(child.fields.offers)?;
    match come(parts, alloc, child, offers, dths) {
        Ok(()) => Ok(()),
        Err(wanting) => {
            parts.take_outside();
            Err(wanting)
        }
    }
}

/// Opens a talk: a process of the declaration comes, the account gives its declared potential, and the name that it
/// offers goes outside. It gives the number of the process. Want of memory leaves the state as it was. Where there is
/// room for so many small changes that are to be kept, there is afterwards.
pub fn open_outside<P: Outside>(
    parts: &mut P,
    alloc: Global,
    accepted: &Accepted,
    opening: Opening,
    keep: usize,
) -> Result<u32, AllocError>
    requires may { MayFire accepted.now (P.state parts.old) }
    requires unmarked { P.marked parts.old ≡ None }
    requires open { CanOpen accepted.now (P.state parts.old) opening.declaration.0 opening.account }
    ensures ok { IfOk result (λ pid. (pid ≡ (P.state parts.old).next_object)
        × OpensTalk accepted.now (P.state parts.old) opening.declaration.0 opening.account (P.state parts.new)) }
    ensures err { OnErr result (P.state parts.new ≡ P.state parts.old) }
    ensures typed { IsTyped accepted.now (P.state parts.new) }
    ensures room { keep ≤ P.room parts.old → keep ≤ P.room parts.new }
    ensures marked { P.marked parts.new ≡ None }
{
    accepted.know();
    let changes = keep.checked_add(ROOM_OF_AN_ACT).ok_or(AllocError)?;
    parts.make_room(changes)?;
    let chosen = declared(accepted, opening.declaration);
    let at = Beginning {
        pid: parts.next_number(),
        offers: parts.fresh_name(),
        potential: accepted.bound(opening.declaration),
        payer: opening.account,
    };
    let child = begin(alloc, chosen, nothing_given(alloc), at)?;
    come_outside(parts, alloc, child, chosen.offers, u128::from(at.potential))?;
    Ok(at.pid)
}

// What a message brings by which this is said.
fn payload_of(said: &Said) -> Result<Payload, AllocError>
    ensures { IfOk result (λ made. made ≡ brought said.now) }
{
    match said {
        Said::Label(label) => Ok(Payload::Label(*label)),
        Said::Value(value) => Ok(Payload::Value(value.copy()?)),
        Said::Pay => Ok(Payload::Pay),
    }
}

// A message goes to the provider of the name, the account pays what it carries, and the next name is outside then.
// Want of memory leaves the state as it was.
fn speak<P: Outside>(
    parts: &mut P,
    alloc: Global,
    turn: TalkTurn,
    payload: Payload,
) -> Result<(), AllocError>
    requires room { 3 ≤ P.room parts.old }
    requires numbers { HasNumbers (P.state parts.old) }
    requires has { CanGive (Some (turn.account, turn.way.gas)) (P.state parts.old).balances }
    ensures ok { OnOk result (P.state parts.new ≡ changed (P.state parts.old)
        (says (P.state parts.old) turn.name payload turn.way.goes turn.account turn.way.gas)) }
    ensures err { OnErr result (P.state parts.new ≡ P.state parts.old) }
    ensures room { P.room parts.old ≤ P.room parts.new + 3 }
    ensures marked { P.marked parts.new ≡ P.marked parts.old }
{
    let next = parts.fresh_name();
    let message = Message {
        number: parts.next_number(),
        to_client: false,
        from: turn.name,
        next: Some(next),
        payload,
        purse: u128::from(turn.way.gas),
    };
    parts.come_message(alloc, message)?;
    parts.come_name(turn.way.goes);
    parts.pay_out(turn.account, u128::from(turn.way.gas));
    parts.rename_outside(turn.name, next);
    parts.tidy();
    Ok(())
}

/// Says something, and the account pays what goes with it. Want of memory leaves the state as it was. Where there is
/// room for so many small changes that are to be kept, there is afterwards.
pub fn say<P: Outside>(
    parts: &mut P,
    alloc: Global,
    accepted: &Accepted,
    saying: Saying<'_>,
    keep: usize,
) -> Result<(), AllocError>
    requires may { MayFire accepted.now (P.state parts.old) }
    requires unmarked { P.marked parts.old ≡ None }
    requires say { CanSay accepted.now (P.state parts.old) saying.account saying.said.now }
    ensures ok { OnOk result
        (Says accepted.now (P.state parts.old) saying.entry.account saying.entry.said.now (P.state parts.new)) }
    ensures err { OnErr result (P.state parts.new ≡ P.state parts.old) }
    ensures typed { IsTyped accepted.now (P.state parts.new) }
    ensures room { keep ≤ P.room parts.old → keep ≤ P.room parts.new }
    ensures marked { P.marked parts.new ≡ None }
{
    accepted.know();
    let Some(name) = parts.outside() else {
        unreachable!()
    };
    let Some(way) = way_on(&*parts, accepted, name, saying.said) else {
        unreachable!()
    };
    let changes = keep.checked_add(ROOM_OF_AN_ACT).ok_or(AllocError)?;
    parts.make_room(changes)?;
    let payload = payload_of(saying.said)?;
    let account = saying.account;
    speak(parts, alloc, TalkTurn { name, way, account }, payload)?;
    Ok(())
}

// What is heard of the message that is seen so.
fn heard_of<P: Parts>(
    parts: &P,
    alloc: Global,
    name: u32,
    seen: SeenMessage,
) -> Result<Heard, AllocError>
    requires { IsThere (P.state parts.now) name seen }
    ensures { IfOk result (λ what. heard_at (P.state parts.now).objects seen.number ≡ Some what) }
{
    match seen.brings {
        SeenPayload::Label(label) => Ok(Heard::Label(label)),
        SeenPayload::Value => match parts.message_value(alloc, seen.number)? {
            Some(value) => Ok(Heard::Value(value)),
            None => unreachable!(),
        },
        SeenPayload::Channel(_) => unreachable!(),
        SeenPayload::Pay => Ok(Heard::Paid(parts.message_purse(seen.number) as u64)),
        SeenPayload::Close => Ok(Heard::Closed),
    }
}

// The name under which the talk goes on is outside instead of this one, or none is where the talk ends. It takes no
// memory.
fn go_on_outside<P: Outside>(parts: &mut P, name: u32, next: Option<u32>)
    requires unmarked { P.marked parts.old ≡ None }
    requires alone { (P.state parts.old).outside ≡ name ∷ [] }
    ensures state { P.state parts.new ≡ record (P.state parts.old)
        { outside = heard_names name next (P.state parts.old).outside } }
    ensures room { P.room parts.old ≤ P.room parts.new }
    ensures marked { P.marked parts.new ≡ None }
{
    match next {
        Some(next) => parts.rename_outside(name, next),
        None => parts.take_outside(),
    }
}

// The message that is seen so leaves, the account gets what it carries, and the name under which the talk goes on is
// outside then, if there is one. It takes no memory.
fn listen<P: Outside>(parts: &mut P, account: u32, name: u32, seen: SeenMessage)
    requires room { 2 ≤ P.room parts.old }
    requires unmarked { P.marked parts.old ≡ None }
    requires gas { gas_of (P.state parts.old) < 2 ^ 96 }
    requires account { account < length (P.state parts.old).balances }
    requires there { IsThere (P.state parts.old) name seen }
    ensures state { (m : Sent) → message_at (P.state parts.old).objects seen.number ≡ Some m
        → P.state parts.new ≡ changed (P.state parts.old) (hears (P.state parts.old) m account) }
    ensures room { P.room parts.old ≤ P.room parts.new + 2 }
    ensures marked { P.marked parts.new ≡ None }
{
    let purse = parts.message_purse(seen.number);
    parts.leave(seen.number);
    parts.pay_in(account, purse);
    go_on_outside(parts, name, seen.next);
    parts.tidy();
}

/// Hears what is there to be heard, if something is; the account gets what comes with it. Want of memory leaves the
/// state as it was. Where there is room for so many small changes that are to be kept, there is afterwards.
pub fn hear<P: Outside>(
    parts: &mut P,
    alloc: Global,
    accepted: &Accepted,
    account: u32,
    keep: usize,
) -> Result<Option<Heard>, AllocError>
    requires typed { IsTyped accepted.now (P.state parts.old) }
    requires gas { gas_of (P.state parts.old) < 2 ^ 96 }
    requires few { length (P.state parts.old).outside ≤ 1 }
    requires account { account < length (P.state parts.old).balances }
    requires hearable { IsHearable (P.state parts.old) }
    requires unmarked { P.marked parts.old ≡ None }
    ensures ok { IfOk result (λ heard. AnswersHearing (P.state parts.old) account heard (P.state parts.new)) }
    ensures err { OnErr result (P.state parts.new ≡ P.state parts.old) }
    ensures typed { IsTyped accepted.now (P.state parts.new) }
    ensures room { keep ≤ P.room parts.old → keep ≤ P.room parts.new }
    ensures marked { P.marked parts.new ≡ None }
{
    accepted.know();
    let Some(name) = parts.outside() else {
        return Ok(None);
    };
    let Some(seen) = parts.message_on(true, name) else {
        return Ok(None);
    };
    let changes = keep.checked_add(ROOM_OF_AN_ACT).ok_or(AllocError)?;
    parts.make_room(changes)?;
    let heard = heard_of(&*parts, alloc, name, seen)?;
    listen(parts, account, name, seen);
    Ok(Some(heard))
}
