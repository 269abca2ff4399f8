//! A talk that is held line by line, and what is printed of it.

ghost use Rattle.std.specs.Prelude.{◌≡◌, ◌+◌, ◌∷◌, [], ℕ, IfOk, List, None, OnOk, length, true};
ghost use Rattle.nomos_deeds.specs.Firings.{MayFire};
ghost use Rattle.nomos_machine.specs.State.{State};
ghost use Rattle.nomos_monitor.specs.TalkOpening.{OpensNamed};
ghost use Rattle.nomos_monitor.specs.TalkCourse.{listens, speaks};
ghost use Rattle.nomos_legal.specs.StandsFor.{StandsFor};
ghost use Rattle.nomos_visit.specs.TalkText.{turn_of};
ghost use Rattle.nomos_visit.specs.TalkHeld.{LeavesNumbers, HasToldIn};
ghost use Rattle.nomos_visit.specs.mirror.Holding.{HasHeld, HasSettled, HasTaken, HasTold, IsHeld, IsToldBehind, IsToldRefused};

use crate::label_texts::LabelTexts;
use crate::replies::{push_heard, push_opened, push_refused, push_said, push_stopped, push_unsaid};
use nomos_deeds::talking::Talking;
use nomos_ledger::ledger::Ledger;
use nomos_machine::object::Said;
use nomos_machine::rest::Rest;
use nomos_monitor::outside_talk::{OutsideTalk, TalkOpening, open_talk};
use nomos_monitor::rested::Rested;
use nomos_monitor::talk_refusal::{SayError, TalkRefusal};
use nomos_script::talk_line::TalkLine;
use nomos_types::accepted::Accepted;
use std::alloc::{AllocError, Global};

/// A talk that is held: the program under which it is printed, how many firings are left to it, and what is printed so
/// far.
#[derive(Drop)]
pub(crate) struct HeldTalk<'a, M: Talking + Drop> {
    pub(crate) accepted: &'a Accepted,
    pub(crate) talk: OutsideTalk<'a, M>,
    pub(crate) left: u32,
    pub(crate) text: Vec<u8>,
}

/// What a talk came to: whether all was done that the party does, and the text behind which it is printed, with it.
#[derive(Drop, Debug)]
pub struct ToldTalk {
    pub fine: bool,
    pub text: Vec<u8>,
}

/// For whom a party from outside talks: the name of the account that pays, and that of the process which offers the
/// channel. They are any words.
#[derive(Clone, Copy, Drop, Debug)]
pub struct Party<'a> {
    pub name: &'a str,
    pub proc: &'a str,
}

/// What a party does: what the lines of a text say, each with its number, with at most so many firings in all.
#[derive(Clone, Copy, Drop, Debug)]
pub struct Visit<'a> {
    pub party: Party<'a>,
    pub lines: &'a [(u32, TalkLine)],
    pub limit: u32,
}

impl<'a, M: Talking + Drop> HeldTalk<'a, M> {
    // Fires until the talk is at rest, and tells how where a process is ready still. It answers whether the talk goes
    // on.
    fn settle(&mut self, alloc: Global) -> Result<bool, AllocError>
        requires { (lines : ℕ) × IsHeld self.old lines }
        ensures settled { IfOk result (λ more. HasSettled self.old more self.new) }
        ensures held { (lines : ℕ) → IsHeld self.old lines → IfOk result (λ _. IsHeld self.new lines) }
        ensures same { (self.new.talk.a ≡ self.old.talk.a) × (self.new.talk.account ≡ self.old.talk.account) }
    {
        // Where the state is read it is known to be one of a talk.
        self.accepted.know();
        let _state = self.talk.state();
        let Rested { made, how } = self.talk.run(alloc, self.left)?;
        self.left -= made;
        if let Rest::Quiet = how {
            return Ok(true);
        }
        push_stopped(&mut self.text, how)?;
        Ok(false)
    }

    // Says what the line of this number says. It answers whether the talk goes on.
    fn speak(&mut self, alloc: Global, number: u32, said: &Said) -> Result<bool, AllocError>
        requires { (lines : ℕ) × IsHeld self.old (lines + 1) }
        ensures taken { IfOk result (λ more. HasTaken (number ∷ []) (speaks said.now ∷ []) self.old more self.new) }
        ensures held { (lines : ℕ) → IsHeld self.old (lines + 1) → IfOk result (λ _. IsHeld self.new lines) }
    {
        let Err(why) = self.talk.say(alloc, said) else {
            push_said(&mut self.text, number)?;
            return self.settle(alloc);
        };
        if let SayError::NoMemory = why {
            return Err(AllocError);
        }
        push_unsaid(&mut self.text, self.accepted.unit(), number, why)?;
        Ok(false)
    }

    // Hears what is there, in the line of this number.
    fn listen(&mut self, alloc: Global, number: u32) -> Result<(), AllocError>
        requires { (lines : ℕ) × IsHeld self.old (lines + 1) }
        ensures taken { OnOk result (HasTaken (number ∷ []) (listens ∷ []) self.old true self.new) }
        ensures held { (lines : ℕ) → IsHeld self.old (lines + 1) → OnOk result (IsHeld self.new lines) }
    {
        let heard = self.talk.hear(alloc)?;
        push_heard(&mut self.text, self.accepted, number, heard.as_ref())
    }

    // Does what a line says. It answers whether the talk goes on.
    fn take_turn(
        &mut self,
        alloc: Global,
        labels: &LabelTexts<'_>,
        number: u32,
        line: &TalkLine,
    ) -> Result<bool, AllocError>
        requires held { (lines : ℕ) × IsHeld self.old (lines + 1) }
        requires labels { labels.now ≡ self.old.talk.a.program.labels }
        ensures taken { IfOk result (λ more.
            HasTaken (number ∷ []) (turn_of self.old.talk.a.program line.now ∷ []) self.old more self.new) }
        ensures held { (lines : ℕ) → IsHeld self.old (lines + 1) → IfOk result (λ _. IsHeld self.new lines) }
    {
        match line {
            TalkLine::Hear => {
                self.listen(alloc, number)?;
                Ok(true)
            }
            TalkLine::Pay => self.speak(alloc, number, &Said::Pay),
            TalkLine::Value(value) => {
                let said = Said::Value(value.copy()?);
                self.speak(alloc, number, &said)
            }
            TalkLine::Label(name) => {
                let said = Said::Label(labels.label(name.as_bytes())?);
                self.speak(alloc, number, &said)
            }
        }
    }

    // Does what the lines say, one after the other, as long as the talk goes on. It answers whether all is done.
    fn hold(
        &mut self,
        alloc: Global,
        labels: &LabelTexts<'_>,
        lines: &[(u32, TalkLine)],
    ) -> Result<bool, AllocError>
        requires held { IsHeld self.old (length lines.now) }
        requires labels { labels.now ≡ self.old.talk.a.program.labels }
        ensures { IfOk result (λ fine. HasHeld lines.now self.old fine self.new) }
    {
        for (number, line) in lines {
            if !self.take_turn(alloc, labels, *number, line)? {
                return Ok(false);
            }
        }
        Ok(true)
    }

    // Tells that the talk is opened, fires until it is at rest, and does what the lines say. It answers whether all is
    // done.
    fn hold_from_opening(
        &mut self,
        alloc: Global,
        labels: &LabelTexts<'_>,
        lines: &[(u32, TalkLine)],
    ) -> Result<bool, AllocError>
        requires held { IsHeld self.old (length lines.now) }
        requires labels { labels.now ≡ self.old.talk.a.program.labels }
        ensures { (s : State) (proc : List ℕ)
            → OpensNamed self.old.talk.a s proc self.old.talk.account self.old.talk.state
            → IfOk result (λ fine. HasTold self.old.talk.a s proc self.old.talk.account self.old.left lines.now
            self.old.text.items fine self.new.text.items) }
    {
        push_opened(&mut self.text)?;
        if !self.settle(alloc)? {
            return Ok(false);
        }
        self.hold(alloc, labels, lines)
    }
}

// Holds a talk that is opened, and prints it behind a text.
fn hold_opened<'a, M: Talking + Drop>(
    alloc: Global,
    accepted: &'a Accepted,
    talk: OutsideTalk<'a, M>,
    text: Vec<u8>,
    visit: Visit<'_>,
) -> Result<ToldTalk, AllocError>
    requires program { talk.a ≡ accepted.now }
    requires room { LeavesNumbers talk.state (visit.limit + length visit.lines.now) }
    ensures { (s : State) (proc : List ℕ) → OpensNamed accepted.now s proc talk.entry.account talk.entry.state
        → IfOk result (IsToldBehind accepted.now s proc talk.entry.account visit.entry.limit visit.entry.lines.now
        text.items) }
{
    let labels = LabelTexts::of(alloc, accepted.program())?;
    let mut held = HeldTalk {
        accepted,
        talk,
        left: visit.limit,
        text,
    };
    let fine = held.hold_from_opening(alloc, &labels, visit.lines)?;
    Ok(ToldTalk {
        fine,
        text: held.text,
    })
}

// What is told of a talk that is not opened, behind a text.
fn refused(accepted: &Accepted, mut text: Vec<u8>, why: TalkRefusal) -> Result<ToldTalk, AllocError>
    ensures { IfOk result (IsToldRefused accepted.now why text.items) }
{
    push_refused(&mut text, accepted.unit(), why)?;
    Ok(ToldTalk { fine: false, text })
}

// The machine of a ledger, and the number of the account for which a party talks.
#[derive(Drop)]
struct Host<M: Talking + Drop> {
    machine: M,
    account: u32,
}

// Opens a talk of an account and holds it, and prints it behind a text.
fn hold_with<M: Talking + Drop>(
    alloc: Global,
    accepted: &Accepted,
    host: Host<M>,
    text: Vec<u8>,
    visit: Visit<'_>,
) -> Result<ToldTalk, AllocError>
    requires may { MayFire accepted.now (M.state host.machine) }
    requires nobody { (M.state host.machine).outside ≡ [] }
    requires unmarked { M.marked host.machine ≡ None }
    requires room { LeavesNumbers (M.state host.machine) (visit.limit + 1 + length visit.lines.now) }
    ensures { IfOk result (IsToldBehind accepted.now (M.state host.machine) visit.entry.party.proc.now host.account
        visit.entry.limit visit.entry.lines.now text.items) }
{
    match open_talk(
        alloc,
        accepted,
        host.machine,
        visit.party.proc,
        host.account,
    ) {
        TalkOpening::Talk(talk) => hold_opened(alloc, accepted, talk, text, visit),
        TalkOpening::Refused(_machine, why) => refused(accepted, text, why),
        TalkOpening::NoMemory(_machine) => Err(AllocError),
    }
}

/// Holds a talk with the machine of a ledger, and prints it behind a text: whether all is done that the party does, and
/// the text with a line for each reply (docs/TEXTS.md, "The text of a talk"). The ledger leaves room for numbers: one
/// for each firing, one for each line, and one for the opening. Want of memory is the one answer for which no reason is
/// given.
pub fn hold_talk<M: Talking + Drop>(
    alloc: Global,
    accepted: &Accepted,
    ledger: Ledger<M>,
    text: Vec<u8>,
    visit: Visit<'_>,
) -> Result<ToldTalk, AllocError>
    requires stands { StandsFor accepted.now ledger }
    requires room { LeavesNumbers ledger.state (visit.limit + 1 + length visit.lines.now) }
    ensures { IfOk result (HasToldIn accepted.now ledger visit.entry.party.name.now visit.entry.party.proc.now
        visit.entry.limit visit.entry.lines.now text.items) }
{
    accepted.know();
    let Some(account) = ledger.account_of(visit.party.name) else {
        return refused(accepted, text, TalkRefusal::NoAccount);
    };
    let host = Host {
        machine: ledger.into_state(),
        account,
    };
    hold_with(alloc, accepted, host, text, visit)
}
