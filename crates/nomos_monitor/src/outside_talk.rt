//! Talks of an outside party on one channel.
ghost use Rattle.std.specs.Prelude.{◌≡◌, ◌+◌, ◌<◌, ◌^◌, ℕ, List, [], None, Option, Result, IfOk, OnErr, IsTrue, ◌↔◌};
ghost use Rattle.nomos_deeds.specs.Acting.{HasNumbers};
ghost use Rattle.nomos_deeds.specs.Firings.{MayFire};
ghost use Rattle.nomos_machine.specs.Hearing.{AnswersHearing};
ghost use Rattle.nomos_machine.specs.Resting.{ComesToRest};
ghost use Rattle.nomos_machine.specs.Run.{IsQuiet};
ghost use Rattle.nomos_machine.specs.State.{State};
ghost use Rattle.nomos_machine.specs.declared.object.Heard.{Heard as WasHeard};
ghost use Rattle.nomos_machine.specs.declared.rest.Rest.{Rest as CameToRest};
ghost use Rattle.nomos_monitor.specs.declared.talk_refusal.SayError.{SayError as WhyUnsaid};
ghost use Rattle.nomos_monitor.specs.declared.talk_refusal.TalkRefusal.{TalkRefusal};
ghost use Rattle.nomos_monitor.specs.SayAnswers.{AnswersSaying, IsSameSaying};
ghost use Rattle.nomos_monitor.specs.Opened.{IsOpenedSo, IsRefusedSo, OpensTo};
ghost use Rattle.nomos_monitor.specs.TalkOpening.{CanOpenBy, IsTalkRefused, OpensNamed};
ghost use Rattle.nomos_monitor.specs.Talks.{EndsBy, FiresSome, GoesWell, IsTalk, LooksOnce};

use crate::opener::chosen;
use crate::rested::Rested;
use crate::running::Running;
use crate::talk_refusal::{SayError, TalkRefusal};
use nomos_deeds::fire::Fire;
use nomos_deeds::talking::Talking;
use nomos_ir::ids::ProcId;
use nomos_machine::object::{Heard, Said};
use nomos_machine::rest::Rest;
use nomos_types::accepted::Accepted;
use std::alloc::{AllocError, Global};
use std::marker::Model;

/// A talk of an outside party on one channel, which it speaks as the client (docs/MACHINE.md, "An outside party").
/// Contracts see the program under which it was opened, its state and the party's account. What holds of every talk is
/// told by `state`.
#[derive(Drop)]
pub struct OutsideTalk<'a, M: Talking> {
    accepted: &'a Accepted,
    running: Running<M>,
    account: u32,
}

impl<'a, M: Talking> Model for OutsideTalk<'a, M> {
    ghost use Rattle.std.specs.Coded.{codes};
    ghost use Rattle.nomos_ir.specs.ValueCode.{value_code};
    ghost use Rattle.nomos_monitor.specs.Talks.{TalkState};
    ghost use Rattle.nomos_monitor.specs.Watching.{IsWatchedTalk};

    ghost Value = { TalkState };

    ghost coded = { Prim.hlevel (codes, value_code) };

    ghost view = { λ t. record {
      a = t.accepted.now;
      state = M.state t.running.machine;
      account = t.account;
    } };

    ghost invariant = { λ t. IsWatchedTalk
        (record { a = t.accepted.now; state = M.state t.running.machine; account = t.account })
        t.running.awake (M.marked t.running.machine) };
}

/// The answer to one who opens a talk: the talk, or the machine with the state as it was.
#[derive(Drop)]
pub enum TalkOpening<'a, M: Talking> {
    Talk(OutsideTalk<'a, M>),
    Refused(M, TalkRefusal),
    NoMemory(M),
}

/// Opens a talk: a process of the declaration of this name comes, the account gives its declared potential, and the
/// name that it offers is the party's. Each refusal, and want of memory, hands the machine back with the state as it
/// was.
pub fn open_talk<'a, M: Talking>(
    alloc: Global,
    accepted: &'a Accepted,
    machine: M,
    proc: &str,
    account: u32,
) -> TalkOpening<'a, M>
    requires may { MayFire accepted.now (M.state machine) }
    requires nobody { (M.state machine).outside ≡ [] }
    requires unmarked { M.marked machine ≡ None }
    ensures answers { OpensTo M.state M.marked accepted.now (M.state machine) proc.now account result }
    ensures refused { (why : TalkRefusal) → IsTalkRefused accepted.now (M.state machine) proc.now account why
        → IsRefusedSo why result }
    ensures opened { (t : State) → OpensNamed accepted.now (M.state machine) proc.now account t
        → IsOpenedSo t result }
{
    accepted.know();
    match chosen(alloc, accepted, &machine, proc, account) {
        Err(_) => TalkOpening::NoMemory(machine),
        Ok(Err(why)) => TalkOpening::Refused(machine, why),
        Ok(Ok(declaration)) => opened(alloc, accepted, machine, declaration, account),
    }
}

// Opens a talk with a declaration that was found by a name.
fn opened<'a, M: Talking>(
    alloc: Global,
    accepted: &'a Accepted,
    machine: M,
    declaration: ProcId,
    account: u32,
) -> TalkOpening<'a, M>
    requires may { MayFire accepted.now (M.state machine) }
    requires unmarked { M.marked machine ≡ None }
    requires open { (name : List ℕ) × CanOpenBy accepted.now (M.state machine) name account declaration.0 }
    ensures { (name : List ℕ) → CanOpenBy accepted.now (M.state machine) name account declaration.0
        → OpensTo M.state M.marked accepted.now (M.state machine) name account result }
{
    accepted.know();
    let mut running = Running {
        machine,
        awake: None,
    };
    match running.start_outside(alloc, accepted, declaration, account) {
        Err(_) => TalkOpening::NoMemory(running.machine),
        Ok(()) => TalkOpening::Talk(OutsideTalk {
            accepted,
            running,
            account,
        }),
    }
}

impl<'a, M: Talking> OutsideTalk<'a, M> {
    /// Says something, and the account pays what goes with it. Where it is not said nothing changes. No other answer is
    /// right, but for want of memory.
    pub fn say(&mut self, alloc: Global, said: &Said) -> Result<(), SayError>
        requires numbers { HasNumbers self.old.state }
        ensures answers { AnswersSaying self.old.a self.old.state self.old.account said.now result self.new.state }
        ensures only { (other : Result Unit WhyUnsaid) (t : State)
            → AnswersSaying self.old.a self.old.state self.old.account said.now other t
            → IsSameSaying other t result self.new.state }
        ensures same { (self.new.a ≡ self.old.a) × (self.new.account ≡ self.old.account) }
    {
        self.speak(alloc, said)
    }

    // Says something, and the account pays what goes with it.
    fn speak(&mut self, alloc: Global, said: &Said) -> Result<(), SayError>
        requires numbers { HasNumbers self.old.state }
        ensures answers { AnswersSaying self.old.a self.old.state self.old.account said.now result self.new.state }
        ensures same { (self.new.a ≡ self.old.a) × (self.new.account ≡ self.old.account) }
    {
        self.accepted.know();
        let Some(gas) = self.running.machine.fits(self.accepted, said) else {
            return Err(SayError::Protocol);
        };
        let has = self.running.machine.balance(self.account).unwrap_or(0);
        let needs = u128::from(gas);
        if has < needs {
            return Err(SayError::NoGas { has, needs });
        }
        match self.running.say(alloc, self.accepted, self.account, said) {
            Ok(()) => Ok(()),
            Err(_) => Err(SayError::NoMemory),
        }
    }

    /// Hears what is there to be heard, if something is; what comes with it goes to the account. Want of memory changes
    /// nothing.
    pub fn hear(&mut self, alloc: Global) -> Result<Option<Heard>, AllocError>
        ensures ok { IfOk result (λ heard. AnswersHearing self.old.state self.old.account heard self.new.state) }
        ensures err { OnErr result (self.new.state ≡ self.old.state) }
        ensures only { (other : Option WasHeard) (t : State) → AnswersHearing self.old.state self.old.account other t
            → IfOk result (λ heard. (other ≡ heard) × (t ≡ self.new.state)) }
        ensures ends { IfOk result (λ heard. EndsBy heard self.old.state self.new.state) }
        ensures same { (self.new.a ≡ self.old.a) × (self.new.account ≡ self.old.account) }
    {
        self.accepted.know();
        self.running.hear(alloc, self.accepted, self.account)
    }

    // Fires the lowest ready process, or tells how the firings come to rest.
    fn step(&mut self, alloc: Global) -> Result<Option<Rest>, AllocError>
        requires numbers { HasNumbers self.old.state }
        ensures ok { IfOk result (λ stopped. LooksOnce self.old.a self.old.state stopped self.new.state) }
        ensures err { OnErr result (self.new.state ≡ self.old.state) }
        ensures same { (self.new.a ≡ self.old.a) × (self.new.account ≡ self.old.account) }
    {
        let accepted = self.accepted;
        accepted.know();
        let Some(pid) = self.running.lowest(accepted) else {
            return Ok(Some(Rest::Quiet));
        };
        match self.running.fire(alloc, accepted, pid)? {
            Fire::Fired => Ok(None),
            Fire::Faulted(fault) => Ok(Some(Rest::Faulted(pid, fault))),
        }
    }

    // Whether no process is ready.
    fn is_quiet(&mut self) -> bool
        ensures quiet { IsTrue result ↔ IsQuiet self.old.a self.old.state }
        ensures same { self.new ≡ self.old }
    {
        self.running.lowest(self.accepted).is_none()
    }

    /// Fires the lowest ready process, again and again, at most `limit` times, and tells how often and how it came to
    /// rest: in one way alone. Where memory was wanting, some firings were made, each of them whole.
    pub fn run(&mut self, alloc: Global, limit: u32) -> Result<Rested, AllocError>
        requires objects { self.old.state.next_object + limit < 2 ^ 32 }
        requires names { self.old.state.next_name + limit < 2 ^ 32 }
        ensures ok { IfOk result (λ r. ComesToRest self.old.a limit self.old.state r.made r.how self.new.state) }
        ensures only { (made : ℕ) (how : CameToRest) (t : State)
            → ComesToRest self.old.a limit self.old.state made how t
            → IfOk result (λ r. (made ≡ r.made) × (how ≡ r.how) × (t ≡ self.new.state)) }
        ensures err { OnErr result (FiresSome self.old.a limit self.old.state self.new.state) }
        ensures same { (self.new.a ≡ self.old.a) × (self.new.account ≡ self.old.account) }
    {
        self.fire_to_rest(alloc, limit)
    }

    // Fires the lowest ready process, again and again, at most `limit` times.
    fn fire_to_rest(&mut self, alloc: Global, limit: u32) -> Result<Rested, AllocError>
        requires objects { self.old.state.next_object + limit < 2 ^ 32 }
        requires names { self.old.state.next_name + limit < 2 ^ 32 }
        ensures ok { IfOk result (λ r. ComesToRest self.old.a limit self.old.state r.made r.how self.new.state) }
        ensures err { OnErr result (FiresSome self.old.a limit self.old.state self.new.state) }
        ensures same { (self.new.a ≡ self.old.a) × (self.new.account ≡ self.old.account) }
    {
        self.accepted.know();
        for made in 0..limit {
            if let Some(how) = self.step(alloc)? {
                return Ok(Rested { made, how });
            }
        }
        let how = if self.is_quiet() {
            Rest::Quiet
        } else {
            Rest::Steps
        };
        Ok(Rested { made: limit, how })
    }

    /// The machine with its state. The clauses also say what holds of every talk.
    pub fn state(&self) -> &M
        ensures state { M.state result.now ≡ self.now.state }
        ensures talk { IsTalk self.now.a self.now.state self.now.account }
        ensures goes_on { GoesWell self.now.a self.now.account self.now.state }
    {
        self.accepted.know();
        &self.running.machine
    }

    /// The machine with its state, in which nothing is marked.
    pub fn into_state(self) -> M
        ensures state { M.state result ≡ self.entry.state }
        ensures talk { IsTalk self.entry.a self.entry.state self.entry.account }
        ensures goes_on { GoesWell self.entry.a self.entry.account self.entry.state }
        ensures unmarked { M.marked result ≡ None }
    {
        self.accepted.know();
        self.running.machine
    }
}
