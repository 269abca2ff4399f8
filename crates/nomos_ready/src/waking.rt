//! Who may be ready is kept beside a machine: before a firing, after it, and where the next ready process is sought.
ghost use Rattle.std.specs.Prelude.{◌≡◌, ◌<◌, ℕ, Some, IfSome, option_and_then};
ghost use Rattle.nomos_machine.specs.Sight.{offering, owner};
ghost use Rattle.nomos_machine.specs.State.{State};
ghost use Rattle.nomos_machine.specs.Step.{IsReady, step};
ghost use Rattle.nomos_machine.specs.TypedState.{IsTyped};
ghost use Rattle.nomos_machine.specs.declared.object.Process.{Process};
ghost use Rattle.nomos_deeds.specs.Readers.{waits};
ghost use Rattle.nomos_ready.specs.Covering.{Covers, HasProxy, IsNoted, MayBeReady};
ghost use Rattle.nomos_ready.specs.Foreseeing.{IsForeseen};
ghost use Rattle.nomos_ready.specs.Woken.{IsSpokenTo};
ghost use Rattle.nomos_ready.specs.mirror.ToldSets.{Tells};
ghost use Rattle.nomos_ready.specs.mirror.Waking.{Leaves, MayWakeBy, WakesBy, WakesHeard};

use crate::awake::Awake;
use crate::touch::{Incoming, Touch};
use crate::touching::{node_at, touch_of};
use nomos_deeds::machine::Machine;
use nomos_ir::code_node::CodeNode;
use nomos_types::accepted::Accepted;

/// What is known before a firing of whom it may wake.
#[derive(Clone, Copy, Debug)]
pub struct Foreseen {
    /// The process that fires.
    pub pid: u32,
    /// The number that the next object will have.
    pub next: u32,
    pub touch: Touch,
    /// The shared name for which the process waits, if it does.
    pub waits: Option<u32>,
    /// The same of the other object that is touched.
    pub partner_waits: Option<u32>,
}

// Wakes who uses a name.
fn wake_user<M: Machine>(awake: &mut Awake, machine: &M, name: u32)
    ensures woken { (q : ℕ) → owner (M.state machine.now) name ≡ Some q → MayBeReady awake.new q }
    ensures tells { Tells awake.old awake.new }
{
    if let Some(user) = machine.user(name) {
        awake.wake(user);
    }
}

// Wakes who offers a name.
fn wake_provider<M: Machine>(awake: &mut Awake, machine: &M, name: u32)
    ensures woken { (r : Process) → offering (M.state machine.now).objects name ≡ Some r
        → MayBeReady awake.new r.pid }
    ensures tells { Tells awake.old awake.new }
{
    if let Some(provider) = machine.offering(name) {
        awake.wake(provider.pid);
    }
}

// Wakes who may read what is heard.
#[inline(always)]
fn wake_heard<M: Machine>(awake: &mut Awake, machine: &M, heard: Option<Incoming>)
    ensures woken { WakesHeard (M.state machine.now) heard awake.new }
    ensures tells { Tells awake.old awake.new }
{
    let Some(heard) = heard else { return };
    if heard.to_client {
        wake_user(awake, machine, heard.name);
    } else {
        wake_provider(awake, machine, heard.name);
    }
}

// Wakes the process of a number, which changed, if there is one, and who meets it where it stands now.
#[inline(always)]
fn wake_changed<M: Machine>(awake: &mut Awake, machine: &M, accepted: &Accepted, number: u32)
    ensures { WakesBy accepted.now (M.state machine.now) number awake.old awake.new }
{
    let Some(seen) = machine.process(number) else {
        return;
    };
    awake.wake(number);
    match node_at(accepted, seen.code) {
        Some(CodeNode::Detach(_, _)) => wake_user(awake, machine, seen.offers),
        Some(CodeNode::Accept(_, _)) => awake.open(seen.offers),
        _ => {}
    }
}

// The same of the object that came with a firing under this number, if one did.
#[inline(always)]
fn wake_born<M: Machine>(awake: &mut Awake, machine: &M, accepted: &Accepted, number: u32)
    requires { IsTyped accepted.now (M.state machine.now) }
    ensures { WakesBy accepted.now (M.state machine.now) number awake.old awake.new }
{
    if number < machine.next_object() {
        wake_changed(awake, machine, accepted, number);
    }
}

// The same of the process of a number, if there is one.
fn wake_partner<M: Machine>(
    awake: &mut Awake,
    machine: &M,
    accepted: &Accepted,
    number: Option<u32>,
)
    ensures { MayWakeBy accepted.now (M.state machine.now) number awake.old awake.new }
{
    if let Some(number) = number {
        wake_changed(awake, machine, accepted, number);
    }
}

// A process that is about to fire may acquire a contract: then all who wait for that are ready, and its name is
// followed from now on.
fn follow_acquired<M: Machine>(
    awake: &mut Awake,
    machine: &M,
    accepted: &Accepted,
    pid: u32,
    awaited: Option<u32>,
)
    requires awaited { awaited ≡ waits accepted.now (M.state machine.now).objects pid }
    requires typed { IsTyped accepted.now (M.state machine.now) }
    requires ready { IsReady accepted.now (M.state machine.now) pid }
    requires covers { Covers accepted.now (M.state machine.now) awake.old }
    ensures { Covers accepted.now (M.state machine.now) awake.new }
{
    accepted.know();
    if let Some(name) = awaited {
        awake.follow(name);
    }
}

// For which shared name the process of a number waits, if there is one that does.
fn waits_if<M: Machine>(machine: &M, accepted: &Accepted, number: Option<u32>) -> Option<u32>
    ensures { result ≡ option_and_then (waits accepted.now (M.state machine.now).objects) number }
{
    machine.waits(accepted, number?)
}

/// What is known before a ready process fires of whom that may wake. It is told to `wake_after` once the process has
/// fired.
#[inline(always)]
pub fn foresee<M: Machine>(
    awake: &mut Awake,
    machine: &M,
    accepted: &Accepted,
    pid: u32,
) -> Foreseen
    requires typed { IsTyped accepted.now (M.state machine.now) }
    requires ready { IsReady accepted.now (M.state machine.now) pid }
    requires covers { Covers accepted.now (M.state machine.now) awake.old }
    ensures covers { Covers accepted.now (M.state machine.now) awake.new }
    ensures foreseen { IsForeseen accepted.now (M.state machine.now) pid result }
{
    let (touch, waits) = touch_of(machine, accepted, pid);
    follow_acquired(awake, machine, accepted, pid, waits);
    Foreseen {
        pid,
        next: machine.next_object(),
        touch,
        waits,
        partner_waits: waits_if(machine, accepted, touch.partner),
    }
}

// The processes that a firing changes wait for no name any more, and the one after it is sought.
#[inline(always)]
fn leave(awake: &mut Awake, foreseen: Foreseen)
    ensures { Leaves foreseen awake.old awake.new }
{
    awake.pass(foreseen.pid);
    awake.forget(foreseen.pid, foreseen.waits);
    if let Some(partner) = foreseen.touch.partner {
        awake.forget(partner, foreseen.partner_waits);
    }
}

// Who is noted for a name may be ready, if there is one.
fn offer_if(awake: &mut Awake, name: Option<u32>)
    ensures told { IfSome name (λ n. (q : ℕ) → 0 < q → IsNoted awake.old n q → HasProxy awake.new n q) }
    ensures tells { Tells awake.old awake.new }
{
    if let Some(name) = name {
        awake.offer(name);
    }
}

/// Wakes whom the firing of a process may have woken that was foreseen: if the set covered the state before, it covers
/// the state after.
#[inline(always)]
pub fn wake_after<M: Machine>(
    awake: &mut Awake,
    machine: &M,
    accepted: &Accepted,
    foreseen: Foreseen,
)
    requires { IsTyped accepted.now (M.state machine.now) }
    ensures { (s : State) (pid : ℕ) → IsTyped accepted.now s → step accepted.now s pid ≡ Some (M.state machine.now)
        → IsForeseen accepted.now s pid foreseen → Covers accepted.now s awake.old
        → Covers accepted.now (M.state machine.now) awake.new }
{
    accepted.know();
    leave(awake, foreseen);
    wake_changed(awake, machine, accepted, foreseen.pid);
    wake_born(awake, machine, accepted, foreseen.next);
    wake_partner(awake, machine, accepted, foreseen.touch.partner);
    wake_heard(awake, machine, foreseen.touch.heard);
    offer_if(awake, foreseen.waits);
    offer_if(awake, foreseen.partner_waits);
}

/// Wakes who may read what an outside party said on a name: if the set covered the state before, it covers the state
/// after. The same holds where that party heard something.
pub fn wake_spoken<M: Machine>(awake: &mut Awake, machine: &M, accepted: &Accepted, name: u32)
    requires { IsTyped accepted.now (M.state machine.now) }
    ensures { (s : State) → IsTyped accepted.now s → IsSpokenTo name s (M.state machine.now)
        → Covers accepted.now s awake.old → Covers accepted.now (M.state machine.now) awake.new }
{
    accepted.know();
    wake_provider(awake, machine, name);
}
