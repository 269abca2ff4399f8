//! A batch under way with the processes that may be ready, so that the next one is found without a walk over all.
ghost use Rattle.std.specs.Prelude.{◌≡◌, ◌≤◌, ℕ, [], None, Some, IfOk, OnErr, MatchOption, length};
ghost use Rattle.nomos_ir.specs.TermsEvaluation.{instruction_evaluation};
ghost use Rattle.nomos_eval.specs.Outcomes.{outcome_of};
ghost use Rattle.nomos_machine.specs.Run.{IsNextReady, IsQuiet, NoneReady};
ghost use Rattle.nomos_types.specs.Acceptance.{Acceptance};
ghost use Rattle.nomos_machine.specs.State.{State};
ghost use Rattle.nomos_machine.specs.Step.{IsReady, step};
ghost use Rattle.nomos_machine.specs.TypedState.{IsTyped};
ghost use Rattle.nomos_deeds.specs.Acting.{HasNumbers};
ghost use Rattle.nomos_legal.specs.Ending.{EndsAs, GoesOn};
ghost use Rattle.nomos_legal.specs.StandsFor.{WorldStandsFor};
ghost use Rattle.nomos_ledger.specs.Calls.{FiresIn};
ghost use Rattle.nomos_ready.specs.Covering.{Covers};
ghost use Rattle.nomos_ready.specs.Foreseeing.{IsForeseen};
ghost use Rattle.nomos_ledger.specs.Watching.{IsWatched};

use crate::world::World;
use nomos_deeds::fire::Fire;
use nomos_deeds::machine::Machine;
use nomos_deeds::undo::Undo;
use nomos_eval::wanted::{Outcome, Wanted};
use nomos_legal::journal::{End, Firing};
use nomos_ready::awake::Awake;
use nomos_ready::seeking::{any_ready, awake_from, next_ready};
use nomos_ready::waking::{Foreseen, foresee, wake_after};
use nomos_types::accepted::Accepted;
use std::alloc::{AllocError, Global};

/// A batch under way, and the processes of it that may be ready, where they are known.
#[derive(Drop)]
pub struct Watched<M: Undo> {
    pub world: World<M>,
    pub awake: Option<Awake>,
}

// A name that is no lower than the first new one: that of the first contract which the batch makes.
fn first_name<M: Undo>(accepted: &Accepted, world: &World<M>) -> u32
    requires stands { WorldStandsFor accepted.now world.now }
    requires fresh { world.now.firings ≡ [] }
    ensures { world.now.origin.state.next_name ≤ result }
{
    accepted.know();
    match world.first_made() {
        Some(name) => name,
        None => world.state().next_name(),
    }
}

// The processes that may be ready where nothing has fired: those that the batch starts.
fn awake_at_start<M: Undo>(alloc: Global, accepted: &Accepted, world: &World<M>) -> Awake
    requires stands { WorldStandsFor accepted.now world.now }
    requires fresh { world.now.firings ≡ [] }
    ensures { Covers accepted.now world.now.state result }
{
    accepted.know();
    let first = world.first_number(accepted);
    let name = first_name(accepted, world);
    awake_from(alloc, world.state(), first, name)
}

// A process that is ready, if one is: the lowest over a number, or the lowest of all.
fn ready_in<M: Undo>(accepted: &Accepted, world: &World<M>, after: u32) -> Option<u32>
    requires { WorldStandsFor accepted.now world.now }
    ensures { MatchOption result (IsQuiet accepted.now world.now.state) (IsReady accepted.now world.now.state) }
{
    accepted.know();
    match world.next_ready(accepted, after) {
        Some(pid) => Some(pid),
        None => world.next_ready(accepted, 0),
    }
}

impl<M: Undo> Watched<M> {
    /// The batch, of which nothing is known yet. It takes no memory.
    pub fn of(world: World<M>) -> Watched<M>
        ensures world { result.world ≡ world }
        ensures watched { (a : Acceptance) → IsWatched a result.world.state result.awake }
    {
        Watched { world, awake: None }
    }

    /// From here on it is known who may be ready, where nothing has fired yet. Where memory is wanting, any process may
    /// be ready.
    pub fn watch(&mut self, alloc: Global, accepted: &Accepted)
        requires stands { WorldStandsFor accepted.now self.old.world }
        requires watched { IsWatched accepted.now self.old.world.state self.old.awake }
        ensures world { self.new.world ≡ self.old.world }
        ensures watched { IsWatched accepted.now self.new.world.state self.new.awake }
    {
        if self.awake.is_none() && self.world.firings().is_empty() {
            self.awake = Some(awake_at_start(alloc, accepted, &self.world));
        }
    }

    /// The lowest process over a number that is ready, or none where no process over it is ready. Want of memory
    /// costs speed alone.
    #[inline(always)]
    pub fn next_ready(&mut self, accepted: &Accepted, after: u32) -> Option<u32>
        requires stands { WorldStandsFor accepted.now self.old.world }
        requires watched { IsWatched accepted.now self.old.world.state self.old.awake }
        ensures world { self.new.world ≡ self.old.world }
        ensures watched { IsWatched accepted.now self.new.world.state self.new.awake }
        ensures next { MatchOption result (NoneReady accepted.now self.old.world.state after)
            (IsNextReady accepted.now self.old.world.state after) }
    {
        accepted.know();
        match &mut self.awake {
            Some(awake) => next_ready(awake, self.world.state(), accepted, after),
            None => self.world.next_ready(accepted, after),
        }
    }

    /// The lowest process that is ready, or none where no process is. Want of memory
    /// costs speed alone.
    #[inline(always)]
    pub fn lowest(&mut self, accepted: &Accepted) -> Option<u32>
        requires stands { WorldStandsFor accepted.now self.old.world }
        requires watched { IsWatched accepted.now self.old.world.state self.old.awake }
        ensures world { self.new.world ≡ self.old.world }
        ensures watched { IsWatched accepted.now self.new.world.state self.new.awake }
        ensures lowest { MatchOption result (IsQuiet accepted.now self.old.world.state)
            (IsNextReady accepted.now self.old.world.state 0) }
    {
        accepted.know();
        self.next_ready(accepted, 0)
    }

    /// A process that is ready, if one is: one over a number, where one is known there. Want of memory
    /// costs speed alone.
    pub fn any_ready(&mut self, accepted: &Accepted, after: u32) -> Option<u32>
        requires stands { WorldStandsFor accepted.now self.old.world }
        requires watched { IsWatched accepted.now self.old.world.state self.old.awake }
        ensures world { self.new.world ≡ self.old.world }
        ensures watched { IsWatched accepted.now self.new.world.state self.new.awake }
        ensures any { MatchOption result (IsQuiet accepted.now self.old.world.state)
            (IsReady accepted.now self.old.world.state) }
    {
        accepted.know();
        match &mut self.awake {
            Some(awake) => any_ready(awake, self.world.state(), accepted, after),
            None => ready_in(accepted, &self.world, after),
        }
    }

    /// The batch as it has come to be. It takes no memory.
    pub fn into_world(self) -> World<M>
        ensures { result ≡ self.world }
    {
        let Watched {
            world,
            awake: _awake,
        } = self;
        world
    }

    /// How the batch ends here that may make so many firings, faults apart, or none where it goes on. Which process is
    /// ready is known, if one is. It takes no memory.
    pub fn end_where(&self, accepted: &Accepted, limit: u32, ready: Option<u32>) -> Option<End>
        requires stands { WorldStandsFor accepted.now self.now.world }
        requires ready { MatchOption ready (IsQuiet accepted.now self.now.world.state)
            (IsReady accepted.now self.now.world.state) }
        ensures { MatchOption result
            (GoesOn accepted.now self.now.world.state (length self.now.world.firings) limit)
            (EndsAs accepted.now self.now.world.state (length self.now.world.firings) limit) }
    {
        match ready {
            Some(_) => {
                if self.world.firings().len() == limit as usize {
                    Some(End::Steps(limit))
                } else {
                    None
                }
            }
            None => Some(self.world.end_at_rest(accepted)),
        }
    }

    /// How the batch ends here that may make so many firings, faults apart, or none where it goes on. Want of memory
    /// costs speed alone.
    pub fn end(&mut self, accepted: &Accepted, limit: u32) -> Option<End>
        requires stands { WorldStandsFor accepted.now self.old.world }
        requires watched { IsWatched accepted.now self.old.world.state self.old.awake }
        ensures world { self.new.world ≡ self.old.world }
        ensures watched { IsWatched accepted.now self.new.world.state self.new.awake }
        ensures end { MatchOption result
            (GoesOn accepted.now self.old.world.state (length self.old.world.firings) limit)
            (EndsAs accepted.now self.old.world.state (length self.old.world.firings) limit) }
    {
        let lowest = self.lowest(accepted);
        self.end_where(accepted, limit, lowest)
    }

    // What is known before a firing of whom it may wake.
    #[inline(always)]
    fn foresee(&mut self, accepted: &Accepted, pid: u32) -> Option<Foreseen>
        requires stands { WorldStandsFor accepted.now self.old.world }
        requires ready { IsReady accepted.now self.old.world.state pid }
        requires watched { IsWatched accepted.now self.old.world.state self.old.awake }
        ensures world { self.new.world ≡ self.old.world }
        ensures watched { IsWatched accepted.now self.new.world.state self.new.awake }
        ensures foreseen { MatchOption result (self.new.awake ≡ None)
            (IsForeseen accepted.now self.new.world.state pid) }
    {
        accepted.know();
        match &mut self.awake {
            Some(awake) => Some(foresee(awake, self.world.state(), accepted, pid)),
            None => None,
        }
    }

    // A process has fired, whom that may wake was foreseen.
    #[inline(always)]
    fn wake(&mut self, accepted: &Accepted, foreseen: Option<Foreseen>)
        requires { WorldStandsFor accepted.now self.old.world }
        ensures world { self.new.world ≡ self.old.world }
        ensures watched { (s : State) (pid : ℕ) → IsTyped accepted.now s
            → step accepted.now s pid ≡ Some self.old.world.state
            → MatchOption foreseen (self.old.awake ≡ None) (IsForeseen accepted.now s pid)
            → IsWatched accepted.now s self.old.awake
            → IsWatched accepted.now self.new.world.state self.new.awake }
    {
        accepted.know();
        let Some(foreseen) = foreseen else { return };
        let Some(awake) = &mut self.awake else {
            return;
        };
        wake_after(awake, self.world.state(), accepted, foreseen);
    }

    /// Fires a ready process, as [`World::fire`] does.
    #[inline(always)]
    pub fn fire(
        &mut self,
        alloc: Global,
        accepted: &Accepted,
        firing: Firing,
    ) -> Result<Fire, AllocError>
        requires stands { WorldStandsFor accepted.now self.old.world }
        requires ready { IsReady accepted.now self.old.world.state firing.pid }
        requires numbers { HasNumbers self.old.world.state }
        requires watched { IsWatched accepted.now self.old.world.state self.old.awake }
        ensures ok { IfOk result (λ answer. FiresIn accepted.now self.old.world firing answer self.new.world) }
        ensures err { OnErr result (self.new.world ≡ self.old.world) }
        ensures stands { WorldStandsFor accepted.now self.new.world }
        ensures watched { IsWatched accepted.now self.new.world.state self.new.awake }
    {
        accepted.know();
        let foreseen = self.foresee(accepted, firing.pid);
        let answer = self.world.fire(alloc, accepted, firing)?;
        if let Fire::Fired = answer {
            self.wake(accepted, foreseen);
        }
        Ok(answer)
    }

    /// Fires a ready process with what was evaluated for it, as [`World::fire_with`] does.
    pub fn fire_with(
        &mut self,
        alloc: Global,
        accepted: &Accepted,
        firing: Firing,
        known: (&Wanted, &Outcome),
    ) -> Result<Fire, AllocError>
        requires known { outcome_of known.1.now
            ≡ instruction_evaluation accepted.now.program known.0.now.env known.0.now.code.0 }
        requires stands { WorldStandsFor accepted.now self.old.world }
        requires ready { IsReady accepted.now self.old.world.state firing.pid }
        requires numbers { HasNumbers self.old.world.state }
        requires watched { IsWatched accepted.now self.old.world.state self.old.awake }
        ensures ok { IfOk result (λ answer. FiresIn accepted.now self.old.world firing answer self.new.world) }
        ensures err { OnErr result (self.new.world ≡ self.old.world) }
        ensures stands { WorldStandsFor accepted.now self.new.world }
        ensures watched { IsWatched accepted.now self.new.world.state self.new.awake }
    {
        accepted.know();
        let foreseen = self.foresee(accepted, firing.pid);
        let answer = self.world.fire_with(alloc, accepted, firing, known)?;
        if let Fire::Fired = answer {
            self.wake(accepted, foreseen);
        }
        Ok(answer)
    }
}
