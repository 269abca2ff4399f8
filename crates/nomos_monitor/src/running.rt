//! A machine with the processes of it that may be ready, so that the next one is found without a walk over all.
ghost use Rattle.std.specs.Prelude.{◌≡◌, ◌<◌, ◌≤◌, ◌^◌, None, IfOk, OnErr, OnOk, MatchOption, length};
ghost use Rattle.nomos_machine.specs.Hearing.{AnswersHearing, IsHearable};
ghost use Rattle.nomos_machine.specs.Opening.{CanOpen, OpensTalk};
ghost use Rattle.nomos_machine.specs.Run.{IsNextReady, IsQuiet};
ghost use Rattle.nomos_machine.specs.Saying.{CanSay, Says};
ghost use Rattle.nomos_machine.specs.State.{gas_of};
ghost use Rattle.nomos_machine.specs.Step.{IsReady};
ghost use Rattle.nomos_machine.specs.TypedState.{IsTyped};
ghost use Rattle.nomos_deeds.specs.Firings.{Fires, MayFire};
ghost use Rattle.nomos_ready.specs.Foreseeing.{IsForeseen};
ghost use Rattle.nomos_monitor.specs.Watching.{IsWatched};

use nomos_deeds::fire::Fire;
use nomos_deeds::talking::Talking;
use nomos_ir::ids::ProcId;
use nomos_machine::object::{Heard, Said};
use nomos_ready::awake::Awake;
use nomos_ready::seeking::{awake_from, next_ready};
use nomos_ready::waking::{Foreseen, foresee, wake_after, wake_spoken};
use nomos_types::accepted::Accepted;
use std::alloc::{AllocError, Global};

/// A machine, and the processes of it that may be ready, where they are known.
#[derive(Drop)]
pub(crate) struct Running<M: Talking> {
    pub(crate) machine: M,
    pub(crate) awake: Option<Awake>,
}

impl<M: Talking> Running<M> {
    /// The lowest process that is ready, or none where no process is. It takes no memory.
    pub(crate) fn lowest(&mut self, accepted: &Accepted) -> Option<u32>
        requires typed { IsTyped accepted.now (M.state self.old.machine) }
        requires watched { IsWatched accepted.now (M.state self.old.machine) self.old.awake }
        ensures machine { self.new.machine ≡ self.old.machine }
        ensures watched { IsWatched accepted.now (M.state self.new.machine) self.new.awake }
        ensures lowest { MatchOption result (IsQuiet accepted.now (M.state self.old.machine))
            (IsNextReady accepted.now (M.state self.old.machine) 0) }
    {
        accepted.know();
        match &mut self.awake {
            Some(awake) => next_ready(awake, &self.machine, accepted, 0),
            None => self.machine.next_ready(accepted, 0),
        }
    }

    // What is known before a firing of whom it may wake.
    fn foresee(&mut self, accepted: &Accepted, pid: u32) -> Option<Foreseen>
        requires typed { IsTyped accepted.now (M.state self.old.machine) }
        requires ready { IsReady accepted.now (M.state self.old.machine) pid }
        requires watched { IsWatched accepted.now (M.state self.old.machine) self.old.awake }
        ensures machine { self.new.machine ≡ self.old.machine }
        ensures watched { IsWatched accepted.now (M.state self.new.machine) self.new.awake }
        ensures foreseen { MatchOption result (self.new.awake ≡ None)
            (IsForeseen accepted.now (M.state self.new.machine) pid) }
    {
        match &mut self.awake {
            Some(awake) => Some(foresee(awake, &self.machine, accepted, pid)),
            None => None,
        }
    }

    /// Fires a ready process. Want of memory leaves the state as it was.
    pub(crate) fn fire(
        &mut self,
        alloc: Global,
        accepted: &Accepted,
        pid: u32,
    ) -> Result<Fire, AllocError>
        requires may { MayFire accepted.now (M.state self.old.machine) }
        requires ready { IsReady accepted.now (M.state self.old.machine) pid }
        requires watched { IsWatched accepted.now (M.state self.old.machine) self.old.awake }
        ensures ok { IfOk result (λ answer.
            Fires accepted.now (M.state self.old.machine) pid answer (M.state self.new.machine)) }
        ensures err { OnErr result (M.state self.new.machine ≡ M.state self.old.machine) }
        ensures watched { IsWatched accepted.now (M.state self.new.machine) self.new.awake }
        ensures marked { M.marked self.new.machine ≡ M.marked self.old.machine }
    {
        let foreseen = self.foresee(accepted, pid);
        let answer = self.machine.fire(alloc, accepted, pid)?;
        if let Fire::Fired = answer {
            if let (Some(awake), Some(foreseen)) = (&mut self.awake, foreseen) {
                wake_after(awake, &self.machine, accepted, foreseen);
            }
        }
        Ok(answer)
    }

    /// Opens a talk with a declaration. Where no process was ready before, only the one that comes may be. Want of
    /// memory leaves the state as it was.
    pub(crate) fn start_outside(
        &mut self,
        alloc: Global,
        accepted: &Accepted,
        declaration: ProcId,
        account: u32,
    ) -> Result<(), AllocError>
        requires may { MayFire accepted.now (M.state self.old.machine) }
        requires unmarked { M.marked self.old.machine ≡ None }
        requires open { CanOpen accepted.now (M.state self.old.machine) declaration.0 account }
        requires watched { IsWatched accepted.now (M.state self.old.machine) self.old.awake }
        ensures ok { OnOk result
            (OpensTalk accepted.now (M.state self.old.machine) declaration.0 account (M.state self.new.machine)) }
        ensures err { OnErr result (M.state self.new.machine ≡ M.state self.old.machine) }
        ensures watched { IsWatched accepted.now (M.state self.new.machine) self.new.awake }
        ensures marked { M.marked self.new.machine ≡ None }
    {
        accepted.know();
        let quiet = self.lowest(accepted).is_none();
        let first_name = self.machine.next_name();
        let pid = self
            .machine
            .start_outside(alloc, accepted, declaration, account)?;
        if !quiet {
            self.awake = None;
            return Ok(());
        }
        self.awake = Some(awake_from(alloc, &self.machine, pid, first_name));
        Ok(())
    }

    /// Says something, and the account pays what goes with it. Want of memory leaves the state as it was.
    pub(crate) fn say(
        &mut self,
        alloc: Global,
        accepted: &Accepted,
        account: u32,
        said: &Said,
    ) -> Result<(), AllocError>
        requires may { MayFire accepted.now (M.state self.old.machine) }
        requires unmarked { M.marked self.old.machine ≡ None }
        requires say { CanSay accepted.now (M.state self.old.machine) account said.now }
        requires watched { IsWatched accepted.now (M.state self.old.machine) self.old.awake }
        ensures ok { OnOk result
            (Says accepted.now (M.state self.old.machine) account said.now (M.state self.new.machine)) }
        ensures err { OnErr result (M.state self.new.machine ≡ M.state self.old.machine) }
        ensures watched { IsWatched accepted.now (M.state self.new.machine) self.new.awake }
        ensures marked { M.marked self.new.machine ≡ None }
    {
        let name = self.machine.outside();
        self.machine.say(alloc, accepted, account, said)?;
        if let (Some(awake), Some(name)) = (&mut self.awake, name) {
            wake_spoken(awake, &self.machine, accepted, name);
        }
        Ok(())
    }

    /// Hears what is there to be heard. Who may be ready stays, since a message leaves and nothing comes. Want of
    /// memory leaves the state as it was.
    pub(crate) fn hear(
        &mut self,
        alloc: Global,
        accepted: &Accepted,
        account: u32,
    ) -> Result<Option<Heard>, AllocError>
        requires typed { IsTyped accepted.now (M.state self.old.machine) }
        requires gas { gas_of (M.state self.old.machine) < 2 ^ 96 }
        requires few { length (M.state self.old.machine).outside ≤ 1 }
        requires account { account < length (M.state self.old.machine).balances }
        requires hearable { IsHearable (M.state self.old.machine) }
        requires unmarked { M.marked self.old.machine ≡ None }
        requires watched { IsWatched accepted.now (M.state self.old.machine) self.old.awake }
        ensures ok { IfOk result (λ heard.
            AnswersHearing (M.state self.old.machine) account heard (M.state self.new.machine)) }
        ensures err { OnErr result (M.state self.new.machine ≡ M.state self.old.machine) }
        ensures watched { IsWatched accepted.now (M.state self.new.machine) self.new.awake }
        ensures marked { M.marked self.new.machine ≡ None }
    {
        accepted.know();
        self.machine.hear(alloc, accepted, account)
    }
}
