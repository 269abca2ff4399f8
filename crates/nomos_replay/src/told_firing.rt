//! Firings that a text says, one by one.

ghost use Rattle.std.specs.Prelude.{◌≡◌, ◌↔◌, ◌<◌, IsTrue, IfOk, MatchResult, Some, length};
ghost use Rattle.std.specs.Option.{option_map};
ghost use Rattle.nomos_machine.specs.State.{State, process_at};
ghost use Rattle.nomos_machine.specs.declared.object.Process.{Process};
ghost use Rattle.nomos_deeds.specs.Acting.{HasNumbers};
ghost use Rattle.nomos_legal.specs.StandsFor.{WorldStandsFor};
ghost use Rattle.nomos_journal.specs.JournalText.{firing_line};
ghost use Rattle.nomos_ledger.specs.Watching.{IsWatched};
ghost use Rattle.nomos_replay.specs.Stand.{says_fired};
ghost use Rattle.nomos_replay.specs.mirror.BatchUnderWay.{FireStops, FiresBy, FiresOrNot, MayFire};

use crate::error::ReplayError;
use crate::same::is_same_firing;
use crate::trial::Trial;
use nomos_deeds::fire::Fire;
use nomos_deeds::undo::Undo;
use nomos_ir::ids::CodeId;
use nomos_journal::firing_lines::placed_line;
use nomos_journal::line::{JournalLine, Version};
use nomos_ledger::watched::Watched;
use nomos_ledger::world::World;
use nomos_legal::journal::Firing;
use nomos_types::accepted::Accepted;
use std::alloc::{AllocError, Global};

/// A line that may say a firing, its number in the text, and the most firings of the batch.
#[derive(Clone, Copy)]
pub(crate) struct FiringLine<'a> {
    pub(crate) line: &'a JournalLine,
    pub(crate) at: u32,
    pub(crate) most: u32,
}

// The process of which a line says that it fires.
fn says_fired(version: Version, line: &JournalLine) -> Option<u32>
    ensures { result ≡ says_fired version line.now }
{
    match (version, line) {
        (Version::One, JournalLine::Pid(pid)) => Some(*pid),
        (Version::Two, JournalLine::Worked(pid, _)) => Some(*pid),
        (Version::Two, JournalLine::Fired(pid, _)) => Some(*pid),
        _ => None,
    }
}

// Whether a line of a firing is that of a process at this instruction.
fn says_place(trial: &Trial<'_>, pid: u32, place: CodeId, line: &JournalLine) -> bool
    requires { says_fired trial.now.version line.now ≡ Some pid }
    ensures { (s : State) (p : Process) → process_at s pid ≡ Some p → p.code ≡ place
        → (IsTrue result ↔ (firing_line trial.now.version trial.now.accepted.now s pid ≡ Some line.now)) }
{
    match trial.version {
        Version::One => true,
        Version::Two => match placed_line(trial.accepted, pid, place) {
            Some(own) => is_same_firing(line, &own),
            None => false,
        },
    }
}

// The instruction at which the process of this number stands, if there is one.
fn place_of<M: Undo>(world: &World<M>, pid: u32) -> Option<CodeId>
    ensures { result ≡ option_map (λ p. p.code) (process_at world.now.state pid) }
{
    let seen = world.state().process(pid)?;
    Some(seen.code)
}

// Fires a process, if it has a step.
fn fire_if_ready<M: Undo>(
    alloc: Global,
    accepted: &Accepted,
    watched: &mut Watched<M>,
    pid: u32,
) -> Result<bool, AllocError>
    requires may { MayFire accepted.now watched.old.world }
    requires watched { IsWatched accepted.now watched.old.world.state watched.old.awake }
    ensures ok { IfOk result (λ fired. FiresOrNot accepted.now watched.old.world pid fired watched.new.world) }
    ensures stands { WorldStandsFor accepted.now watched.new.world }
    ensures watched { IsWatched accepted.now watched.new.world.state watched.new.awake }
{
    accepted.know();
    if !watched.world.state().ready(accepted, pid) {
        return Ok(false);
    }
    match watched.fire(alloc, accepted, Firing { pass: 0, pid })? {
        Fire::Fired => Ok(true),
        Fire::Faulted(_) => Ok(false),
    }
}

/// Fires the process of which a line says so. The line has to be that of its step, and a firing to be left.
pub(crate) fn fire_line<M: Undo>(
    trial: &Trial<'_>,
    watched: &mut Watched<M>,
    read: FiringLine<'_>,
) -> Result<(), ReplayError>
    requires stands { WorldStandsFor trial.now.accepted.now watched.old.world }
    requires numbers { length watched.old.world.firings < read.most → HasNumbers watched.old.world.state }
    requires watched { IsWatched trial.now.accepted.now watched.old.world.state watched.old.awake }
    ensures fires { MatchResult result
        (λ _. FiresBy trial.now.accepted.now trial.now.version read.entry.most read.entry.line.now watched.old.world
        watched.new.world)
        (FireStops trial.now.accepted.now trial.now.version read.entry.most read.entry.at read.entry.line.now
        watched.old.world) }
    ensures stands { WorldStandsFor trial.now.accepted.now watched.new.world }
    ensures watched { IsWatched trial.now.accepted.now watched.new.world.state watched.new.awake }
{
    let Some(pid) = says_fired(trial.version, read.line) else {
        return Err(ReplayError::BadLine(read.at));
    };
    if watched.world.firings().len() >= read.most as usize {
        return Err(ReplayError::BadLine(read.at));
    }
    let Some(place) = place_of(&watched.world, pid) else {
        return Err(ReplayError::NotEnabled(read.at, pid));
    };
    let fired = fire_if_ready(trial.alloc, trial.accepted, watched, pid)?;
    if !fired {
        return Err(ReplayError::NotEnabled(read.at, pid));
    }
    let same = says_place(trial, pid, place, read.line);
    if !same {
        return Err(ReplayError::WrongFiring(read.at, pid));
    }
    Ok(())
}
