//! The next ready process is sought among those that may be ready.
ghost use Rattle.std.specs.Prelude.{◌≡◌, ◌≤◌, ◌<◌, ℕ, MatchOption};
ghost use Rattle.nomos_machine.specs.Run.{IsNextReady, IsQuiet, NoneReady};
ghost use Rattle.nomos_machine.specs.Step.{IsReady};
ghost use Rattle.nomos_machine.specs.TypedState.{IsTyped};
ghost use Rattle.nomos_ready.specs.Covering.{Covers, IsFollowed, IsNoted, MayBeReady};
ghost use Rattle.nomos_ready.specs.mirror.Seeking.{IsSought};

use crate::awake::Awake;
use nomos_deeds::machine::Machine;
use nomos_types::accepted::Accepted;
use std::alloc::Global;

/// The set of all processes from a number on, where names from another one on are new.
pub fn awake_from<M: Machine>(alloc: Global, machine: &M, first: u32, first_name: u32) -> Awake
    ensures woken { (q : ℕ) → first ≤ q → q < (M.state machine.now).next_object → MayBeReady result q }
    ensures followed { (name : ℕ) → IsFollowed result name → first_name ≤ name }
    ensures noted { (name q : ℕ) → IsNoted result name q → ⊥ }
{
    let mut awake = Awake::none(alloc, first_name);
    'processes: for pid in first..machine.next_object() {
        awake.wake(pid);
    }
    awake
}

// The lowest over a number of those that are told and ready. Those that are found asleep are told to be.
fn seek<M: Machine>(awake: &mut Awake, machine: &M, accepted: &Accepted, after: u32) -> Option<u32>
    requires typed { IsTyped accepted.now (M.state machine.now) }
    requires covers { Covers accepted.now (M.state machine.now) awake.old }
    ensures covers { Covers accepted.now (M.state machine.now) awake.new }
    ensures lost { awake.new.lost ≡ awake.old.lost }
    ensures sought { awake.new.sought ≡ awake.old.sought }
    ensures found { IsSought accepted.now (M.state machine.now) awake.new after result }
{
    accepted.know();
    let mut from = after;
    'looks: while let Some(pid) = awake.next_over(from) {
        if machine.ready(accepted, pid) {
            return Some(pid);
        }
        awake.settle(pid, machine.waits(accepted, pid));
        from = pid;
    }
    None
}

/// The lowest ready process over a number, as the machine would find it. From the lowest of all on, and over the one
/// that fired last where a call found it, it is found among those that may be ready; elsewhere the machine walks. Those
/// that are found asleep are told to be.
pub fn next_ready<M: Machine>(
    awake: &mut Awake,
    machine: &M,
    accepted: &Accepted,
    after: u32,
) -> Option<u32>
    requires typed { IsTyped accepted.now (M.state machine.now) }
    requires covers { Covers accepted.now (M.state machine.now) awake.old }
    ensures covers { Covers accepted.now (M.state machine.now) awake.new }
    ensures next { MatchOption result (NoneReady accepted.now (M.state machine.now) after)
        (IsNextReady accepted.now (M.state machine.now) after) }
{
    accepted.know();
    if !awake.knows_over(after) {
        return machine.next_ready(accepted, after);
    }
    let pid = seek(awake, machine, accepted, after)?;
    awake.reach(pid);
    Some(pid)
}

/// A ready process, if one is: over a number, if one is known there.
pub fn any_ready<M: Machine>(
    awake: &mut Awake,
    machine: &M,
    accepted: &Accepted,
    after: u32,
) -> Option<u32>
    requires typed { IsTyped accepted.now (M.state machine.now) }
    requires covers { Covers accepted.now (M.state machine.now) awake.old }
    ensures covers { Covers accepted.now (M.state machine.now) awake.new }
    ensures any { MatchOption result (IsQuiet accepted.now (M.state machine.now))
        (IsReady accepted.now (M.state machine.now)) }
{
    accepted.know();
    match seek(awake, machine, accepted, after) {
        Some(pid) => Some(pid),
        None => next_ready(awake, machine, accepted, 0),
    }
}
