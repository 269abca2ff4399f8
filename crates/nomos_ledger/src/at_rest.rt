//! States at rest, and transactions that are left in them.
ghost use Rattle.std.specs.Prelude.{◌≡◌, ◌↔◌, ◌<◌, ◌-◌, ℕ, IsTrue};
ghost use Rattle.nomos_machine.specs.Run.{IsQuiet};
ghost use Rattle.nomos_machine.specs.TypedState.{IsTyped, Numbered};
ghost use Rattle.nomos_deeds.specs.Readers.{IsTransaction};
ghost use Rattle.nomos_legal.specs.Ending.{HasTransaction};

use nomos_deeds::machine::Machine;
use nomos_types::accepted::Accepted;

/// Whether no process is ready. It takes no memory.
pub(crate) fn is_quiet<M: Machine>(machine: &M, accepted: &Accepted) -> bool
    requires { IsTyped accepted.now (M.state machine.now) }
    ensures { IsTrue result ↔ IsQuiet accepted.now (M.state machine.now) }
{
    accepted.know();
    machine.next_ready(accepted, 0).is_none()
}

/// Whether a transaction is left, where each has a number over this one. It takes no memory.
pub(crate) fn has_transaction<M: Machine>(machine: &M, after: u32) -> bool
    requires numbered { Numbered (M.state machine.now) }
    requires over { (pid : ℕ) → IsTransaction (M.state machine.now).objects pid → after < pid }
    ensures { IsTrue result ↔ HasTransaction (M.state machine.now) }
{
    machine.next_transaction(after).is_some()
}

/// A number that is lower by so many, or 0 where it is less than that.
pub(crate) fn lowered(number: u32, count: usize) -> u32
    ensures { result ≡ number - count }
{
    match u32::try_from(count) {
        Ok(count) => number.saturating_sub(count),
        Err(_) => 0,
    }
}
