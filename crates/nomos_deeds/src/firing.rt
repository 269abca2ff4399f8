//! What is decided of a ready process is done.
ghost use Rattle.std.specs.Prelude.{◌≡◌, ◌≤◌, ◌<◌, ◌+◌, IsOk, IfOk, OnErr};
ghost use Rattle.nomos_machine.specs.Balances.{NoBalanceFalls};
ghost use Rattle.nomos_machine.specs.State.{gas_of};
ghost use Rattle.nomos_machine.specs.Step.{IsReady};
ghost use Rattle.nomos_machine.specs.TypedState.{IsTyped};
ghost use Rattle.nomos_deeds.specs.Acting.{IsFrugalDoing};
ghost use Rattle.nomos_deeds.specs.Decisions.{IsDeedOf};
ghost use Rattle.nomos_deeds.specs.Firings.{Fires, MayFire};

use crate::act::Doing;
use crate::acting::Acting;
use crate::decide::Decision;
use crate::fire::Fire;
use nomos_types::accepted::Accepted;
use std::alloc::{AllocError, Global};

/// Does what is decided of a ready process: its act is made, or it has its fault, and then nothing changes. Want of
/// memory leaves the state as it was.
#[inline(always)]
pub(crate) fn act_on<M: Acting>(
    machine: &mut M,
    alloc: Global,
    accepted: &Accepted,
    pid: u32,
    decision: Decision,
) -> Result<Fire, AllocError>
    requires may { MayFire accepted.now (M.state machine.old) }
    requires ready { IsReady accepted.now (M.state machine.old) pid }
    requires decides { IsDeedOf accepted.now (M.state machine.old) pid decision }
    ensures ok { IfOk result (λ answer. Fires accepted.now (M.state machine.old) pid answer (M.state machine.new)) }
    ensures err { OnErr result (M.state machine.new ≡ M.state machine.old) }
    ensures typed { IsTyped accepted.now (M.state machine.new) }
    ensures gas { gas_of (M.state machine.new) ≡ gas_of (M.state machine.old) }
    ensures balances { NoBalanceFalls (M.state machine.old) (M.state machine.new) }
    ensures spare { M.spare machine.old ≤ M.spare machine.new + 1 }
    ensures frugal { 0 < M.spare machine.old → IsFrugalDoing decision.doing → IsOk result }
    ensures marked { M.marked machine.new ≡ M.marked machine.old }
{
    accepted.know();
    let Decision { doing, values } = decision;
    let Some(doing) = doing else { unreachable!() };
    match doing {
        Doing::Acts(act) => {
            machine.perform(alloc, accepted, pid, act, values)?;
            Ok(Fire::Fired)
        }
        Doing::Faults(fault) => Ok(Fire::Faulted(fault)),
    }
}
