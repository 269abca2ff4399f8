//! How a state is changed by what processes do, however it is kept.
ghost use Rattle.std.specs.Prelude.{◌≡◌, ◌≤◌, ◌<◌, ◌+◌, ℕ, Option, None, IsOk, OnOk, OnErr};
ghost use Rattle.nomos_machine.specs.State.{State};
ghost use Rattle.nomos_deeds.specs.Acting.{CanAct, IsFrugalAct, after_act};

use crate::act::Act;
use crate::sight::Sight;
use nomos_ir::value::Values;
use nomos_types::accepted::Accepted;
use std::alloc::{AllocError, Global};

/// What changes a state by what processes do. It has room for some firings ahead, which is counted, and may have a
/// state marked, to which it can go back.
pub trait Acting: Sight {
    /// For how many firings ahead there is room.
    ghost spare: { Self → ℕ };

    /// The state that is marked, if one is.
    ghost marked: { Self → Option State } = { λ _. None };

    /// Makes room for so many firings. Want of memory leaves the state as it was.
    fn reserve(&mut self, firings: usize) -> Result<(), AllocError>
        ensures ok { OnOk result (firings ≤ spare self.new) }
        ensures spare { spare self.old ≤ spare self.new }
        ensures state { Self.state self.new ≡ Self.state self.old }
        ensures marked { marked self.new ≡ marked self.old };

    /// Makes the act of the process of this number, whose instruction's terms have these values. Want of memory leaves
    /// the state as it was; where there is room for a firing, no frugal act comes to it.
    fn perform(
        &mut self,
        alloc: Global,
        accepted: &Accepted,
        pid: u32,
        act: Act,
        values: Values,
    ) -> Result<(), AllocError>
        requires { CanAct accepted.now (Self.state self.old) pid values act }
        ensures ok { OnOk result (Self.state self.new ≡ after_act accepted.now (Self.state self.old) pid values act) }
        ensures err { OnErr result (Self.state self.new ≡ Self.state self.old) }
        ensures spare { spare self.old ≤ spare self.new + 1 }
        ensures frugal { 0 < spare self.old → IsFrugalAct act → IsOk result }
        ensures marked { marked self.new ≡ marked self.old };
}
