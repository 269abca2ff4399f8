//! How a boxed machine is changed by what processes do.

use crate::boxed::Boxed;
use nomos_deeds::act::Act;
use nomos_deeds::acting::Acting;
use nomos_deeds::undo::Undo;
use nomos_ir::value::Values;
use nomos_types::accepted::Accepted;
use std::alloc::{AllocError, Global};

impl<M: Undo + Drop> Acting for Boxed<M> {
    ghost use Rattle.nomos_boxed.specs.InBox.{marked_in, spare_in};

    ghost spare = { λ b. spare_in (λ m. M.spare m.value) b.machine };

    ghost marked = { λ b. marked_in (λ m. M.marked m.value) b.is_marked b.machine };

    fn reserve(&mut self, firings: usize) -> Result<(), AllocError> {
        self.fill()?;
        match &mut self.machine {
            Some(machine) => machine.reserve(firings),
            None => Err(AllocError),
        }
    }

    #[inline(always)]
    fn perform(
        &mut self,
        alloc: Global,
        accepted: &Accepted,
        pid: u32,
        act: Act,
        values: Values,
    ) -> Result<(), AllocError> {
        match &mut self.machine {
            Some(machine) => machine.perform(alloc, accepted, pid, act, values),
            None => Err(AllocError),
        }
    }
}
