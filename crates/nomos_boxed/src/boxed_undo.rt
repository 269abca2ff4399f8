//! How a boxed machine goes back to a state that was marked.

use crate::boxed::Boxed;
use nomos_deeds::undo::Undo;
use std::alloc::{AllocError, Global};

impl<M: Undo + Drop> Undo for Boxed<M> {
    fn empty(alloc: Global) -> Self {
        Boxed {
            alloc,
            is_marked: false,
            machine: None,
        }
    }

    fn copy(&self, alloc: Global) -> Result<Self, AllocError> {
        match &self.machine {
            Some(machine) => Boxed::holding(alloc, machine.copy(alloc)?),
            None => Ok(Boxed::empty(alloc)),
        }
    }

    #[inline(always)]
    fn mark(&mut self) {
        match &mut self.machine {
            Some(machine) => machine.mark(),
            None => self.is_marked = true,
        }
    }

    #[inline(always)]
    fn back(&mut self) {
        match &mut self.machine {
            Some(machine) => machine.back(),
            None => self.is_marked = false,
        }
    }

    #[inline(always)]
    fn forget(&mut self) {
        match &mut self.machine {
            Some(machine) => machine.forget(),
            None => self.is_marked = false,
        }
    }
}
