//! A boxed machine as plain data, and made of such.

use crate::boxed::Boxed;
use nomos_contents::contents::Contents;
use nomos_contents::data::StateData;
use nomos_deeds::undo::Undo;
use std::alloc::{AllocError, Global};

impl<M: Contents + Drop> Contents for Boxed<M> {
    fn data(&self, alloc: Global) -> Result<StateData, AllocError> {
        match &self.machine {
            Some(machine) => machine.data(alloc),
            None => M::empty(self.alloc).data(alloc),
        }
    }

    fn of_data(alloc: Global, plain: StateData) -> Result<Self, AllocError> {
        Boxed::holding(alloc, M::of_data(alloc, plain)?)
    }
}
