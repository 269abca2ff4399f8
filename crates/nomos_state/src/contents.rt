//! An indexed state as plain data, and made of such.

use crate::indexed::IndexedState;
use crate::tallied::Tallied;
use nomos_contents::contents::Contents;
use nomos_contents::data::StateData;
use nomos_restore::building::restore;
use nomos_restore::restoring::Restoring;
use std::alloc::{AllocError, Global};

impl Restoring for Tallied {
    fn draw_up_to(&mut self, next_object: u32, next_name: u32) {
        self.draw_up_to(next_object, next_name);
    }

    fn open_account(&mut self, dths: u128) -> Result<u32, AllocError> {
        self.open_account(dths)
    }
}

impl Contents for IndexedState {
    fn data(&self, alloc: Global) -> Result<StateData, AllocError> {
        let inside = &self.tallied.inside;
        Ok(StateData {
            objects: inside.objects(alloc)?,
            next_object: inside.next_number(),
            next_name: inside.fresh_name(),
            types: inside.types(alloc)?,
            balances: inside.balances(alloc)?,
            spent: inside.spent(),
        })
    }

    fn of_data(alloc: Global, plain: StateData) -> Result<Self, AllocError> {
        let mut tallied = Tallied::empty_at(alloc, 0, 0);
        restore(&mut tallied, alloc, plain)?;
        Ok(IndexedState { tallied, spare: 0 })
    }
}
