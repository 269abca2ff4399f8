//! The name that an outside party has, as it comes, goes on and goes.

use crate::plain::PlainState;
use nomos_changes::outside::Outside;
use std::alloc::AllocError;

impl Outside for PlainState {
    fn outside(&self) -> Option<u32> {
        self.parts.outside.first().copied()
    }

    fn rename_outside(&mut self, old: u32, new: u32) {
        self.parts.rename_outside(old, new);
    }

    fn send_outside(&mut self, name: u32) -> Result<(), AllocError> {
        self.parts.outside.push(name)?;
        Ok(())
    }

    fn take_outside(&mut self) {
        self.parts.outside.clear();
    }
}
