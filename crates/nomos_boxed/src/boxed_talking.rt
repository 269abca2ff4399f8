//! How an outside party speaks to a boxed machine.

use crate::boxed::Boxed;
use nomos_deeds::talking::Talking;
use nomos_deeds::undo::Undo;
use nomos_ir::ids::ProcId;
use nomos_machine::object::{Heard, Said};
use nomos_types::accepted::Accepted;
use std::alloc::{AllocError, Global};

impl<M: Talking + Drop> Talking for Boxed<M> {
    fn outside(&self) -> Option<u32> {
        match &self.machine {
            Some(machine) => machine.outside(),
            None => None,
        }
    }

    fn fits(&self, accepted: &Accepted, said: &Said) -> Option<u64> {
        match &self.machine {
            Some(machine) => machine.fits(accepted, said),
            None => M::empty(self.alloc).fits(accepted, said),
        }
    }

    fn start_outside(
        &mut self,
        alloc: Global,
        accepted: &Accepted,
        declaration: ProcId,
        account: u32,
    ) -> Result<u32, AllocError> {
        match &mut self.machine {
            Some(machine) => machine.start_outside(alloc, accepted, declaration, account),
            None => Err(AllocError),
        }
    }

    fn say(
        &mut self,
        alloc: Global,
        accepted: &Accepted,
        account: u32,
        said: &Said,
    ) -> Result<(), AllocError> {
        match &mut self.machine {
            Some(machine) => machine.say(alloc, accepted, account, said),
            None => Err(AllocError),
        }
    }

    fn hear(
        &mut self,
        alloc: Global,
        accepted: &Accepted,
        account: u32,
    ) -> Result<Option<Heard>, AllocError> {
        match &mut self.machine {
            Some(machine) => machine.hear(alloc, accepted, account),
            None => Err(AllocError),
        }
    }
}
