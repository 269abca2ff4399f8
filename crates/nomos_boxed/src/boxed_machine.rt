//! Which processes of a boxed machine are ready, and what a firing answers.

use crate::boxed::Boxed;
use nomos_deeds::fire::Fire;
use nomos_deeds::machine::{Machine, View};
use nomos_deeds::undo::Undo;
use nomos_eval::wanted::{Outcome, Wanted};
use nomos_ir::fault::Fault;
use nomos_ir::ids::{ProcId, TypeId};
use nomos_ir::value::{Value, Values};
use nomos_types::accepted::Accepted;
use std::alloc::{AllocError, Global};

impl<M: Undo + Drop> Machine for Boxed<M> {
    #[inline(always)]
    fn ready(&self, accepted: &Accepted, pid: u32) -> bool {
        match &self.machine {
            Some(machine) => machine.ready(accepted, pid),
            None => false,
        }
    }

    #[inline(always)]
    fn fire(&mut self, alloc: Global, accepted: &Accepted, pid: u32) -> Result<Fire, AllocError> {
        match &mut self.machine {
            Some(machine) => machine.fire(alloc, accepted, pid),
            None => unreachable!(),
        }
    }

    fn fault(
        &self,
        alloc: Global,
        accepted: &Accepted,
        pid: u32,
    ) -> Result<Option<Fault>, AllocError> {
        match &self.machine {
            Some(machine) => machine.fault(alloc, accepted, pid),
            None => Ok(None),
        }
    }

    fn wanted(
        &self,
        alloc: Global,
        accepted: &Accepted,
        pid: u32,
    ) -> Result<Option<Wanted>, AllocError> {
        match &self.machine {
            Some(machine) => machine.wanted(alloc, accepted, pid),
            None => Ok(None),
        }
    }

    fn fire_with(
        &mut self,
        alloc: Global,
        accepted: &Accepted,
        pid: u32,
        known: (&Wanted, &Outcome),
    ) -> Result<Fire, AllocError> {
        match &mut self.machine {
            Some(machine) => machine.fire_with(alloc, accepted, pid, known),
            None => unreachable!(),
        }
    }

    fn next_ready(&self, accepted: &Accepted, after: u32) -> Option<u32> {
        match &self.machine {
            Some(machine) => machine.next_ready(accepted, after),
            None => None,
        }
    }

    fn open_account(&mut self, dths: u128) -> Result<u32, AllocError> {
        self.fill()?;
        match &mut self.machine {
            Some(machine) => machine.open_account(dths),
            None => Err(AllocError),
        }
    }

    fn credit(&mut self, account: u32, dths: u128) {
        match &mut self.machine {
            Some(machine) => machine.credit(account, dths),
            None => unreachable!(),
        }
    }

    fn clear_results(&mut self) {
        if let Some(machine) = &mut self.machine {
            machine.clear_results();
        }
    }

    fn start(
        &mut self,
        alloc: Global,
        accepted: &Accepted,
        declaration: ProcId,
        given: (&Values, &[u32]),
        payer: u32,
    ) -> Result<u32, AllocError> {
        match &mut self.machine {
            Some(machine) => machine.start(alloc, accepted, declaration, given, payer),
            None => Err(AllocError),
        }
    }

    fn balance(&self, account: u32) -> Option<u128> {
        match &self.machine {
            Some(machine) => machine.balance(account),
            None => None,
        }
    }

    fn spent(&self) -> u128 {
        match &self.machine {
            Some(machine) => machine.spent(),
            None => 0,
        }
    }

    fn stored(&self) -> u128 {
        match &self.machine {
            Some(machine) => machine.stored(),
            None => 0,
        }
    }

    fn results(&self) -> &[(u32, Value)] {
        match &self.machine {
            Some(machine) => machine.results(),
            None => &[],
        }
    }

    #[inline(always)]
    fn next_object(&self) -> u32 {
        match &self.machine {
            Some(machine) => machine.next_object(),
            None => 1,
        }
    }

    fn next_name(&self) -> u32 {
        match &self.machine {
            Some(machine) => machine.next_name(),
            None => 1,
        }
    }

    fn view(&self, pid: u32) -> Option<View> {
        match &self.machine {
            Some(machine) => machine.view(pid),
            None => None,
        }
    }

    #[inline(always)]
    fn waits(&self, accepted: &Accepted, pid: u32) -> Option<u32> {
        match &self.machine {
            Some(machine) => machine.waits(accepted, pid),
            None => None,
        }
    }

    fn keeper(&self, shared: u32) -> Option<u32> {
        match &self.machine {
            Some(machine) => machine.keeper(shared),
            None => None,
        }
    }

    fn owner(&self, accepted: &Accepted, name: u32) -> Option<u32> {
        match &self.machine {
            Some(machine) => machine.owner(accepted, name),
            None => None,
        }
    }

    fn name_type(&self, name: u32) -> Option<TypeId> {
        match &self.machine {
            Some(machine) => machine.name_type(name),
            None => None,
        }
    }

    fn next_transaction(&self, after: u32) -> Option<u32> {
        match &self.machine {
            Some(machine) => machine.next_transaction(after),
            None => None,
        }
    }

    fn next_waiting(&self, accepted: &Accepted, after: u32) -> Option<u32> {
        match &self.machine {
            Some(machine) => machine.next_waiting(accepted, after),
            None => None,
        }
    }

    fn next_owned(&self, accepted: &Accepted, after: u32) -> Option<u32> {
        match &self.machine {
            Some(machine) => machine.next_owned(accepted, after),
            None => None,
        }
    }
}
