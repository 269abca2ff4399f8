//! What a firing looks up in a boxed machine.

use crate::boxed::Boxed;
use nomos_deeds::sight::{SeenList, SeenMessage, SeenProcess, Sight};
use nomos_deeds::undo::Undo;
use nomos_ir::ids::{TypeId, VarId};
use nomos_ir::value::Value;
use nomos_ir::value_node::ValueNode;

impl<M: Undo + Drop> Sight for Boxed<M> {
    ghost use Rattle.nomos_boxed.specs.InBox.{state_in};

    ghost state = { λ b. state_in (λ m. M.state m.value) b.machine };

    #[inline(always)]
    fn process(&self, pid: u32) -> Option<SeenProcess> {
        match &self.machine {
            Some(machine) => machine.process(pid),
            None => None,
        }
    }

    #[inline(always)]
    fn values(&self, pid: u32) -> &[(VarId, Value)] {
        match &self.machine {
            Some(machine) => machine.values(pid),
            None => &[],
        }
    }

    #[inline(always)]
    fn channel(&self, pid: u32, v: VarId) -> Option<u32> {
        match &self.machine {
            Some(machine) => machine.channel(pid, v),
            None => None,
        }
    }

    #[inline(always)]
    fn list(&self, pid: u32, w: VarId) -> Option<SeenList> {
        match &self.machine {
            Some(machine) => machine.list(pid, w),
            None => None,
        }
    }

    #[inline(always)]
    fn is_light_with(&self, pid: u32, w: VarId, first: &ValueNode) -> bool {
        match &self.machine {
            Some(machine) => machine.is_light_with(pid, w, first),
            None => true,
        }
    }

    #[inline(always)]
    fn affords(&self, pid: u32, gas: u64) -> bool {
        match &self.machine {
            Some(machine) => machine.affords(pid, gas),
            None => false,
        }
    }

    #[inline(always)]
    fn message_on(&self, to_client: bool, name: u32) -> Option<SeenMessage> {
        match &self.machine {
            Some(machine) => machine.message_on(to_client, name),
            None => None,
        }
    }

    #[inline(always)]
    fn offering(&self, name: u32) -> Option<SeenProcess> {
        match &self.machine {
            Some(machine) => machine.offering(name),
            None => None,
        }
    }

    #[inline(always)]
    fn user(&self, name: u32) -> Option<u32> {
        match &self.machine {
            Some(machine) => machine.user(name),
            None => None,
        }
    }

    #[inline(always)]
    fn type_of(&self, name: u32) -> Option<TypeId> {
        match &self.machine {
            Some(machine) => machine.type_of(name),
            None => None,
        }
    }
}
