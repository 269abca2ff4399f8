//! What a firing looks up in an indexed state with tallies.

use crate::tallied::Tallied;
use nomos_deeds::sight::{SeenList, SeenMessage, SeenProcess, Sight};
use nomos_ir::ids::{TypeId, VarId};
use nomos_ir::value::Value;
use nomos_ir::value_node::ValueNode;

impl Sight for Tallied {
    ghost state = { λ s. s.state };

    #[inline(always)]
    fn process(&self, pid: u32) -> Option<SeenProcess> {
        self.inside.process(pid)
    }

    #[inline(always)]
    fn values(&self, pid: u32) -> &[(VarId, Value)] {
        self.inside.values(pid)
    }

    fn channel(&self, pid: u32, v: VarId) -> Option<u32> {
        self.inside.channel(pid, v)
    }

    fn list(&self, pid: u32, w: VarId) -> Option<SeenList> {
        self.inside.list(pid, w)
    }

    fn is_light_with(&self, pid: u32, w: VarId, first: &ValueNode) -> bool {
        self.inside.is_light_with(pid, w, first)
    }

    fn affords(&self, pid: u32, gas: u64) -> bool {
        self.inside.affords(pid, gas)
    }

    fn message_on(&self, to_client: bool, name: u32) -> Option<SeenMessage> {
        self.message_on(to_client, name)
    }

    fn offering(&self, name: u32) -> Option<SeenProcess> {
        self.offering(name)
    }

    fn user(&self, name: u32) -> Option<u32> {
        self.user(name)
    }

    #[inline(always)]
    fn type_of(&self, name: u32) -> Option<TypeId> {
        self.inside.type_of(name)
    }
}
