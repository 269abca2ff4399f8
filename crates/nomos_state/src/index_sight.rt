//! What a firing looks up in an indexed state.
ghost use Rattle.std.specs.Prelude.{◌≡◌};
ghost use Rattle.nomos_deeds.specs.SeenObjects.{seen_list};

use crate::inside::Inside;
use crate::list_rows::lists_left;
use crate::looking::process_at;
use crate::sought;
use crate::weights::{affords, is_light_with};
use nomos_changes::process_lists::list_of;
use nomos_deeds::sight::{SeenList, SeenMessage, SeenProcess, Sight};
use nomos_ir::ids::{TypeId, VarId};
use nomos_ir::value::Value;
use nomos_ir::value_node::ValueNode;
use nomos_machine::object::PotentialList;

// What is seen of a list.
fn seen_list(list: &PotentialList) -> SeenList
    ensures { result ≡ seen_list list.now }
{
    SeenList {
        amount: list.amount,
        is_empty: list.items.len() == 0,
    }
}

impl Sight for Inside {
    ghost state = { λ s. s.state };

    #[inline(always)]
    fn process(&self, pid: u32) -> Option<SeenProcess> {
        let (_, p) = process_at(&self.contents, pid)?;
        Some(sought::seen_process(pid, &p))
    }

    #[inline(always)]
    fn values(&self, pid: u32) -> &[(VarId, Value)] {
        match process_at(&self.contents, pid) {
            Some((place, _)) => self.contents.values.row(place),
            None => &[],
        }
    }

    fn channel(&self, pid: u32, v: VarId) -> Option<u32> {
        self.contents.channels.get(pid, v.0)
    }

    fn list(&self, pid: u32, w: VarId) -> Option<SeenList> {
        let (place, p) = process_at(&self.contents, pid)?;
        let list = list_of(lists_left(self.contents.lists.row(place), p.gone), w)?;
        Some(seen_list(list))
    }

    fn is_light_with(&self, pid: u32, w: VarId, first: &ValueNode) -> bool {
        match process_at(&self.contents, pid) {
            Some((place, p)) => {
                match list_of(lists_left(self.contents.lists.row(place), p.gone), w) {
                    Some(list) => is_light_with(list, first),
                    None => true,
                }
            }
            None => true,
        }
    }

    fn affords(&self, pid: u32, gas: u64) -> bool {
        match process_at(&self.contents, pid) {
            Some((place, p)) => {
                let lists = lists_left(self.contents.lists.row(place), p.gone);
                affords(lists, p.potential, p.purse.dths(), gas)
            }
            None => false,
        }
    }

    fn message_on(&self, to_client: bool, name: u32) -> Option<SeenMessage> {
        sought::message_on(&self.contents, to_client, name)
    }

    fn offering(&self, name: u32) -> Option<SeenProcess> {
        sought::offering(&self.contents, name)
    }

    fn user(&self, name: u32) -> Option<u32> {
        sought::user(&self.contents, name)
    }

    #[inline(always)]
    fn type_of(&self, name: u32) -> Option<TypeId> {
        self.contents.names.get(name)
    }
}
