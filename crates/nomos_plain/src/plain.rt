//! A state over plain lists.
ghost use Rattle.std.specs.Prelude.{◌≡◌, IfOk};
ghost use Rattle.nomos_deeds.specs.SeenObjects.{seen_list};
ghost use Rattle.nomos_machine.specs.State.{empty};
ghost use Rattle.nomos_plain.specs.Plain.{spare};

use crate::finds::{message_on, offering, process_at, seen_message, seen_process, user};
use crate::plain_parts::PlainParts;
use crate::readers;
use crate::weights::{affords, is_light_with};
use nomos_changes::parts::Parts;
use nomos_changes::performing::{Intent, ROOM_OF_AN_ACT, perform};
use nomos_changes::process_lists::list_of;
use nomos_changes::starting::{StartLine, start};
use nomos_deeds::act::Act;
use nomos_deeds::acting::Acting;
use nomos_deeds::machine::{Machine, View};
use nomos_deeds::sight::{SeenList, SeenMessage, SeenProcess, Sight};
use nomos_ir::bindings::bound_first;
use nomos_ir::ids::{ProcId, TypeId, VarId};
use nomos_ir::value::{Value, Values};
use nomos_ir::value_node::ValueNode;
use nomos_machine::object::PotentialList;
use nomos_types::accepted::Accepted;
use std::alloc::{AllocError, Global};
use std::marker::Model;

/// A state that is kept as plain lists, which are scanned. No state is ever marked.
#[derive(Drop, Debug)]
pub struct PlainState {
    pub(crate) parts: PlainParts,
}

impl Model for PlainState {
    ghost use Rattle.std.specs.Coded.{codes};
    ghost use Rattle.nomos_ir.specs.ValueCode.{value_code};
    ghost use Rattle.nomos_plain.specs.Parts.{IsSound};
    ghost use Rattle.nomos_plain.specs.Plain.{Plain, plain_of};

    ghost Value = { Plain };

    ghost coded = { Prim.hlevel (codes, value_code) };

    ghost view = { λ s. plain_of s.parts };

    ghost invariant = { λ s. IsSound s.parts };
}

// What is seen of a list.
fn seen_list(list: &PotentialList) -> SeenList
    ensures { result ≡ seen_list list.now }
{
    SeenList {
        amount: list.amount,
        is_empty: list.items.len() == 0,
    }
}

impl Sight for PlainState {
    ghost state = { λ s. s.state };

    fn process(&self, pid: u32) -> Option<SeenProcess> {
        let p = process_at(&self.parts.objects, pid)?;
        Some(seen_process(p))
    }

    fn values(&self, pid: u32) -> &[(VarId, Value)] {
        match process_at(&self.parts.objects, pid) {
            Some(p) => &p.values,
            None => &[],
        }
    }

    fn channel(&self, pid: u32, v: VarId) -> Option<u32> {
        let p = process_at(&self.parts.objects, pid)?;
        bound_first(&p.channels, v)
    }

    fn list(&self, pid: u32, w: VarId) -> Option<SeenList> {
        let p = process_at(&self.parts.objects, pid)?;
        let list = list_of(&p.lists, w)?;
        Some(seen_list(list))
    }

    fn is_light_with(&self, pid: u32, w: VarId, first: &ValueNode) -> bool {
        match process_at(&self.parts.objects, pid) {
            Some(p) => match list_of(&p.lists, w) {
                Some(list) => is_light_with(list, first),
                None => true,
            },
            None => true,
        }
    }

    fn affords(&self, pid: u32, gas: u64) -> bool {
        match process_at(&self.parts.objects, pid) {
            Some(p) => affords(p, gas),
            None => false,
        }
    }

    fn message_on(&self, to_client: bool, name: u32) -> Option<SeenMessage> {
        let m = message_on(&self.parts.objects, to_client, name)?;
        Some(seen_message(m))
    }

    fn offering(&self, name: u32) -> Option<SeenProcess> {
        let p = offering(&self.parts.objects, name)?;
        Some(seen_process(p))
    }

    fn user(&self, name: u32) -> Option<u32> {
        user(&self.parts.objects, name)
    }

    fn type_of(&self, name: u32) -> Option<TypeId> {
        readers::name_type(&self.parts.types, name)
    }
}

impl Acting for PlainState {
    ghost spare = { spare };

    fn reserve(&mut self, firings: usize) -> Result<(), AllocError> {
        let changes = firings.checked_mul(ROOM_OF_AN_ACT).ok_or(AllocError)?;
        self.make_room(changes)
    }

    fn perform(
        &mut self,
        alloc: Global,
        accepted: &Accepted,
        pid: u32,
        act: Act,
        values: Values,
    ) -> Result<(), AllocError> {
        perform(self, alloc, accepted, Intent { pid, act, values })
    }
}

impl Machine for PlainState {
    fn next_ready(&self, accepted: &Accepted, after: u32) -> Option<u32> {
        readers::next_ready(self, accepted, &self.parts.objects, after)
    }

    fn open_account(&mut self, dths: u128) -> Result<u32, AllocError> {
        let account = self.parts.balances.len() as u32;
        self.parts.balances.push(dths)?;
        Ok(account)
    }

    fn credit(&mut self, account: u32, dths: u128) {
        self.parts.balances[account as usize] += dths;
    }

    fn clear_results(&mut self) {
        self.parts.results.clear();
    }

    fn start(
        &mut self,
        alloc: Global,
        accepted: &Accepted,
        declaration: ProcId,
        given: (&Values, &[u32]),
        payer: u32,
    ) -> Result<u32, AllocError> {
        let keep = self.parts.room;
        let line = StartLine {
            declaration,
            values: given.0,
            names: given.1,
            payer,
        };
        start(self, alloc, accepted, line, keep)
    }

    fn balance(&self, account: u32) -> Option<u128> {
        self.parts.balances.get(account as usize).copied()
    }

    fn spent(&self) -> u128 {
        self.parts.spent
    }

    fn stored(&self) -> u128 {
        readers::stored(&self.parts.objects)
    }

    fn results(&self) -> &[(u32, Value)] {
        &self.parts.results
    }

    fn next_object(&self) -> u32 {
        self.parts.next_object
    }

    fn next_name(&self) -> u32 {
        self.parts.next_name
    }

    fn view(&self, pid: u32) -> Option<View> {
        readers::view(&self.parts.objects, pid)
    }

    fn waits(&self, accepted: &Accepted, pid: u32) -> Option<u32> {
        readers::waits(accepted, &self.parts.objects, pid)
    }

    fn keeper(&self, shared: u32) -> Option<u32> {
        readers::keeper(&self.parts.objects, shared)
    }

    fn owner(&self, accepted: &Accepted, name: u32) -> Option<u32> {
        readers::owner(accepted, &self.parts.objects, &self.parts.types, name)
    }

    fn name_type(&self, name: u32) -> Option<TypeId> {
        readers::name_type(&self.parts.types, name)
    }

    fn next_transaction(&self, after: u32) -> Option<u32> {
        readers::next_transaction(&self.parts.objects, after)
    }

    fn next_waiting(&self, accepted: &Accepted, after: u32) -> Option<u32> {
        readers::next_waiting(accepted, &self.parts.objects, after)
    }

    fn next_owned(&self, accepted: &Accepted, after: u32) -> Option<u32> {
        readers::next_owned(accepted, &self.parts.types, after)
    }
}

impl PlainState {
    /// The state with nothing in it, in which both next numbers are 1. It takes no memory.
    pub fn empty(alloc: Global) -> Self
        ensures state { result.state ≡ empty }
        ensures spare { spare result ≡ 0 }
    {
        PlainState {
            parts: PlainParts {
                alloc,
                objects: Vec::new(alloc),
                next_object: 1,
                next_name: 1,
                types: Vec::new(alloc),
                balances: Vec::new(alloc),
                spent: 0,
                results: Vec::new(alloc),
                outside: Vec::new(alloc),
                room: 0,
            },
        }
    }

    /// The same state once more, of its own, with no room ahead.
    ///
    /// # Errors
    ///
    /// Where memory is wanting.
    pub fn copy(&self, alloc: Global) -> Result<PlainState, AllocError>
        ensures { IfOk result (λ made. made.state ≡ self.now.state) }
    {
        let parts = self.parts.copy(alloc)?;
        Ok(PlainState { parts })
    }
}
