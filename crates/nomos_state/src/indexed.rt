//! A state under numbers, which can be marked and put back.

use crate::tallied::Tallied;
use nomos_changes::performing::{Intent, ROOM_OF_AN_ACT, perform};
use nomos_changes::starting::{StartLine, start};
use nomos_changes::talking::{Opening, Saying, hear, open_outside, say};
use nomos_deeds::act::Act;
use nomos_deeds::acting::Acting;
use nomos_deeds::machine::{Machine, View};
use nomos_deeds::sight::{SeenList, SeenMessage, SeenProcess, Sight};
use nomos_deeds::talking::Talking;
use nomos_deeds::undo::Undo;
use nomos_ir::ids::{ProcId, TypeId, VarId};
use nomos_ir::value::{Value, Values};
use nomos_ir::value_node::ValueNode;
use nomos_machine::object::{Heard, Said};
use nomos_types::accepted::Accepted;
use std::alloc::{AllocError, Global};
use std::marker::Model;

/// A state whose objects are kept under their numbers, and whose channels in one table, with tallies of names. It can
/// be marked and put back without copies. Contracts see the state, the one that is marked, and for how many firings
/// ahead there is room.
#[derive(Drop, Debug)]
pub struct IndexedState {
    pub(crate) tallied: Tallied,
    pub(crate) spare: usize,
}

impl Model for IndexedState {
    ghost use Rattle.std.specs.Coded.{codes};
    ghost use Rattle.nomos_ir.specs.ValueCode.{value_code};
    ghost use Rattle.nomos_state.specs.State.{IndexedMachine, machine_of, HasSpare};

    ghost Value = { IndexedMachine };

    ghost coded = { Prim.hlevel (codes, value_code) };

    ghost view = { machine_of };

    ghost invariant = { HasSpare };
}

impl Sight for IndexedState {
    ghost state = { λ s. s.state };

    #[inline(always)]
    fn process(&self, pid: u32) -> Option<SeenProcess> {
        self.tallied.process(pid)
    }

    #[inline(always)]
    fn values(&self, pid: u32) -> &[(VarId, Value)] {
        self.tallied.values(pid)
    }

    #[inline(always)]
    fn channel(&self, pid: u32, v: VarId) -> Option<u32> {
        self.tallied.channel(pid, v)
    }

    #[inline(always)]
    fn list(&self, pid: u32, w: VarId) -> Option<SeenList> {
        self.tallied.list(pid, w)
    }

    #[inline(always)]
    fn is_light_with(&self, pid: u32, w: VarId, first: &ValueNode) -> bool {
        self.tallied.is_light_with(pid, w, first)
    }

    #[inline(always)]
    fn affords(&self, pid: u32, gas: u64) -> bool {
        self.tallied.affords(pid, gas)
    }

    #[inline(always)]
    fn message_on(&self, to_client: bool, name: u32) -> Option<SeenMessage> {
        self.tallied.message_on(to_client, name)
    }

    #[inline(always)]
    fn offering(&self, name: u32) -> Option<SeenProcess> {
        self.tallied.offering(name)
    }

    #[inline(always)]
    fn user(&self, name: u32) -> Option<u32> {
        self.tallied.user(name)
    }

    #[inline(always)]
    fn type_of(&self, name: u32) -> Option<TypeId> {
        self.tallied.type_of(name)
    }
}

impl Acting for IndexedState {
    ghost spare = { λ s. s.spare };

    ghost marked = { λ s. s.marked };

    fn reserve(&mut self, firings: usize) -> Result<(), AllocError> {
        if firings <= self.spare {
            return Ok(());
        }
        let changes = firings.checked_mul(ROOM_OF_AN_ACT).ok_or(AllocError)?;
        self.tallied.make_room(changes)?;
        self.spare = firings;
        Ok(())
    }

    #[inline(always)]
    fn perform(
        &mut self,
        alloc: Global,
        accepted: &Accepted,
        pid: u32,
        act: Act,
        values: Values,
    ) -> Result<(), AllocError> {
        let intent = Intent { pid, act, values };
        let outcome = perform(&mut self.tallied, alloc, accepted, intent);
        self.spare = self.spare.saturating_sub(1);
        outcome
    }
}

impl Machine for IndexedState {
    fn next_ready(&self, accepted: &Accepted, after: u32) -> Option<u32> {
        let tallied = &self.tallied;
        tallied.inside.next_ready(tallied, accepted, after)
    }

    fn open_account(&mut self, dths: u128) -> Result<u32, AllocError> {
        self.tallied.open_account(dths)
    }

    fn credit(&mut self, account: u32, dths: u128) {
        self.tallied.pay_in(account, dths);
    }

    fn clear_results(&mut self) {
        self.tallied.clear_results();
    }

    fn start(
        &mut self,
        alloc: Global,
        accepted: &Accepted,
        declaration: ProcId,
        given: (&Values, &[u32]),
        payer: u32,
    ) -> Result<u32, AllocError> {
        let keep = self.spare.checked_mul(ROOM_OF_AN_ACT).ok_or(AllocError)?;
        let line = StartLine {
            declaration,
            values: given.0,
            names: given.1,
            payer,
        };
        start(&mut self.tallied, alloc, accepted, line, keep)
    }

    fn balance(&self, account: u32) -> Option<u128> {
        self.tallied.inside.balance(account)
    }

    fn spent(&self) -> u128 {
        self.tallied.inside.spent()
    }

    fn stored(&self) -> u128 {
        self.tallied.inside.stored()
    }

    fn results(&self) -> &[(u32, Value)] {
        self.tallied.inside.results()
    }

    #[inline(always)]
    fn next_object(&self) -> u32 {
        self.tallied.inside.next_number()
    }

    fn next_name(&self) -> u32 {
        self.tallied.inside.fresh_name()
    }

    fn view(&self, pid: u32) -> Option<View> {
        self.tallied.inside.view(pid)
    }

    #[inline(always)]
    fn waits(&self, accepted: &Accepted, pid: u32) -> Option<u32> {
        self.tallied.inside.waits(accepted, pid)
    }

    fn keeper(&self, shared: u32) -> Option<u32> {
        self.tallied.keeper(shared)
    }

    fn owner(&self, accepted: &Accepted, name: u32) -> Option<u32> {
        self.tallied.owner(accepted, name)
    }

    fn name_type(&self, name: u32) -> Option<TypeId> {
        self.tallied.type_of(name)
    }

    fn next_transaction(&self, after: u32) -> Option<u32> {
        self.tallied.inside.next_transaction(after)
    }

    fn next_waiting(&self, accepted: &Accepted, after: u32) -> Option<u32> {
        self.tallied.inside.next_waiting(accepted, after)
    }

    fn next_owned(&self, accepted: &Accepted, after: u32) -> Option<u32> {
        self.tallied.inside.next_owned(accepted, after)
    }
}

impl Undo for IndexedState {
    fn empty(alloc: Global) -> Self {
        IndexedState {
            tallied: Tallied::empty(alloc),
            spare: 0,
        }
    }

    fn copy(&self, alloc: Global) -> Result<Self, AllocError> {
        let tallied = self.tallied.copy(alloc)?;
        Ok(IndexedState { tallied, spare: 0 })
    }

    fn mark(&mut self) {
        self.tallied.mark();
    }

    fn back(&mut self) {
        self.tallied.back();
    }

    fn forget(&mut self) {
        self.tallied.forget();
    }
}

impl Talking for IndexedState {
    fn outside(&self) -> Option<u32> {
        self.tallied.inside.outside()
    }

    fn start_outside(
        &mut self,
        alloc: Global,
        accepted: &Accepted,
        declaration: ProcId,
        account: u32,
    ) -> Result<u32, AllocError> {
        let keep = self.spare.checked_mul(ROOM_OF_AN_ACT).ok_or(AllocError)?;
        let opening = Opening {
            declaration,
            account,
        };
        open_outside(&mut self.tallied, alloc, accepted, opening, keep)
    }

    fn say(
        &mut self,
        alloc: Global,
        accepted: &Accepted,
        account: u32,
        said: &Said,
    ) -> Result<(), AllocError> {
        let keep = self.spare.checked_mul(ROOM_OF_AN_ACT).ok_or(AllocError)?;
        let saying = Saying { account, said };
        say(&mut self.tallied, alloc, accepted, saying, keep)
    }

    fn hear(
        &mut self,
        alloc: Global,
        accepted: &Accepted,
        account: u32,
    ) -> Result<Option<Heard>, AllocError> {
        let keep = self.spare.checked_mul(ROOM_OF_AN_ACT).ok_or(AllocError)?;
        hear(&mut self.tallied, alloc, accepted, account, keep)
    }
}
