//! The small changes of a plain state, as acts are made of them.
ghost use Rattle.std.specs.Prelude.{None};

use crate::finds::{message_at, seen_message};
use crate::plain::PlainState;
use crate::readers;
use nomos_changes::list_change::ListChange;
use nomos_changes::newborn::Newborn;
use nomos_changes::parts::Parts;
use nomos_deeds::sight::{SeenMessage, SeenProcess};
use nomos_ir::ids::{TypeId, VarId};
use nomos_ir::value::Value;
use nomos_machine::object::{Message, PotentialList};
use std::alloc::{AllocError, Global};

impl Parts for PlainState {
    ghost room = { λ s. s.room };

    ghost marked = { λ _. None };

    fn make_room(&mut self, changes: usize) -> Result<(), AllocError> {
        self.parts.make_room(changes)
    }

    fn next_number(&self) -> u32 {
        self.parts.next_object
    }

    fn fresh_name(&self) -> u32 {
        self.parts.next_name
    }

    fn lists(&self, pid: u32) -> &[(VarId, PotentialList)] {
        readers::lists(&self.parts.objects, pid)
    }

    fn message(&self, number: u32) -> Option<SeenMessage> {
        let m = message_at(&self.parts.objects, number)?;
        Some(seen_message(m))
    }

    fn message_purse(&self, number: u32) -> u128 {
        readers::message_purse(&self.parts.objects, number)
    }

    fn message_value(&self, _alloc: Global, number: u32) -> Result<Option<Value>, AllocError> {
        readers::message_value(&self.parts.objects, number)
    }

    fn set_fields(&mut self, fields: SeenProcess) {
        self.parts.set_fields(fields);
    }

    fn bind_channel(&mut self, pid: u32, v: VarId, name: u32) {
        self.parts.bind_channel(pid, v, name);
    }

    fn unbind_channel(&mut self, pid: u32, v: VarId) {
        self.parts.unbind_channel(pid, v);
    }

    fn replace_channels(
        &mut self,
        alloc: Global,
        pid: u32,
        channels: Vec<(VarId, u32)>,
    ) -> Result<(), AllocError> {
        self.parts.replace_channels(alloc, pid, channels)
    }

    fn bind_value(
        &mut self,
        _alloc: Global,
        pid: u32,
        v: VarId,
        x: Value,
    ) -> Result<(), AllocError> {
        self.parts.bind_value(pid, v, x)
    }

    fn put_values(&mut self, pid: u32, values: Vec<(VarId, Value)>) {
        self.parts.put_values(pid, values);
    }

    fn put_lists(&mut self, pid: u32, lists: Vec<(VarId, PotentialList)>) {
        self.parts.put_lists(pid, lists);
    }

    fn change_lists(
        &mut self,
        _alloc: Global,
        pid: u32,
        change: ListChange,
    ) -> Result<(), AllocError> {
        self.parts.change_lists(pid, change)
    }

    fn come_message(&mut self, _alloc: Global, message: Message) -> Result<(), AllocError> {
        self.parts.come_message(message);
        Ok(())
    }

    fn come_process(&mut self, alloc: Global, born: Newborn) -> Result<(), AllocError> {
        self.parts.come_process(alloc, born)
    }

    fn leave(&mut self, number: u32) {
        self.parts.leave(number);
    }

    fn come_name(&mut self, t: TypeId) {
        self.parts.come_name(t);
    }

    fn redirect(&mut self, old: u32, new: u32) {
        self.parts.redirect(old, new);
    }

    fn pay_in(&mut self, account: u32, dths: u128) {
        self.parts.balances[account as usize] += dths;
    }

    fn pay_out(&mut self, account: u32, dths: u128) {
        self.parts.balances[account as usize] -= dths;
    }

    fn burn(&mut self, dths: u128) {
        self.parts.spent += dths;
    }

    fn emit(&mut self, pid: u32, x: Value) -> Result<(), AllocError> {
        self.parts.results.push((pid, x))?;
        Ok(())
    }

    fn tidy(&mut self) {
        self.parts.tidy();
    }
}
