//! The small changes of an indexed state, as acts are made of them.

use crate::inside::Inside;
use crate::readings;
use nomos_changes::list_change::ListChange;
use nomos_changes::newborn::Newborn;
use nomos_changes::parts::Parts;
use nomos_deeds::sight::{SeenMessage, SeenProcess};
use nomos_ir::ids::{TypeId, VarId};
use nomos_ir::value::Value;
use nomos_machine::object::{Message, PotentialList};
use std::alloc::{AllocError, Global};

impl Parts for Inside {
    ghost room = { λ s. s.room };

    ghost marked = { λ s. s.marked };

    fn make_room(&mut self, changes: usize) -> Result<(), AllocError> {
        self.make_room(changes)
    }

    fn next_number(&self) -> u32 {
        self.next_number()
    }

    fn fresh_name(&self) -> u32 {
        self.fresh_name()
    }

    fn lists(&self, pid: u32) -> &[(VarId, PotentialList)] {
        readings::lists(&self.contents, pid)
    }

    fn message(&self, number: u32) -> Option<SeenMessage> {
        readings::message(&self.contents, number)
    }

    fn message_purse(&self, number: u32) -> u128 {
        readings::message_purse(&self.contents, number)
    }

    fn message_value(&self, alloc: Global, number: u32) -> Result<Option<Value>, AllocError> {
        readings::message_value(alloc, &self.contents, number)
    }

    fn set_fields(&mut self, fields: SeenProcess) {
        let _before = self.set_fields(fields);
    }

    fn bind_channel(&mut self, pid: u32, v: VarId, name: u32) {
        let _before = self.bind_channel(pid, v, name);
    }

    fn unbind_channel(&mut self, pid: u32, v: VarId) {
        let _before = self.unbind_channel(pid, v);
    }

    fn replace_channels(
        &mut self,
        alloc: Global,
        pid: u32,
        channels: Vec<(VarId, u32)>,
    ) -> Result<(), AllocError> {
        let _span = self.replace_channels(alloc, pid, channels)?;
        Ok(())
    }

    fn bind_value(
        &mut self,
        alloc: Global,
        pid: u32,
        v: VarId,
        x: Value,
    ) -> Result<(), AllocError> {
        self.bind_value(alloc, pid, v, x)
    }

    fn put_values(&mut self, pid: u32, values: Vec<(VarId, Value)>) {
        self.put_values(pid, values);
    }

    fn put_lists(&mut self, pid: u32, lists: Vec<(VarId, PotentialList)>) {
        self.put_lists(pid, lists);
    }

    fn change_lists(
        &mut self,
        alloc: Global,
        pid: u32,
        change: ListChange,
    ) -> Result<(), AllocError> {
        self.change_lists(alloc, pid, change)
    }

    fn come_message(&mut self, alloc: Global, message: Message) -> Result<(), AllocError> {
        self.come_message(alloc, message)
    }

    fn come_process(&mut self, alloc: Global, born: Newborn) -> Result<(), AllocError> {
        self.come_process(alloc, born)
    }

    fn leave(&mut self, number: u32) {
        self.leave(number);
    }

    fn come_name(&mut self, t: TypeId) {
        self.come_name(t);
    }

    fn redirect(&mut self, old: u32, new: u32) {
        self.redirect(old, new);
    }

    fn pay_in(&mut self, account: u32, dths: u128) {
        self.pay_in(account, dths);
    }

    fn pay_out(&mut self, account: u32, dths: u128) {
        self.pay_out(account, dths);
    }

    fn burn(&mut self, dths: u128) {
        self.burn(dths);
    }

    fn emit(&mut self, pid: u32, x: Value) -> Result<(), AllocError> {
        self.emit(pid, x)
    }

    fn tidy(&mut self) {
        self.tidy();
    }
}
