//! A process of a plain state changes: its plain fields, its channels, its values, its lists.
ghost use Rattle.std.specs.Prelude.{◌≡◌, ◌≤◌, ◌<◌, ◌+◌, OnErr, OnOk};
ghost use Rattle.nomos_machine.specs.Revised.{with_channel, with_value, without_channel};
ghost use Rattle.nomos_changes.specs.SmallChanges.{Becomes, with_channels, with_fields, with_list_change, with_lists, with_values};
ghost use Rattle.nomos_plain.specs.Parts.{IsSound, state_of};

use crate::plain_parts::PlainParts;
use nomos_changes::list_change::ListChange;
use nomos_changes::pairs::bindings_of;
use nomos_deeds::sight::SeenProcess;
use nomos_ir::ids::VarId;
use nomos_ir::value::Value;
use nomos_machine::object::PotentialList;
use std::alloc::{AllocError, Global};

impl PlainParts {
    /// The process of this number has these plain fields, but for the number, which it has already.
    pub(crate) fn set_fields(&mut self, fields: SeenProcess)
        requires { IsSound self.old }
        ensures state { Becomes (state_of self.old) fields.pid (with_fields fields) (state_of self.new) }
        ensures sound { IsSound self.new }
        ensures room { self.new.room ≡ self.old.room }
    {
        let Some(mut process) = self.take(fields.pid) else {
            return;
        };
        process.set_fields(fields);
        self.put(process);
    }

    /// A channel of the process is bound to a variable.
    pub(crate) fn bind_channel(&mut self, pid: u32, v: VarId, name: u32)
        requires sound { IsSound self.old }
        requires room { 0 < self.old.room }
        ensures state { Becomes (state_of self.old) pid (with_channel v name) (state_of self.new) }
        ensures sound { IsSound self.new }
        ensures room { self.old.room ≤ self.new.room + 1 }
    {
        let Some(mut process) = self.take(pid) else {
            return;
        };
        process.bind_channel(v, name);
        self.room -= 1;
        self.put(process);
    }

    /// A variable of the process has no channel any longer.
    pub(crate) fn unbind_channel(&mut self, pid: u32, v: VarId)
        requires { IsSound self.old }
        ensures state { Becomes (state_of self.old) pid (without_channel v) (state_of self.new) }
        ensures sound { IsSound self.new }
        ensures room { self.new.room ≡ self.old.room }
    {
        let Some(mut process) = self.take(pid) else {
            return;
        };
        process.unbind_channel(v);
        self.put(process);
    }

    /// The process has these channels; of a variable that stands twice the first pair counts. Want of memory leaves the
    /// state as it was.
    pub(crate) fn replace_channels(
        &mut self,
        alloc: Global,
        pid: u32,
        channels: Vec<(VarId, u32)>,
    ) -> Result<(), AllocError>
        requires { IsSound self.old }
        ensures ok { OnOk result (Becomes (state_of self.old) pid (with_channels channels.items) (state_of self.new)) }
        ensures err { OnErr result (state_of self.new ≡ state_of self.old) }
        ensures sound { IsSound self.new }
        ensures room { self.new.room ≡ self.old.room }
    {
        let made = bindings_of(alloc, channels, self.room)?;
        let Some(mut process) = self.take(pid) else {
            return Ok(());
        };
        process.channels = made;
        self.put(process);
        Ok(())
    }

    /// A variable of the process is bound to a value. Want of memory leaves the state as it was.
    pub(crate) fn bind_value(&mut self, pid: u32, v: VarId, x: Value) -> Result<(), AllocError>
        requires { IsSound self.old }
        ensures ok { OnOk result (Becomes (state_of self.old) pid (with_value v x) (state_of self.new)) }
        ensures err { OnErr result (state_of self.new ≡ state_of self.old) }
        ensures sound { IsSound self.new }
        ensures room { self.new.room ≡ self.old.room }
    {
        let Some(mut process) = self.take(pid) else {
            return Ok(());
        };
        let done = process.bind_value(v, x);
        self.put(process);
        done
    }

    /// The process has these values.
    pub(crate) fn put_values(&mut self, pid: u32, values: Vec<(VarId, Value)>)
        requires { IsSound self.old }
        ensures state { Becomes (state_of self.old) pid (with_values values.items) (state_of self.new) }
        ensures sound { IsSound self.new }
        ensures room { self.new.room ≡ self.old.room }
    {
        let Some(mut process) = self.take(pid) else {
            return;
        };
        process.values = values;
        self.put(process);
    }

    /// One list of the process is used up, one is bound, and a value is, each if it is to be. Want of memory leaves the
    /// state as it was.
    pub(crate) fn change_lists(&mut self, pid: u32, change: ListChange) -> Result<(), AllocError>
        requires { IsSound self.old }
        ensures ok { OnOk result (Becomes (state_of self.old) pid (with_list_change change) (state_of self.new)) }
        ensures err { OnErr result (state_of self.new ≡ state_of self.old) }
        ensures sound { IsSound self.new }
        ensures room { self.new.room ≡ self.old.room }
    {
        let Some(mut process) = self.take(pid) else {
            return Ok(());
        };
        let done = process.change_lists(change);
        self.put(process);
        done
    }

    /// The process has these lists.
    pub(crate) fn put_lists(&mut self, pid: u32, lists: Vec<(VarId, PotentialList)>)
        requires { IsSound self.old }
        ensures state { Becomes (state_of self.old) pid (with_lists lists.items) (state_of self.new) }
        ensures sound { IsSound self.new }
        ensures room { self.new.room ≡ self.old.room }
    {
        let Some(mut process) = self.take(pid) else {
            return;
        };
        process.lists = lists;
        self.put(process);
    }
}
