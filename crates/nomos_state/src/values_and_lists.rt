//! A process changes what it carries: its values and its lists.
ghost use Rattle.std.specs.Prelude.{◌≡◌, ◌≤◌, ◌<◌, ◌+◌, OnErr, OnOk};
ghost use Rattle.nomos_machine.specs.Revised.{with_value};
ghost use Rattle.nomos_changes.specs.SmallChanges.{Becomes, with_list_change, with_lists, with_values};

use crate::tallied::Tallied;
use nomos_changes::list_change::ListChange;
use nomos_ir::ids::VarId;
use nomos_ir::value::Value;
use nomos_machine::object::PotentialList;
use std::alloc::{AllocError, Global};

impl Tallied {
    /// A variable of the process is bound to a value.
    pub(crate) fn bind_value(
        &mut self,
        alloc: Global,
        pid: u32,
        v: VarId,
        x: Value,
    ) -> Result<(), AllocError>
        requires { 0 < self.old.room }
        ensures ok { OnOk result (Becomes self.old.state pid (with_value v x) self.new.state) }
        ensures err { OnErr result (self.new.state ≡ self.old.state) }
        ensures room { self.old.room ≤ self.new.room + 1 }
        ensures marked { self.new.marked ≡ self.old.marked }
    {
        self.inside.bind_value(alloc, pid, v, x)?;
        Ok(())
    }

    /// The process has these values.
    pub(crate) fn put_values(&mut self, pid: u32, values: Vec<(VarId, Value)>)
        requires { 0 < self.old.room }
        ensures state { Becomes self.old.state pid (with_values values.items) self.new.state }
        ensures room { self.old.room ≤ self.new.room + 1 }
        ensures marked { self.new.marked ≡ self.old.marked }
    {
        self.inside.put_values(pid, values);
    }

    /// One list of the process is used up, one is bound, and a value is, each if it is to be. It takes the room of two.
    pub(crate) fn change_lists(
        &mut self,
        alloc: Global,
        pid: u32,
        change: ListChange,
    ) -> Result<(), AllocError>
        requires { 2 ≤ self.old.room }
        ensures ok { OnOk result (Becomes self.old.state pid (with_list_change change) self.new.state) }
        ensures err { OnErr result (self.new.state ≡ self.old.state) }
        ensures room { self.old.room ≤ self.new.room + 2 }
        ensures marked { self.new.marked ≡ self.old.marked }
    {
        self.inside.change_lists(alloc, pid, change)?;
        Ok(())
    }

    /// The process has these lists.
    pub(crate) fn put_lists(&mut self, pid: u32, lists: Vec<(VarId, PotentialList)>)
        requires { 0 < self.old.room }
        ensures state { Becomes self.old.state pid (with_lists lists.items) self.new.state }
        ensures room { self.old.room ≤ self.new.room + 1 }
        ensures marked { self.new.marked ≡ self.old.marked }
    {
        self.inside.put_lists(pid, lists);
    }
}
