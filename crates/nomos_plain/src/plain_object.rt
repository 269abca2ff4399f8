//! Objects as a plain state keeps them: the channels of a process have room for small changes ahead.
ghost use Rattle.std.specs.Prelude.{◌≡◌, ◌≤◌, ◌<◌, ◌+◌, OnErr, OnOk};
ghost use Rattle.std.specs.Vec.{vec_len, vec_capacity};
ghost use Rattle.nomos_machine.specs.Revised.{with_channel, with_value, without_channel};
ghost use Rattle.nomos_changes.specs.SmallChanges.{with_fields, with_list_change};
ghost use Rattle.nomos_plain.specs.Parts.{process_in};

use nomos_changes::list_change::ListChange;
use nomos_changes::pairs::{bind, bind_if, unbind, unbind_if};
use nomos_deeds::sight::SeenProcess;
use nomos_ir::ids::{CodeId, VarId};
use nomos_ir::mode::Mode;
use nomos_ir::value::Value;
use nomos_machine::object::{Message, PotentialList};
use std::alloc::AllocError;

/// A process. Its purse counts Dths.
#[derive(Drop, Debug)]
pub(crate) struct PlainProcess {
    pub(crate) pid: u32,
    pub(crate) mode: Mode,
    pub(crate) code: CodeId,
    pub(crate) values: Vec<(VarId, Value)>,
    pub(crate) lists: Vec<(VarId, PotentialList)>,
    pub(crate) channels: Vec<(VarId, u32)>,
    pub(crate) offers: u32,
    pub(crate) base: Option<u32>,
    pub(crate) purse: u128,
    pub(crate) payer: u32,
}

/// A process or a message.
#[derive(Drop, Debug)]
pub(crate) enum PlainObject {
    Process(PlainProcess),
    Message(Message),
}

impl PlainProcess {
    /// It has these plain fields, but for the number, which it has already.
    pub(crate) fn set_fields(&mut self, fields: SeenProcess)
        ensures state { process_in self.new ≡ with_fields fields (process_in self.old) }
        ensures channels { self.new.channels ≡ self.old.channels }
        ensures pid { self.new.pid ≡ self.old.pid }
    {
        self.mode = fields.mode;
        self.code = fields.code;
        self.offers = fields.offers;
        self.base = fields.base;
        self.purse = fields.purse;
        self.payer = fields.payer;
    }

    /// A channel is bound.
    pub(crate) fn bind_channel(&mut self, v: VarId, name: u32)
        requires { vec_len self.old.channels < vec_capacity self.old.channels }
        ensures state { process_in self.new ≡ with_channel v name (process_in self.old) }
        ensures capacity { vec_capacity self.new.channels ≡ vec_capacity self.old.channels }
        ensures len { vec_len self.new.channels ≤ vec_len self.old.channels + 1 }
        ensures pid { self.new.pid ≡ self.old.pid }
    {
        bind(&mut self.channels, v, name);
    }

    /// A channel is gone.
    pub(crate) fn unbind_channel(&mut self, v: VarId)
        ensures state { process_in self.new ≡ without_channel v (process_in self.old) }
        ensures capacity { vec_capacity self.new.channels ≡ vec_capacity self.old.channels }
        ensures len { vec_len self.new.channels ≤ vec_len self.old.channels }
        ensures pid { self.new.pid ≡ self.old.pid }
    {
        let _name = unbind(&mut self.channels, v);
    }

    /// A variable is bound to a value. Want of memory leaves it as it was.
    pub(crate) fn bind_value(&mut self, v: VarId, x: Value) -> Result<(), AllocError>
        ensures ok { OnOk result (process_in self.new ≡ with_value v x (process_in self.old)) }
        ensures err { OnErr result (process_in self.new ≡ process_in self.old) }
        ensures channels { self.new.channels ≡ self.old.channels }
        ensures pid { self.new.pid ≡ self.old.pid }
    {
        self.values.reserve(1)?;
        bind(&mut self.values, v, x);
        Ok(())
    }

    /// One list is used up, one is bound, and a value is, each if it is to be. Want of memory leaves it as it was.
    pub(crate) fn change_lists(&mut self, change: ListChange) -> Result<(), AllocError>
        ensures ok { OnOk result (process_in self.new ≡ with_list_change change (process_in self.old)) }
        ensures err { OnErr result (process_in self.new ≡ process_in self.old) }
        ensures channels { self.new.channels ≡ self.old.channels }
        ensures pid { self.new.pid ≡ self.old.pid }
    {
        self.values.reserve(1)?;
        self.lists.reserve(1)?;
        unbind_if(&mut self.lists, change.used_up);
        bind_if(&mut self.lists, change.bound);
        bind_if(&mut self.values, change.value);
        Ok(())
    }
}
