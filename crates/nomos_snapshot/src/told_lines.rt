//! Processes as lines tell them.
ghost use Rattle.std.specs.Prelude.{◌≡◌, IfOk};
ghost use Rattle.nomos_snapshot.specs.GatheredLines.{process_with, with_channel, with_list, with_value};
ghost use Rattle.nomos_snapshot.specs.ToldLines.{IsProcessKept, PutsBehind, process_told};

use nomos_deeds::sight::SeenProcess;
use nomos_ir::ids::VarId;
use nomos_ir::value::{Value, Values};
use nomos_machine::object::Message;
use std::alloc::{AllocError, Global};

/// A list that carries potential. What each of its elements carries, in Dths, may be more than a machine can keep.
#[derive(Drop)]
pub(crate) struct ToldList {
    pub(crate) amount: u128,
    pub(crate) items: Values,
}

/// A process with those of its variables whose lines were read.
#[derive(Drop)]
pub(crate) struct ToldProcess {
    pub(crate) seen: SeenProcess,
    pub(crate) values: Vec<(VarId, Value)>,
    pub(crate) lists: Vec<(VarId, ToldList)>,
    pub(crate) channels: Vec<(VarId, u32)>,
    /// The least number of a variable that may follow.
    pub(crate) from: u64,
}

/// A process or a message.
#[derive(Drop)]
pub(crate) enum ToldObject {
    Process(ToldProcess),
    Message(Message),
}

impl ToldProcess {
    /// A process without variables.
    pub(crate) fn new(alloc: Global, seen: SeenProcess) -> ToldProcess
        ensures told { process_told result ≡ process_with seen }
        ensures kept { IsProcessKept result }
    {
        ToldProcess {
            seen,
            values: Vec::new(alloc),
            lists: Vec::new(alloc),
            channels: Vec::new(alloc),
            from: 0,
        }
    }

    /// Puts a value behind all variables, if its number is over theirs.
    pub(crate) fn take_value(&mut self, v: VarId, value: Value) -> Result<bool, AllocError>
        requires { IsProcessKept self.old }
        ensures { IfOk result (PutsBehind v (with_value v value) self.old self.new) }
    {
        if u64::from(v.0) < self.from {
            return Ok(false);
        }
        self.values.push((v, value))?;
        self.from = u64::from(v.0) + 1;
        Ok(true)
    }

    /// Puts a list behind all variables, if its number is over theirs.
    pub(crate) fn take_list(&mut self, v: VarId, list: ToldList) -> Result<bool, AllocError>
        requires { IsProcessKept self.old }
        ensures { IfOk result (PutsBehind v (with_list v list.amount list.items) self.old self.new) }
    {
        if u64::from(v.0) < self.from {
            return Ok(false);
        }
        self.lists.push((v, list))?;
        self.from = u64::from(v.0) + 1;
        Ok(true)
    }

    /// Puts a channel behind all variables, if its number is over theirs.
    pub(crate) fn take_channel(&mut self, v: VarId, name: u32) -> Result<bool, AllocError>
        requires { IsProcessKept self.old }
        ensures { IfOk result (PutsBehind v (with_channel v name) self.old self.new) }
    {
        if u64::from(v.0) < self.from {
            return Ok(false);
        }
        self.channels.push((v, name))?;
        self.from = u64::from(v.0) + 1;
        Ok(true)
    }
}
