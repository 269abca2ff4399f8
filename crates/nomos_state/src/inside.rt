//! What an indexed state keeps.

use crate::kept::Kept;
use nomos_ir::ids::{TypeId, VarId};
use nomos_ir::value::Value;
use nomos_machine::object::PotentialList;
use nomos_slots::channels::Channels;
use nomos_slots::column::Column;
use nomos_slots::numbered::Numbered;
use nomos_slots::shelf::Shelf;
use nomos_slots::tail::Tail;
use std::alloc::Global;
use std::marker::Model;

/// The numbers that are drawn next, and the gas spent, in Dths.
#[derive(Clone, Copy, Debug)]
pub(crate) struct Numbers {
    pub(crate) next_object: u32,
    pub(crate) next_name: u32,
    pub(crate) spent: u128,
}

/// The columns of an indexed state: objects and channels, and the names and accounts beside them.
#[derive(Drop, Debug)]
pub(crate) struct Columns {
    pub(crate) objects: Numbered<Kept>,
    /// Of the process at each place its values; of a message that brings a value that one, under any variable.
    pub(crate) values: Shelf<(VarId, Value)>,
    /// Of the process at each place its lists that carry potential.
    pub(crate) lists: Shelf<(VarId, PotentialList)>,
    pub(crate) channels: Channels,
    pub(crate) names: Numbered<TypeId>,
    pub(crate) balances: Column<u128>,
    pub(crate) outside: Column<u32>,
    pub(crate) results: Tail<(u32, Value)>,
    pub(crate) numbers: Numbers,
}

/// An indexed state: all that it keeps is marked together. Contracts see the state, the one that is marked, and for how
/// many small changes there is room.
#[derive(Drop, Debug)]
pub struct Inside {
    pub(crate) alloc: Global,
    pub(crate) contents: Columns,
    pub(crate) marked: Option<Numbers>,
    /// For how many small changes there is room in each part of the contents.
    pub(crate) room: usize,
}

impl Model for Inside {
    ghost use Rattle.std.specs.Coded.{codes};
    ghost use Rattle.nomos_ir.specs.ValueCode.{value_code};
    ghost use Rattle.nomos_state.specs.Indexed.{Indexed, indexed_of, IsIndexed};

    ghost Value = { Indexed };

    ghost coded = { Prim.hlevel (codes, value_code) };

    ghost view = { indexed_of };

    ghost invariant = { IsIndexed };
}
