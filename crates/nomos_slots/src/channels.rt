//! The channels of all processes: names by process and variable.
ghost use Rattle.std.specs.Prelude.{◌≡◌, ◌≤◌, ◌<◌, ◌+◌, ◌&&◌, ◌==◌, ◌^◌, ℕ, [], cond, IsOk, IsSome, IfSome, IfOk, OnOk, OnErr, Some, None, max, length};
ghost use Rattle.nomos_slots.specs.Cells.{IsOnce, IsProbed, cell_at, entries, name_in};
ghost use Rattle.std.specs.Option.{option_map};
ghost use Rattle.nomos_slots.specs.Sweeps.{instead_of};
ghost use Rattle.nomos_slots.specs.ChannelTables.{HaveSameNames, marked_entries};
ghost use Rattle.nomos_slots.specs.Users.{IsLowestUser};

use crate::cells::{
    NamedVariable, bind_in, blank, cell, empty_all, fill, place_in, rebind_in, unbind_in,
};
use crate::column::Column;
use crate::nexts::{block_end, next_in};
use crate::sweeps::{drop_in, rename_in};
use crate::users::lowest_user_in;
use std::alloc::{AllocError, Global};
use std::marker::Model;

/// Names by process and variable, which can be marked and put back to what they were there. A look-up takes a few
/// steps, however many there are.
///
/// Room is counted in names that come. Who binds one makes room first, by [`Channels::reserve`].
#[derive(Drop, Debug)]
pub struct Channels {
    cells: Column<Option<NamedVariable>>,
    /// How many cells are homes.
    homes: usize,
    /// How many names there are.
    count: usize,
    /// How many there were at the mark; 0 where nothing is marked.
    counted: usize,
}

impl Model for Channels {
    ghost use Rattle.nomos_slots.specs.Marking.{Marking};
    ghost use Rattle.nomos_slots.specs.ChannelTables.{table_of, IsTable};
    ghost use Rattle.nomos_slots.specs.Cells.{Cell};

    ghost Value = { Marking Cell };

    ghost view = { table_of };

    ghost invariant = { IsTable };
}

// The marked names of a table, if there are such, come into empty cells, which are marked with them and then emptied.
// How many there are. The table is put back.
fn fill_marked(
    cells: &mut Column<Option<NamedVariable>>,
    homes: usize,
    from: &mut Column<Option<NamedVariable>>,
) -> usize
    requires homes { 0 < homes }
    requires empty { (place : ℕ) → cell_at cells.old.now place ≡ None }
    requires seats { length cells.old.now ≤ cells.old.seats }
    requires unmarked { cells.old.marked ≡ None }
    requires once { IfSome from.old.marked IsOnce }
    requires room { homes + marked_entries from.old.marked ≤ length cells.old.now }
    ensures empty { (place : ℕ) → cell_at cells.new.now place ≡ None }
    ensures len { length cells.new.now ≡ length cells.old.now }
    ensures seats { cells.new.seats ≡ cells.old.seats }
    ensures names { HaveSameNames from.old.marked cells.new.marked }
    ensures marked { IfSome cells.new.marked (λ m. IsProbed homes m × (result ≡ entries m)
        × (length m ≡ length cells.old.now)) }
    ensures few { result ≤ marked_entries from.old.marked }
{
    if !from.is_marked() {
        return 0;
    }
    from.back();
    let count = fill(cells, homes, from);
    cells.mark();
    empty_all(cells);
    count
}

// A table of the same names, now and marked, in which there is room for so many in all. Want of memory leaves the other
// table as it was.
fn rebuilt(
    alloc: Global,
    from: &mut Column<Option<NamedVariable>>,
    limit: usize,
) -> Result<Channels, AllocError>
    requires some { 0 < limit }
    requires once { IsOnce from.old.now }
    requires marked { IfSome from.old.marked IsOnce }
    requires room { max (entries from.old.now) (marked_entries from.old.marked) ≤ limit }
    ensures names { IfOk result (λ t. (p v : ℕ) → name_in t.now p v ≡ name_in from.old.now p v) }
    ensures marked { IfOk result (λ t. HaveSameNames from.old.marked t.marked) }
    ensures room { IfOk result (λ t.
        limit ≤ t.room + max (entries from.old.now) (marked_entries from.old.marked)) }
    ensures err { OnErr result (from.new ≡ from.old) }
{
    let homes = limit.checked_mul(2).ok_or(AllocError)?;
    let size = homes.checked_add(limit).ok_or(AllocError)?;
    let now = from.copy(alloc)?;
    let mut cells = blank(alloc, size)?;
    let counted = fill_marked(&mut cells, homes, from);
    let count = fill(&mut cells, homes, &now);
    Ok(Channels {
        cells,
        homes,
        count,
        counted,
    })
}

impl Channels {
    /// No names, and nothing is marked. It takes no memory.
    pub fn new(alloc: Global) -> Self
        ensures now { result.now ≡ [] }
        ensures marked { result.marked ≡ None }
    {
        Channels {
            cells: Column::new(alloc),
            homes: 1,
            count: 0,
            counted: 0,
        }
    }

    // For how many names more there is room.
    fn room(&self) -> usize
        ensures { result ≡ self.now.room }
    {
        let besides = self.cells.len().saturating_sub(self.homes);
        besides.saturating_sub(self.count.max(self.counted))
    }

    /// Makes room for so many names more. Want of memory leaves the names and the mark as they were; where there is
    /// room already, it cannot fail. Where a name is kept may change by it, and which names there are does not.
    pub fn reserve(&mut self, alloc: Global, n: usize) -> Result<(), AllocError>
        ensures names { (p v : ℕ) → name_in self.new.now p v ≡ name_in self.old.now p v }
        ensures marked { HaveSameNames self.old.marked self.new.marked }
        ensures ok { OnOk result (n ≤ self.new.room) }
        ensures room { self.old.room ≤ self.new.room }
        ensures frugal { n ≤ self.old.room → IsOk result }
    {
        if n <= self.room() {
            return Ok(());
        }
        let most = self.count.max(self.counted);
        let limit = n.max(most).checked_add(most).ok_or(AllocError)?;
        *self = rebuilt(alloc, &mut self.cells, limit)?;
        Ok(())
    }

    /// The name that a variable of a process has, if it has one.
    pub fn get(&self, process: u32, variable: u32) -> Option<u32>
        ensures { result ≡ name_in self.now.now process variable }
    {
        let Some(at) = place_in(&self.cells, self.homes, process, variable) else {
            return None;
        };
        let Some(entry) = cell(&self.cells, at) else {
            return None;
        };
        Some(entry.name)
    }

    /// The lowest variable of a process that has a name, of those from this one on that are below the limit; the limit,
    /// where none of them has, and this one, where the limit is lower. It takes a few steps for each sixteen variables
    /// between.
    pub fn next_named(&self, process: u32, from: u32, limit: u32) -> u32
        ensures over { from ≤ result }
        ensures within { from ≤ limit → result ≤ limit }
        ensures none { (v : ℕ) → from ≤ v → v < result → name_in self.now.now process v ≡ None }
    {
        let mut variable = from;
        while variable < limit {
            let end = block_end(variable, limit);
            let next = next_in(&self.cells, self.homes, process, variable, end);
            if next < end {
                return next;
            }
            variable = end;
        }
        variable
    }

    /// The lowest process that has this name for one of its variables. It goes over all names.
    pub fn lowest_user(&self, name: u32) -> Option<u32>
        ensures { IsLowestUser self.now.now name result }
    {
        lowest_user_in(&self.cells, name)
    }

    /// Binds a variable of a process to a name. Who calls it has made room, so it takes no memory.
    pub fn bind(&mut self, process: u32, variable: u32, name: u32)
        requires { 0 < self.old.room }
        ensures names { (p v : ℕ) → name_in self.new.now p v
            ≡ cond (process == p && variable == v) (Some name) (name_in self.old.now p v) }
        ensures marked { self.new.marked ≡ self.old.marked }
        ensures room { self.old.room ≤ self.new.room + 1 }
    {
        let entry = NamedVariable {
            process,
            variable,
            name,
        };
        self.count += bind_in(&mut self.cells, self.homes, entry);
    }

    /// A variable of a process has no name any longer. It takes no memory.
    pub fn unbind(&mut self, process: u32, variable: u32)
        ensures names { (p v : ℕ) → name_in self.new.now p v
            ≡ cond (process == p && variable == v) None (name_in self.old.now p v) }
        ensures marked { self.new.marked ≡ self.old.marked }
        ensures room { self.old.room ≤ self.new.room }
    {
        self.count -= unbind_in(&mut self.cells, self.homes, process, variable);
    }

    /// No variable of a process has a name any longer. It takes no memory.
    pub fn drop_all(&mut self, process: u32)
        ensures names { (p v : ℕ) → name_in self.new.now p v
            ≡ cond (process == p) None (name_in self.old.now p v) }
        ensures marked { self.new.marked ≡ self.old.marked }
        ensures room { self.old.room ≤ self.new.room }
    {
        self.count -= drop_in(&mut self.cells, self.homes, process);
    }

    /// Variables of a process that have the one name have the other one instead. It takes no memory.
    pub fn rename(&mut self, process: u32, old: u32, new: u32)
        ensures names { (p v : ℕ) → name_in self.new.now p v
            ≡ cond (process == p) (option_map (instead_of old new) (name_in self.old.now p v))
            (name_in self.old.now p v) }
        ensures marked { self.new.marked ≡ self.old.marked }
        ensures room { self.old.room ≤ self.new.room }
    {
        rename_in(&mut self.cells, process, old, new);
    }

    /// A variable of a process that has the one name has the other one instead. It takes no memory.
    pub fn rename_one(&mut self, process: u32, variable: u32, old: u32, new: u32)
        ensures names { (p v : ℕ) → name_in self.new.now p v
            ≡ cond (process == p && variable == v) (option_map (instead_of old new) (name_in self.old.now p v))
            (name_in self.old.now p v) }
        ensures marked { self.new.marked ≡ self.old.marked }
        ensures room { self.old.room ≤ self.new.room }
    {
        if self.get(process, variable) != Some(old) {
            return;
        }
        let entry = NamedVariable {
            process,
            variable,
            name: new,
        };
        rebind_in(&mut self.cells, self.homes, entry);
    }

    /// Marks what it holds now. It takes no memory, and nothing may be marked yet.
    pub fn mark(&mut self)
        requires { self.old.marked ≡ None }
        ensures now { self.new.now ≡ self.old.now }
        ensures marked { self.new.marked ≡ Some self.old.now }
        ensures room { self.old.room ≤ self.new.room }
    {
        self.cells.mark();
        self.counted = self.count;
    }

    /// Puts back what was marked, and nothing is marked any longer. It takes no memory, and goes over no more than the
    /// cells that were changed since.
    pub fn back(&mut self)
        requires { IsSome self.old.marked }
        ensures now { self.old.marked ≡ Some self.new.now }
        ensures marked { self.new.marked ≡ None }
        ensures room { self.old.room ≤ self.new.room }
    {
        self.cells.back();
        self.count = self.counted;
        self.counted = 0;
    }

    /// Nothing is marked any longer; the names stay. It takes no memory, and goes over no more than the cells that were
    /// changed since.
    pub fn forget(&mut self)
        ensures now { self.new.now ≡ self.old.now }
        ensures marked { self.new.marked ≡ None }
        ensures room { self.old.room ≤ self.new.room }
    {
        self.cells.forget();
        self.counted = 0;
    }

    /// The same names once more, with nothing marked. It takes memory for all of them.
    pub fn copy(&self, alloc: Global) -> Result<Self, AllocError>
        ensures now { IfOk result (λ c. c.now ≡ self.now.now) }
        ensures marked { IfOk result (λ c. c.marked ≡ None) }
    {
        let mut cells = self.cells.copy(alloc)?;
        cells.reserve_all(0)?;
        Ok(Channels {
            cells,
            homes: self.homes,
            count: self.count,
            counted: 0,
        })
    }
}
