//! What becomes of all entries of a process.
ghost use Rattle.std.specs.Prelude.{◌≡◌, ◌≤◌, ◌<◌, ◌+◌, ◌^◌, ◌==◌, ℕ, cond, map, None, Some, IsSome, length};
ghost use Rattle.nomos_slots.specs.Cells.{IsProbed, cell_at, entries, name_in};
ghost use Rattle.nomos_slots.specs.Sweeps.{IsEntryOf, renamed_cell};

use crate::cells::{NamedVariable, cell, unbind_in};
use crate::column::Column;

// The first entry of a process.
fn entry_of(cells: &Column<Option<NamedVariable>>, process: u32) -> Option<NamedVariable>
    ensures { IsEntryOf cells.now.now process result }
{
    for at in 0..cells.len() {
        if let Some(entry) = cell(cells, at) {
            if entry.process == process {
                return Some(entry);
            }
        }
    }
    None
}

/// All entries of a process go. How many entries there are less.
pub(crate) fn drop_in(
    cells: &mut Column<Option<NamedVariable>>,
    homes: usize,
    process: u32,
) -> usize
    requires homes { 0 < homes }
    requires probed { IsProbed homes cells.old.now }
    requires seats { length cells.old.now ≤ cells.old.seats }
    requires fits { length cells.old.now < 2 ^ 64 }
    ensures probed { IsProbed homes cells.new.now }
    ensures names { (p v : ℕ) → name_in cells.new.now p v
        ≡ cond (process == p) None (name_in cells.old.now p v) }
    ensures entries { entries cells.new.now + result ≡ entries cells.old.now }
    ensures len { length cells.new.now ≡ length cells.old.now }
    ensures marked { cells.new.marked ≡ cells.old.marked }
    ensures seats { cells.new.seats ≡ cells.old.seats }
{
    let mut count = 0;
    while let Some(entry) = entry_of(cells, process) {
        count += unbind_in(cells, homes, process, entry.variable);
    }
    count
}

/// The entries of a process that have the one name have the other one instead.
pub(crate) fn rename_in(cells: &mut Column<Option<NamedVariable>>, process: u32, old: u32, new: u32)
    requires seats { length cells.old.now ≤ cells.old.seats }
    ensures now { cells.new.now ≡ map (renamed_cell process old new) cells.old.now }
    ensures marked { cells.new.marked ≡ cells.old.marked }
    ensures seats { cells.new.seats ≡ cells.old.seats }
{
    for at in 0..cells.len() {
        if let Some(entry) = cell(cells, at) {
            if entry.process == process && entry.name == old {
                cells.put(at, Some(NamedVariable { name: new, ..entry }));
            }
        }
    }
}
