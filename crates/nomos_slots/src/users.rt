//! Who has a name, found by going over all cells.
ghost use Rattle.std.specs.Prelude.{◌≡◌};
ghost use Rattle.nomos_slots.specs.Cells.{IsOnce};
ghost use Rattle.nomos_slots.specs.Users.{IsLowestUser, lower_user};

use crate::cells::{NamedVariable, cell};
use crate::column::Column;

// The lower one of a process and that of a cell, where the entry there has the name.
fn lower_user(lowest: Option<u32>, cell: Option<NamedVariable>, name: u32) -> Option<u32>
    ensures { result ≡ lower_user name cell lowest }
{
    let Some(entry) = cell else {
        return lowest;
    };
    if entry.name != name {
        return lowest;
    }
    match lowest {
        Some(process) => Some(process.min(entry.process)),
        None => Some(entry.process),
    }
}

/// The lowest process that has this name for one of its variables.
pub(crate) fn lowest_user_in(cells: &Column<Option<NamedVariable>>, name: u32) -> Option<u32>
    requires { IsOnce cells.now.now }
    ensures { IsLowestUser cells.now.now name result }
{
    let mut lowest = None;
    for at in 0..cells.len() {
        lowest = lower_user(lowest, cell(cells, at), name);
    }
    lowest
}
