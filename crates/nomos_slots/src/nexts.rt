//! The next variable of a process that has a name.
ghost use Rattle.std.specs.Prelude.{◌≡◌, ◌≤◌, ◌<◌, ℕ, None};
ghost use Rattle.nomos_slots.specs.Cells.{IsProbed, block, name_in};

use crate::cells::{BLOCK, NamedVariable, cell, home};
use crate::column::Column;

/// Where the block of a variable ends, or where this limit comes first.
pub(crate) fn block_end(variable: u32, limit: u32) -> u32
    ensures after { variable < limit → variable < result }
    ensures within { result ≤ limit }
    ensures own { (v : ℕ) → variable ≤ v → v < result → block v ≡ block variable }
{
    let last = variable / BLOCK * BLOCK + (BLOCK - 1);
    if last < limit { last + 1 } else { limit }
}

// The bound, or the variable of the entry, where that is lower and the entry is one of the process, from this variable
// on.
fn lowered(entry: NamedVariable, process: u32, from: u32, bound: u32) -> u32
    ensures less { result ≤ bound }
    ensures over { from ≤ bound → from ≤ result }
    ensures entry { entry.process ≡ process → from ≤ entry.variable → result ≤ entry.variable }
{
    if entry.process == process && from <= entry.variable {
        bound.min(entry.variable)
    } else {
        bound
    }
}

/// The lowest variable of a process that has a name, of those from this one on in its block, before this end; the end,
/// where none has.
pub(crate) fn next_in(
    cells: &Column<Option<NamedVariable>>,
    homes: usize,
    process: u32,
    from: u32,
    end: u32,
) -> u32
    requires homes { 0 < homes }
    requires probed { IsProbed homes cells.now.now }
    requires order { from ≤ end }
    requires own { (v : ℕ) → from ≤ v → v < end → block v ≡ block from }
    ensures over { from ≤ result }
    ensures within { result ≤ end }
    ensures none { (v : ℕ) → from ≤ v → v < result → name_in cells.now.now process v ≡ None }
{
    let mut next = end;
    for at in home(homes, process, from)..cells.len() {
        let Some(entry) = cell(cells, at) else {
            return next;
        };
        next = lowered(entry, process, from, next);
    }
    next
}
