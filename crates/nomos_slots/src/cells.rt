//! Cells in which a hash finds the name of a variable of a process.
ghost use Rattle.std.specs.Prelude.{◌≡◌, ◌≤◌, ◌<◌, ◌+◌, ◌-◌, ◌&&◌, ◌==◌, ℕ, [], ◌∷◌, cond, false, IsOk, IsSome, IfSome, IfOk, IsTrue, OnOk, Some, None, length, slice_set};
ghost use Rattle.nomos_slots.specs.Cells.{IsEmptyFrom, IsGap, IsOnce, IsPlaceIn, IsProbed, cell_at, entries, home, home_of, is_of, name_in, scattered, with_cell};

use crate::column::Column;
use std::alloc::{AllocError, Global};

/// The name that a variable of a process has.
#[derive(Clone, Copy, Debug)]
pub struct NamedVariable {
    pub process: u32,
    pub variable: u32,
    pub name: u32,
}

/// Its high half is near the golden section, so that multiples of it lie far apart.
const MULTIPLIER: u64 = 11400714819323198485;

/// How many variables that follow one another are of one block.
pub(crate) const BLOCK: u32 = 16;

// A process and a block as one number of 64 bits.
fn scattered(process: u32, block: u32) -> u64
    ensures { result ≡ scattered process block }
{
    let sum = u64::from(process)
        .wrapping_mul(MULTIPLIER)
        .wrapping_add(u64::from(block));
    (sum ^ (sum >> 32)).wrapping_mul(MULTIPLIER)
}

/// The first cell in which the entry of a variable of a process may stand, and those of others of its block.
pub(crate) fn home(homes: usize, process: u32, variable: u32) -> usize
    requires { 0 < homes }
    ensures home { result ≡ home homes process variable }
    ensures within { result < homes }
{
    let scattered = scattered(process, variable / BLOCK);
    (u128::from(scattered) * homes as u128 >> 64) as usize
}

// Whether the entry is of this variable of this process.
fn is_of(entry: NamedVariable, process: u32, variable: u32) -> bool
    ensures { result ≡ is_of process variable entry }
{
    entry.process == process && entry.variable == variable
}

/// What stands in a cell.
pub(crate) fn cell(cells: &Column<Option<NamedVariable>>, place: usize) -> Option<NamedVariable>
    ensures { result ≡ cell_at cells.now.now place }
{
    cells.get(place).unwrap_or(None)
}

/// The place of the entry of a variable of a process.
pub(crate) fn place_in(
    cells: &Column<Option<NamedVariable>>,
    homes: usize,
    process: u32,
    variable: u32,
) -> Option<usize>
    requires homes { 0 < homes }
    requires probed { IsProbed homes cells.now.now }
    ensures { IsPlaceIn cells.now.now process variable result }
{
    for at in home(homes, process, variable)..cells.len() {
        let Some(entry) = cell(cells, at) else {
            return None;
        };
        if is_of(entry, process, variable) {
            return Some(at);
        }
    }
    None
}

// The first empty cell from a place on.
fn empty_in(cells: &Column<Option<NamedVariable>>, from: usize) -> Option<usize>
    ensures { IsEmptyFrom cells.now.now from result }
{
    for at in from..cells.len() {
        if cell(cells, at).is_none() {
            return Some(at);
        }
    }
    None
}

// The entry of this cell moves into the hole, where it may stand there, and leaves one. Where the hole is then.
fn fill_hole(
    cells: &mut Column<Option<NamedVariable>>,
    homes: usize,
    hole: usize,
    next: (usize, NamedVariable),
) -> usize
    requires homes { 0 < homes }
    requires within { hole < length cells.old.now }
    requires gap { IsGap homes cells.old.now hole next.0 }
    requires next { cell_at cells.old.now next.0 ≡ Some next.1 }
    requires seats { length cells.old.now ≤ cells.old.seats }
    ensures gap { IsGap homes cells.new.now result (next.0 + 1) }
    ensures names { (p v : ℕ) → name_in cells.new.now p v ≡ name_in cells.old.now p v }
    ensures entries { entries cells.new.now ≡ entries cells.old.now }
    ensures len { length cells.new.now ≡ length cells.old.now }
    ensures within { result < length cells.new.now }
    ensures marked { cells.new.marked ≡ cells.old.marked }
    ensures seats { cells.new.seats ≡ cells.old.seats }
{
    let (place, entry) = next;
    if home(homes, entry.process, entry.variable) > hole {
        return hole;
    }
    cells.put(hole, Some(entry));
    cells.put(place, None);
    place
}

// The cells after the hole move up where they may, until the hole is one that may be empty.
fn close_up(cells: &mut Column<Option<NamedVariable>>, homes: usize, hole: usize)
    requires homes { 0 < homes }
    requires within { hole < length cells.old.now }
    requires gap { IsGap homes cells.old.now hole (hole + 1) }
    requires seats { length cells.old.now ≤ cells.old.seats }
    ensures probed { IsProbed homes cells.new.now }
    ensures names { (p v : ℕ) → name_in cells.new.now p v ≡ name_in cells.old.now p v }
    ensures entries { entries cells.new.now ≡ entries cells.old.now }
    ensures len { length cells.new.now ≡ length cells.old.now }
    ensures marked { cells.new.marked ≡ cells.old.marked }
    ensures seats { cells.new.seats ≡ cells.old.seats }
{
    let end = cells.len();
    let mut hole = hole;
    for next in hole + 1..end {
        let Some(entry) = cell(cells, next) else {
            return;
        };
        hole = fill_hole(cells, homes, hole, (next, entry));
    }
}

/// The entry comes, in the place of one of the same variable of the same process where there is one. How many entries
/// there are more.
pub(crate) fn bind_in(
    cells: &mut Column<Option<NamedVariable>>,
    homes: usize,
    entry: NamedVariable,
) -> usize
    requires homes { 0 < homes }
    requires probed { IsProbed homes cells.old.now }
    requires room { homes + entries cells.old.now ≤ length cells.old.now }
    requires seats { length cells.old.now ≤ cells.old.seats }
    ensures probed { IsProbed homes cells.new.now }
    ensures names { (p v : ℕ) → name_in cells.new.now p v
        ≡ cond (is_of p v entry) (Some entry.name) (name_in cells.old.now p v) }
    ensures entries { entries cells.new.now ≡ entries cells.old.now + result }
    ensures one { result ≤ 1 }
    ensures len { length cells.new.now ≡ length cells.old.now }
    ensures marked { cells.new.marked ≡ cells.old.marked }
    ensures seats { cells.new.seats ≡ cells.old.seats }
{
    if let Some(at) = place_in(cells, homes, entry.process, entry.variable) {
        cells.put(at, Some(entry));
        return 0;
    }
    let Some(at) = empty_in(cells, home(homes, entry.process, entry.variable)) else {
        unreachable!()
    };
    cells.put(at, Some(entry));
    1
}

/// The entry stands in the place of that of the same variable of the same process.
pub(crate) fn rebind_in(
    cells: &mut Column<Option<NamedVariable>>,
    homes: usize,
    entry: NamedVariable,
)
    requires homes { 0 < homes }
    requires probed { IsProbed homes cells.old.now }
    requires seats { length cells.old.now ≤ cells.old.seats }
    requires there { IsSome (name_in cells.old.now entry.process entry.variable) }
    ensures probed { IsProbed homes cells.new.now }
    ensures names { (p v : ℕ) → name_in cells.new.now p v
        ≡ cond (is_of p v entry) (Some entry.name) (name_in cells.old.now p v) }
    ensures entries { entries cells.new.now ≡ entries cells.old.now }
    ensures len { length cells.new.now ≡ length cells.old.now }
    ensures marked { cells.new.marked ≡ cells.old.marked }
    ensures seats { cells.new.seats ≡ cells.old.seats }
{
    let Some(at) = place_in(cells, homes, entry.process, entry.variable) else {
        unreachable!()
    };
    cells.put(at, Some(entry));
}

/// The entry of a variable of a process goes, where there is one. How many entries there are less.
pub(crate) fn unbind_in(
    cells: &mut Column<Option<NamedVariable>>,
    homes: usize,
    process: u32,
    variable: u32,
) -> usize
    requires homes { 0 < homes }
    requires probed { IsProbed homes cells.old.now }
    requires seats { length cells.old.now ≤ cells.old.seats }
    ensures probed { IsProbed homes cells.new.now }
    ensures names { (p v : ℕ) → name_in cells.new.now p v
        ≡ cond (process == p && variable == v) None (name_in cells.old.now p v) }
    ensures entries { entries cells.new.now + result ≡ entries cells.old.now }
    ensures one { IsSome (name_in cells.old.now process variable) → result ≡ 1 }
    ensures len { length cells.new.now ≡ length cells.old.now }
    ensures marked { cells.new.marked ≡ cells.old.marked }
    ensures seats { cells.new.seats ≡ cells.old.seats }
{
    let Some(at) = place_in(cells, homes, process, variable) else {
        return 0;
    };
    cells.put(at, None);
    close_up(cells, homes, at);
    1
}

/// So many empty cells, each with a seat in the log.
pub(crate) fn blank(
    alloc: Global,
    count: usize,
) -> Result<Column<Option<NamedVariable>>, AllocError>
    ensures len { IfOk result (λ cells. length cells.now ≡ count) }
    ensures empty { IfOk result (λ cells. (place : ℕ) → cell_at cells.now place ≡ None) }
    ensures seats { IfOk result (λ cells. length cells.now ≤ cells.seats) }
    ensures marked { IfOk result (λ cells. cells.marked ≡ None) }
{
    let mut cells = Column::new(alloc);
    cells.reserve_all(count)?;
    push_empty(&mut cells, count);
    Ok(cells)
}

// Adds so many empty cells.
fn push_empty(cells: &mut Column<Option<NamedVariable>>, count: usize)
    requires none { cells.old.now ≡ [] }
    requires room { count ≤ cells.old.room }
    ensures len { length cells.new.now ≡ count }
    ensures empty { (place : ℕ) → cell_at cells.new.now place ≡ None }
    ensures seats { cells.new.seats ≡ cells.old.seats }
    ensures marked { cells.new.marked ≡ cells.old.marked }
{
    for _ in 0..count {
        cells.push(None);
    }
}

// Empties a cell. Nothing is written where it is empty, so that the log has no record of it.
fn empty_at(cells: &mut Column<Option<NamedVariable>>, at: usize)
    requires seats { length cells.old.now ≤ cells.old.seats }
    requires within { at < length cells.old.now }
    ensures now { cells.new.now ≡ slice_set cells.old.now at None }
    ensures seats { cells.new.seats ≡ cells.old.seats }
    ensures marked { cells.new.marked ≡ cells.old.marked }
{
    if cell(cells, at).is_some() {
        cells.put(at, None);
    }
}

/// Empties all cells.
pub(crate) fn empty_all(cells: &mut Column<Option<NamedVariable>>)
    requires seats { length cells.old.now ≤ cells.old.seats }
    ensures len { length cells.new.now ≡ length cells.old.now }
    ensures empty { (place : ℕ) → cell_at cells.new.now place ≡ None }
    ensures seats { cells.new.seats ≡ cells.old.seats }
    ensures marked { cells.new.marked ≡ cells.old.marked }
{
    for at in 0..cells.len() {
        empty_at(cells, at);
    }
}

// The same for what stands in a cell.
fn bind_any(
    cells: &mut Column<Option<NamedVariable>>,
    homes: usize,
    entry: Option<NamedVariable>,
) -> usize
    requires homes { 0 < homes }
    requires probed { IsProbed homes cells.old.now }
    requires room { homes + entries cells.old.now ≤ length cells.old.now }
    requires seats { length cells.old.now ≤ cells.old.seats }
    ensures probed { IsProbed homes cells.new.now }
    ensures names { (p v : ℕ) → name_in cells.new.now p v ≡ with_cell entry p v (name_in cells.old.now p v) }
    ensures entries { entries cells.new.now ≡ entries cells.old.now + result }
    ensures one { result ≤ entries (entry ∷ []) }
    ensures len { length cells.new.now ≡ length cells.old.now }
    ensures marked { cells.new.marked ≡ cells.old.marked }
    ensures seats { cells.new.seats ≡ cells.old.seats }
{
    match entry {
        Some(entry) => bind_in(cells, homes, entry),
        None => 0,
    }
}

/// The entries of other cells come into empty ones. How many there are.
pub(crate) fn fill(
    cells: &mut Column<Option<NamedVariable>>,
    homes: usize,
    from: &Column<Option<NamedVariable>>,
) -> usize
    requires homes { 0 < homes }
    requires empty { (place : ℕ) → cell_at cells.old.now place ≡ None }
    requires once { IsOnce from.now.now }
    requires room { homes + entries from.now.now ≤ length cells.old.now }
    requires seats { length cells.old.now ≤ cells.old.seats }
    ensures probed { IsProbed homes cells.new.now }
    ensures names { (p v : ℕ) → name_in cells.new.now p v ≡ name_in from.now.now p v }
    ensures count { result ≡ entries cells.new.now }
    ensures few { result ≤ entries from.now.now }
    ensures len { length cells.new.now ≡ length cells.old.now }
    ensures marked { cells.new.marked ≡ cells.old.marked }
    ensures seats { cells.new.seats ≡ cells.old.seats }
{
    let mut count = 0;
    for at in 0..from.len() {
        count += bind_any(cells, homes, cell(from, at));
    }
    count
}
