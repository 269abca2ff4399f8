//! The state with nothing in it, and copies of an indexed state.
ghost use Rattle.std.specs.Prelude.{◌≡◌, ◌≤◌, IfOk, None, length};
ghost use Rattle.nomos_machine.specs.State.{empty};
ghost use Rattle.nomos_state.specs.Indexed.{HasSeats, held_now, nothing_held};
ghost use Rattle.nomos_state.specs.Together.{NothingIsMarked};

use crate::inside::{Columns, Inside, Numbers};
use nomos_changes::process_lists::copy_lists;
use nomos_ir::ids::VarId;
use nomos_ir::value::Value;
use nomos_machine::object::PotentialList;
use nomos_slots::channels::Channels;
use nomos_slots::column::Column;
use nomos_slots::numbered::Numbered;
use nomos_slots::shelf::Shelf;
use nomos_slots::tail::Tail;
use std::alloc::{AllocError, Global};

/// A copy of variables with their values.
pub(crate) fn copy_values(
    alloc: Global,
    values: &[(VarId, Value)],
) -> Result<Vec<(VarId, Value)>, AllocError>
    ensures { IfOk result (λ made. made.items ≡ values.now) }
{
    let mut made = Vec::new(alloc);
    for pair in values {
        made.push((pair.0, pair.1.copy()?))?;
    }
    Ok(made)
}

// A copy of the values at each place.
fn copy_value_rows(
    alloc: Global,
    rows: &Shelf<(VarId, Value)>,
) -> Result<Shelf<(VarId, Value)>, AllocError>
    ensures now { IfOk result (λ made. made.now ≡ rows.now.now) }
    ensures marked { IfOk result (λ made. made.marked ≡ None) }
{
    let mut made = Shelf::new(alloc);
    made.reserve(rows.len())?;
    for place in 0..rows.len() {
        made.push(copy_values(alloc, rows.row(place))?);
    }
    Ok(made)
}

// A copy of the lists at each place.
fn copy_list_rows(
    alloc: Global,
    rows: &Shelf<(VarId, PotentialList)>,
) -> Result<Shelf<(VarId, PotentialList)>, AllocError>
    ensures now { IfOk result (λ made. made.now ≡ rows.now.now) }
    ensures marked { IfOk result (λ made. made.marked ≡ None) }
{
    let mut made = Shelf::new(alloc);
    made.reserve(rows.len())?;
    for place in 0..rows.len() {
        made.push(copy_lists(alloc, rows.row(place))?);
    }
    Ok(made)
}

// A copy of what processes emitted.
fn copy_results(alloc: Global, results: &[(u32, Value)]) -> Result<Tail<(u32, Value)>, AllocError>
    ensures now { IfOk result (λ made. made.now ≡ results.now) }
    ensures marked { IfOk result (λ made. made.marked ≡ None) }
{
    let mut made = Tail::new(alloc);
    made.reserve(results.len())?;
    for pair in results {
        made.push((pair.0, pair.1.copy()?));
    }
    Ok(made)
}

// A copy of a column, whose log has a seat for each record.
fn copy_column<T: Copy>(alloc: Global, column: &Column<T>) -> Result<Column<T>, AllocError>
    ensures now { IfOk result (λ made. made.now ≡ column.now.now) }
    ensures marked { IfOk result (λ made. made.marked ≡ None) }
    ensures seats { IfOk result (λ made. length made.now ≤ made.seats) }
{
    let mut made = column.copy(alloc)?;
    made.reserve_all(0)?;
    Ok(made)
}

// The same contents once more, with nothing marked.
fn copy_contents(alloc: Global, contents: &Columns) -> Result<Columns, AllocError>
    ensures now { IfOk result (λ made. held_now made ≡ held_now contents.now) }
    ensures marked { IfOk result NothingIsMarked }
    ensures seats { IfOk result HasSeats }
{
    Ok(Columns {
        objects: contents.objects.copy(alloc)?,
        values: copy_value_rows(alloc, &contents.values)?,
        lists: copy_list_rows(alloc, &contents.lists)?,
        channels: contents.channels.copy(alloc)?,
        names: contents.names.copy(alloc)?,
        balances: copy_column(alloc, &contents.balances)?,
        outside: copy_column(alloc, &contents.outside)?,
        results: copy_results(alloc, contents.results.as_slice())?,
        numbers: contents.numbers,
    })
}

// Columns with nothing in them.
fn no_contents(alloc: Global, numbers: Numbers) -> Columns
    ensures now { held_now result ≡ nothing_held numbers }
    ensures marked { NothingIsMarked result }
{
    Columns {
        objects: Numbered::new(alloc),
        values: Shelf::new(alloc),
        lists: Shelf::new(alloc),
        channels: Channels::new(alloc),
        names: Numbered::new(alloc),
        balances: Column::new(alloc),
        outside: Column::new(alloc),
        results: Tail::new(alloc),
        numbers,
    }
}

impl Inside {
    /// The state with nothing in it, in which these numbers are drawn next. It takes no memory.
    pub fn empty_at(alloc: Global, next_object: u32, next_name: u32) -> Self
        ensures state { result.state ≡ record empty { next_object = next_object; next_name = next_name } }
        ensures marked { result.marked ≡ None }
        ensures room { result.room ≡ 0 }
    {
        let numbers = Numbers {
            next_object,
            next_name,
            spent: 0,
        };
        Inside {
            alloc,
            contents: no_contents(alloc, numbers),
            marked: None,
            room: 0,
        }
    }

    /// The state with nothing in it, in which both next numbers are 1. It takes no memory.
    pub fn empty(alloc: Global) -> Self
        ensures state { result.state ≡ empty }
        ensures marked { result.marked ≡ None }
        ensures room { result.room ≡ 0 }
    {
        Inside::empty_at(alloc, 1, 1)
    }

    /// The same state once more, with nothing marked and no room ahead.
    pub fn copy(&self, alloc: Global) -> Result<Self, AllocError>
        ensures state { IfOk result (λ made. made.state ≡ self.now.state) }
        ensures marked { IfOk result (λ made. made.marked ≡ None) }
    {
        let contents = copy_contents(alloc, &self.contents)?;
        Ok(Inside {
            alloc,
            contents,
            marked: None,
            room: 0,
        })
    }
}
