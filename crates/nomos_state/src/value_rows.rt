//! Values of a process, bound in its row.
ghost use Rattle.std.specs.Prelude.{◌≡◌, ◌≤◌, ◌<◌, ◌+◌, ◌==◌, ◌↔◌, IsTrue, OnErr, OnOk, length, nat_lt, slice_get, slice_index_or, slice_set, IfOk, Some, []};
ghost use Rattle.std.specs.List.{insert, prefix_len};
ghost use Rattle.nomos_ir.specs.Bindings.{IsAscending, bind};
ghost use Rattle.nomos_ir.specs.Value.{Value as Meaning};
ghost use Rattle.nomos_changes.specs.SmallChanges.{bound_if};
ghost use Rattle.nomos_state.specs.Objects.{AscendsIf};
ghost use Rattle.nomos_state.specs.Rebound.{IsBoundAt};

use crate::copying::copy_values;
use nomos_ir::ids::VarId;
use nomos_ir::value::Value;
use nomos_slots::shelf::Shelf;
use std::alloc::{AllocError, Global};

// How many pairs at the front have lower variables.
fn count_along<X>(row: &[(VarId, X)], v: VarId) -> usize
    ensures count { result ≡ prefix_len (λ e. nat_lt e.0.0 v.0) row.now }
    ensures within { result ≤ length row.now }
{
    row.iter().take_while(|pair| pair.0.0 < v.0).count()
}

// The same by halves, where pairs ascend.
fn count_by_halves<X>(row: &[(VarId, X)], v: VarId) -> usize
    requires { IsAscending row.now }
    ensures count { result ≡ prefix_len (λ e. nat_lt e.0.0 v.0) row.now }
    ensures within { result ≤ length row.now }
{
    row.partition_point(|pair| pair.0.0 < v.0)
}

/// How many pairs at the front have lower variables: by halves, where it is known that pairs ascend.
pub(crate) fn count_below<X>(row: &[(VarId, X)], v: VarId, ascends: bool) -> usize
    requires { AscendsIf ascends row.now }
    ensures count { result ≡ prefix_len (λ e. nat_lt e.0.0 v.0) row.now }
    ensures within { result ≤ length row.now }
{
    if ascends {
        count_by_halves(row, v)
    } else {
        count_along(row, v)
    }
}

/// Whether the pair at this place is of the variable.
pub(crate) fn is_bound_at<X>(row: &[(VarId, X)], at: usize, v: VarId) -> bool
    ensures { IsTrue result ↔ IsBoundAt v row.now at }
{
    match row.get(at) {
        Some(pair) => pair.0.0 == v.0,
        None => false,
    }
}

// The row once more, with another value at this place.
fn rebound(
    alloc: Global,
    row: &[(VarId, Value)],
    at: usize,
    x: Value,
) -> Result<Vec<(VarId, Value)>, AllocError>
    requires { at < length row.now }
    ensures { IfOk result (λ made. (e : VarId × Meaning) → slice_get row.now at ≡ Some e
        → made.items ≡ slice_set row.now at (e.0, x)) }
{
    let mut made = copy_values(alloc, row)?;
    made[at].1 = x;
    Ok(made)
}

/// A variable is bound in the row at a place, of which it is known or not that it ascends, in ascending order. Want of
/// memory leaves all as it was.
pub(crate) fn bind_in(
    values: &mut Shelf<(VarId, Value)>,
    alloc: Global,
    place: usize,
    pair: (VarId, Value),
    ascends: bool,
) -> Result<(), AllocError>
    requires room { 0 < values.old.room }
    requires within { place < length values.old.now }
    requires order { AscendsIf ascends (slice_index_or values.old.now place []) }
    ensures ok { OnOk result (values.new.now
        ≡ slice_set values.old.now place (bind pair.0 pair.1 (slice_index_or values.old.now place []))) }
    ensures err { OnErr result (values.new.now ≡ values.old.now) }
    ensures marked { values.new.marked ≡ values.old.marked }
    ensures room { values.old.room ≤ values.new.room + 1 }
    ensures kept { OnErr result (values.old.room ≤ values.new.room) }
{
    let (v, x) = pair;
    let at = count_below(values.row(place), v, ascends);
    if is_bound_at(values.row(place), at, v) {
        let row = rebound(alloc, values.row(place), at, x)?;
        let _before = values.replace(place, row);
        return Ok(());
    }
    values.reserve_in(place, 1)?;
    values.insert(place, at, (v, x));
    Ok(())
}

/// The same, if there is a variable to be bound.
pub(crate) fn bind_if(
    values: &mut Shelf<(VarId, Value)>,
    alloc: Global,
    place: usize,
    bound: Option<(VarId, Value)>,
    ascends: bool,
) -> Result<(), AllocError>
    requires room { 0 < values.old.room }
    requires within { place < length values.old.now }
    requires order { AscendsIf ascends (slice_index_or values.old.now place []) }
    ensures ok { OnOk result (values.new.now
        ≡ slice_set values.old.now place (bound_if bound (slice_index_or values.old.now place []))) }
    ensures err { OnErr result (values.new.now ≡ values.old.now) }
    ensures marked { values.new.marked ≡ values.old.marked }
    ensures room { values.old.room ≤ values.new.room + 1 }
{
    match bound {
        Some(pair) => bind_in(values, alloc, place, pair, ascends),
        None => Ok(()),
    }
}
