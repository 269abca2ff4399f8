//! The verdict of a line without a coefficient over 0.
ghost use Rattle.std.specs.Prelude.{◌≡◌, ℕ, ◌+◌, ◌*◌, ◌-◌, ◌<◌, ◌≤◌, ◌^◌, ◌<ℤ◌, ◌*ℤ◌, ◌-ℤ◌, pos, length, map, take, All, IfOk, slice_index_or, unsigned_abs, insert, slice_get};
ghost use Rattle.nomos_simplex.specs.Exits as exits;
ghost use Rattle.nomos_simplex.specs.Exits.{with_weight, weights_below};
ghost use Rattle.nomos_simplex.specs.Sizes.{IsNumber, IsLine, IsVariable};
ghost use Rattle.nomos_simplex.specs.Tables.{bound_of, sum_at};

use crate::bounds::{bounds_of, over_of};
use crate::table::{Table, TableLine};
use nomos_forms::row::Row;
use nomos_forms::row_list::RowList;
use nomos_forms::verdict::{Of, Verdict, Weight};
use nomos_ir::items::Items;
use std::alloc::{AllocError, Global};

/// The number of a variable, and its weight.
type Weighted = (usize, u64);

/// The place of the first weight whose variable is not lower.
fn place_of(weights: &[Weighted], variable: usize) -> usize
    ensures within { result ≤ length weights.now }
    ensures before { (k : ℕ) → k < result → (slice_index_or weights.now k (0, 0)).0 < variable }
    ensures there { result < length weights.now → variable ≤ (slice_index_or weights.now result (0, 0)).0 }
{
    for place in 0..weights.len() {
        if weights[place].0 >= variable {
            return place;
        }
    }
    weights.len()
}

/// Puts a weight before the first whose variable is not lower.
fn add_weight(weights: &mut Vec<Weighted>, weight: Weighted) -> Result<(), AllocError>
    ensures { IfOk result (λ _. weights.new.items ≡ with_weight weight weights.old.items) }
{
    let place = place_of(weights, weight.0);
    weights.insert(place, weight)?;
    Ok(())
}

/// The absolute value of a number of a table.
pub fn times_of(number: i128) -> u64
    requires { IsNumber number }
    ensures { result ≡ unsigned_abs number }
{
    number.unsigned_abs() as u64
}

/// The weights of the nonbasic variables with a coefficient below 0, in order of their numbers.
pub fn weights_of(
    alloc: Global,
    nonbasic: &[usize],
    coefs: &[i128],
) -> Result<Vec<Weighted>, AllocError>
    requires width { length nonbasic.now ≡ length coefs.now }
    requires coefs { All IsNumber coefs.now }
    ensures { IfOk result (λ v. v.items ≡ weights_below nonbasic.now coefs.now) }
{
    let mut weights = Vec::new(alloc);
    let count = coefs.len();
    for done in 0..count {
        let column = count - 1 - done;
        if coefs[column] < 0 {
            let weight = (nonbasic[column], times_of(coefs[column]));
            add_weight(&mut weights, weight)?;
        }
    }
    Ok(weights)
}

/// What a variable stands for.
fn of_variable(alloc: Global, rows: &RowList, variable: usize) -> Result<Of, AllocError>
    requires { IsVariable rows.now variable }
    ensures { IfOk result (λ of. of ≡ exits.of_variable rows.now variable) }
{
    let stars = usize::from(rows.stars);
    if variable <= stars {
        return Ok(Of::Star(variable as u16));
    }
    match rows.rows.row_at(variable - stars - 1)? {
        Some(row) => Ok(Of::Row(row)),
        None => Ok(Of::Star(0)),
    }
}

/// The weights with what their variables stand for.
pub fn resolved(
    alloc: Global,
    rows: &RowList,
    weights: &[Weighted],
) -> Result<Vec<Weight>, AllocError>
    requires { All (λ w. IsVariable rows.now w.0) weights.now }
    ensures { IfOk result (λ v. v.items ≡ map (exits.weight_of rows.now) weights.now) }
{
    let mut list = Vec::new(alloc);
    for weight in weights {
        let of = of_variable(alloc, rows, weight.0)?;
        list.push(Weight {
            times: weight.1,
            of,
        })?;
    }
    Ok(list)
}

/// How far the variable of a line is from its bound, times the number before it.
fn missing(
    alloc: Global,
    rows: &RowList,
    nonbasic: &[usize],
    line: &TableLine,
) -> Result<u128, AllocError>
    requires few { length nonbasic.now ≤ 64 }
    requires line { IsLine (length nonbasic.now) line.now }
    ensures { IfOk result (λ size. size ≡ unsigned_abs (line.now.times *ℤ bound_of rows.now line.now.basic
        -ℤ sum_at (bound_of rows.now) nonbasic.now line.now.coefs)) }
{
    let bounds = bounds_of(alloc, rows, nonbasic)?;
    Ok(over_of(rows, &bounds, line).unsigned_abs())
}

/// The verdict of a line whose variable is below its bound, and that has no coefficient over 0.
pub fn verdict(
    alloc: Global,
    rows: &RowList,
    table: &Table,
    line: &TableLine,
) -> Result<Verdict, AllocError>
    requires few { length table.now.nonbasic ≤ 64 }
    requires line { IsLine (length table.now.nonbasic) line.now }
    requires basic { IsVariable rows.now line.now.basic }
    requires nonbasic { All (IsVariable rows.now) table.now.nonbasic }
    ensures { IfOk result (λ made. made ≡ exits.verdict_of rows.now table.now line.now) }
{
    let nonbasic = table.nonbasic.as_slice();
    let mut weights = weights_of(alloc, nonbasic, line.coefs.as_slice())?;
    add_weight(&mut weights, (line.basic, times_of(line.times)))?;
    let list = resolved(alloc, rows, &weights)?;
    Ok(Verdict {
        weights: Items::of_vec(list),
        gives: missing(alloc, rows, nonbasic, line)?,
    })
}
