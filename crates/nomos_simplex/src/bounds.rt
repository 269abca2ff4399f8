//! Bounds of variables, and sums at the bounds.
ghost use Rattle.std.specs.Prelude.{◌≡◌, ◌+◌, ◌<◌, ◌≤◌, ◌^◌, ◌+ℤ◌, ◌*ℤ◌, ◌-ℤ◌, unsigned_abs, length, map, All, IfOk};
ghost use Rattle.nomos_simplex.specs.Sizes.{IsNumber, IsLine};
ghost use Rattle.nomos_simplex.specs.Tables.{bound_of};
ghost use Rattle.nomos_simplex.specs.mirror.Keeping.{sum_of, over_by};
ghost use Rattle.nomos_forms.specs.Bounds.{IsSmall};

use crate::table::TableLine;
use nomos_forms::row_list::RowList;
use std::alloc::{AllocError, Global};

/// The lower bound of a variable.
pub fn bound(rows: &RowList, variable: usize) -> i64
    ensures value { result ≡ bound_of rows.now variable }
    ensures small { IsSmall result }
{
    let stars = usize::from(rows.stars);
    if variable <= stars {
        return 0;
    }
    match rows.rows.least(variable - stars - 1) {
        Some(least) => least,
        None => 0,
    }
}

/// The lower bounds of variables.
pub fn bounds_of(alloc: Global, rows: &RowList, variables: &[usize]) -> Result<Vec<i64>, AllocError>
    ensures value { IfOk result (λ v. v.items ≡ map (bound_of rows.now) variables.now) }
    ensures small { IfOk result (λ v. All IsSmall v.items) }
{
    let mut bounds = Vec::with_capacity(alloc, variables.len())?;
    for variable in variables {
        bounds.push(bound(rows, *variable))?;
    }
    Ok(bounds)
}

/// The sum with the product of a number and a bound added to it.
pub fn add_bounded(sum: i128, number: i128, bound: i64) -> i128
    requires room { unsigned_abs sum < 2 ^ 120 }
    requires number { IsNumber number }
    requires bound { IsSmall bound }
    ensures value { result ≡ sum +ℤ number *ℤ bound }
    ensures size { unsigned_abs result ≤ unsigned_abs sum + 2 ^ 107 }
{
    sum + i128::from(number as i64) * i128::from(bound)
}

/// The sum of coefficients times bounds.
pub fn sum_at_bounds(bounds: &[i64], coefs: &[i128]) -> i128
    requires width { length bounds.now ≡ length coefs.now }
    requires few { length coefs.now ≤ 64 }
    requires bounds { All IsSmall bounds.now }
    requires coefs { All IsNumber coefs.now }
    ensures value { result ≡ sum_of bounds.now coefs.now }
    ensures size { unsigned_abs result ≤ 2 ^ 113 }
{
    let mut sum: i128 = 0;
    for i in 0..coefs.len() {
        sum = add_bounded(sum, coefs[i], bounds[i]);
    }
    sum
}

/// The bound of the variable of a line, times the number before it.
fn least_of(rows: &RowList, line: &TableLine) -> i128
    requires { IsNumber line.now.times }
    ensures value { result ≡ line.now.times *ℤ bound_of rows.now line.now.basic }
    ensures size { unsigned_abs result ≤ 2 ^ 113 }
{
    add_bounded(0, line.times, bound(rows, line.basic))
}

/// One sum less another.
fn difference(a: i128, b: i128) -> i128
    requires a { unsigned_abs a ≤ 2 ^ 113 }
    requires b { unsigned_abs b ≤ 2 ^ 113 }
    ensures value { result ≡ a -ℤ b }
    ensures size { unsigned_abs result ≤ 2 ^ 114 }
{
    a - b
}

/// How far the variable of a line is over its bound, times the number before it: below 0 where it is below its bound.
/// The bounds are those of the nonbasic variables.
pub fn over_of(rows: &RowList, bounds: &[i64], line: &TableLine) -> i128
    requires few { length bounds.now ≤ 64 }
    requires bounds { All IsSmall bounds.now }
    requires line { IsLine (length bounds.now) line.now }
    ensures value { result ≡ over_by rows.now bounds.now line.now }
    ensures size { unsigned_abs result ≤ 2 ^ 114 }
{
    let sum = sum_at_bounds(bounds, line.coefs.as_slice());
    let least = least_of(rows, line);
    difference(sum, least)
}
