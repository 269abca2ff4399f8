//! What the stars are where the run ends, as amounts over one unit.
ghost use Rattle.std.specs.Prelude.{◌≡◌, ℕ, List, ◌+◌, ◌*◌, ◌/◌, ◌<◌, ◌≤◌, ◌^◌, ◌==◌, nat_le, nat_lt, length, map, All, Some, None, IfOk, if◌then◌else◌, option_copied, find};
ghost use Rattle.std.specs.List.{list_all, range_with_len};
ghost use Rattle.std.specs.Int.{◌∣◌};
ghost use Rattle.nomos_forms.specs.Bounds.{IsSmall};
ghost use Rattle.nomos_forms.specs.declared.row_list.RowList.{RowList};
ghost use Rattle.nomos_simplex.specs.Divisors.{lcm};
ghost use Rattle.nomos_simplex.specs.Exits as exits;
ghost use Rattle.nomos_simplex.specs.Exits.{IsFraction};
ghost use Rattle.nomos_simplex.specs.Sizes.{IsLine};
ghost use Rattle.nomos_simplex.specs.Tables.{bound_of};

use crate::bounds::{bounds_of, sum_at_bounds};
use crate::divisors::greatest_divisor;
use crate::solved::{Solved, Stop};
use crate::table::{Table, TableLine};
use nomos_forms::found::Found;
use nomos_forms::row_list::RowList;
use nomos_ir::items::Items;
use std::alloc::{AllocError, Global};

/// A fraction: so many parts, of which one has so many.
type Fraction = (u128, u128);

/// The line of a basic variable.
pub fn line_of(lines: &[TableLine], variable: usize) -> Option<&TableLine>
    ensures { option_copied result ≡ find (λ line. line.basic == variable) lines.now }
{
    lines.iter().find(|line| line.basic == variable)
}

/// What a star is, by the bounds of the nonbasic variables.
fn fraction(bounds: &[i64], lines: &[TableLine], star: usize) -> Fraction
    requires few { length bounds.now ≤ 64 }
    requires bounds { All IsSmall bounds.now }
    requires lines { All (IsLine (length bounds.now)) lines.now }
    ensures value { (rows : RowList) (nonbasic : List ℕ) → bounds.now ≡ map (bound_of rows) nonbasic →
        result ≡ exits.fraction_in rows nonbasic (find (λ line. line.basic == star) lines.now) }
    ensures size { IsFraction result }
{
    match line_of(lines, star) {
        Some(line) => {
            let sum = sum_at_bounds(bounds, line.coefs.as_slice());
            (sum.unsigned_abs(), line.times.unsigned_abs())
        }
        None => (0, 1),
    }
}

/// What the stars are.
fn fractions(alloc: Global, rows: &RowList, table: &Table) -> Result<Vec<Fraction>, AllocError>
    requires few { length table.now.nonbasic ≤ 64 }
    requires lines { All (IsLine (length table.now.nonbasic)) table.now.lines }
    ensures value { IfOk result (λ v. v.items ≡ exits.fractions rows.now table.now) }
    ensures size { IfOk result (λ v. All IsFraction v.items) }
{
    let bounds = bounds_of(alloc, rows, table.nonbasic.as_slice())?;
    let mut list = Vec::new(alloc);
    for before in 0..rows.stars {
        let star = usize::from(before) + 1;
        list.push(fraction(&bounds, table.lines.as_slice(), star))?;
    }
    Ok(list)
}

/// The greatest unit that an answer may have.
const MOST_PARTS: u128 = 1 << 31;

/// The amount from which on an answer is too large.
const TOO_MANY: u128 = 1 << 62;

/// The denominator of a fraction in lowest terms.
fn denominator(fraction: &Fraction) -> u128
    requires { IsFraction fraction.now }
    ensures value { result ≡ exits.denominator fraction.now }
    ensures over_zero { 0 < result }
    ensures size { result < 2 ^ 62 }
{
    fraction.1 / greatest_divisor(fraction.1, fraction.0)
}

/// The least common multiple of two numbers.
fn common_multiple(a: u128, b: u128) -> u128
    requires a { (0 < a) }
    requires small_a { a ≤ 2 ^ 31 }
    requires b { (0 < b) }
    requires small_b { b < 2 ^ 62 }
    ensures value { result ≡ lcm a b }
    ensures size { result < 2 ^ 94 }
    ensures over { a ≤ result }
{
    a / greatest_divisor(a, b) * b
}

/// The least common denominator, where it is not too large.
fn common_denominator(fractions: &[Fraction]) -> Option<u128>
    requires { All IsFraction fractions.now }
    ensures { result ≡ (if nat_le (exits.common_denominator 1 fractions.now) (2 ^ 31)
        then Some (exits.common_denominator 1 fractions.now) else None) }
{
    let mut unit: u128 = 1;
    for fraction in fractions {
        if unit <= MOST_PARTS {
            unit = common_multiple(unit, denominator(fraction));
        }
    }
    if unit <= MOST_PARTS { Some(unit) } else { None }
}

/// A fraction in parts of which one has `unit`, where it is not too large.
fn amount(unit: u128, fraction: &Fraction) -> Option<u64>
    requires unit { unit ≤ 2 ^ 31 }
    requires over { 0 < unit }
    requires fraction { IsFraction fraction.now }
    requires whole { exits.denominator fraction.now ∣ unit }
    ensures { result ≡ (if nat_lt (unit * fraction.now.0 / fraction.now.1) (2 ^ 62)
        then Some (unit * fraction.now.0 / fraction.now.1) else None) }
{
    let divisor = greatest_divisor(fraction.1, fraction.0);
    let parts = fraction.0 / divisor;
    if parts >= TOO_MANY {
        return None;
    }
    let amount = unit / (fraction.1 / divisor) * parts;
    if amount >= TOO_MANY {
        None
    } else {
        Some(amount as u64)
    }
}

/// The fractions in parts of which one has `unit`, where none is too large.
fn amounts(
    alloc: Global,
    unit: u128,
    fractions: &[Fraction],
) -> Result<Option<Vec<u64>>, AllocError>
    requires unit { unit ≤ 2 ^ 31 }
    requires over { 0 < unit }
    requires fractions { All IsFraction fractions.now }
    requires whole { All (λ f. exits.denominator f ∣ unit) fractions.now }
    ensures { IfOk result (exits.AreAmounts unit fractions.now) }
{
    let mut amounts = Vec::new(alloc);
    for fraction in fractions {
        match amount(unit, fraction) {
            Some(amount) => amounts.push(amount)?,
            None => return Ok(None),
        }
    }
    Ok(Some(amounts))
}

/// The answer where no basic variable is below its bound.
pub fn found(
    alloc: Global,
    rows: &RowList,
    table: &Table,
    pivots: u32,
) -> Result<Solved, AllocError>
    requires few { length table.now.nonbasic ≤ 64 }
    requires lines { All (IsLine (length table.now.nonbasic)) table.now.lines }
    ensures { IfOk result (λ s. s ≡ exits.found_or_large pivots (exits.fractions rows.now table.now)) }
{
    let fractions = fractions(alloc, rows, table)?;
    let Some(unit) = common_denominator(&fractions) else {
        return Ok(Solved::Unsolved(Stop::Large(pivots)));
    };
    match amounts(alloc, unit, &fractions)? {
        Some(amounts) => Ok(Solved::Found(Found {
            stars: Items::of_vec(amounts),
            unit: unit as u32,
        })),
        None => Ok(Solved::Unsolved(Stop::Large(pivots))),
    }
}
