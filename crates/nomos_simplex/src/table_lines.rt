//! Lines of a table: solved for another variable, and with a solved variable put in.
ghost use Rattle.std.specs.Prelude.{◌≡◌, ◌<◌, ◌≤◌, ◌^◌, ◌*ℤ◌, ◌-ℤ◌, neg_ℤ, pos, ◌<ℤ◌, ◌≢◌, unsigned_abs, length, map, All, IfOk, OnOk, IsTrue, ◌↔◌};
ghost use Rattle.nomos_simplex.specs.Divisors.{in_lowest_terms};
ghost use Rattle.nomos_simplex.specs.Exchange.{coef_at, solved_for, eliminated, put_into};
ghost use Rattle.nomos_simplex.specs.Sizes.{IsNumber, HasNumbers, IsLine, IsLowest};
ghost use Rattle.nomos_simplex.specs.mirror.Opposite.{opposite_of};
ghost use Rattle.nomos_simplex.specs.mirror.SkipsZeros.{SkipsZeros};

use crate::divisors::lowest_terms;
use crate::sizes::is_small;
use crate::table::TableLine;
use nomos_ir::items::Items;
use std::alloc::{AllocError, Global};
use std::mem;

/// The product of two numbers.
pub fn product(a: i128, b: i128) -> i128
    requires a { IsNumber a }
    requires b { IsNumber b }
    ensures value { result ≡ a *ℤ b }
    ensures size { unsigned_abs result < 2 ^ 124 }
{
    i128::from(a as i64) * i128::from(b as i64)
}

/// `p * a - g * c`.
pub fn cross(p: i128, a: i128, g: i128, c: i128) -> i128
    requires p { IsNumber p }
    requires a { IsNumber a }
    requires g { IsNumber g }
    requires c { IsNumber c }
    ensures { result ≡ p *ℤ a -ℤ g *ℤ c }
{
    let plus = product(p, a);
    let minus = product(g, c);
    plus - minus
}

/// Whether a number is small too, beside others.
fn still_small(small: bool, number: i128) -> bool
    ensures { IsTrue result ↔ (IsTrue small × IsNumber number) }
{
    small && is_small(number)
}

/// For each place up to the end the next one at which a number is not 0, or the end.
pub fn next_places(alloc: Global, numbers: &[i128]) -> Result<Vec<usize>, AllocError>
    ensures { IfOk result (λ next. SkipsZeros next.items numbers.now) }
{
    let count = numbers.len();
    let mut next = vec![in alloc; count; count + 1]?;
    for done in 0..count {
        let place = count - 1 - done;
        next[place] = if numbers[place] == 0 {
            next[place + 1]
        } else {
            place
        };
    }
    Ok(next)
}

/// `a - g * c` for each of two lists of numbers, in place of the first, and whether all of these are small. Where `c`
/// is 0 that is `a`, so it goes from each `c` that is not 0 to the next.
fn subtract(g: i128, of: &mut [i128], by: &[i128], next: &[usize]) -> bool
    requires g { IsNumber g }
    requires of { All IsNumber of.old }
    requires by { All IsNumber by.now }
    requires width { length of.old ≡ length by.now }
    requires next { SkipsZeros next.now by.now }
    ensures value { of.new ≡ eliminated (pos 1) g of.old by.now }
    ensures small { IsTrue result → All IsNumber of.new }
{
    let mut small = true;
    let mut i = next[0];
    while i < of.len() {
        let number = cross(1, of[i], g, by[i]);
        small = still_small(small, number);
        of[i] = number;
        i = next[i + 1];
    }
    small
}

/// `p * a - g * c` for each of two lists of numbers, in place of the first, and whether all of these are small.
fn eliminate(p: i128, g: i128, of: &mut [i128], by: &[i128], next: &[usize]) -> bool
    requires p { IsNumber p }
    requires g { IsNumber g }
    requires of { All IsNumber of.old }
    requires by { All IsNumber by.now }
    requires width { length of.old ≡ length by.now }
    requires next { SkipsZeros next.now by.now }
    ensures value { of.new ≡ eliminated p g of.old by.now }
    ensures small { IsTrue result → All IsNumber of.new }
{
    if p == 1 {
        return subtract(g, of, by, next);
    }
    let mut small = true;
    for i in 0..of.len() {
        let number = cross(p, of[i], g, by[i]);
        small = still_small(small, number);
        of[i] = number;
    }
    small
}

/// A line multiplied by the coefficient of the entering variable in the line that is left, with that variable put in.
/// Beside it stands whether its numbers are small.
fn with_entered(
    column: usize,
    left: &TableLine,
    next: &[usize],
    line: TableLine,
) -> (TableLine, bool)
    requires column { column < length left.now.coefs }
    requires left { HasNumbers left.now }
    requires next { SkipsZeros next.now left.now.coefs }
    requires line { IsLine (length left.now.coefs) line }
    ensures made { result.0 ≡ put_into column left.now line }
    ensures small { IsTrue result.1 → HasNumbers result.0 }
{
    let TableLine {
        times,
        basic,
        coefs,
    } = line;
    let mut coefs = coefs.into_vec();
    let by = left.coefs.as_slice();
    let p = by[column];
    let g = coefs[column];
    let all = eliminate(p, g, &mut coefs, by, next);
    let entering = product(g, left.times);
    let times = product(p, times);
    let small = still_small(still_small(all, entering), times);
    coefs[column] = entering;
    let made = TableLine {
        times,
        basic,
        coefs: Items::of_vec(coefs),
    };
    (made, small)
}

/// A line without numbers, which stands where one is taken out for a while.
fn no_line(alloc: Global) -> TableLine {
    TableLine {
        times: 0,
        basic: 0,
        coefs: Items::of_vec(Vec::new(alloc)),
    }
}

/// Puts the entering variable into a line, in the line's own memory, by the line that is left and the places of its
/// numbers that are not 0. A line without the variable stays as it is. The answer says where the line is known to have
/// small numbers, with no look at those that were not changed.
pub fn enter(
    alloc: Global,
    column: usize,
    left: &TableLine,
    next: &[usize],
    line: &mut TableLine,
) -> bool
    requires column { column < length left.now.coefs }
    requires left { HasNumbers left.now }
    requires over_zero { pos 0 <ℤ coef_at column left.now }
    requires next { SkipsZeros next.now left.now.coefs }
    requires line { IsLine (length left.now.coefs) line.old }
    requires lowest { IsLowest line.old }
    ensures value { line.new ≡ in_lowest_terms (put_into column left.now line.old) }
    ensures small { IsTrue result → HasNumbers line.new }
{
    if line.coefs.as_slice()[column] == 0 {
        return true;
    }
    let own = mem::replace(line, no_line(alloc));
    let (made, small) = with_entered(column, left, next, own);
    *line = lowest_terms(made);
    small
}

/// The number with its sign changed.
pub fn opposite(number: i128) -> i128
    requires { IsNumber number }
    ensures { result ≡ neg_ℤ number }
{
    -number
}

/// The numbers with their signs changed.
pub fn negated(alloc: Global, numbers: &[i128]) -> Result<Vec<i128>, AllocError>
    requires { All IsNumber numbers.now }
    ensures { IfOk result (λ v. v.items ≡ map neg_ℤ numbers.now) }
{
    let mut negated = Vec::with_capacity(alloc, numbers.len())?;
    for i in 0..numbers.len() {
        let number = opposite(numbers[i]);
        negated.push(number)?;
    }
    Ok(negated)
}

/// A line with the signs of all its numbers changed.
pub fn opposite_line(alloc: Global, line: &TableLine) -> Result<TableLine, AllocError>
    requires { HasNumbers line.now }
    ensures { IfOk result (λ made. made ≡ opposite_of line.now) }
{
    let coefs = negated(alloc, line.coefs.as_slice())?;
    Ok(TableLine {
        times: opposite(line.times),
        basic: line.basic,
        coefs: Items::of_vec(coefs),
    })
}

/// The line that is left, solved for the entering variable, in lowest terms.
pub fn solved(
    alloc: Global,
    column: usize,
    entering: usize,
    left: &TableLine,
) -> Result<TableLine, AllocError>
    requires column { column < length left.now.coefs }
    requires left { HasNumbers left.now }
    requires over_zero { pos 0 <ℤ coef_at column left.now }
    ensures { IfOk result (λ made. made ≡ in_lowest_terms (solved_for column entering left.now)) }
{
    let numbers = left.coefs.as_slice();
    let mut coefs = negated(alloc, numbers)?;
    coefs[column] = left.times;
    Ok(lowest_terms(TableLine {
        times: numbers[column],
        basic: entering,
        coefs: Items::of_vec(coefs),
    }))
}
