//! The line of a goal over the nonbasic variables of a table.
ghost use Rattle.std.specs.Prelude.{◌≡◌, ◌+◌, ◌<◌, ◌≤◌, ◌==◌, ◌+ℤ◌, ◌*ℤ◌, ◌<ℤ◌, pos, length, map, replicate, All, IfOk, Some, None, if◌then◌else◌};
ghost use Rattle.nomos_forms.specs.Bounds.{IsSmall, IsForm};
ghost use Rattle.nomos_simplex.specs.Divisors.{in_lowest_terms};
ghost use Rattle.nomos_simplex.specs.Exchange.{is_large_line};
ghost use Rattle.nomos_simplex.specs.GoalLine as goals;
ghost use Rattle.nomos_simplex.specs.GoalLine.{with_added, combined, if_small};
ghost use Rattle.nomos_simplex.specs.Sizes.{IsNumber, IsLine, IsLowest, IsTable};
ghost use Rattle.nomos_simplex.specs.mirror.Steps.{IsSumOrHuge, AreSums};

use crate::bounds::add_bounded;
use crate::divisors::{greatest_divisor, lowest_terms};
use crate::fractions::line_of;
use crate::sizes::has_large_number;
use crate::table::{Table, TableLine};
use crate::table_lines::product;
use nomos_forms::form::Form;
use nomos_ir::items::Items;
use std::alloc::{AllocError, Global};

/// A nonbasic variable, as a line over itself.
fn itself(alloc: Global, nonbasic: &[usize], variable: usize) -> Result<TableLine, AllocError>
    ensures { IfOk result (λ line. line ≡ goals.itself nonbasic.now variable) }
{
    let mut coefs = Vec::with_capacity(alloc, nonbasic.len())?;
    for other in nonbasic {
        coefs.push(if *other == variable { 1 } else { 0 })?;
    }
    Ok(TableLine {
        times: 1,
        basic: variable,
        coefs: Items::of_vec(coefs),
    })
}

/// `p * a + q * c`, if that is not far too large.
fn sum_of_products(p: i128, a: i128, q: i128, c: i128) -> Option<i128>
    requires p { IsNumber p }
    requires a { IsNumber a }
    ensures { IsSumOrHuge (p *ℤ a +ℤ q *ℤ c) result }
{
    let first = product(p, a);
    q.checked_mul(c)?.checked_add(first)
}

/// `p * a + q * c` for each of two lists of numbers, if none is far too large.
fn combine(
    alloc: Global,
    factors: (i128, i128),
    of: &[i128],
    by: &[i128],
) -> Result<Option<Vec<i128>>, AllocError>
    requires p { IsNumber factors.0 }
    requires of { All IsNumber of.now }
    requires width { length of.now ≡ length by.now }
    ensures { IfOk result (AreSums (combined factors.0 factors.1 of.now by.now)) }
{
    let mut sums = Vec::with_capacity(alloc, of.len())?;
    for i in 0..of.len() {
        match sum_of_products(factors.0, of[i], factors.1, by[i]) {
            Some(sum) => sums.push(sum)?,
            None => return Ok(None),
        }
    }
    Ok(Some(sums))
}

/// A number times a coefficient of a goal.
fn scaled(number: i128, count: i64) -> i128
    requires number { IsNumber number }
    requires count { IsSmall count }
    ensures { result ≡ number *ℤ count }
{
    add_bounded(0, number, count)
}

/// How often one number over 0 goes into the least common multiple of it and another.
fn times_to_common(a: i128, b: i128) -> i128
    requires over { pos 0 <ℤ a }
    requires b { IsNumber b }
    ensures value { result ≡ goals.times_to_common a b }
    ensures small { IsNumber result }
{
    let size = b.unsigned_abs();
    (size / greatest_divisor(a.unsigned_abs(), size)) as i128
}

/// A line with so much of the line of a star added, in lowest terms, if no number is too large.
fn added(
    alloc: Global,
    count: i64,
    star: &TableLine,
    line: &TableLine,
) -> Result<Option<TableLine>, AllocError>
    requires count { IsSmall count }
    requires star { IsLine (length line.now.coefs) star.now }
    requires lowest_star { IsLowest star.now }
    requires line { IsLine (length line.now.coefs) line.now }
    requires lowest_line { IsLowest line.now }
    ensures { IfOk result (λ made. made ≡
        if_small (in_lowest_terms (with_added count star.now line.now)) (λ l. Some l)) }
{
    let p = times_to_common(line.times, star.times);
    let q = times_to_common(star.times, line.times);
    let factors = (p, scaled(q, count));
    let Some(coefs) = combine(alloc, factors, line.coefs.as_slice(), star.coefs.as_slice())? else {
        return Ok(None);
    };
    let made = lowest_terms(TableLine {
        times: product(p, line.times),
        basic: line.basic,
        coefs: Items::of_vec(coefs),
    });
    if has_large_number(&made) {
        return Ok(None);
    }
    Ok(Some(made))
}

/// The goal's line with so much of a star added, if no number is too large.
fn with_star(
    alloc: Global,
    table: &Table,
    star: usize,
    count: i64,
    line: &TableLine,
) -> Result<Option<TableLine>, AllocError>
    requires lines { All (IsLine (length table.now.nonbasic)) table.now.lines }
    requires lowest { All IsLowest table.now.lines }
    requires count { IsSmall count }
    requires line { IsLine (length table.now.nonbasic) line.now }
    requires lowest_line { IsLowest line.now }
    ensures { IfOk result (λ made. made ≡
        if_small (in_lowest_terms (with_added count (goals.line_of table.now star) line.now)) (λ l. Some l)) }
{
    match line_of(table.lines.as_slice(), star) {
        Some(own) => added(alloc, count, own, line),
        None => added(
            alloc,
            count,
            &itself(alloc, table.nonbasic.as_slice(), star)?,
            line,
        ),
    }
}

/// The goal's line with nothing in it.
fn no_goal(alloc: Global, table: &Table) -> Result<TableLine, AllocError>
    ensures { IfOk result (λ line. line ≡ goals.no_goal table.now) }
{
    let coefs = vec![in alloc; 0; table.nonbasic.len()]?;
    Ok(TableLine {
        times: 1,
        basic: 0,
        coefs: Items::of_vec(coefs),
    })
}

/// The goal's line over the nonbasic variables, if no number is too large on the way.
pub fn goal_line(alloc: Global, table: &Table, goal: &Form) -> Result<Option<TableLine>, AllocError>
    requires lines { All (IsLine (length table.now.nonbasic)) table.now.lines }
    requires lowest { All IsLowest table.now.lines }
    requires goal { All IsSmall goal.now.coefs }
    ensures { IfOk result (λ made. made ≡ goals.goal_line table.now goal.now) }
{
    let mut line = no_goal(alloc, table)?;
    let coefs = goal.coefs.as_slice();
    for before in 0..coefs.len() {
        match with_star(alloc, table, before + 1, coefs[before], &line)? {
            Some(next) => line = next,
            None => return Ok(None),
        }
    }
    Ok(Some(line))
}
