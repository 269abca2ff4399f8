//! The run.
ghost use Rattle.std.specs.Prelude.{◌≡◌, ◌+◌, ◌-◌, ◌<◌, ◌≤◌, ◌^◌, map, All, IfOk, Ok, Some};
ghost use Rattle.std.specs.List.{range_with_len};
ghost use Rattle.nomos_simplex.specs.mirror.Classes.{IsReached, IsKept, IsChosen, IsNextOf, ShowsFull, line_of_class, table_of_classes};
ghost use Rattle.nomos_simplex.specs.mirror.Steps.{IsSought};
ghost use Rattle.nomos_simplex.specs.PivotRun.{turn, answer_to};
ghost use Rattle.nomos_simplex.specs.Tables.{first_table as table_at_first};
ghost use Rattle.nomos_simplex.specs.declared.choosing.Choice.TheVariants as choice;
ghost use Rattle.nomos_simplex.specs.declared.solved.Solved.TheVariants as solved;
ghost use Rattle.nomos_simplex.specs.declared.table.Table.{Table as FullTable};
ghost use Rattle.nomos_forms.specs.Bounds.{IsFound, IsVerdict};
ghost use Rattle.nomos_forms.specs.Meeting.{MeetsRows};
ghost use Rattle.nomos_forms.specs.Refuting.{Refutes};
ghost use Rattle.nomos_forms.specs.declared.found.Found.{Found};
ghost use Rattle.nomos_forms.specs.declared.verdict.Verdict.{Verdict};

use crate::choosing::{Choice, choose, entering};
use crate::classes::{Class, Classed, Classes, classes_of_rows, classes_of_stars, coefs_of};
use crate::fractions::found;
use crate::keeping::keep;
use crate::refusing::verdict;
use crate::renaming::rename;
use crate::solved::{Solved, Stop};
use crate::table::{Table, TableLine};
use crate::turning::{Next, exchange_classed, step};
use nomos_forms::row_list::RowList;
use nomos_ir::items::Items;
use std::alloc::{AllocError, Global};

/// The pivots that a run may make.
pub const BUDGET: u32 = 2000;

/// The numbers of the stars.
fn first_nonbasic(alloc: Global, stars: u16) -> Result<Vec<usize>, AllocError>
    ensures { IfOk result (λ v. v.items ≡ range_with_len 1 stars) }
{
    let mut nonbasic = Vec::new(alloc);
    for before in 0..stars {
        nonbasic.push(usize::from(before) + 1)?;
    }
    Ok(nonbasic)
}

/// The numbers in the width of a table.
fn widened(alloc: Global, numbers: &[i64]) -> Result<Vec<i128>, AllocError>
    ensures { IfOk result (λ v. v.items ≡ numbers.now) }
{
    let mut wide = Vec::with_capacity(alloc, numbers.len())?;
    for i in 0..numbers.len() {
        wide.push(i128::from(numbers[i]))?;
    }
    Ok(wide)
}

/// The line of a class at first.
fn first_line(alloc: Global, rows: &RowList, class: Class) -> Result<TableLine, AllocError>
    requires { rows.now.stars < class.first }
    ensures { IfOk result (λ line. line ≡ line_of_class rows.now class) }
{
    let coefs = widened(alloc, coefs_of(rows, class.first))?;
    Ok(TableLine {
        times: 1,
        basic: class.first,
        coefs: Items::of_vec(coefs),
    })
}

/// The lines of classes at first.
fn first_lines(
    alloc: Global,
    rows: &RowList,
    classes: &[Class],
) -> Result<Vec<TableLine>, AllocError>
    requires { All (λ class. rows.now.stars < class.first) classes.now }
    ensures { IfOk result (λ v. v.items ≡ map (line_of_class rows.now) classes.now) }
{
    let mut lines = Vec::with_capacity(alloc, classes.len())?;
    for i in 0..classes.len() {
        lines.push(first_line(alloc, rows, classes[i])?)?;
    }
    Ok(lines)
}

/// The table at first, with one line for each class of rows: the stars are nonbasic, and the sums of the rows basic.
fn first_table(alloc: Global, rows: &RowList, classes: &[Class]) -> Result<Table, AllocError>
    requires { All (λ class. rows.now.stars < class.first) classes.now }
    ensures { IfOk result (λ table. table ≡ table_of_classes rows.now classes.now) }
{
    let nonbasic = first_nonbasic(alloc, rows.stars)?;
    let lines = first_lines(alloc, rows, classes)?;
    Ok(Table {
        nonbasic: Items::of_vec(nonbasic),
        lines: Items::of_vec(lines),
    })
}

/// What is kept of the table at first.
fn first(alloc: Global, rows: &RowList) -> Result<Classed, AllocError>
    ensures { IfOk result (λ made. ShowsFull rows.now made (table_at_first rows.now)) }
{
    let classes = classes_of_rows(alloc, rows)?;
    let table = first_table(alloc, rows, &classes)?;
    let stars = classes_of_stars(alloc, rows.stars)?;
    let classes = Classes {
        lines: Items::of_vec(classes),
        columns: Items::of_vec(stars),
    };
    let kept = keep(alloc, rows, table)?;
    let kept = rename(alloc, rows, kept, &classes)?;
    Ok(Classed { kept, classes })
}

/// Where the run comes to: what is kept of a table where no basic variable is below its bound, after so many pivots, or
/// another end.
#[derive(Drop)]
pub(crate) enum SolvingEnd {
    Stands(Classed, u32),
    Ends(Solved),
}

/// What comes at a table, after so many pivots, where the variable of the line at a place leaves.
fn line_leaves(
    alloc: Global,
    rows: &RowList,
    classed: Classed,
    place: usize,
    pivots: u32,
) -> Result<Next, AllocError>
    requires pivots { pivots ≤ 2000 }
    requires kept { IsKept rows.now classed }
    requires chosen { IsChosen rows.now classed.kept.table classed.classes (Some (choice.Line place)) }
    ensures { (full : FullTable) → IsReached rows.now full → ShowsFull rows.now classed full →
        IfOk result (IsNextOf rows.now (turn (2000 - pivots) pivots rows.now full)) }
{
    let table = &classed.kept.table;
    let line = &table.lines.as_slice()[place];
    let Some(column) = entering(table, line) else {
        return Ok(Next::Ends(Solved::Refuted(verdict(alloc, rows, table, line)?)));
    };
    if pivots >= BUDGET {
        return Ok(Next::Ends(Solved::Unsolved(Stop::Pivots)));
    }
    match exchange_classed(alloc, rows, classed, place, column)? {
        Some(after) => Ok(Next::Goes(after)),
        None => Ok(Next::Ends(Solved::Unsolved(Stop::Large(pivots + 1)))),
    }
}

/// What comes at a table, after so many pivots, where the variable leaves that follows the nonbasic one of a column in
/// its class.
fn column_leaves(
    alloc: Global,
    rows: &RowList,
    classed: Classed,
    column: usize,
    pivots: u32,
) -> Result<Next, AllocError>
    requires pivots { pivots ≤ 2000 }
    requires kept { IsKept rows.now classed }
    requires chosen { IsChosen rows.now classed.kept.table classed.classes (Some (choice.Column column)) }
    ensures { (full : FullTable) → IsReached rows.now full → ShowsFull rows.now classed full →
        IfOk result (IsNextOf rows.now (turn (2000 - pivots) pivots rows.now full)) }
{
    if pivots >= BUDGET {
        return Ok(Next::Ends(Solved::Unsolved(Stop::Pivots)));
    }
    Ok(Next::Goes(step(alloc, rows, classed, column)?))
}

/// What comes at a table, after so many pivots, where a variable leaves.
fn turn_at(
    alloc: Global,
    rows: &RowList,
    classed: Classed,
    choice: Choice,
    pivots: u32,
) -> Result<Next, AllocError>
    requires pivots { pivots ≤ 2000 }
    requires kept { IsKept rows.now classed }
    requires chosen { IsChosen rows.now classed.kept.table classed.classes (Some choice) }
    ensures { (full : FullTable) → IsReached rows.now full → ShowsFull rows.now classed full →
        IfOk result (IsNextOf rows.now (turn (2000 - pivots) pivots rows.now full)) }
{
    match choice {
        Choice::Line(place) => line_leaves(alloc, rows, classed, place, pivots),
        Choice::Column(column) => column_leaves(alloc, rows, classed, column, pivots),
    }
}

/// The run, up to where it ends.
pub(crate) fn seek(alloc: Global, rows: &RowList) -> Result<SolvingEnd, AllocError>
    ensures { IfOk result (IsSought rows.now) }
{
    let mut classed = first(alloc, rows)?;
    for pivots in 0..BUDGET {
        let Some(leaves) = choose(&classed) else {
            return Ok(SolvingEnd::Stands(classed, pivots));
        };
        match turn_at(alloc, rows, classed, leaves, pivots)? {
            Next::Ends(solved) => return Ok(SolvingEnd::Ends(solved)),
            Next::Goes(after) => classed = after,
        }
    }
    let Some(leaves) = choose(&classed) else {
        return Ok(SolvingEnd::Stands(classed, BUDGET));
    };
    match turn_at(alloc, rows, classed, leaves, BUDGET)? {
        Next::Ends(solved) => Ok(SolvingEnd::Ends(solved)),
        Next::Goes(_) => Ok(SolvingEnd::Ends(Solved::Unsolved(Stop::Pivots))),
    }
}

/// The run, up to its first exit.
fn run_all(alloc: Global, rows: &RowList) -> Result<Solved, AllocError>
    ensures { IfOk result (λ answer. answer ≡ answer_to rows.now) }
{
    match seek(alloc, rows)? {
        SolvingEnd::Stands(classed, pivots) => found(alloc, rows, &classed.kept.table, pivots),
        SolvingEnd::Ends(solved) => Ok(solved),
    }
}

/// Amounts that meet the rows, or a verdict that none do, or why the run stopped.
pub fn solve(alloc: Global, rows: &RowList) -> Result<Solved, AllocError>
    ensures answer { IfOk result (λ answer. answer ≡ answer_to rows.now) }

    // What is found meets the rows, what is refuted has no amounts, and both are such that the second checks take them.
    ensures found { (found : Found) → result ≡ Ok (solved.Found found) →
        IsFound rows.now.stars found × MeetsRows found.stars found.unit rows.now.rows }
    ensures unit { (found : Found) → result ≡ Ok (solved.Found found) → found.unit ≤ 2 ^ 31 }
    ensures refuted { (verdict : Verdict) → result ≡ Ok (solved.Refuted verdict) →
        IsVerdict verdict × Refutes rows.now.stars rows.now.rows verdict }
{
    run_all(alloc, rows)
}
