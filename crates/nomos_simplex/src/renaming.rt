//! Which variable of a class stands for it: the lowest that is below its bound, or where none is, the last.
ghost use Rattle.std.specs.Prelude.{◌≡◌, ℕ, List, ◌<◌, ◌≤◌, ◌^◌, pos, ◌<ℤ◌, ◌*ℤ◌, ◌-ℤ◌, length, map, All, IfOk};
ghost use Rattle.nomos_forms.specs.Bounds.{IsSmall};
ghost use Rattle.nomos_simplex.specs.LowestVariable as lowest;
ghost use Rattle.nomos_simplex.specs.Nearest.{line_at};
ghost use Rattle.nomos_simplex.specs.Sizes.{IsNumber, IsLine, IsTable};
ghost use Rattle.nomos_simplex.specs.Tables.{bound_of};
ghost use Rattle.nomos_simplex.specs.mirror.Classes.{IsIn, IsClass, Fit, IsLead, AreLeads, AreRenamed, Lead, class_at, named};
ghost use Rattle.nomos_simplex.specs.mirror.Keeping.{over_of as over_at, Shows};

use crate::bounds::{bound, bounds_of, over_of};
use crate::classes::{Class, Classes};
use crate::keeping::KeptTable;
use crate::table::{Table, TableLine};
use crate::table_lines::product;
use nomos_forms::row_list::RowList;
use nomos_ir::items::Items;
use std::alloc::{AllocError, Global};

/// How much higher the bound of a variable is than that of a line's own, times the number before it.
fn raised(rows: &RowList, line: &TableLine, variable: usize) -> i128
    requires { IsNumber line.now.times }
    ensures { result ≡ line.now.times *ℤ (bound_of rows.now variable -ℤ bound_of rows.now line.now.basic) }
{
    let more = bound(rows, variable) - bound(rows, line.basic);
    product(line.times, i128::from(more))
}

/// Whether a variable would be below its bound, if the line whose own variable is so far over its bound were its own.
fn is_below(rows: &RowList, line: &TableLine, over: i128, variable: usize) -> bool
    requires { IsNumber line.now.times }
    ensures { (nonbasic : List ℕ) → over ≡ over_at rows.now nonbasic line.now →
        result ≡ lowest.is_below rows.now nonbasic (named variable line.now) }
{
    over < raised(rows, line, variable)
}

/// The variable that stands for a class, whose line has one of its variables that is so far over its bound.
fn lead(rows: &RowList, class: Class, line: &TableLine, over: i128) -> usize
    requires times { IsNumber line.now.times }
    requires positive { pos 0 <ℤ line.now.times }
    requires class { IsClass rows.now class }
    ensures is_in { IsIn class result }
    ensures lead { (nonbasic : List ℕ) → over ≡ over_at rows.now nonbasic line.now →
        IsLead rows.now nonbasic class (named result line.now) }
{
    let mut first = class.first;
    let mut last = class.last;
    while first < last {
        let middle = first + (last - first) / 2;
        if is_below(rows, line, over, middle) {
            last = middle;
        } else {
            first = middle + 1;
        }
    }
    first
}

/// Gives a line the variable that stands for its class, and says how far that is over its bound. The bounds are those
/// of the nonbasic variables.
fn rename_line(
    rows: &RowList,
    bounds: &[i64],
    class: Class,
    line: &mut TableLine,
    over: i128,
) -> i128
    requires few { length bounds.now ≤ 64 }
    requires bounds { All IsSmall bounds.now }
    requires line { IsLine (length bounds.now) line.old }
    requires class { IsClass rows.now class }
    requires is_in { IsIn class line.old.basic }
    ensures named { line.new ≡ named line.new.basic line.old }
    ensures is_in { IsIn class line.new.basic }
    ensures over { (nonbasic : List ℕ) → bounds.now ≡ map (bound_of rows.now) nonbasic →
        over ≡ over_at rows.now nonbasic line.old → result ≡ over_at rows.now nonbasic line.new }
    ensures lead { (nonbasic : List ℕ) → over ≡ over_at rows.now nonbasic line.old →
        IsLead rows.now nonbasic class line.new }
{
    let lead = lead(rows, class, line, over);
    if lead == line.basic {
        return over;
    }
    line.basic = lead;
    over_of(rows, bounds, line)
}

/// Gives each line the variable that stands for its class.
fn rename_lines(
    rows: &RowList,
    bounds: &[i64],
    classes: &[Class],
    lines: &mut [TableLine],
    over: &mut [i128],
)
    requires few { length bounds.now ≤ 64 }
    requires bounds { All IsSmall bounds.now }
    requires long { length classes.now ≡ length lines.old }
    requires over { length over.old ≡ length lines.old }
    requires lines { All (IsLine (length bounds.now)) lines.old }
    requires classes { All (IsClass rows.now) classes.now }
    requires is_in { (i : ℕ) → i < length lines.old → IsIn (class_at classes.now i) (line_at lines.old i).basic }
    ensures renamed { AreRenamed classes.now lines.old lines.new }
    ensures over { (nonbasic : List ℕ) → bounds.now ≡ map (bound_of rows.now) nonbasic →
        over.old ≡ map (over_at rows.now nonbasic) lines.old → over.new ≡ map (over_at rows.now nonbasic) lines.new }
    ensures lead { (nonbasic : List ℕ) → bounds.now ≡ map (bound_of rows.now) nonbasic →
        over.old ≡ map (over_at rows.now nonbasic) lines.old → AreLeads rows.now nonbasic classes.now lines.new }
{
    for i in 0..lines.len() {
        over[i] = rename_line(rows, bounds, classes[i], &mut lines[i], over[i]);
    }
}

/// What is kept with, for each class, the variable that stands for it.
pub(crate) fn rename(
    alloc: Global,
    rows: &RowList,
    kept: KeptTable,
    classes: &Classes,
) -> Result<KeptTable, AllocError>
    requires shows { Shows rows.now kept }
    requires table { IsTable rows.now kept.table }
    requires fit { Fit rows.now kept.table classes.now }
    ensures nonbasic { IfOk result (λ made. made.table.nonbasic ≡ kept.table.nonbasic) }
    ensures renamed { IfOk result (λ made. AreRenamed classes.now.lines kept.table.lines made.table.lines) }
    ensures lead { IfOk result (λ made. Lead rows.now made.table classes.now) }
    ensures shows { IfOk result (Shows rows.now) }
{
    let KeptTable { table, over } = kept;
    let Table { nonbasic, lines } = table;
    let bounds = bounds_of(alloc, rows, nonbasic.as_slice())?;
    let mut lines = lines.into_vec();
    let mut over = over.into_vec();
    rename_lines(
        rows,
        &bounds,
        classes.lines.as_slice(),
        &mut lines,
        &mut over,
    );
    Ok(KeptTable {
        table: Table {
            nonbasic,
            lines: Items::of_vec(lines),
        },
        over: Items::of_vec(over),
    })
}
