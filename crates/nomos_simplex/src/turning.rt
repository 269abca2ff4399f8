//! Exchanges in a table with one line for each class.
ghost use Rattle.std.specs.Prelude.{◌≡◌, ℕ, ◌+◌, ◌<◌, ◌≤◌, ◌^◌, pos, ◌+ℤ◌, ◌*ℤ◌, unsigned_abs, length, All, IfOk, Some, slice_get, slice_index_or};
ghost use Rattle.nomos_simplex.specs.Exchange.{coef_at, exchanged};
ghost use Rattle.nomos_simplex.specs.GoalLine.{line_of};
ghost use Rattle.nomos_simplex.specs.Nearest.{line_at};
ghost use Rattle.nomos_simplex.specs.Sizes.{IsNumber, HasNumbers};
ghost use Rattle.nomos_simplex.specs.declared.table.TableLine.{TableLine};
ghost use Rattle.nomos_simplex.specs.declared.table.Table.{Table as FullTable};
ghost use Rattle.nomos_simplex.specs.mirror.Classes.{IsReached, IsKept, ShowsFull, IsClassedOrLarge, class_at, column_at, named};

use crate::bounds::bound;
use crate::classes::{Classed, exchange_classes};
use crate::exchanging::exchange;
use crate::keeping::KeptTable;
use crate::renaming::rename;
use crate::solved::Solved;
use crate::table::{Table, TableLine};
use crate::table_lines::product;
use nomos_forms::row_list::RowList;
use nomos_ir::items::Items;
use std::alloc::{AllocError, Global};

/// The run ends, or goes on at what is kept of a table.
#[derive(Drop)]
pub(crate) enum Next {
    Ends(Solved),
    Goes(Classed),
}

/// Exchanges the basic variable of the line at a place with the nonbasic variable of a column, unless a number is then
/// too large. The others of its class then have the column's line, and those of the other class the line that is
/// solved.
pub(crate) fn exchange_classed(
    alloc: Global,
    rows: &RowList,
    classed: Classed,
    place: usize,
    column: usize,
) -> Result<Option<Classed>, AllocError>
    requires kept { IsKept rows.now classed }
    requires place { place < length classed.kept.table.lines }
    requires column { column < length classed.kept.table.nonbasic }
    requires not_zero { (left : TableLine) → slice_get classed.kept.table.lines place ≡ Some left →
        ¬ (coef_at column left ≡ pos 0) }
    ensures { (full : FullTable) (k : ℕ) (left : TableLine) → IsReached rows.now full → ShowsFull rows.now classed full
        →
        slice_get full.lines k ≡ Some left → slice_get classed.kept.table.lines place ≡ Some left →
        IfOk result (IsClassedOrLarge rows.now (exchanged k column left full)) }
{
    let Classed { kept, classes } = classed;
    let Some(kept) = exchange(alloc, rows, kept, place, column)? else {
        return Ok(None);
    };
    let classes = exchange_classes(classes, place, column)?;
    let kept = rename(alloc, rows, kept, &classes)?;
    Ok(Some(Classed { kept, classes }))
}

/// How far a variable is over its bound, times the number before it, once the bound of a column's variable is so much
/// higher.
fn risen(over: i128, coef: i128, rise: i64) -> i128
    requires over { unsigned_abs over ≤ 2 ^ 114 }
    requires coef { IsNumber coef }
    requires rise { unsigned_abs rise < 2 ^ 46 }
    ensures { result ≡ over +ℤ coef *ℤ rise }
{
    over + product(coef, i128::from(rise))
}

/// How far the variables of lines are over their bounds once the bound of a column's variable is so much higher.
fn raise(lines: &[TableLine], column: usize, rise: i64, over: &mut [i128])
    requires long { length over.old ≡ length lines.now }
    requires column { All (λ line. column < length line.coefs) lines.now }
    requires lines { All HasNumbers lines.now }
    requires over { All (λ z. unsigned_abs z ≤ 2 ^ 114) over.old }
    requires rise { unsigned_abs rise < 2 ^ 46 }
    ensures long { length over.new ≡ length over.old }
    ensures value { (i : ℕ) → i < length over.old →
        slice_index_or over.new i (pos 0) ≡ slice_index_or over.old i (pos 0)
        +ℤ coef_at column (line_at lines.now i) *ℤ rise }
{
    for i in 0..over.len() {
        over[i] = risen(over[i], lines[i].coefs.as_slice()[column], rise);
    }
}

/// Exchanges the variable that follows the nonbasic one of a column in its class with that one. Both have the same
/// line, so nothing else changes.
pub(crate) fn step(
    alloc: Global,
    rows: &RowList,
    classed: Classed,
    column: usize,
) -> Result<Classed, AllocError>
    requires kept { IsKept rows.now classed }
    requires column { column < length classed.kept.table.nonbasic }
    requires follows { column_at classed.kept.table column < (class_at classed.classes.columns column).last }
    ensures { (full : FullTable) (k : ℕ) (left : TableLine) → IsReached rows.now full → ShowsFull rows.now classed full
        →
        slice_get full.lines k ≡ Some left → left ≡ named (column_at classed.kept.table column + 1) (line_of full
        (column_at classed.kept.table column)) →
        IfOk result (λ made. ShowsFull rows.now made (exchanged k column left full)) }
{
    let Classed { kept, classes } = classed;
    let KeptTable { table, over } = kept;
    let Table { nonbasic, lines } = table;
    let mut nonbasic = nonbasic.into_vec();
    let mut over = over.into_vec();
    let before = nonbasic[column];
    let next = classes.columns.as_slice()[column].next(before);
    nonbasic[column] = next;
    let rise = bound(rows, next) - bound(rows, before);
    raise(lines.as_slice(), column, rise, &mut over);
    let kept = KeptTable {
        table: Table {
            nonbasic: Items::of_vec(nonbasic),
            lines,
        },
        over: Items::of_vec(over),
    };
    let kept = rename(alloc, rows, kept, &classes)?;
    Ok(Classed { kept, classes })
}
