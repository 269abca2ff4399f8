//! The exchange of a basic and a nonbasic variable.
ghost use Rattle.std.specs.Prelude.{◌≡◌, ◌<◌, ℕ, ◌≤◌, ◌++◌, List, [], ◌∷◌, pos, length, map, All, IfOk, IfSome, slice_get, Some};
ghost use Rattle.nomos_simplex.specs.Exchange.{coef_at, exchanged};
ghost use Rattle.nomos_forms.specs.declared.row_list.RowList.{RowList};
ghost use Rattle.nomos_simplex.specs.declared.table.TableLine.{TableLine};
ghost use Rattle.nomos_simplex.specs.Sizes.{IsNumber, HasNumbers, IsLine, IsLowest};
ghost use Rattle.nomos_simplex.specs.mirror.Keeping.{over_of as over_at, Shows, IsEntry, EntryShows, before, IsPut, IsKeptPut, entered, solved_line, IsMade, AreMade, IsKeptOrLarge};
ghost use Rattle.nomos_simplex.specs.mirror.Opposite.{oriented_of};

use crate::bounds::{bounds_of, over_of};
use crate::keeping::KeptTable;
use crate::sizes::{has_large_number, is_large, is_too_large};
use crate::table::{Table, TableLine};
use crate::table_lines::{cross, enter, next_places, opposite, opposite_line, product, solved};
use nomos_forms::row_list::RowList;
use nomos_ir::items::Items;
use std::alloc::{AllocError, Global};

/// What an exchange does to a line: a variable enters, whose column it is, by the line that is left, where its
/// coefficient is over 0; `next` has the places of those that are not 0. The nonbasic variables are those after the
/// exchange, and the bounds are theirs. `over` is how far the variable that is left was over its bound, times the
/// number before it, where that is not large.
#[derive(Drop)]
pub(crate) struct EnteredLine {
    pub(crate) column: usize,
    pub(crate) entering: usize,
    pub(crate) left: TableLine,
    pub(crate) next: Vec<usize>,
    pub(crate) over: Option<i128>,
    pub(crate) nonbasic: Vec<usize>,
    pub(crate) bounds: Vec<i64>,
}

/// What a line has once the entering variable is put in, before lowest terms: the number before its variable, and how
/// far that is over its bound.
#[derive(Clone, Copy)]
pub(crate) struct PutIn {
    pub(crate) times: i128,
    pub(crate) over: i128,
}

/// What a line will have, whose variable is so far over its bound, where that is not large.
fn put_of(entry: &EnteredLine, line: &TableLine, over: i128) -> Option<PutIn>
    requires entry { IsEntry entry.now }
    requires line { IsLine (length entry.now.left.coefs) line.now }
    ensures { (rows : RowList) → EntryShows rows entry.now → over ≡ over_at rows (before entry.now) line.now →
        IfSome result (IsPut rows entry.now line.now) }
{
    let left = entry.over?;
    if is_large(over) {
        return None;
    }
    let p = entry.left.coefs.as_slice()[entry.column];
    let g = line.coefs.as_slice()[entry.column];
    Some(PutIn {
        times: product(p, line.times),
        over: cross(p, over, g, left),
    })
}

/// How far the variable of a line is over its bound after the exchange. That is known where the line had no common
/// divisor, and otherwise summed up.
fn over_after(rows: &RowList, entry: &EnteredLine, line: &TableLine, put: Option<PutIn>) -> i128
    requires entry { IsEntry entry.now }
    requires shows { EntryShows rows.now entry.now }
    requires line { IsLine (length entry.now.left.coefs) line.now }
    requires put { IfSome put (IsKeptPut rows.now entry.now line.now) }
    ensures { result ≡ over_at rows.now entry.now.nonbasic.items line.now }
{
    if let Some(put) = put {
        if put.times == line.times {
            return put.over;
        }
    }
    over_of(rows, &entry.bounds, line)
}

/// Puts the entering variable into a line, whose own variable was so far over its bound, and says how far it then is,
/// unless a number is then too large. A line without the entering variable stays as it is.
fn enter_kept(
    alloc: Global,
    rows: &RowList,
    entry: &EnteredLine,
    line: &mut TableLine,
    over: i128,
) -> Option<i128>
    requires entry { IsEntry entry.now }
    requires shows { EntryShows rows.now entry.now }
    requires line { IsLine (length entry.now.left.coefs) line.old }
    requires lowest { IsLowest line.old }
    requires over { over ≡ over_at rows.now (before entry.now) line.old }
    ensures { IsMade rows.now entry.now (entered entry.now line.old) line.new result }
{
    if line.coefs.as_slice()[entry.column] == 0 {
        return Some(over);
    }
    let put = put_of(entry, line, over);
    let small = enter(alloc, entry.column, &entry.left, &entry.next, line);
    if is_too_large(small, line) {
        return None;
    }
    Some(over_after(rows, entry, line, put))
}

/// Puts the entering variable into lines, and says whether a number is then too large.
fn enter_all(
    alloc: Global,
    rows: &RowList,
    entry: &EnteredLine,
    lines: &mut [TableLine],
    over: &mut [i128],
) -> bool
    requires entry { IsEntry entry.now }
    requires shows { EntryShows rows.now entry.now }
    requires lines { All (IsLine (length entry.now.left.coefs)) lines.old }
    requires lowest { All IsLowest lines.old }
    requires over { over.old ≡ map (over_at rows.now (before entry.now)) lines.old }
    ensures { AreMade rows.now entry.now (map (entered entry.now) lines.old) lines.new over.new result }
{
    for i in 0..lines.len() {
        match enter_kept(alloc, rows, entry, &mut lines[i], over[i]) {
            Some(next) => over[i] = next,
            None => return true,
        }
    }
    false
}

/// A line, or its opposite where the coefficient in a column is below 0.
fn oriented(alloc: Global, column: usize, line: TableLine) -> Result<TableLine, AllocError>
    requires column { column < length line.coefs }
    requires line { HasNumbers line }
    ensures { IfOk result (λ made. made ≡ oriented_of column line) }
{
    if line.coefs.as_slice()[column] < 0 {
        return opposite_line(alloc, &line);
    }
    Ok(line)
}

/// How far the variable of a line is over its bound, or of its opposite where the coefficient in a column is below 0,
/// where that is not large.
fn oriented_over(column: usize, line: &TableLine, over: i128) -> Option<i128>
    requires { column < length line.now.coefs }
    ensures small { IfSome result IsNumber }
    ensures value { (rows : RowList) (nonbasic : List ℕ) → over ≡ over_at rows nonbasic line.now →
        IfSome result (λ z. z ≡ over_at rows nonbasic (oriented_of column line.now)) }
{
    if is_large(over) {
        return None;
    }
    if line.coefs.as_slice()[column] < 0 {
        Some(opposite(over))
    } else {
        Some(over)
    }
}

/// Puts the entering variable into lines, puts the line that is left behind them, solved for it, and says whether a
/// number is then too large.
fn exchange_lines(
    alloc: Global,
    rows: &RowList,
    entry: &EnteredLine,
    lines: &mut Vec<TableLine>,
    over: &mut Vec<i128>,
) -> Result<bool, AllocError>
    requires entry { IsEntry entry.now }
    requires shows { EntryShows rows.now entry.now }
    requires lines { All (IsLine (length entry.now.left.coefs)) lines.old.items }
    requires lowest { All IsLowest lines.old.items }
    requires over { over.old.items ≡ map (over_at rows.now (before entry.now)) lines.old.items }
    ensures { IfOk result (AreMade rows.now entry.now
        (map (entered entry.now) lines.old.items ++ solved_line entry.now ∷ []) lines.new.items over.new.items) }
{
    let large = enter_all(alloc, rows, entry, lines, over);
    if large {
        return Ok(true);
    }
    let line = solved(alloc, entry.column, entry.entering, &entry.left)?;
    if has_large_number(&line) {
        return Ok(true);
    }
    over.push(over_of(rows, &entry.bounds, &line))?;
    lines.push(line)?;
    Ok(false)
}

/// Exchanges the basic variable of the line at a place with the nonbasic variable of a column, unless a number is then
/// too large.
pub(crate) fn exchange(
    alloc: Global,
    rows: &RowList,
    kept: KeptTable,
    place: usize,
    column: usize,
) -> Result<Option<KeptTable>, AllocError>
    requires shows { Shows rows.now kept }
    requires few { length kept.table.nonbasic ≤ 64 }
    requires place { place < length kept.table.lines }
    requires column { column < length kept.table.nonbasic }
    requires lines { All (IsLine (length kept.table.nonbasic)) kept.table.lines }
    requires lowest { All IsLowest kept.table.lines }
    requires not_zero { (left : TableLine) → slice_get kept.table.lines place ≡ Some left →
        ¬ (coef_at column left ≡ pos 0) }
    ensures { (left : TableLine) → slice_get kept.table.lines place ≡ Some left →
        IfOk result (IsKeptOrLarge rows.now (exchanged place column left kept.table)) }
{
    let KeptTable { table, over } = kept;
    let Table { nonbasic, lines } = table;
    let mut nonbasic = nonbasic.into_vec();
    let mut lines = lines.into_vec();
    let mut over = over.into_vec();
    let own = lines.remove(place);
    let own_over = oriented_over(column, &own, over.remove(place));
    let left = oriented(alloc, column, own)?;
    let next = next_places(alloc, left.coefs.as_slice())?;
    let entering = nonbasic[column];
    nonbasic[column] = left.basic;
    let bounds = bounds_of(alloc, rows, &nonbasic)?;
    let entry = EnteredLine {
        column,
        entering,
        left,
        next,
        over: own_over,
        nonbasic,
        bounds,
    };
    let large = exchange_lines(alloc, rows, &entry, &mut lines, &mut over)?;
    if large {
        return Ok(None);
    }
    Ok(Some(KeptTable {
        table: Table {
            nonbasic: Items::of_vec(entry.nonbasic),
            lines: Items::of_vec(lines),
        },
        over: Items::of_vec(over),
    }))
}
