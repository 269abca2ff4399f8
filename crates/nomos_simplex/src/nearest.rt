//! The choice of the variables whose exchange lowers a goal.
ghost use Rattle.std.specs.Prelude.{◌≡◌, ◌<◌, length, IfSome};
ghost use Rattle.nomos_simplex.specs.LowestVariable.{former_of};
ghost use Rattle.nomos_simplex.specs.Nearest as nearest;
ghost use Rattle.nomos_simplex.specs.Nearest.{line_at};
ghost use Rattle.nomos_simplex.specs.mirror.Keeping.{Shows};
ghost use Rattle.nomos_simplex.specs.mirror.Steps.{IsReach, MayLeave, KeptFits};
ghost use Rattle.nomos_forms.specs.declared.row_list.RowList.{RowList};

use crate::choosing::lower_column;
use crate::keeping::KeptTable;
use crate::table::{Table, TableLine};

/// The column of the lowest nonbasic variable with a coefficient below 0 in the goal's line.
pub fn lowering(table: &Table, line: &TableLine) -> Option<usize>
    requires { length line.now.coefs ≡ length table.now.nonbasic }
    ensures choice { result ≡ nearest.lowering table.now line.now }
    ensures column { IfSome result (λ column. column < length table.now.nonbasic) }
{
    let nonbasic = table.nonbasic.as_slice();
    let coefs = line.coefs.as_slice();
    let mut best = None;
    for column in 0..nonbasic.len() {
        if coefs[column] < 0 {
            best = Some(lower_column(nonbasic, column, best));
        }
    }
    best
}

/// A distance over the size of a coefficient.
type Reach = (u128, u128);

/// How far the variable of a column may rise before the variable of the line at a place comes to its bound.
fn reach(kept: &KeptTable, column: usize, place: usize) -> Reach
    requires table { KeptFits kept.now }
    requires column { column < length kept.now.table.nonbasic }
    requires place { MayLeave kept.now.table column place }
    ensures value { (rows : RowList) → Shows rows kept.now →
        result ≡ nearest.reach rows kept.now.table.nonbasic column (line_at kept.now.table.lines place) }
    ensures size { IsReach result }
{
    let over = kept.over.as_slice()[place];
    let coef = kept.table.lines.as_slice()[place].coefs.as_slice()[column];
    (over.unsigned_abs(), coef.unsigned_abs())
}

/// Whether one fraction is less than another. Products of the whole fractions would be too wide, so whole parts are
/// compared first, and then what is left.
fn is_less(f: Reach, g: Reach) -> bool
    requires f { IsReach f }
    requires g { IsReach g }
    ensures { result ≡ nearest.is_less f g }
{
    let whole = f.0 / f.1;
    let other = g.0 / g.1;
    if whole != other {
        return whole < other;
    }
    f.0 % f.1 * g.1 < g.0 % g.1 * f.1
}

/// Whether the line at a place comes before that at another.
fn is_nearer(kept: &KeptTable, column: usize, place: usize, other: usize) -> bool
    requires table { KeptFits kept.now }
    requires column { column < length kept.now.table.nonbasic }
    requires place { MayLeave kept.now.table column place }
    requires other { MayLeave kept.now.table column other }
    ensures { (rows : RowList) → Shows rows kept.now → result ≡ nearest.is_nearer rows kept.now.table.nonbasic column
        (line_at kept.now.table.lines place) (line_at kept.now.table.lines other) }
{
    let lines = kept.table.lines.as_slice();
    let first = reach(kept, column, place);
    let second = reach(kept, column, other);
    if is_less(first, second) {
        return true;
    }
    if is_less(second, first) {
        return false;
    }
    lines[place].basic < lines[other].basic
}

/// The one of two places that comes first.
fn nearer_line(kept: &KeptTable, column: usize, place: usize, best: Option<usize>) -> usize
    requires table { KeptFits kept.now }
    requires column { column < length kept.now.table.nonbasic }
    requires place { MayLeave kept.now.table column place }
    requires best { IfSome best (MayLeave kept.now.table column) }
    ensures nearer { (rows : RowList) → Shows rows kept.now → result ≡
        former_of (λ i k. nearest.is_nearer rows kept.now.table.nonbasic column
        (line_at kept.now.table.lines i) (line_at kept.now.table.lines k)) place best }
    ensures place { MayLeave kept.now.table column result }
{
    match best {
        Some(other) => {
            if is_nearer(kept, column, place, other) {
                place
            } else {
                other
            }
        }
        None => place,
    }
}

/// The place of the line whose variable leaves: of those with a coefficient below 0 in a column, the one that comes to
/// its bound first as the variable of the column rises, and of equal ones the lowest.
pub(crate) fn nearest(kept: &KeptTable, column: usize) -> Option<usize>
    requires table { KeptFits kept.now }
    requires column { column < length kept.now.table.nonbasic }
    ensures choice { (rows : RowList) → Shows rows kept.now →
        result ≡ nearest.nearest rows kept.now.table column }
    ensures place { IfSome result (MayLeave kept.now.table column) }
{
    let lines = kept.table.lines.as_slice();
    let mut best = None;
    for place in 0..lines.len() {
        if lines[place].coefs.as_slice()[column] < 0 {
            best = Some(nearer_line(kept, column, place, best));
        }
    }
    best
}
