//! The choice of the variables that are exchanged.
ghost use Rattle.std.specs.Prelude.{◌≡◌, ◌<◌, nat_lt, length, pos, int_lt, slice_index, slice_index_or, map, IfSome};
ghost use Rattle.nomos_forms.specs.declared.row_list.RowList.{RowList};
ghost use Rattle.nomos_simplex.specs.LowestVariable as lowest;
ghost use Rattle.nomos_simplex.specs.LowestVariable.{lower_of, lowest_place};
ghost use Rattle.nomos_simplex.specs.mirror.Classes.{Fit, IsFollowed, IsChosen, class_at};
ghost use Rattle.nomos_simplex.specs.mirror.Keeping.{Shows};

use crate::classes::{Class, Classed};
use crate::keeping::KeptTable;
use crate::table::{Table, TableLine};

/// The place of the line with the lower basic variable.
fn lower_line(lines: &[TableLine], place: usize, best: Option<usize>) -> usize
    requires place { place < length lines.now }
    requires best { IfSome best (λ other. other < length lines.now) }
    ensures lower { result ≡ lower_of (λ i. slice_index (map (λ line. line.basic) lines.now) i) place best }
    ensures place { result < length lines.now }
{
    match best {
        Some(other) => {
            if lines[place].basic < lines[other].basic {
                place
            } else {
                other
            }
        }
        None => place,
    }
}

/// The place of the line of the lowest basic variable of those that are below their bounds.
fn leaving_of(over: &[i128], lines: &[TableLine]) -> Option<usize>
    requires { length over.now ≡ length lines.now }
    ensures choice { result ≡ lowest_place (λ i. int_lt (slice_index_or over.now i (pos 0)) (pos 0))
        (λ i. slice_index (map (λ line. line.basic) lines.now) i) (length lines.now) }
    ensures place { IfSome result (λ place. place < length lines.now) }
{
    let mut best = None;
    for place in 0..lines.len() {
        if over[place] < 0 {
            best = Some(lower_line(lines, place, best));
        }
    }
    best
}

/// The place of the line of the lowest basic variable below its bound.
pub fn leaving(kept: &KeptTable) -> Option<usize>
    requires { length kept.now.over ≡ length kept.now.table.lines }
    ensures choice { (rows : RowList) → Shows rows kept.now → result ≡ lowest.leaving rows kept.now.table }
    ensures place { IfSome result (λ place. place < length kept.now.table.lines) }
{
    leaving_of(kept.over.as_slice(), kept.table.lines.as_slice())
}

/// The column of the lower nonbasic variable.
pub fn lower_column(nonbasic: &[usize], column: usize, best: Option<usize>) -> usize
    requires column { column < length nonbasic.now }
    requires best { IfSome best (λ other. other < length nonbasic.now) }
    ensures lower { result ≡ lower_of (λ j. slice_index nonbasic.now j) column best }
    ensures column { result < length nonbasic.now }
{
    match best {
        Some(other) => {
            if nonbasic[column] < nonbasic[other] {
                column
            } else {
                other
            }
        }
        None => column,
    }
}

/// The column of the lowest nonbasic variable with a coefficient over 0 in the line.
pub fn entering(table: &Table, line: &TableLine) -> Option<usize>
    requires { length line.now.coefs ≡ length table.now.nonbasic }
    ensures choice { result ≡ lowest.entering table.now line.now }
    ensures column { IfSome result (λ column. column < length table.now.nonbasic) }
{
    let nonbasic = table.nonbasic.as_slice();
    let coefs = line.coefs.as_slice();
    let mut best = None;
    for column in 0..nonbasic.len() {
        if coefs[column] > 0 {
            best = Some(lower_column(nonbasic, column, best));
        }
    }
    best
}

/// The column with the lowest nonbasic variable of those that are not the last of their classes. The variable that
/// follows it has the same line as it at its bound, and is below its own.
fn followed(nonbasic: &[usize], classes: &[Class]) -> Option<usize>
    requires { length classes.now ≡ length nonbasic.now }
    ensures choice { result ≡ lowest_place (λ j. nat_lt (slice_index nonbasic.now j) (class_at classes.now j).last)
        (λ j. slice_index nonbasic.now j) (length nonbasic.now) }
    ensures column { IfSome result (λ column. column < length nonbasic.now) }
{
    let mut best = None;
    for column in 0..nonbasic.len() {
        if nonbasic[column] < classes[column].last {
            best = Some(lower_column(nonbasic, column, best));
        }
    }
    best
}

/// What leaves the basic variables: the variable of the line at a place, or the one that follows the nonbasic variable
/// of a column in its class.
#[derive(Clone, Copy)]
pub(crate) enum Choice {
    Line(usize),
    Column(usize),
}

/// The lowest variable below its bound.
pub(crate) fn choose(classed: &Classed) -> Option<Choice>
    requires over { length classed.now.kept.over ≡ length classed.now.kept.table.lines }
    requires columns { length classed.now.classes.columns ≡ length classed.now.kept.table.nonbasic }
    ensures { (rows : RowList) → Shows rows classed.now.kept →
        IsChosen rows classed.now.kept.table classed.now.classes result }
{
    let table = &classed.kept.table;
    let nonbasic = table.nonbasic.as_slice();
    let line = leaving(&classed.kept);
    let column = followed(nonbasic, classed.classes.columns.as_slice());
    match (line, column) {
        (Some(place), Some(column)) => {
            if table.lines.as_slice()[place].basic <= nonbasic[column] {
                Some(Choice::Line(place))
            } else {
                Some(Choice::Column(column))
            }
        }
        (Some(place), None) => Some(Choice::Line(place)),
        (None, Some(column)) => Some(Choice::Column(column)),
        (None, None) => None,
    }
}
