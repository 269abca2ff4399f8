//! Classes of variables whose lines are equal at all times, so that one line stands for all of a class.
ghost use Rattle.std.specs.Prelude.{◌≡◌, ℕ, ◌+◌, ◌<◌, ◌≤◌, ◌^◌, length, map, All, IfOk, IsTrue, ◌↔◌};
ghost use Rattle.std.specs.List.{range_with_len};
ghost use Rattle.nomos_simplex.specs.mirror.Classes.{coefs_of as row_coefs, IsAlike, IsClass, IsInOne, classes_exchanged, class_of_star};

use crate::bounds::bound;
use crate::keeping::KeptTable;
use nomos_forms::row_list::RowList;
use nomos_ir::items::Items;
use std::alloc::{AllocError, Global};

/// The variables with numbers from one to another: a star, or rows that have the same coefficients and ascend by their
/// leasts.
#[derive(Clone, Copy)]
pub(crate) struct Class {
    pub(crate) first: usize,
    pub(crate) last: usize,
}

/// The classes of the basic variables of a table, line by line, and those of its nonbasic ones, column by column. Each
/// variable of the rows is in one of them.
#[derive(Drop)]
pub(crate) struct Classes {
    pub(crate) lines: Items<Class>,
    pub(crate) columns: Items<Class>,
}

impl Class {
    /// The variable that follows one in its class.
    pub(crate) fn next(self, variable: usize) -> usize
        requires { variable < self.last }
        ensures { result ≡ variable + 1 }
    {
        variable + 1
    }
}

/// What is kept of a table with one line for each class.
#[derive(Drop)]
pub(crate) struct Classed {
    pub(crate) kept: KeptTable,
    pub(crate) classes: Classes,
}

/// The coefficients of the row of a variable.
pub(crate) fn coefs_of(rows: &RowList, variable: usize) -> &[i64]
    requires { rows.now.stars < variable }
    ensures { result.now ≡ row_coefs rows.now variable }
{
    let place = variable - usize::from(rows.stars) - 1;
    if place < rows.rows.len() {
        rows.rows.coefs_at(place).as_slice()
    } else {
        &[]
    }
}

/// The last variable. There is no memory for more than have a number.
fn last_variable(rows: &RowList) -> Result<usize, AllocError>
    ensures { IfOk result (λ last. last ≡ rows.now.stars + length rows.now.rows) }
{
    usize::from(rows.stars)
        .checked_add(rows.rows.len())
        .ok_or(AllocError)
}

/// Whether the row after that of a variable has the same coefficients, and is at least more.
fn is_alike(rows: &RowList, variable: usize) -> bool
    requires row { rows.now.stars < variable }
    requires next { variable + 1 < 2 ^ 64 }
    ensures { IsTrue result ↔ IsAlike rows.now variable }
{
    bound(rows, variable) < bound(rows, variable + 1)
        && coefs_of(rows, variable + 1) == coefs_of(rows, variable)
}

/// The last variable of the class that begins with the variable of a row, where `end` is the last of all.
fn last_of_class(rows: &RowList, end: usize, first: usize) -> usize
    requires row { rows.now.stars < first }
    requires there { first ≤ end }
    ensures some { first ≤ result }
    ensures most { result ≤ end }
    ensures alike { (v : ℕ) → first ≤ v → v < result → IsAlike rows.now v }
{
    let mut last = first;
    while last < end && is_alike(rows, last) {
        last += 1;
    }
    last
}

/// The classes of the rows.
pub(crate) fn classes_of_rows(alloc: Global, rows: &RowList) -> Result<Vec<Class>, AllocError>
    ensures classes { IfOk result (λ made. All (IsClass rows.now) made.items) }
    ensures rows { IfOk result (λ made. All (λ class. rows.now.stars < class.first) made.items) }
    ensures cover { IfOk result (λ made. (v : ℕ) → rows.now.stars < v → v ≤ rows.now.stars + length rows.now.rows →
        IsInOne made.items v) }
{
    let end = last_variable(rows)?;
    let mut classes = Vec::new(alloc);
    let mut before = usize::from(rows.stars);
    while before < end {
        let first = before + 1;
        let last = last_of_class(rows, end, first);
        classes.push(Class { first, last })?;
        before = last;
    }
    Ok(classes)
}

/// The classes of the stars, each alone.
pub(crate) fn classes_of_stars(alloc: Global, stars: u16) -> Result<Vec<Class>, AllocError>
    ensures { IfOk result (λ made. made.items ≡ map class_of_star (range_with_len 1 stars)) }
{
    let mut classes = Vec::new(alloc);
    for before in 0..stars {
        let star = usize::from(before) + 1;
        classes.push(Class {
            first: star,
            last: star,
        })?;
    }
    Ok(classes)
}

/// The classes after those of a line and of a column are exchanged: that of the column comes behind the lines.
pub(crate) fn exchange_classes(
    classes: Classes,
    place: usize,
    column: usize,
) -> Result<Classes, AllocError>
    requires place { place < length classes.lines }
    requires column { column < length classes.columns }
    ensures { IfOk result (λ made. made ≡ classes_exchanged place column classes) }
{
    let Classes { lines, columns } = classes;
    let mut lines = lines.into_vec();
    let mut columns = columns.into_vec();
    let left = lines.remove(place);
    lines.push(columns[column])?;
    columns[column] = left;
    Ok(Classes {
        lines: Items::of_vec(lines),
        columns: Items::of_vec(columns),
    })
}
