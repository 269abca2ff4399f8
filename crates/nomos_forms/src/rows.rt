//! Lists of rows.
ghost use Rattle.std.specs.Prelude.{◌≡◌, ◌+◌, ◌<◌, ◌↔◌, List, IfOk, IsTrue, Contains, option_map, length, slice_get, slice_index_or};
ghost use Rattle.nomos_forms.specs.RowGroups.{group_rows, rows_in};
ghost use Rattle.nomos_forms.specs.mirror.GroupEnds.{ends_after, EndBefore, IsPlaceOf};
ghost use Rattle.nomos_forms.specs.declared.row.Row.{Row};
ghost use Rattle.nomos_forms.specs.declared.row_group.RowGroup.{RowGroup};

use crate::row::Row;
use crate::row_group::{RowGroup, add_group, group_of};
use crate::shared_coefs::SharedCoefs;
use std::alloc::{AllocError, Global};
use std::marker::Model;

/// Rows, which contracts see as the list of them. Rows that follow each other and have the same coefficients are kept
/// together, so that these rows take the memory of their leasts alone.
#[derive(Drop, Debug)]
pub struct Rows {
    groups: Vec<RowGroup>,
    ends: Vec<usize>,
}

impl Model for Rows {
    ghost use Rattle.std.specs.Prelude.{◌≡◌, List};
    ghost use Rattle.nomos_forms.specs.RowGroups.{rows_in};
    ghost use Rattle.nomos_forms.specs.mirror.GroupEnds.{ends_after};
    ghost use Rattle.nomos_forms.specs.declared.row.Row.{Row};

    ghost Value = { List Row };

    ghost view = { λ rows. rows_in rows.groups.items };

    ghost invariant = { λ rows. rows.ends.items ≡ ends_after 0 rows.groups.items };
}

/// The place behind the rows of a group that come after so many others. There is no memory for more than have a number.
fn end_after(before: usize, group: &RowGroup) -> Result<usize, AllocError>
    ensures { IfOk result (λ end. end ≡ before + length group.now.leasts.items) }
{
    before.checked_add(group.leasts.len()).ok_or(AllocError)
}

/// The place behind the last row of each group.
fn ends_of(alloc: Global, groups: &[RowGroup]) -> Result<Vec<usize>, AllocError>
    ensures { IfOk result (λ ends. ends.items ≡ ends_after 0 groups.now) }
{
    let mut ends = Vec::with_capacity(alloc, groups.len())?;
    let mut end: usize = 0;
    for group in groups {
        end = end_after(end, group)?;
        ends.push(end)?;
    }
    Ok(ends)
}

/// The number of rows.
fn count(ends: &[usize], groups: &[RowGroup]) -> usize
    requires { ends.now ≡ ends_after 0 groups.now }
    ensures { result ≡ length (rows_in groups.now) }
{
    match ends.last() {
        Some(end) => *end,
        None => 0,
    }
}

/// How many groups end before a place, or at it.
fn groups_before(ends: &[usize], place: usize) -> usize
    ensures { (groups : List RowGroup) → ends.now ≡ ends_after 0 groups → EndBefore groups place result }
{
    ends.partition_point(|end| *end <= place)
}

/// The group of the row at a place, and the place of the row in it.
fn place_in(ends: &[usize], groups: &[RowGroup], place: usize) -> Option<(usize, usize)>
    requires { ends.now ≡ ends_after 0 groups.now }
    ensures { IsPlaceOf groups.now place result }
{
    let group = groups_before(ends, place);
    let leasts = &groups.get(group)?.leasts;
    let behind = ends[group] - place;
    Some((group, leasts.len() - behind))
}

/// Whether a row is in a group.
fn is_in(row: &Row, group: &RowGroup) -> bool
    ensures { IsTrue result ↔ Contains (group_rows group.now) row.now }
{
    group.coefs.is_same(&row.coefs) && group.leasts.contains(&row.least)
}

/// Whether a row is in one of the groups.
fn is_among(row: &Row, groups: &[RowGroup]) -> bool
    ensures { IsTrue result ↔ Contains (rows_in groups.now) row.now }
{
    for group in groups {
        if is_in(row, group) {
            return true;
        }
    }
    false
}

impl Rows {
    /// The rows of groups, one group after the other.
    pub(crate) fn of_groups(alloc: Global, groups: Vec<RowGroup>) -> Result<Self, AllocError>
        ensures { IfOk result (λ rows. rows ≡ rows_in groups.items) }
    {
        let ends = ends_of(alloc, &groups)?;
        Ok(Rows { groups, ends })
    }

    /// The groups that the rows are kept in.
    pub(crate) fn groups(&self) -> &[RowGroup]
        ensures { rows_in result.now ≡ self.now }
    {
        self.groups.as_slice()
    }

    /// The rows of a vector, in its order.
    pub fn of_vec(alloc: Global, rows: Vec<Row>) -> Result<Self, AllocError>
        ensures { IfOk result (λ list. list ≡ rows.items) }
    {
        let mut groups = Vec::new(alloc);
        for row in rows {
            add_group(&mut groups, group_of(alloc, row)?)?;
        }
        Rows::of_groups(alloc, groups)
    }

    /// The number of rows.
    pub fn len(&self) -> usize
        ensures { result ≡ length self.now }
    {
        count(&self.ends, &self.groups)
    }

    /// The least of the row at a place, if there is one.
    pub fn least(&self, place: usize) -> Option<i64>
        ensures { result ≡ option_map (λ row. row.least) (slice_get self.now place) }
    {
        let (group, within) = place_in(&self.ends, &self.groups, place)?;
        Some(self.groups[group].leasts[within])
    }

    /// The coefficients of the row at a place.
    pub fn coefs_at(&self, place: usize) -> &SharedCoefs
        requires { place < length self.now }
        ensures { (row : Row) → result.now ≡ (slice_index_or self.now place row).coefs }
    {
        &self.groups[groups_before(&self.ends, place)].coefs
    }

    /// The row at a place, which owns its coefficients together with the list.
    pub fn row_at(&self, place: usize) -> Result<Option<Row>, AllocError>
        ensures { IfOk result (λ row. row ≡ slice_get self.now place) }
    {
        match place_in(&self.ends, &self.groups, place) {
            Some((group, within)) => {
                let RowGroup { coefs, leasts } = &self.groups[group];
                Ok(Some(Row {
                    coefs: coefs.share()?,
                    least: leasts[within],
                }))
            }
            None => Ok(None),
        }
    }

    /// Whether a row is one of them.
    pub fn contains(&self, row: &Row) -> bool
        ensures { IsTrue result ↔ Contains self.now row.now }
    {
        is_among(row, &self.groups)
    }
}
