//! Rows with the same coefficients.
ghost use Rattle.std.specs.Prelude.{◌≡◌, ◌↔◌, ◌++◌, ◌∷◌, [], ℤ, List, map, IfOk, IsTrue, ◌<◌, length};
ghost use Rattle.nomos_forms.specs.RowGroups.{row_of, group_rows, rows_in};
ghost use Rattle.nomos_forms.specs.mirror.Joining.{coefs_of, EndsIn, IsJoined};

use crate::row::Row;
use crate::shared_coefs::SharedCoefs;
use std::alloc::{AllocError, Global};

/// Rows with the same coefficients, by their leasts.
#[derive(Drop, Debug)]
pub(crate) struct RowGroup {
    pub(crate) coefs: SharedCoefs,
    pub(crate) leasts: Vec<i64>,
}

/// The group of one row.
pub(crate) fn group_of(alloc: Global, row: Row) -> Result<RowGroup, AllocError>
    ensures { IfOk result (λ group. group_rows group ≡ row ∷ []) }
{
    let Row { coefs, least } = row;
    let mut leasts = Vec::with_capacity(alloc, 1)?;
    leasts.push(least)?;
    Ok(RowGroup { coefs, leasts })
}

/// Whether the last group has these coefficients.
fn is_last(coefs: &SharedCoefs, groups: &[RowGroup]) -> bool
    ensures { IsTrue result ↔ EndsIn (coefs_of groups.now) coefs.now }
{
    match groups.last() {
        Some(group) => group.coefs.is_same(coefs),
        None => false,
    }
}

/// Adds leasts to the last group.
fn add_leasts(groups: &mut Vec<RowGroup>, leasts: Vec<i64>) -> Result<(), AllocError>
    requires { 0 < length groups.old.items }
    ensures rows { (coefs : List ℤ) → EndsIn (coefs_of groups.old.items) coefs →
        IfOk result (λ _. rows_in groups.new.items ≡ rows_in groups.old.items ++ map (row_of coefs) leasts.items) }
    ensures coefs { IfOk result (λ _. coefs_of groups.new.items ≡ coefs_of groups.old.items) }
{
    let last = groups.len() - 1;
    let mut leasts = leasts;
    groups[last].leasts.append(&mut leasts)?;
    Ok(())
}

/// Adds the rows of a group behind those of other groups: to the last one, if that has the same coefficients.
pub(crate) fn add_group(groups: &mut Vec<RowGroup>, group: RowGroup) -> Result<(), AllocError>
    ensures rows { IfOk result (λ _. rows_in groups.new.items ≡ rows_in groups.old.items ++ group_rows group) }
    ensures coefs { IfOk result (λ _. IsJoined (coefs_of groups.old.items) group.coefs (coefs_of groups.new.items)) }
{
    if is_last(&group.coefs, groups) {
        add_leasts(groups, group.leasts)
    } else {
        groups.push(group)?;
        Ok(())
    }
}
