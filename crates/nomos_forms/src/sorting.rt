//! Rows in groups, brought into their order.
ghost use Rattle.std.specs.Prelude.{◌≡◌, ◌↔◌, ◌++◌, ℤ, IfOk, Contains};
ghost use Rattle.std.specs.Cmp.Lexicographic.{slice_cmp};
ghost use Rattle.std.specs.List.Sorted.{IsSorted, IsStrictlySortedBy};
ghost use Rattle.std.specs.Ordering.{int_cmp};
ghost use Rattle.std.specs.declared.cmp.Ordering.TheVariants.{Less};
ghost use Rattle.nomos_forms.specs.RowGroups.{group_rows, rows_in};
ghost use Rattle.nomos_forms.specs.RowOrder.{row_cmp};
ghost use Rattle.nomos_forms.specs.declared.row.Row.{Row};
ghost use Rattle.nomos_forms.specs.mirror.Joining.{coefs_of};
ghost use Rattle.nomos_forms.specs.mirror.SameRows.{HasSame};

use crate::row_group::{RowGroup, add_group};
use crate::rows::Rows;
use std::alloc::{AllocError, Global};

/// Sorts groups by their coefficients.
fn sort_groups(groups: &mut Vec<RowGroup>)
    ensures same { HasSame (rows_in groups.new.items) (rows_in groups.old.items) }
    ensures ascend { IsSorted (slice_cmp int_cmp) (coefs_of groups.new.items) }
{
    groups.sort_unstable_by(|one, other| one.coefs.order(&other.coefs));
}

/// Sorted groups, of which those with the same coefficients are joined.
fn joined(alloc: Global, groups: Vec<RowGroup>) -> Result<Vec<RowGroup>, AllocError>
    requires { IsSorted (slice_cmp int_cmp) (coefs_of groups.items) }
    ensures rows { IfOk result (λ made. rows_in made.items ≡ rows_in groups.items) }
    ensures ascend { IfOk result (λ made. IsStrictlySortedBy (slice_cmp int_cmp) (coefs_of made.items)) }
{
    let mut made = Vec::new(alloc);
    for group in groups {
        add_group(&mut made, group)?;
    }
    Ok(made)
}

/// Sorts leasts, and keeps each once.
fn sort_out(leasts: &mut Vec<i64>)
    ensures ascend { IsStrictlySortedBy int_cmp leasts.new.items }
    ensures same { (least : ℤ) → Contains leasts.new.items least ↔ Contains leasts.old.items least }
{
    leasts.sort_unstable();
    leasts.dedup();
}

/// Adds the rows of a group behind others that they come after, in their order and each once. A group without
/// rows is left out.
fn add_sorted(groups: &mut Vec<RowGroup>, group: RowGroup) -> Result<(), AllocError>
    requires ascend { IsStrictlySortedBy row_cmp (rows_in groups.old.items) }
    requires behind { (row other : Row) → Contains (rows_in groups.old.items) row →
        Contains (group_rows group) other → row_cmp row other ≡ Less }
    ensures ascend { IfOk result (λ _. IsStrictlySortedBy row_cmp (rows_in groups.new.items)) }
    ensures same { IfOk result (λ _. HasSame (rows_in groups.new.items)
        (rows_in groups.old.items ++ group_rows group)) }
{
    let RowGroup { coefs, mut leasts } = group;
    if leasts.is_empty() {
        return Ok(());
    }
    sort_out(&mut leasts);
    groups.push(RowGroup { coefs, leasts })?;
    Ok(())
}

/// Groups whose coefficients ascend, each with its rows in their order and each row once.
fn each_once(alloc: Global, groups: Vec<RowGroup>) -> Result<Vec<RowGroup>, AllocError>
    requires { IsStrictlySortedBy (slice_cmp int_cmp) (coefs_of groups.items) }
    ensures ascend { IfOk result (λ made. IsStrictlySortedBy row_cmp (rows_in made.items)) }
    ensures same { IfOk result (λ made. HasSame (rows_in made.items) (rows_in groups.items)) }
{
    let mut made = Vec::new(alloc);
    for group in groups {
        add_sorted(&mut made, group)?;
    }
    Ok(made)
}

/// The rows of groups in their order, each once.
pub(crate) fn in_order(alloc: Global, groups: Vec<RowGroup>) -> Result<Rows, AllocError>
    ensures ascend { IfOk result (λ rows. IsStrictlySortedBy row_cmp rows) }
    ensures same { IfOk result (λ rows. HasSame rows (rows_in groups.items)) }
{
    let mut groups = groups;
    sort_groups(&mut groups);
    let groups = joined(alloc, groups)?;
    let groups = each_once(alloc, groups)?;
    Rows::of_groups(alloc, groups)
}
