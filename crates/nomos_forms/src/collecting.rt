//! The rows of forms and of pairs of amounts that have to be equal.
ghost use Rattle.std.specs.Prelude.{◌≡◌, ◌≤◌, ◌++◌, ◌∷◌, [], pos, ◌<◌, ◌^◌, ◌-ℤ◌, unsigned_abs, length, map, slice_index_or, All, IfOk};
ghost use Rattle.std.specs.List.{flat_map};
ghost use Rattle.nomos_forms.specs.Bounds.{IsSmall, IsForm, IsRow};
ghost use Rattle.nomos_forms.specs.RowGroups.{row_of as row_with, rows_in};
ghost use Rattle.nomos_forms.specs.RowsOf.{form_row, units_in, difference_row, pair_rows, all_rows, AreRowsOf};
ghost use Rattle.nomos_forms.specs.mirror.Collected.{AreCounted};
ghost use Rattle.nomos_forms.specs.mirror.Joining.{coefs_of};
ghost use Rattle.nomos_forms.specs.mirror.SameRows.{HasSame};

use crate::counts::{count_groups, place_of};
use crate::form::{Form, Forms};
use crate::row::Row;
use crate::row_group::{RowGroup, group_of};
use crate::row_list::RowList;
use crate::shared_coefs::SharedCoefs;
use crate::sorting::in_order;
use nomos_ir::amount::Amount;
use nomos_ir::lists::AmountPairs;
use std::alloc::{AllocError, Global};

/// The row that says that a form is 0 or more.
fn row_of(alloc: Global, form: &Form) -> Result<Row, AllocError>
    requires { IsForm (length form.now.coefs) form.now }
    ensures row { IfOk result (λ row. row ≡ form_row form.now) }
    ensures small { IfOk result (IsRow (length form.now.coefs)) }
{
    let coefs = Vec::from_slice(alloc, form.coefs.as_slice())?;
    Ok(Row {
        coefs: SharedCoefs::of_vec(alloc, coefs)?,
        least: -form.plus,
    })
}

/// The whole units that stand in an amount.
fn units(amount: Amount) -> i64
    ensures small { unsigned_abs result < 2 ^ 32 }
    ensures units { result ≡ pos (units_in amount) }
{
    match amount {
        Amount::Written(units) => i64::from(units),
        Amount::Star(_) => 0,
    }
}

/// The least of the row that says that one amount is at least another.
fn units_between(more: Amount, less: Amount) -> i64
    ensures small { IsSmall result }
    ensures least { result ≡ pos (units_in less) -ℤ pos (units_in more) }
{
    units(less) - units(more)
}

/// Adds a least to the group at a place.
fn add_least(groups: &mut Vec<RowGroup>, place: usize, least: i64) -> Result<(), AllocError>
    requires { place < length (coefs_of groups.old.items) }
    ensures coefs { IfOk result (λ _. coefs_of groups.new.items ≡ coefs_of groups.old.items) }
    ensures rows { IfOk result (λ _. HasSame (rows_in groups.new.items)
        (row_with (slice_index_or (coefs_of groups.old.items) place []) least ∷ rows_in groups.old.items)) }
{
    groups[place].leasts.push(least)?;
    Ok(())
}

/// Adds the row that says that one amount is at least another.
fn add_difference(
    groups: &mut Vec<RowGroup>,
    stars: u16,
    more: Amount,
    less: Amount,
) -> Result<(), AllocError>
    requires stars { stars ≤ 64 }
    requires groups { AreCounted stars groups.old.items }
    ensures groups { IfOk result (λ _. AreCounted stars groups.new.items) }
    ensures rows { IfOk result (λ _. HasSame (rows_in groups.new.items)
        (difference_row stars more less ∷ rows_in groups.old.items)) }
{
    let place = place_of(stars, more.star(), less.star());
    add_least(groups, place, units_between(more, less))?;
    Ok(())
}

/// Adds the two rows of a pair.
fn add_pair(
    groups: &mut Vec<RowGroup>,
    stars: u16,
    pair: &(Amount, Amount),
) -> Result<(), AllocError>
    requires stars { stars ≤ 64 }
    requires groups { AreCounted stars groups.old.items }
    ensures groups { IfOk result (λ _. AreCounted stars groups.new.items) }
    ensures rows { IfOk result (λ _. HasSame (rows_in groups.new.items)
        (rows_in groups.old.items ++ pair_rows stars pair.now)) }
{
    add_difference(groups, stars, pair.1, pair.0)?;
    add_difference(groups, stars, pair.0, pair.1)?;
    Ok(())
}

/// The rows of pairs, by the star in each amount.
fn pair_groups(
    alloc: Global,
    pairs: &[(Amount, Amount)],
    stars: u16,
) -> Result<Vec<RowGroup>, AllocError>
    requires { stars ≤ 64 }
    ensures rows { IfOk result (λ groups. HasSame (rows_in groups.items) (flat_map (pair_rows stars) pairs.now)) }
    ensures small { IfOk result (λ groups. All (IsRow stars) (rows_in groups.items)) }
{
    let mut groups = count_groups(alloc, stars)?;
    for pair in pairs {
        add_pair(&mut groups, stars, pair)?;
    }
    Ok(groups)
}

/// Adds the rows of forms.
fn add_forms(
    alloc: Global,
    groups: &mut Vec<RowGroup>,
    forms: &[Form],
    stars: u16,
) -> Result<(), AllocError>
    requires rows { All (IsRow stars) (rows_in groups.old.items) }
    requires forms { All (IsForm stars) forms.now }
    ensures rows { IfOk result (λ _. rows_in groups.new.items ≡ rows_in groups.old.items ++ map form_row forms.now) }
    ensures small { IfOk result (λ _. All (IsRow stars) (rows_in groups.new.items)) }
{
    for form in forms {
        groups.push(group_of(alloc, row_of(alloc, form)?)?)?;
    }
    Ok(())
}

/// All rows, as often as they come.
fn every_row(
    alloc: Global,
    forms: &Forms,
    pairs: &AmountPairs,
    stars: u16,
) -> Result<Vec<RowGroup>, AllocError>
    requires stars { stars ≤ 64 }
    requires forms { All (IsForm stars) forms.now }
    ensures rows { IfOk result (λ groups. HasSame (rows_in groups.items) (all_rows stars forms.now pairs.now)) }
    ensures small { IfOk result (λ groups. All (IsRow stars) (rows_in groups.items)) }
{
    let mut groups = pair_groups(alloc, pairs.as_slice(), stars)?;
    add_forms(alloc, &mut groups, forms.as_slice(), stars)?;
    Ok(groups)
}

/// The rows of a program: each form is 0 or more, and the amounts of each pair are equal. They are distinct, and
/// ascend by their first coefficient, then the second and so on, and then by their least.
pub fn rows(
    alloc: Global,
    forms: &Forms,
    pairs: &AmountPairs,
    stars: u16,
) -> Result<RowList, AllocError>
    requires stars { stars ≤ 64 }
    requires forms { All (IsForm stars) forms.now }
    ensures stars { IfOk result (λ made. made.stars ≡ stars) }
    ensures rows { IfOk result (λ made. AreRowsOf stars forms.now pairs.now made.rows) }
{
    let groups = every_row(alloc, forms, pairs, stars)?;
    Ok(RowList {
        rows: in_order(alloc, groups)?,
        stars,
    })
}
