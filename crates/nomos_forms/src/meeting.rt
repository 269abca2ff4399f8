//! Whether amounts meet rows.
ghost use Rattle.std.specs.Prelude.{◌≡◌, ◌<◌, ◌≤◌, ◌^◌, ◌↔◌, IsTrue, length, All, pos, ◌*ℤ◌, ◌≤ℤ◌, unsigned_abs};
ghost use Rattle.nomos_forms.specs.Bounds.{IsSmall, IsForm, IsRow, IsFound};
ghost use Rattle.nomos_forms.specs.Linear.{dot, form_value};
ghost use Rattle.nomos_forms.specs.Meeting.{MeetsRow, MeetsRows};
ghost use Rattle.nomos_forms.specs.RowGroups.{group_rows};

use crate::form::Form;
use crate::found::Found;
use crate::product::add_product;
use crate::row::Row;
use crate::row_group::RowGroup;
use crate::row_list::RowList;

/// The sum of the coefficients times the amounts.
fn weigh(coefs: &[i64], amounts: &[u64]) -> i128
    requires width { length coefs.now ≡ length amounts.now }
    requires few { length coefs.now ≤ 64 }
    requires coefs { All IsSmall coefs.now }
    requires amounts { All (λ x. x < 2 ^ 62) amounts.now }
    ensures value { result ≡ dot coefs.now amounts.now }
    ensures size { unsigned_abs result ≤ 2 ^ 113 }
{
    let mut sum: i128 = 0;
    for i in 0..coefs.len() {
        sum = add_product(sum, coefs[i], amounts[i]);
    }
    sum
}

/// What a form comes to under amounts, in parts of a unit of gas as the amounts are.
pub fn value_of(form: &Form, found: &Found) -> i128
    requires few { length found.now.stars ≤ 64 }
    requires form { IsForm (length found.now.stars) form.now }
    requires found { IsFound (length found.now.stars) found.now }
    ensures { result ≡ form_value found.now.stars found.now.unit form.now }
{
    let sum = weigh(form.coefs.as_slice(), found.stars.as_slice());
    add_product(sum, form.plus, u64::from(found.unit))
}

/// Whether a sum is at least so many whole units, of which each has `unit` parts.
fn reaches(sum: i128, least: i64, unit: u32) -> bool
    requires { IsSmall least }
    ensures { IsTrue result ↔ ((pos unit *ℤ least) ≤ℤ sum) }
{
    add_product(0, least, u64::from(unit)) <= sum
}

/// Whether amounts meet a row.
pub fn meets(row: &Row, found: &Found) -> bool
    requires few { length found.now.stars ≤ 64 }
    requires row { IsRow (length found.now.stars) row.now }
    requires found { IsFound (length found.now.stars) found.now }
    ensures { IsTrue result ↔ MeetsRow found.now.stars found.now.unit row.now }
{
    let sum = weigh(row.coefs.as_slice(), found.stars.as_slice());
    reaches(sum, row.least, found.unit)
}

/// Whether a sum is at least each of these numbers of whole units.
fn reaches_each(sum: i128, leasts: &[i64], unit: u32) -> bool
    requires { All IsSmall leasts.now }
    ensures { IsTrue result ↔ All (λ least. (pos unit *ℤ least) ≤ℤ sum) leasts.now }
{
    for least in leasts {
        if !reaches(sum, *least, unit) {
            return false;
        }
    }
    true
}

/// Whether amounts meet each row of a group, whose coefficients are weighed once.
fn meets_each(group: &RowGroup, found: &Found) -> bool
    requires few { length found.now.stars ≤ 64 }
    requires rows { All (IsRow (length found.now.stars)) (group_rows group.now) }
    requires found { IsFound (length found.now.stars) found.now }
    ensures { IsTrue result ↔ MeetsRows found.now.stars found.now.unit (group_rows group.now) }
{
    if group.leasts.is_empty() {
        return true;
    }
    let sum = weigh(group.coefs.as_slice(), found.stars.as_slice());
    reaches_each(sum, &group.leasts, found.unit)
}

/// Whether amounts meet all rows.
pub fn put_back(rows: &RowList, found: &Found) -> bool
    requires { IsFound rows.now.stars found.now }
    ensures { IsTrue result ↔ MeetsRows found.now.stars found.now.unit rows.now.rows }
{
    for group in rows.rows.groups() {
        if !meets_each(group, found) {
            return false;
        }
    }
    true
}
