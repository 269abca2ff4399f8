//! Whether a verdict refutes rows.
ghost use Rattle.std.specs.Prelude.{◌≡◌, ℕ, ◌<◌, ◌≤◌, ◌^◌, ◌↔◌, IsTrue, length, pos, unsigned_abs, All};
ghost use Rattle.nomos_forms.specs.Bounds.{IsSmall, IsVerdict};
ghost use Rattle.nomos_forms.specs.Refuting.{coef_in, least_in, weighted, IsOneOf, LeavesNoStar, Refutes, NoneMeet};

use crate::product::add_product;
use crate::row_list::RowList;
use crate::verdict::{Of, Verdict, Weight};

/// Whether what is weighted is one of the rows, or the bound of one of the stars.
fn is_one_of(of: &Of, rows: &RowList) -> bool
    ensures { IsTrue result ↔ IsOneOf rows.now.stars rows.now.rows of.now }
{
    match of {
        Of::Star(star) => 1 <= *star && *star <= rows.stars,
        Of::Row(row) => rows.rows.contains(row),
    }
}

/// Whether a weight is over 0, and weighs a row or a bound that there is.
fn is_there(weight: &Weight, rows: &RowList) -> bool
    ensures { IsTrue result ↔ IsOneOf rows.now.stars rows.now.rows weight.now.of × (0 < weight.now.times) }
{
    weight.times > 0 && is_one_of(&weight.of, rows)
}

/// Whether each weight is over 0, and weighs one of the rows or the bound of one of the stars. It takes no memory.
pub fn are_all_there(weights: &[Weight], rows: &RowList) -> bool
    ensures { IsTrue result ↔ All (λ w. IsOneOf rows.now.stars rows.now.rows w.of × (0 < w.times)) weights.now }
{
    for weight in weights {
        if !is_there(weight, rows) {
            return false;
        }
    }
    true
}

/// The coefficient of a star, from 1 on, in a row or a bound.
fn coefficient(of: &Of, star: u16) -> i64
    requires { 1 ≤ star }
    ensures { result ≡ coef_in star of.now }
{
    match of {
        Of::Star(own) => { if *own == star { 1 } else { 0 } }
        Of::Row(row) => {
            let place = usize::from(star) - 1;
            row.coefs.as_slice().get(place).copied().unwrap_or(0)
        }
    }
}

/// What a row or a bound is at least.
fn least(of: &Of) -> i64
    ensures { result ≡ least_in of.now }
{
    match of {
        Of::Star(_) => 0,
        Of::Row(row) => row.least,
    }
}

/// What the weighted rows and bounds have together for a star, from 1 on.
pub fn sum_for(weights: &[Weight], star: u16) -> i128
    requires star { 1 ≤ star }
    requires few { length weights.now ≤ 65 }
    requires times { All (λ w. w.times < 2 ^ 62) weights.now }
    requires small { All (λ w. IsSmall (coef_in star w.of)) weights.now }
    ensures { result ≡ weighted (coef_in star) weights.now }
{
    let mut sum: i128 = 0;
    for weight in weights {
        sum = add_product(sum, coefficient(&weight.of, star), weight.times);
    }
    sum
}

/// What the weighted rows and bounds are together at least, in units of gas.
pub fn sum_of_least(weights: &[Weight]) -> i128
    requires few { length weights.now ≤ 65 }
    requires times { All (λ w. w.times < 2 ^ 62) weights.now }
    requires small { All (λ w. IsSmall (least_in w.of)) weights.now }
    ensures value { result ≡ weighted least_in weights.now }
    ensures size { unsigned_abs result ≤ 2 ^ 114 }
{
    let mut sum: i128 = 0;
    for weight in weights {
        sum = add_product(sum, least(&weight.of), weight.times);
    }
    sum
}

/// Whether the weighted rows and bounds have nothing left of any star.
fn leaves_no_star(weights: &[Weight], stars: u16) -> bool
    requires few { length weights.now ≤ 65 }
    requires times { All (λ w. w.times < 2 ^ 62) weights.now }
    requires small { (star : ℕ) → All (λ w. IsSmall (coef_in star w.of)) weights.now }
    ensures { IsTrue result ↔ LeavesNoStar stars weights.now }
{
    for before in 0..stars {
        if sum_for(weights, before + 1) != 0 {
            return false;
        }
    }
    true
}

/// Whether a sum is this count.
fn is_count(sum: i128, count: u128) -> bool
    ensures { IsTrue result ↔ (sum ≡ pos count) }
{
    sum >= 0 && sum.unsigned_abs() == count
}

/// Whether weights that are all there add up to `0 >= gives`.
fn add_up(weights: &[Weight], stars: u16, gives: u128) -> bool
    requires few { length weights.now ≤ 65 }
    requires times { All (λ w. w.times < 2 ^ 62) weights.now }
    requires coefs { (star : ℕ) → All (λ w. IsSmall (coef_in star w.of)) weights.now }
    requires least { All (λ w. IsSmall (least_in w.of)) weights.now }
    ensures { IsTrue result ↔ LeavesNoStar stars weights.now × (weighted least_in weights.now ≡ pos gives) }
{
    let least = sum_of_least(weights);
    is_count(least, gives) && leaves_no_star(weights, stars)
}

/// Whether a verdict refutes the rows: each weight is over 0 and weighs one of the rows or of the stars' bounds, and
/// together they say `0 >= gives` with `gives` over 0. So no amounts meet the rows. It takes no memory.
pub fn refutes(rows: &RowList, verdict: &Verdict) -> bool
    requires { IsVerdict verdict.now }
    ensures exact { IsTrue result ↔ Refutes rows.now.stars rows.now.rows verdict.now }
    ensures none_meet { IsTrue result → NoneMeet rows.now.stars rows.now.rows }
{
    let weights = verdict.weights.as_slice();
    if verdict.gives == 0 || !are_all_there(weights, rows) {
        return false;
    }
    add_up(weights, rows.stars, verdict.gives)
}
