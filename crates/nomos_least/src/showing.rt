//! Whether a proof shows that no amounts have a smaller goal.
ghost use Rattle.std.specs.Prelude.{◌≡◌, ℕ, ◌<◌, ◌≤◌, ◌^◌, ◌↔◌, IsTrue, length, pos, ◌*ℤ◌, ◌-ℤ◌, unsigned_abs, All};
ghost use Rattle.nomos_forms.specs.Bounds.{IsSmall, IsForm};
ghost use Rattle.nomos_forms.specs.Refuting.{coef_in, least_in, weighted};
ghost use Rattle.nomos_simplex.specs.ShowsLeast.{goal_coef, ShowsLeast, IsProof, NoneSmaller};

use crate::products::is_same_product;
use nomos_forms::form::Form;
use nomos_forms::product::add_product;
use nomos_forms::refuting::{are_all_there, sum_for, sum_of_least};
use nomos_forms::row_list::RowList;
use nomos_forms::verdict::Weight;
use nomos_simplex::solved::Proof;

/// Whether the weighted rows and bounds have `scale` times as much of each star as the goal.
fn add_up(weights: &[Weight], scale: u64, goal: &Form, stars: u16) -> bool
    requires goal { IsForm stars goal.now }
    requires scale { scale < 2 ^ 62 }
    requires few { length weights.now ≤ 65 }
    requires times { All (λ w. w.times < 2 ^ 62) weights.now }
    requires small { (star : ℕ) → All (λ w. IsSmall (coef_in star w.of)) weights.now }
    ensures { IsTrue result ↔ ((star : ℕ) → 1 ≤ star → star ≤ stars →
        weighted (coef_in star) weights.now ≡ pos scale *ℤ goal_coef goal.now star) }
{
    let coefs = goal.coefs.as_slice();
    for before in 0..stars {
        let wanted = add_product(0, coefs[usize::from(before)], scale);
        if sum_for(weights, before + 1) != wanted {
            return false;
        }
    }
    true
}

/// What a total is above a number of whole units, in parts of which a unit has `unit`.
fn above(total: u64, units: i64, unit: u32) -> i128
    requires { IsSmall units }
    ensures value { result ≡ pos total -ℤ pos unit *ℤ units }
    ensures size { unsigned_abs result ≤ 2 ^ 79 }
{
    i128::from(total) - add_product(0, units, u64::from(unit))
}

/// Whether what the weighted rows are at least is `scale` times the total less the goal's written part.
fn is_total(weights: &[Weight], goal: &Form, unit: u32, proof: &Proof) -> bool
    requires goal { IsSmall goal.now.plus }
    requires scale { proof.now.scale < 2 ^ 62 }
    requires few { length weights.now ≤ 65 }
    requires times { All (λ w. w.times < 2 ^ 62) weights.now }
    requires small { All (λ w. IsSmall (least_in w.of)) weights.now }
    ensures { IsTrue result ↔ (pos unit *ℤ weighted least_in weights.now ≡
        pos proof.now.scale *ℤ (pos proof.now.total -ℤ pos unit *ℤ goal.now.plus)) }
{
    let above = above(proof.total, goal.plus, unit);
    is_same_product(unit, sum_of_least(weights), proof.scale, above)
}

/// Whether a proof shows that no amounts that meet the rows have a smaller goal than its total, in parts of which a
/// unit has `unit`: scale and weights are over 0, and each weight is of one of the rows or of the bound of one of the
/// stars. Added up, the weighted rows have `scale` times as much of each star as the goal, and are at least `scale`
/// times what the total is above the goal's written part. It takes no memory.
pub fn shows_least(rows: &RowList, goal: &Form, unit: u32, proof: &Proof) -> bool
    requires goal { IsForm rows.now.stars goal.now }
    requires proof { IsProof proof.now }
    requires unit { 0 < unit }
    ensures exact { IsTrue result ↔ ShowsLeast rows.now.rows goal.now unit proof.now }
    ensures none_smaller { IsTrue result → NoneSmaller rows.now.rows goal.now unit proof.now.total }
{
    let weights = proof.weights.as_slice();
    if proof.scale == 0 || !are_all_there(weights, rows) {
        return false;
    }
    is_total(weights, goal, unit, proof) && add_up(weights, proof.scale, goal, rows.stars)
}
