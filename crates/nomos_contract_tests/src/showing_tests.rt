//! Tests: a proof of a least bound by hand, and the same with one number changed.
ghost use Rattle.std.specs.Prelude.{◌≡◌, ◌<◌, IfOk};
ghost use Rattle.nomos_simplex.specs.ShowsLeast.{IsProof};

use crate::forms::{form, system};
use nomos_forms::row::Row;
use nomos_forms::shared_coefs::SharedCoefs;
use nomos_forms::verdict::{Of, Weight};
use nomos_ir::items::Items;
use nomos_least::showing::shows_least;
use nomos_simplex::solved::Proof;
use std::alloc::{AllocError, Global};
use std::test::Fail;

// So many times the row `x1 + 2*x2 >= 3`.
fn row_weight(alloc: Global, times: u32) -> Result<Weight, AllocError>
    ensures { IfOk result (λ made. made.times ≡ times) }
{
    let coefs = SharedCoefs::of_vec(alloc, vec![in alloc; 1i64, 2]?)?;
    let of = Of::Row(Row { coefs, least: 3 });
    Ok(Weight {
        times: u64::from(times),
        of,
    })
}

// So many times that row, and as often `x1 >= 0`.
fn proof(alloc: Global, scale: u32, times: u32, total: u32) -> Result<Proof, AllocError>
    ensures { IfOk result IsProof }
{
    let of_row = row_weight(alloc, times)?;
    let of_star = Weight {
        times: u64::from(times),
        of: Of::Star(1),
    };
    Ok(Proof {
        scale: u64::from(scale),
        weights: Items::of_vec(vec![in alloc; of_row, of_star]?),
        total: u64::from(total),
    })
}

// Whether a proof shows that `x1 + x2 + 5` is least under `x1 + 2*x2 >= 3`, for amounts over this unit.
fn is_shown(alloc: Global, proof: &Proof, unit: u32) -> Result<bool, AllocError>
    requires unit { 0 < unit }
    requires proof { IsProof proof.now }
{
    let list = system(alloc, &[(&[1, 2], -3)], &[], 2)?;
    let goal = form(alloc, (&[1, 1], 5), 2)?;
    Ok(shows_least(&list, &goal, unit, proof))
}

/// The goal is at least 6 and a half.
#[test]
fn six_and_a_half(rt: HostRuntime) -> Result<(), Fail> {
    let table = [
        (2u32, 2u32, 1u32, 13u32, true),
        (4, 4, 2, 26, true),
        (2, 2, 1, 12, false),
        (2, 2, 2, 13, false),
        (2, 0, 0, 13, false),
        (1, 2, 1, 13, false),
    ];
    for (unit, scale, times, total, wanted) in table {
        let proof = proof(rt.alloc(), scale, times, total)?;
        assert_eq!(rt; is_shown(rt.alloc(), &proof, unit)?, wanted);
    }
    Ok(())
}
