//! Tests: rows in their order, amounts put back, and verdicts.
ghost use Rattle.std.specs.Prelude.{◌≡◌, ◌<◌, ◌^◌, IfOk};
ghost use Rattle.nomos_forms.specs.Bounds.{IsVerdict};

use crate::forms::{expect, system};
use nomos_forms::found::Found;
use nomos_forms::meeting::put_back;
use nomos_forms::refuting::refutes;
use nomos_forms::row::Row;
use nomos_forms::shared_coefs::SharedCoefs;
use nomos_forms::verdict::{Of, Verdict, Weight};
use nomos_ir::amount::Amount;
use nomos_ir::items::Items;
use std::alloc::{AllocError, Global};
use std::test::Fail;

// The rows of two forms and two pairs over two stars: `x1 - x2 - 1` and `x2`, `x1 = x2` and `x2 = 3`.
fn rows_text(alloc: Global) -> Result<String, AllocError> {
    let pairs = [
        (Amount::Star(1), Amount::Star(2)),
        (Amount::Star(2), Amount::Written(3)),
    ];
    let list = system(alloc, &[(&[1, -1], -1), (&[0, 1], 0)], &pairs, 2)?;
    let mut text = String::new(alloc);
    for place in 0..list.rows.len() {
        if let Some(row) = list.rows.row_at(place)? {
            let next = format!(in alloc; "{:?} >= {}; ", row.coefs.as_slice(), row.least)?;
            text.push_str(next.as_str())?;
        }
    }
    Ok(text)
}

#[test]
fn rows_stand_in_order(rt: HostRuntime) -> Result<(), Fail> {
    let found = rows_text(rt.alloc())?;
    expect(
        &rt,
        found,
        "[-1, 1] >= 0; [0, -1] >= -3; [0, 1] >= 0; [0, 1] >= 3; [1, -1] >= 0; [1, -1] >= 1; ",
    );
    Ok(())
}

// Whether two equal stars of so many parts of a unit meet `x1 + x2 >= 1`, `-2*x1 >= -1` and `x1 - x2 >= 0`.
fn do_halves_meet(alloc: Global, parts: u32, unit: u32) -> Result<bool, AllocError>
    requires { 0 < unit }
{
    let list = system(
        alloc,
        &[(&[1, 1], -1), (&[-2, 0], 1), (&[1, -1], 0)],
        &[],
        2,
    )?;
    let parts = u64::from(parts);
    let stars = Items::of_vec(vec![in alloc; parts, parts]?);
    Ok(put_back(&list, &Found { stars, unit }))
}

/// Both stars one half meet the rows, and both a unit do not.
#[test]
fn halves_meet_and_units_do_not(rt: HostRuntime) -> Result<(), Fail> {
    let table = [
        (1u32, 2u32, true),
        (2, 2, false),
        (1, 3, false),
        (2, 4, true),
    ];
    for (parts, unit, meet) in table {
        assert_eq!(rt; do_halves_meet(rt.alloc(), parts, unit)?, meet);
    }
    Ok(())
}

// A verdict of the row `0 >= 1` with this weight, and that gives so much.
fn verdict(alloc: Global, times: u64, gives: u128) -> Result<Verdict, AllocError>
    requires { times < 2 ^ 62 }
    ensures { IfOk result IsVerdict }
{
    let of = Of::Row(Row {
        coefs: SharedCoefs::of_vec(alloc, Vec::new(alloc))?,
        least: 1,
    });
    let weights = Items::of_vec(vec![in alloc; Weight { times, of }]?);
    Ok(Verdict { weights, gives })
}

// Whether such a verdict refutes `0 >= 1`.
fn is_refuted(alloc: Global, times: u32, gives: u128) -> Result<bool, AllocError> {
    let list = system(alloc, &[(&[], -1)], &[], 0)?;
    let verdict = verdict(alloc, u64::from(times), gives)?;
    Ok(refutes(&list, &verdict))
}

/// `0 >= 1` is refuted by itself, not by a weight of 0, nor where it gives something else.
#[test]
fn nothing_is_at_least_one(rt: HostRuntime) -> Result<(), Fail> {
    let table = [
        (1u32, 1u128, true),
        (3, 3, true),
        (0, 0, false),
        (1, 2, false),
    ];
    for (times, gives, wanted) in table {
        assert_eq!(rt; is_refuted(rt.alloc(), times, gives)?, wanted);
    }
    Ok(())
}

// So many times the row `-x1 >= 1`.
fn row_weight(alloc: Global, times: u32) -> Result<Weight, AllocError>
    ensures { IfOk result (λ made. made.times ≡ times) }
{
    let coefs = SharedCoefs::of_vec(alloc, vec![in alloc; -1i64]?)?;
    let of = Of::Row(Row { coefs, least: 1 });
    Ok(Weight {
        times: u64::from(times),
        of,
    })
}

// A verdict with that row twice, and with a star's own bound.
fn row_twice(
    alloc: Global,
    rows: (u32, u32),
    star: (u32, u16),
    gives: u32,
) -> Result<Verdict, AllocError>
    ensures { IfOk result IsVerdict }
{
    let first = row_weight(alloc, rows.0)?;
    let second = row_weight(alloc, rows.1)?;
    let of_star = Weight {
        times: u64::from(star.0),
        of: Of::Star(star.1),
    };
    Ok(Verdict {
        weights: Items::of_vec(vec![in alloc; first, second, of_star]?),
        gives: u128::from(gives),
    })
}

// Whether such a verdict refutes `-x1 >= 1`.
fn is_refuted_twice(
    alloc: Global,
    rows: (u32, u32),
    star: (u32, u16),
    gives: u32,
) -> Result<bool, AllocError> {
    let list = system(alloc, &[(&[-1], -1)], &[], 1)?;
    let verdict = row_twice(alloc, rows, star, gives)?;
    Ok(refutes(&list, &verdict))
}

/// A row may stand twice, and the bound of the star takes out what both have of it; there is no star 0, and no star 2.
#[test]
fn a_row_twice_with_a_star(rt: HostRuntime) -> Result<(), Fail> {
    let table = [
        ((1u32, 1u32), (2u32, 1u16), 2u32, true),
        ((2, 1), (3, 1), 3, true),
        ((1, 1), (1, 1), 2, false),
        ((1, 1), (2, 0), 2, false),
        ((1, 1), (2, 2), 2, false),
        ((1, 1), (2, 1), 1, false),
    ];
    for (rows, star, gives, wanted) in table {
        assert_eq!(rt; is_refuted_twice(rt.alloc(), rows, star, gives)?, wanted);
    }
    Ok(())
}
