//! Tests: the answers of the pivot run to small systems of rows, and to large ones at its limits.
ghost use Rattle.std.specs.Prelude.{◌≤◌};

use crate::forms::{FormSketch, expect, system, table_system};
use nomos_forms::row_list::RowList;
use nomos_ir::amount::Amount;
use nomos_simplex::solving::solve;
use std::alloc::{AllocError, Global};
use std::test::Fail;

// What the pivot run answers.
fn answer(alloc: Global, list: &RowList) -> Result<String, AllocError> {
    let solved = solve(alloc, list)?;
    format!(in alloc; "{solved:?}")
}

// What it answers to the rows of a small system.
fn answer_to(
    alloc: Global,
    sketches: &[FormSketch<'_>],
    pairs: &[(Amount, Amount)],
    stars: u16,
) -> Result<String, AllocError>
    requires { stars ≤ 64 }
{
    let list = system(alloc, sketches, pairs, stars)?;
    answer(alloc, &list)
}

/// Two equal stars of which both are wanted for a unit, and of which one is paid twice from a unit.
#[test]
fn two_halves(rt: HostRuntime) -> Result<(), Fail> {
    let sketches: [FormSketch<'_>; 4] = [
        (&[1, 1], -1),
        (&[-2, 0], 1),
        (&[1, -1], 0),
        (&[-1, 1], 0),
    ];
    let found = answer_to(rt.alloc(), &sketches, &[], 2)?;
    expect(
        &rt,
        found,
        "Found(Found { stars: Items { items: [1, 1] }, unit: 2 })",
    );
    Ok(())
}

/// Two sources of a half each: of the five stars the first is what the type of a source pays, two are what is taken
/// from each source, one is what a source has, and one what it pays.
#[test]
fn two_sources(rt: HostRuntime) -> Result<(), Fail> {
    let works = [0, 1, 1];
    let pays = [0, 0, 0, 1, -1];
    let spawns = [0, 0, 0, -2];
    let of_type = Amount::Star(1);
    let pairs = [
        (of_type, Amount::Star(2)),
        (of_type, Amount::Star(3)),
        (of_type, Amount::Star(5)),
    ];
    let sketches: [FormSketch<'_>; 3] = [(&works, -1), (&pays, 0), (&spawns, 1)];
    let found = answer_to(rt.alloc(), &sketches, &pairs, 5)?;
    expect(
        &rt,
        found,
        "Found(Found { stars: Items { items: [1, 1, 1, 1, 1] }, unit: 2 })",
    );
    Ok(())
}

/// Without rows all stars are 0, and 0 >= 1 has no amounts.
#[test]
fn no_stars_and_no_rows(rt: HostRuntime) -> Result<(), Fail> {
    let found = answer_to(rt.alloc(), &[], &[], 3)?;
    expect(
        &rt,
        found,
        "Found(Found { stars: Items { items: [0, 0, 0] }, unit: 1 })",
    );
    let found = answer_to(rt.alloc(), &[(&[], -1)], &[], 0)?;
    expect(
        &rt,
        found,
        "Refuted(Verdict { weights: Items { items: [Weight { times: 1, of: Row(Row { \
        coefs: SharedCoefs { coefs: SharedList { items: [] }, first: 0, end: 0 }, least: 1 }) }] }, gives: 1 })",
    );
    Ok(())
}

/// The most stars that there may be, of which none is wanted.
#[test]
fn the_most_stars(rt: HostRuntime) -> Result<(), Fail> {
    let found = answer_to(rt.alloc(), &[], &[], 64)?;
    assert_eq!(rt; found.matches("0, 0").count(), 32);
    assert!(rt; found.ends_with("0] }, unit: 1 })"));
    Ok(())
}

// The coefficient of a star in the form of a process that spawns the one before it ten times.
fn link(star: u16, of: u16) -> i32 {
    if of == star {
        1
    } else if star > 0 && of == star - 1 {
        -10
    } else {
        0
    }
}

// Adds the numbers of one process of the chain: the coefficients of the stars, and then the units.
fn add_link(numbers: &mut Vec<i32>, star: u16, stars: u16) -> Result<(), AllocError> {
    for of in 0..stars {
        numbers.push(link(star, of))?;
    }
    numbers.push(if star == 0 { -1 } else { 0 })?;
    Ok(())
}

// The numbers of all of them.
fn links(alloc: Global, stars: u16) -> Result<Vec<i32>, AllocError> {
    let mut numbers = Vec::new(alloc);
    for star in 0..stars {
        add_link(&mut numbers, star, stars)?;
    }
    Ok(numbers)
}

/// Star 1 is at least 1, and each other star at least ten times the one before it.
pub(crate) fn chain(alloc: Global, stars: u16) -> Result<RowList, AllocError>
    requires { stars ≤ 64 }
{
    let numbers = links(alloc, stars)?;
    table_system(alloc, &numbers, stars)
}

// What the pivot run answers to the chain.
fn chain_answer(alloc: Global, stars: u16) -> Result<String, AllocError>
    requires { stars ≤ 64 }
{
    let list = chain(alloc, stars)?;
    answer(alloc, &list)
}

/// Nineteen links reach 10^18, and a twentieth is too large.
#[test]
fn chains(rt: HostRuntime) -> Result<(), Fail> {
    let found = chain_answer(rt.alloc(), 19)?;
    assert!(rt; found.starts_with("Found(Found { stars: Items { items: [1, 10, 100, 1000, "));
    assert!(rt; found.ends_with(", 100000000000000000, 1000000000000000000] }, unit: 1 })"));
    let found = chain_answer(rt.alloc(), 20)?;
    expect(&rt, found, "Unsolved(Large(19))");
    Ok(())
}

// The next number of a fixed sequence.
fn next(seed: &mut u32) -> u32 {
    *seed = seed.wrapping_mul(1_664_525).wrapping_add(1_013_904_223);
    *seed >> 8
}

// Most coefficients are 0, and the others lie between -3 and 3.
fn sparse(seed: &mut u32) -> i32 {
    if next(seed) % 100 >= 15 {
        return 0;
    }
    ((next(seed) % 7) as i32).wrapping_sub(3)
}

// Adds the numbers of a form that is 0 or 1 where each star is the square of its place.
fn add_tight(numbers: &mut Vec<i32>, seed: &mut u32, stars: u16) -> Result<(), AllocError> {
    let mut plus = (next(seed) % 2) as i32;
    for of in 0..stars {
        let number = sparse(seed);
        let place = i32::from(of);
        plus = plus.wrapping_sub(number.wrapping_mul(place.wrapping_mul(place)));
        numbers.push(number)?;
    }
    numbers.push(plus)?;
    Ok(())
}

// The numbers of 200 such forms.
fn tight_numbers(alloc: Global, stars: u16) -> Result<Vec<i32>, AllocError> {
    let mut seed = 6;
    let mut numbers = Vec::new(alloc);
    for _i in 0..200 {
        add_tight(&mut numbers, &mut seed, stars)?;
    }
    Ok(numbers)
}

// Their rows.
fn tight_system(alloc: Global, stars: u16) -> Result<RowList, AllocError>
    requires { stars ≤ 64 }
{
    let numbers = tight_numbers(alloc, stars)?;
    table_system(alloc, &numbers, stars)
}

// What the pivot run answers to them.
fn tight_answer(alloc: Global, stars: u16) -> Result<String, AllocError>
    requires { stars ≤ 64 }
{
    let list = tight_system(alloc, stars)?;
    answer(alloc, &list)
}

/// The budget of pivots is used up, though the squares of the stars' places meet these rows.
#[test]
fn too_many_pivots(rt: HostRuntime) -> Result<(), Fail> {
    let found = tight_answer(rt.alloc(), 32)?;
    expect(&rt, found, "Unsolved(Pivots)");
    Ok(())
}
