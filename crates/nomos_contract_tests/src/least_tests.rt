//! Tests: the answers of the least run, with the proofs that come with them.
ghost use Rattle.std.specs.Prelude.{◌≡◌, ◌≤◌, pos, ◌≤ℤ◌, All, IfOk};
ghost use Rattle.nomos_forms.specs.Bounds.{IsForm};

use crate::forms::{FormSketch, expect, system};
use crate::solve_tests::chain;
use nomos_forms::form::Form;
use nomos_forms::row_list::RowList;
use nomos_ir::amount::Amount;
use nomos_ir::items::Items;
use nomos_simplex::lowering::solve_least;
use nomos_simplex::solving::solve;
use std::alloc::{AllocError, Global};
use std::test::Fail;

// A goal with these coefficients of the first stars and 0 for the others, and so many units.
fn goal(alloc: Global, numbers: &[u16], plus: u32, stars: u16) -> Result<Form, AllocError>
    ensures form { IfOk result (IsForm stars) }
    ensures coefs { IfOk result (λ made. All (λ c. pos 0 ≤ℤ c) made.coefs) }
{
    let mut coefs = Vec::new(alloc);
    for star in 0..stars {
        let number = numbers.get(usize::from(star)).copied().unwrap_or(0);
        coefs.push(i64::from(number))?;
    }
    Ok(Form {
        coefs: Items::of_vec(coefs),
        plus: i64::from(plus),
    })
}

// What the least run answers to a goal with these coefficients, and so many units.
fn answer(alloc: Global, list: &RowList, numbers: &[u16], plus: u32) -> Result<String, AllocError> {
    let goal = goal(alloc, numbers, plus, list.stars)?;
    let solved = solve_least(alloc, list, &goal)?;
    format!(in alloc; "{solved:?}")
}

/// The rows of a transaction that starts two jobs and pays for one of them. Star 1 is what the type of a job gets, 2
/// what a job has, 3 what it gets, 4 what the transaction has, and 5 what it pays. A job that is paid works 3 units.
/// Beside it stands a process that works one unit so many times: star 6 is at least 1, at least 2, and so on.
fn two_jobs(alloc: Global, works: u16, stars: u16) -> Result<RowList, AllocError>
    requires { stars ≤ 64 }
{
    let has = [0, 1];
    let gets = [0, 1, 1];
    let starts = [0, 0, 0, 1];
    let first = [0, -1, 0, 1];
    let second = [0, -2, 0, 1];
    let pays = [0, -2, 0, 1, -1];
    let works_on = [0, 0, 0, 0, 0, 1];
    let jobs: [FormSketch<'_>; 7] = [
        (&has, 0),
        (&gets, 0),
        (&gets, -3),
        (&starts, 0),
        (&first, 0),
        (&second, 0),
        (&pays, 0),
    ];
    let mut sketches = Vec::from_slice(alloc, &jobs)?;
    for work in 0..works {
        sketches.push((&works_on, -1 - i32::from(work)))?;
    }
    let of_type = Amount::Star(1);
    let pairs = [(of_type, Amount::Star(3)), (of_type, Amount::Star(5))];
    system(alloc, sketches.as_slice(), &pairs, stars)
}

// What the pivot run answers to them, and what the least run answers where the goal is what the transaction has.
fn two_jobs_text(alloc: Global, works: u16, stars: u16) -> Result<String, AllocError>
    requires { stars ≤ 64 }
{
    let list = two_jobs(alloc, works, stars)?;
    let solved = solve(alloc, &list)?;
    let least = answer(alloc, &list, &[0, 0, 0, 1], 0)?;
    format!(in alloc; "{solved:?}\n{least}")
}

/// The pivot run finds 6 units for the transaction, and the least run 3.
#[test]
fn two_jobs_at_least(rt: HostRuntime) -> Result<(), Fail> {
    let found = two_jobs_text(rt.alloc(), 0, 5)?;
    expect(
        &rt,
        found,
        "Found(Found { stars: Items { items: [0, 3, 0, 6, 0] }, unit: 1 })\n\
        Found(Found { stars: Items { items: [3, 0, 3, 3, 3] }, unit: 1 }, \
        Proof { scale: 1, weights: Items { items: [\
        Weight { times: 1, of: Star(2) }, \
        Weight { times: 1, of: Row(Row { coefs: \
        SharedCoefs { coefs: SharedList { items: [-1, 0, 0, 0, 1] }, first: 0, end: 5 }, least: 0 }) }, \
        Weight { times: 1, of: Row(Row { coefs: \
        SharedCoefs { coefs: SharedList { items: [0, -2, 0, 1, -1] }, first: 1, end: 5 }, least: 0 }) }, \
        Weight { times: 1, of: Row(Row { coefs: \
        SharedCoefs { coefs: SharedList { items: [0, 1, 1, 0, 0] }, first: 1, end: 3 }, least: 3 }) }, \
        Weight { times: 1, of: Row(Row { coefs: \
        SharedCoefs { coefs: SharedList { items: [1, 0, -1, 0, 0] }, first: 0, end: 3 }, least: 0 }) }\
        ] }, total: 3 })",
    );
    Ok(())
}

/// The last pivot of the budget finds the least; where the pivot run took one more, none is left for it.
#[test]
fn the_last_pivot(rt: HostRuntime) -> Result<(), Fail> {
    for (works, wanted) in [(1995, "total: 3 })"), (1996, "Unsolved(Pivots)")] {
        let found = two_jobs_text(rt.alloc(), works, 6)?;
        assert!(rt; found.starts_with("Found("));
        assert!(rt; found.ends_with(wanted));
    }
    Ok(())
}

// What the least run answers where there is neither a row nor a star.
fn nothing_text(alloc: Global) -> Result<String, AllocError> {
    let list = system(alloc, &[], &[], 0)?;
    answer(alloc, &list, &[], 0)
}

// What it answers to a chain where the goal is seven times each star.
fn chain_text(alloc: Global, stars: u16) -> Result<String, AllocError>
    requires { stars ≤ 64 }
{
    let list = chain(alloc, stars)?;
    answer(alloc, &list, &[7; 64], 0)
}

/// Without rows and stars the goal is 0; the chain of twenty is too large before there is a goal.
#[test]
fn least_of_nothing_and_of_a_chain(rt: HostRuntime) -> Result<(), Fail> {
    let found = nothing_text(rt.alloc())?;
    expect(
        &rt,
        found,
        "Found(Found { stars: Items { items: [] }, unit: 1 }, \
        Proof { scale: 1, weights: Items { items: [] }, total: 0 })",
    );
    let found = chain_text(rt.alloc(), 20)?;
    expect(&rt, found, "Unsolved(Large(19))");
    Ok(())
}

// What it answers to a chain of nineteen, whose last star is 10^18.
fn nineteen_text(alloc: Global, numbers: &[u16], plus: u32) -> Result<String, AllocError> {
    let list = chain(alloc, 19)?;
    answer(alloc, &list, numbers, plus)
}

/// A goal of 2^62 - 1 parts is found, and one of 2^62 is too large; five times 10^18 are too large as a line already.
#[test]
fn goals_at_the_limit(rt: HostRuntime) -> Result<(), Fail> {
    let limit = [0, 0, 0, 0, 0, 0, 0, 0, 0, 8, 1, 0, 6, 8, 6, 1, 1, 6, 4];
    let five = [0, 0, 0, 0, 0, 0, 0, 0, 0, 0, 0, 0, 0, 0, 0, 0, 0, 0, 5];
    let table = [
        (limit, 427_387_903, "total: 4611686018427387903 })"),
        (limit, 427_387_904, "Unsolved(Large(19))"),
        (five, 0, "Unsolved(Large(19))"),
    ];
    for (numbers, plus, wanted) in table {
        let found = nineteen_text(rt.alloc(), &numbers, plus)?;
        assert!(rt; found.ends_with(wanted));
    }
    Ok(())
}
