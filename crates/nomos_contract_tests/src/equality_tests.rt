//! Tests: types that are equal, with the pairs of amounts that this needs, and types that are not, with a path.
use crate::sketch::{is_contractive, program_of};
use nomos_equality::equalities::Equalities;
use nomos_equality::equality::{Equality, equal};
use nomos_ir::program::Program;
use std::alloc::{AllocError, Global};
use std::process::Abort;
use std::test::Fail;

// Whether the first two definitions are equal, if there are two, and no definition is a bare name.
fn first_two(alloc: Global, program: &Program) -> Result<Option<Equality>, AllocError> {
    let defs = program.lists().defs.as_slice();
    if defs.len() < 2 || !is_contractive(alloc, program) {
        return Ok(None);
    }
    let found = equal(alloc, program, defs[0].body, defs[1].body)?;
    Ok(Some(found))
}

// The same of a sketch.
fn answer(alloc: Global, sketch: &str) -> Result<Option<Equality>, AllocError> {
    match program_of(alloc, sketch)? {
        Some(program) => {
            let found = first_two(alloc, &program);
            drop(program);
            found
        }
        None => Ok(None),
    }
}

// The same, as a text.
fn shown(alloc: Global, sketch: &str) -> Result<String, AllocError> {
    let found = answer(alloc, sketch)?;
    format!(in alloc; "{found:?}")
}

// Fails unless this is shown of a sketch.
fn expect(rt: &(impl Abort + AllocGlobal), sketch: &str, wanted: &str) -> Result<(), Fail> {
    let found = shown(rt.alloc(), sketch)?;
    assert_eq!(rt; found.as_str(), wanted, "{sketch}");
    Ok(())
}

const NO_PAIRS: &str = "Some(Yes(Items { items: [] }))";

const AT_ONCE: &str = "Some(No(Items { items: [] }))";

#[test]
fn tells_equal_types_with_the_amounts_at_equal_paths(rt: HostRuntime) -> Result<(), Fail> {
    let cases = [
        // definitions that name one another, and one that has two steps in one
        ("b +a = a +a =", NO_PAIRS),
        ("a +a +a = b +a =", NO_PAIRS),
        ("a ^ b * = b ^ a * =", NO_PAIRS),
        // labels in other order
        ("a 1 +ab = 1 b +ba =", NO_PAIRS),
        // a type that stands nowhere: no program
        ("1 = 1 = 1", "None"),
        // amounts, and each pair once
        (
            "a >3 = b >s =",
            "Some(Yes(Items { items: [(Written(3), Star(1))] }))",
        ),
        (
            "a >3 a >3 &ab = b >3 b >3 &ba =",
            "Some(Yes(Items { items: [(Written(3), Written(3))] }))",
        ),
        (
            "1 <2 >2 <2 1 <2 >2 * = 1 <5 >5 <5 1 <5 >5 * =",
            "Some(Yes(Items { items: [(Written(2), Written(5))] }))",
        ),
        // kinds, and both directions
        ("a ?I 1 !b * = b ?I 1 !b * =", NO_PAIRS),
    ];
    for (sketch, wanted) in cases {
        expect(&rt, sketch, wanted)?;
    }
    Ok(())
}

#[test]
fn tells_equal_cycles_with_all_amounts_that_meet(rt: HostRuntime) -> Result<(), Fail> {
    let cases = [
        // lengths without a common factor, where nothing is paid
        ("a +a +a = b +a +a +a =", NO_PAIRS),
        ("a !i !i !i = b !i !i !i !i !i =", NO_PAIRS),
        // the same with amounts: each of the one meets each of the other
        (
            "a >1 >2 = b >3 >4 >5 =",
            "Some(Yes(Items { items: [(Written(2), Written(5)), (Written(1), Written(4)), (Written(2), Written(3)), \
            (Written(1), Written(5)), (Written(2), Written(4)), (Written(1), Written(3))] }))",
        ),
        // amounts that stand on a carried channel alone, on one branch alone, or behind `up`
        (
            "1 <3 a * = 1 <5 b * =",
            "Some(Yes(Items { items: [(Written(3), Written(5))] }))",
        ),
        (
            "a 1 >3 +ab = b 1 >5 +ab =",
            "Some(Yes(Items { items: [(Written(3), Written(5))] }))",
        ),
        (
            "a >3 ^ = b >5 ^ =",
            "Some(Yes(Items { items: [(Written(3), Written(5))] }))",
        ),
    ];
    for (sketch, wanted) in cases {
        expect(&rt, sketch, wanted)?;
    }
    Ok(())
}

// What is answered of the first two definitions, then of the next two, and of the first two again, and which amounts
// are gathered of these, as a text; an empty one where there are no four definitions or one is a bare name.
fn compared_in_turn(alloc: Global, program: &Program) -> Result<String, AllocError> {
    let defs = program.lists().defs.as_slice();
    if defs.len() < 4 || !is_contractive(alloc, program) {
        return Ok(String::new(alloc));
    }
    let mut equalities = Equalities::new(alloc);
    let free = equalities.compare(program, defs[0].body, defs[1].body)?;
    let paying = equalities.compare(program, defs[2].body, defs[3].body)?;
    let again = equalities.compare(program, defs[0].body, defs[1].body)?;
    let amounts = equalities.into_amounts()?;
    format!(in alloc; "{free:?} {paying:?} {again:?} {amounts:?}")
}

// The same of a sketch.
fn sketch_in_turn(alloc: Global, sketch: &str) -> Result<String, AllocError> {
    match program_of(alloc, sketch)? {
        Some(program) => {
            let shown = compared_in_turn(alloc, &program);
            drop(program);
            shown
        }
        None => Ok(String::new(alloc)),
    }
}

#[test]
fn gathers_amounts_beside_types_that_pay_nothing(rt: HostRuntime) -> Result<(), Fail> {
    let sketch = "a +a +a = b +a +a +a = c +a >1 +a = d +a >2 +a =";
    let found = sketch_in_turn(rt.alloc(), sketch)?;
    let wanted = "Equal Equal Equal Items { items: [(Written(1), Written(2))] }";
    assert_eq!(rt; found.as_str(), wanted);
    Ok(())
}

#[test]
fn tells_other_types_with_a_path(rt: HostRuntime) -> Result<(), Fail> {
    let cases = [
        (
            "1 +a +a +a +a +a +a +a +a = 1 !i +a +a +a +a +a +a +a +a =",
            "Some(No(Items { items: [Label(Label(0)), Label(Label(0)), Label(Label(0)), Label(Label(0)), \
            Label(Label(0)), Label(Label(0)), Label(Label(0)), Label(Label(0))] }))",
        ),
        (
            "a 1 +ab = b 1 +ba =",
            "Some(No(Items { items: [Label(Label(0))] }))",
        ),
        ("1 1 !i * = 1 1 !b * =", "Some(No(Items { items: [Next] }))"),
        ("1 1 o = 1 1 !b o =", "Some(No(Items { items: [Next] }))"),
        ("1 ^ 1 o = 1 1 o =", "Some(No(Items { items: [Carried] }))"),
        // labels that only one of them has
        ("1 +a = 1 1 +ab =", AT_ONCE),
        ("1 1 +ab = 1 +a =", AT_ONCE),
        ("1 +a = 1 +b =", AT_ONCE),
        ("1 +a = 1 &a =", AT_ONCE),
        ("1 >3 = 1 <3 =", AT_ONCE),
        ("1 !i = 1 !I =", AT_ONCE),
    ];
    for (sketch, wanted) in cases {
        expect(&rt, sketch, wanted)?;
    }
    Ok(())
}
