//! Tests: types on whose talks a channel is sent sooner or later, and types on whose talks none is.
use crate::sketch::{is_contractive, program_of};
use nomos_equality::carriers::carries;
use nomos_ir::ids::TypeId;
use nomos_ir::program::Program;
use std::alloc::{AllocError, Global};
use std::process::Abort;
use std::test::Fail;

// Whether a channel is sent on the talk of a type, if there is such a type.
fn carried(alloc: Global, program: &Program, t: TypeId) -> Result<Option<bool>, AllocError> {
    if t.0 as usize >= program.lists().types.len() || !is_contractive(alloc, program) {
        return Ok(None);
    }
    Ok(Some(carries(alloc, program, t)?))
}

// The same of the first definition.
fn first(alloc: Global, program: &Program) -> Result<Option<bool>, AllocError> {
    match program.lists().defs.as_slice() {
        [first, ..] => carried(alloc, program, first.body),
        [] => Ok(None),
    }
}

// The same of a sketch.
fn answer(alloc: Global, sketch: &str) -> Result<Option<bool>, AllocError> {
    match program_of(alloc, sketch)? {
        Some(program) => {
            let found = first(alloc, &program);
            drop(program);
            found
        }
        None => Ok(None),
    }
}

// Fails unless this is the answer on a sketch.
fn expect(rt: &(impl Abort + AllocGlobal), sketch: &str, wanted: bool) -> Result<(), Fail> {
    let found = answer(rt.alloc(), sketch)?;
    assert_eq!(rt; found, Some(wanted), "{sketch}");
    Ok(())
}

#[test]
fn tells_on_which_talks_a_channel_is_sent(rt: HostRuntime) -> Result<(), Fail> {
    let cases = [
        ("1 =", false),
        // labels, values, payments and loops
        ("1 a !i ?b >3 <2 &ab =", false),
        // a channel from the provider, and one from the client
        ("1 1 * =", true),
        ("1 1 o =", true),
        // behind a loop, a value, a label
        ("a !i 1 1 o ?i +ab =", true),
        // behind a name
        ("b !i = 1 1 * =", true),
        ("b !i = a ?i =", false),
        // none is looked for behind an up or a down
        ("1 1 * ^ =S", false),
        ("1 1 * v !i =", false),
    ];
    for (sketch, wanted) in cases {
        expect(&rt, sketch, wanted)?;
    }
    Ok(())
}
