//! Tests: shared types that are synchronizing, with the pairs of amounts that this needs, and shared types that are
//! not, with a path.
use crate::sketch::{is_contractive, program_of};
use nomos_equality::synchronizing::{Synced, synchronizing};
use nomos_ir::ids::TypeId;
use nomos_ir::program::Program;
use nomos_ir::type_node::TypeNode;
use std::alloc::{AllocError, Global};
use std::process::Abort;
use std::test::Fail;

// Whether a type is synchronizing, if it is shared.
fn shared(alloc: Global, program: &Program, t: TypeId) -> Result<Option<Synced>, AllocError> {
    if t.0 as usize >= program.lists().types.len() || !is_contractive(alloc, program) {
        return Ok(None);
    }
    match program.node(t) {
        TypeNode::Up(_) => Ok(Some(synchronizing(alloc, program, t)?)),
        _ => Ok(None),
    }
}

// The same of the first definition.
fn first(alloc: Global, program: &Program) -> Result<Option<Synced>, AllocError> {
    match program.lists().defs.as_slice() {
        [first, ..] => shared(alloc, program, first.body),
        [] => Ok(None),
    }
}

// The same of a sketch.
fn answer(alloc: Global, sketch: &str) -> Result<Option<Synced>, AllocError> {
    match program_of(alloc, sketch)? {
        Some(program) => {
            let found = first(alloc, &program);
            drop(program);
            found
        }
        None => Ok(None),
    }
}

// The same, as a text.
fn shown(alloc: Global, sketch: &str) -> Result<String, AllocError> {
    let found = answer(alloc, sketch)?;
    format!(in alloc; "{found:?}")
}

// Fails unless this is shown of a sketch.
fn expect(rt: &(impl Abort + AllocGlobal), sketch: &str, wanted: &str) -> Result<(), Fail> {
    let found = shown(rt.alloc(), sketch)?;
    assert_eq!(rt; found.as_str(), wanted, "{sketch}");
    Ok(())
}

const NO_PAIRS: &str = "Some(Yes(Items { items: [] }))";

#[test]
fn tells_which_shared_types_lead_back(rt: HostRuntime) -> Result<(), Fail> {
    let cases = [
        // up down a
        ("a v ^ =S", NO_PAIRS),
        // up down b with b the same, or another name of it
        ("b v ^ =S b v ^ =S", NO_PAIRS),
        ("b v ^ =S a v ^ =S", NO_PAIRS),
        // up down b with b = up int /\ down a
        ("b v ^ =S a v !i ^ =S", "Some(No(Items { items: [] }))"),
        // the first branch leads back, the second one to another type
        (
            "a v b v !i +ab ^ =S b v ^ =S",
            "Some(No(Items { items: [Label(Label(1)), Next] }))",
        ),
        // neither what is carried nor what is behind an inner up is looked at
        ("b v !i ^ a v * ^ =S b v ^ =S", NO_PAIRS),
        ("b v !i ^ ^ =S b v ^ =S", NO_PAIRS),
        // amounts at equal paths of the type and of the one behind its down
        (
            "b v <2 ^ =S a v <s ^ =S",
            "Some(Yes(Items { items: [(Star(1), Written(2)), (Written(2), Star(1))] }))",
        ),
        // no down is reached, and a type that is not shared
        ("1 ^ =S", NO_PAIRS),
        ("1 =", "None"),
    ];
    for (sketch, wanted) in cases {
        expect(&rt, sketch, wanted)?;
    }
    Ok(())
}
