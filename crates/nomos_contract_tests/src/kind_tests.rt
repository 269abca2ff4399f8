//! Tests: the kind of a term that is nested deep, and of one that has none.
ghost use Rattle.std.specs.Prelude.{◌≡◌, length};

use crate::term_programs::{negations, program_of};
use nomos_ir::declaration::Kinds;
use nomos_ir::ids::{TermId, VarId};
use nomos_ir::items::Items;
use nomos_ir::kind::{Base, Kind};
use nomos_ir::program::Program;
use nomos_terms::kinds::term_kind;
use std::alloc::{AllocError, Global};
use std::test::Fail;

// What is answered for the last term of a program of 20,001.
fn answer(alloc: Global, program: &Program, vars: &Kinds) -> Result<String, AllocError>
    requires { length program.now.terms ≡ 20001 }
{
    let found = term_kind(alloc, program, TermId(20000), vars);
    format!(in alloc; "{found:?}")
}

// What is answered for 20,000 negations of a variable, where the variables have these kinds.
fn answer_under(alloc: Global, vars: &Kinds) -> Result<String, AllocError> {
    let terms = negations(alloc, 20000)?;
    match program_of(alloc, terms, 0)? {
        Some(program) => answer(alloc, &program, vars),
        None => format!(in alloc; "no program"),
    }
}

#[test]
fn finds_kinds_however_deep(rt: HostRuntime) -> Result<(), Fail> {
    let kind = Kind {
        lists: 0,
        base: Base::Bool,
    };
    let vars = Items::of_vec(vec![in rt.alloc(); (VarId(3), kind)]?);
    let found = answer_under(rt.alloc(), &vars)?;
    assert_eq!(rt; found.as_str(), "Ok(Kind { lists: 0, base: Bool })");
    Ok(())
}

#[test]
fn finds_no_kind_however_deep(rt: HostRuntime) -> Result<(), Fail> {
    let found = answer_under(rt.alloc(), &Items::of_vec(Vec::new(rt.alloc())))?;
    assert_eq!(rt; found.as_str(), "Err(TermType(20000))");
    Ok(())
}
