//! Whether the functions of a program have their declared kinds.
ghost use Rattle.std.specs.Prelude.{◌≡◌, ◌<◌, ◌↔◌, length, IsTrue, IfOk};
ghost use Rattle.nomos_ir.specs.TermKind.{HasKind};
ghost use Rattle.nomos_rows.specs.mirror.Declarations.{FunctionFault, FunctionFine, TellsFunction};
ghost use Rattle.nomos_rows.specs.mirror.FirstFault.{TellsBelow};

use crate::first_fault::{DeclarationFault, earliest};
use nomos_ir::declaration::FnDecl;
use nomos_ir::kind::Kind;
use nomos_ir::program::Program;
use nomos_terms::kinds::{TermError, term_kind};
use std::alloc::{AllocError, Global};

/// Whether the kinds are the same.
fn is_same_kind(a: Kind, b: Kind) -> bool
    ensures { IsTrue result ↔ (a ≡ b) }
{
    a == b
}

/// Whether the body of a function has the declared kind.
fn has_its_kind(alloc: Global, program: &Program, function: &FnDecl) -> Result<bool, AllocError>
    requires { function.now.body.0 < length program.now.terms }
    ensures { IfOk result (λ yes. IsTrue yes
        ↔ HasKind program.now function.now.pars function.now.body function.now.gives) }
{
    match term_kind(alloc, program, function.body, &function.pars) {
        Ok(kind) => Ok(is_same_kind(kind, function.gives)),
        Err(TermError::TermType(_)) => Ok(false),
        Err(TermError::NoMemory) => Err(AllocError),
    }
}

/// What is wrong with a function, at the offset of its name.
fn function_fault(
    alloc: Global,
    program: &Program,
    function: &FnDecl,
) -> Result<Option<(u32, DeclarationFault)>, AllocError>
    requires { function.now.body.0 < length program.now.terms }
    ensures { IfOk result (TellsFunction program.now function.now) }
{
    if has_its_kind(alloc, program, function)? {
        Ok(None)
    } else {
        Ok(Some((function.at, DeclarationFault::OtherKind)))
    }
}

/// The first fault of a function, in order of text.
pub(crate) fn first_other_kind(
    alloc: Global,
    program: &Program,
) -> Result<Option<(u32, DeclarationFault)>, AllocError>
    ensures { IfOk result (TellsBelow (FunctionFault program.now) (FunctionFine program.now) (length program.now.fns)) }
{
    let mut first = None;
    for function in program.lists().fns.as_slice() {
        let found = function_fault(alloc, program, function)?;
        first = earliest(first, found);
    }
    Ok(first)
}
