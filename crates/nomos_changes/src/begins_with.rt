//! What a process gives to the declaration of its instruction.
ghost use Rattle.std.specs.Prelude.{◌≡◌, Some, IfOk, IfSome, IsSome, option_copied, option_and_then, slice_get};
ghost use Rattle.nomos_ir.specs.declared.code_node.Args.{Args as Handed};
ghost use Rattle.nomos_ir.specs.declared.declaration.ProcDecl.{ProcDecl as Declared};
ghost use Rattle.nomos_deeds.specs.Acts.{args_of};
ghost use Rattle.nomos_machine.specs.Given.{Given as Gives};
ghost use Rattle.nomos_machine.specs.State.{process_at};
ghost use Rattle.nomos_machine.specs.declared.object.Process.{Process};
ghost use Rattle.nomos_changes.specs.Beginnings.{Begins, HasBegun};
ghost use Rattle.nomos_changes.specs.Gives.{given_in};

use crate::given::{Given, given_by};
use crate::parts::Parts;
use nomos_deeds::sight::{SeenProcess, Sight};
use nomos_ir::code_node::{Args, CodeNode};
use nomos_ir::declaration::ProcDecl;
use nomos_ir::find::find_code;
use nomos_ir::ids::{CodeId, ProcId};
use nomos_ir::value::Values;
use nomos_types::accepted::Accepted;
use std::alloc::{AllocError, Global};

/// What a process begins with at a declaration, and its plain fields.
#[derive(Drop)]
pub(crate) struct BeginsWith<'a> {
    pub(crate) declaration: &'a ProcDecl,
    pub(crate) args: &'a Args,
    pub(crate) given: Given,
    pub(crate) process: SeenProcess,
}

// The arguments of an instruction that has some.
fn args_of(node: &CodeNode) -> Option<&Args>
    ensures { option_copied result ≡ args_of node.now }
{
    match node {
        CodeNode::Spawn(_, _, _, args, _) | CodeNode::Call(_, _, args) => Some(args),
        _ => None,
    }
}

// The declaration of this number, if there is one.
fn declaration_of(accepted: &Accepted, f: ProcId) -> Option<&ProcDecl>
    ensures { option_copied result ≡ slice_get accepted.now.program.procs f.0 }
{
    let lists = accepted.program().lists();
    lists.procs.as_slice().get(f.0 as usize)
}

// The arguments of the instruction of this number, if there is one that has some.
fn args_at(accepted: &Accepted, code: CodeId) -> Option<&Args>
    ensures { option_copied result ≡ option_and_then args_of (slice_get accepted.now.program.code code.0) }
{
    let node = find_code(accepted.program().lists(), code)?;
    args_of(node)
}

/// What the process of this number gives to a declaration.
pub(crate) fn begins_with<'a, P: Parts>(
    parts: &P,
    alloc: Global,
    accepted: &'a Accepted,
    begins: (u32, ProcId),
    values: Values,
) -> Result<Option<BeginsWith<'a>>, AllocError>
    ensures found { IfOk result (λ found. IfSome found (λ begun.
        HasBegun accepted.now (P.state parts.now) begins.0 begins.1 values begun.declaration.now begun.args.now
        (given_in begun.given) begun.process)) }
    ensures some { (p : Process) (d : Declared) (args : Handed) (g : Gives)
        → process_at (P.state parts.now) begins.0 ≡ Some p → Begins accepted.now p begins.1 values d args g
        → IfOk result (λ found. IsSome found) }
{
    let Some(process) = parts.process(begins.0) else {
        return Ok(None);
    };
    let Some(declaration) = declaration_of(accepted, begins.1) else {
        return Ok(None);
    };
    let Some(args) = args_at(accepted, process.code) else {
        return Ok(None);
    };
    match given_by(parts, alloc, begins.0, values, (args, declaration))? {
        Some(given) => Ok(Some(BeginsWith {
            declaration,
            args,
            given,
            process,
        })),
        None => Ok(None),
    }
}
