//! What the terms come to of the instruction at which a process stands.
ghost use Rattle.std.specs.Prelude.{◌≡◌, ◌≢◌, ◌↔◌, [], Some, None, IsTrue, IfOk, IfSome, slice_get};
ghost use Rattle.std.specs.List.{flat_map};
ghost use Rattle.nomos_ir.specs.CodeParts.{arg_terms, code_terms};
ghost use Rattle.nomos_ir.specs.TermsEvaluation.{instruction_evaluation, terms_of};
ghost use Rattle.nomos_eval.specs.Outcomes.{outcome_of};
ghost use Rattle.nomos_machine.specs.State.{process_at};
ghost use Rattle.nomos_machine.specs.declared.object.Process.{Process};
ghost use Rattle.nomos_deeds.specs.Decisions.{TermsComeTo};

use crate::arms::code_at;
use crate::sight::Sight;
use crate::value_copies::is_same_env;
use nomos_eval::wanted::{Outcome, Wanted, evaluate_at};
use nomos_ir::code_node::{CodeNode, ValueArg};
use nomos_ir::ids::CodeId;
use nomos_ir::value::Values;
use nomos_types::accepted::Accepted;
use std::alloc::{AllocError, Global};

// Whether there is a term among arguments.
fn has_term(args: &[ValueArg]) -> bool
    ensures { IsTrue result ↔ (flat_map arg_terms args.now ≢ []) }
{
    for arg in args {
        if let ValueArg::Term(_) = arg {
            return true;
        }
    }
    false
}

/// Whether an instruction has terms.
pub(crate) fn has_terms(node: &CodeNode) -> bool
    ensures { IsTrue result ↔ (code_terms node.now ≢ []) }
{
    match node {
        CodeNode::Put(_, _, _, _)
        | CodeNode::Let(_, _, _, _)
        | CodeNode::Emit(_, _, _)
        | CodeNode::If(_, _, _, _)
        | CodeNode::Add(_, _, _, _, _) => true,
        CodeNode::Spawn(_, _, _, args, _) | CodeNode::Call(_, _, args) => {
            has_term(args.values.as_slice())
        }
        _ => false,
    }
}

/// The instruction at which a process stands, where it has terms.
pub(crate) fn code_with_terms<S: Sight>(sight: &S, accepted: &Accepted, pid: u32) -> Option<CodeId>
    ensures found { IfSome result (λ code. (p : Process) × (process_at (S.state sight.now) pid ≡ Some p)
        × (code ≡ p.code) × (terms_of (slice_get accepted.now.program.code p.code.0) ≢ [])) }
    ensures none { result ≡ None → (p : Process) → process_at (S.state sight.now) pid ≡ Some p
        → terms_of (slice_get accepted.now.program.code p.code.0) ≡ [] }
{
    let seen = sight.process(pid)?;
    let node = code_at(accepted, seen.code)?;
    if has_terms(node) {
        Some(seen.code)
    } else {
        None
    }
}

// What the terms of a process's instruction come to.
fn evaluated<S: Sight>(
    sight: &S,
    alloc: Global,
    accepted: &Accepted,
    pid: u32,
) -> Result<Outcome, AllocError>
    ensures { IfOk result (λ outcome. TermsComeTo accepted.now (S.state sight.now) pid (outcome_of outcome)) }
{
    match sight.process(pid) {
        Some(seen) => evaluate_at(alloc, accepted.program(), seen.code, sight.values(pid)),
        None => Ok(Outcome::Values(Values::empty())),
    }
}

// A copy of an outcome.
fn copy_outcome(outcome: &Outcome) -> Result<Outcome, AllocError>
    ensures { IfOk result (λ made. outcome_of made ≡ outcome_of outcome.now) }
{
    match outcome {
        Outcome::Values(values) => Ok(Outcome::Values(values.copy()?)),
        Outcome::Fault(fault) => Ok(Outcome::Fault(*fault)),
    }
}

// Whether a process stands at the wanted instruction, with the wanted values.
fn is_wanted<S: Sight>(sight: &S, pid: u32, wanted: &Wanted) -> bool
    ensures { (p : Process) → process_at (S.state sight.now) pid ≡ Some p
        → IsTrue result ↔ (p.code ≡ wanted.now.code) × (p.values ≡ wanted.now.env) }
{
    match sight.process(pid) {
        Some(seen) => seen.code == wanted.code
            && is_same_env(sight.values(pid), wanted.env.as_slice()),
        None => false,
    }
}

/// What the terms of a process's instruction come to, where it may be known what those of a wanted one do.
pub(crate) fn known_or_evaluated<S: Sight>(
    sight: &S,
    alloc: Global,
    accepted: &Accepted,
    pid: u32,
    known: (&Wanted, &Outcome),
) -> Result<Outcome, AllocError>
    requires { outcome_of known.1.now
        ≡ instruction_evaluation accepted.now.program known.0.now.env known.0.now.code.0 }
    ensures { IfOk result (λ outcome. TermsComeTo accepted.now (S.state sight.now) pid (outcome_of outcome)) }
{
    if is_wanted(sight, pid, known.0) {
        copy_outcome(known.1)
    } else {
        evaluated(sight, alloc, accepted, pid)
    }
}
