//! What is wanted of a process at an instruction, and what the terms of the instruction come to.
ghost use Rattle.std.specs.Prelude.{◌≡◌, ◌∷◌, [], IfOk, slice_get, option_copied};
ghost use Rattle.std.specs.List.{flat_map};
ghost use Rattle.nomos_ir.specs.CodeParts.{arg_terms, code_terms};
ghost use Rattle.nomos_ir.specs.TermsEvaluation.{instruction_evaluation, terms_evaluation};
ghost use Rattle.nomos_eval.specs.Outcomes.{outcome_of};
ghost use Rattle.nomos_eval.specs.mirror.Ascending.{Rises};
ghost use Rattle.nomos_eval.specs.mirror.TermsFound.{AreValues};

use crate::ascending::rising;
use crate::evaluation::{Env, eval_node};
use nomos_ir::code_node::{CodeNode, ValueArg};
use nomos_ir::fault::Fault;
use nomos_ir::find::find_code;
use nomos_ir::ids::{CodeId, TermId, VarId};
use nomos_ir::lists::ProgramLists;
use nomos_ir::or_no_memory::OrNoMemory;
use nomos_ir::program::Program;
use nomos_ir::value::{Value, Values};
use std::alloc::{AllocError, Global};

// So many terms of one instruction are many.
const MANY_TERMS: usize = 8;

/// The instruction at which a process stands, and its values.
#[derive(Drop, Debug)]
pub struct Wanted {
    pub code: CodeId,
    pub env: Env,
}

/// What the terms of an instruction come to: their values in order, or the fault of the first that has one.
#[derive(Drop, Debug)]
pub enum Outcome {
    Values(Values),
    Fault(Fault),
}

/// What the terms of the wanted instruction come to among the wanted values.
pub fn evaluate(alloc: Global, program: &Program, wanted: &Wanted) -> Result<Outcome, AllocError>
    ensures { IfOk result (λ outcome.
        outcome_of outcome ≡ instruction_evaluation program.now wanted.now.env wanted.now.code.0) }
{
    evaluate_at(alloc, program, wanted.code, wanted.env.as_slice())
}

/// What the terms of the instruction with this number come to among these variables, which are not copied.
pub fn evaluate_at(
    alloc: Global,
    program: &Program,
    code: CodeId,
    env: &[(VarId, Value)],
) -> Result<Outcome, AllocError>
    ensures { IfOk result (λ outcome.
        outcome_of outcome ≡ instruction_evaluation program.now env.now code.0) }
{
    match values_at(alloc, program.lists(), code, env) {
        Ok(values) => Ok(Outcome::Values(values)),
        Err(OrNoMemory::Answer(fault)) => Ok(Outcome::Fault(fault)),
        Err(OrNoMemory::NoMemory) => Err(AllocError),
    }
}

// The values of the terms of the instruction with this number.
fn values_at(
    alloc: Global,
    lists: &ProgramLists,
    code: CodeId,
    env: &[(VarId, Value)],
) -> Result<Values, OrNoMemory<Fault>>
    ensures { AreValues result (instruction_evaluation lists.now env.now code.0) }
{
    match find_code(lists, code) {
        Some(node) => values_in(alloc, lists, node, env),
        None => Ok(Values::empty()),
    }
}

// The values of the terms of an instruction.
fn values_in(
    alloc: Global,
    lists: &ProgramLists,
    node: &CodeNode,
    env: &[(VarId, Value)],
) -> Result<Values, OrNoMemory<Fault>>
    ensures { AreValues result (terms_evaluation lists.now env.now (code_terms node.now)) }
{
    match node {
        CodeNode::Put(_, _, e, _)
        | CodeNode::Let(_, _, e, _)
        | CodeNode::Emit(_, e, _)
        | CodeNode::If(_, e, _, _)
        | CodeNode::Add(_, _, e, _, _) => value_alone(alloc, lists, *e, env),
        CodeNode::Spawn(_, _, _, args, _) | CodeNode::Call(_, _, args) => {
            argument_values(alloc, lists, args.values.as_slice(), env)
        }
        _ => Ok(Values::empty()),
    }
}

// The value of a term by itself.
fn value_alone(
    alloc: Global,
    lists: &ProgramLists,
    t: TermId,
    env: &[(VarId, Value)],
) -> Result<Values, OrNoMemory<Fault>>
    ensures { AreValues result (terms_evaluation lists.now env.now (t.0 ∷ [])) }
{
    let node = eval_node(alloc, lists, t, env, 0)?;
    Ok(Values::with_first(alloc, node, Values::empty())?)
}

// Of how many first variables it is known that they ascend, before so many terms are evaluated among them: it is looked
// at where the terms are many, since each of them may look along all variables otherwise.
fn known_for(terms: usize, env: &[(VarId, Value)]) -> usize
    ensures { Rises env.now result }
{
    let end = if terms < MANY_TERMS { 0 } else { env.len() };
    rising(env, 0, end)
}

// The values of those arguments that are terms.
fn argument_values(
    alloc: Global,
    lists: &ProgramLists,
    args: &[ValueArg],
    env: &[(VarId, Value)],
) -> Result<Values, OrNoMemory<Fault>>
    ensures { AreValues result (terms_evaluation lists.now env.now (flat_map arg_terms args.now)) }
{
    let known = known_for(args.len(), env);
    let mut nodes = Vec::new(alloc);
    for arg in args {
        if let ValueArg::Term(e) = arg {
            let node = eval_node(alloc, lists, *e, env, known)?;
            nodes.push(node)?;
        }
    }
    Ok(Values::of_vec(alloc, nodes)?)
}
