//! The evaluation of a term.
ghost use Rattle.std.specs.Prelude.{◌≡◌, ℕ, IfOk, IfSome, unwrap_or};
ghost use Rattle.nomos_ir.specs.Bindings.{bound_to};
ghost use Rattle.nomos_ir.specs.Evaluation.{ends, nought, term_evaluation};
ghost use Rattle.nomos_ir.specs.ValueNode.{value_of};
ghost use Rattle.nomos_eval.specs.EvaluatedAs.{EvaluatedAs};
ghost use Rattle.nomos_eval.specs.mirror.Ascending.{Rises};
ghost use Rattle.nomos_eval.specs.mirror.Begin.{IsBegun};
ghost use Rattle.nomos_eval.specs.mirror.Operation.{given};
ghost use Rattle.nomos_eval.specs.mirror.TermsFound.{IsValue};

use crate::around::{Around, bound_value};
use crate::evaluating::run;
use crate::evaluator::Evaluator;
use crate::list_store::Lists;
use crate::numbers::Yield;
use crate::pending::{Pending, TermScope};
use crate::scopes::Scopes;
use crate::small::small_operation;
use crate::values::unload;
use nomos_ir::fault::Fault;
use nomos_ir::find::find_term;
use nomos_ir::ids::{TermId, VarId};
use nomos_ir::items::Items;
use nomos_ir::lists::ProgramLists;
use nomos_ir::or_no_memory::OrNoMemory;
use nomos_ir::program::Program;
use nomos_ir::stack::Stack;
use nomos_ir::term_node::TermNode;
use nomos_ir::value::Value;
use nomos_ir::value_node::ValueNode;
use std::alloc::{AllocError, Global};

/// Variables, each with its value.
pub type Env = Items<(VarId, Value)>;

/// What an evaluation comes to.
#[derive(Drop, Debug)]
pub enum Evaluated {
    Value(Value),
    Fault(Fault),
}

/// The value of a node.
pub fn value_from(node: ValueNode) -> Value
    ensures { result ≡ value_of node }
{
    match node {
        ValueNode::Int(z) => Value::int(z),
        ValueNode::Bool(b) => Value::truth(b),
        ValueNode::List(items) => Value::list(items),
    }
}

// An evaluation before its first step: the term is left to do.
fn begin<'a>(
    alloc: Global,
    t: TermId,
    env: &'a [(VarId, Value)],
    known: usize,
) -> Result<Evaluator<'a>, AllocError>
    requires { Rises env.now known }
    ensures { IfOk result (λ evaluator. IsBegun t env.now evaluator) }
{
    let mut scopes = Scopes::new(alloc);
    let variables = scopes.add_nothing()?;
    let scope = TermScope {
        variables,
        calls: 0,
    };
    let mut todo = Stack::new(alloc);
    todo.push(Pending::Term(scope, t))?;
    Ok(Evaluator {
        todo,
        values: Stack::new(alloc),
        lists: Lists::new(alloc),
        scopes,
        around: Around { env, known },
    })
}

/// The value of the term among these variables, or the fault with which its evaluation ends; docs/LANGUAGE.md,
/// "Evaluation of terms", says which. No depth of calls or of terms uses the evaluator's stack; only lists inside lists
/// that it makes do, in step with how deep they are. It takes time and memory in step with the nodes entered and with
/// the value that it gives, where a list of a variable counts as one, whatever its length.
pub fn eval(alloc: Global, program: &Program, t: TermId, env: &Env) -> Result<Evaluated, AllocError>
    ensures { IfOk result (λ evaluated. EvaluatedAs (term_evaluation program.now env.now t) evaluated) }
{
    match eval_node(alloc, program.lists(), t, env.as_slice(), 0) {
        Ok(node) => Ok(Evaluated::Value(value_from(node))),
        Err(OrNoMemory::Answer(fault)) => Ok(Evaluated::Fault(fault)),
        Err(OrNoMemory::NoMemory) => Err(AllocError),
    }
}

/// The value of the term as a node, among variables of which so many first ones are known to ascend.
pub(crate) fn eval_node(
    alloc: Global,
    lists: &ProgramLists,
    t: TermId,
    env: &[(VarId, Value)],
    known: usize,
) -> Result<ValueNode, OrNoMemory<Fault>>
    requires { Rises env.now known }
    ensures { IsValue result (term_evaluation lists.now env.now t) }
{
    if let Some(found) = small_term(lists, t, env, known) {
        return found;
    }
    let mut evaluator = begin(alloc, t, env, known)?;
    let found = run(lists, &mut evaluator)?;
    let node = unload(alloc, &evaluator.lists, found)?;
    Ok(node)
}

// What a term comes to that is a number, a truth value, a variable, or an operator between numbers and variables that
// are numbers; nothing of other terms. It takes no memory.
fn small_term(
    lists: &ProgramLists,
    t: TermId,
    env: &[(VarId, Value)],
    known: usize,
) -> Option<Result<ValueNode, OrNoMemory<Fault>>>
    requires { Rises env.now known }
    ensures { IfSome result (λ found. IsValue found (term_evaluation lists.now env.now t)) }
{
    let node = find_term(lists, t)?;
    match node {
        TermNode::Number(_, n) => Some(Ok(ValueNode::Int(i64::from(*n)))),
        TermNode::Truth(_, b) => Some(Ok(ValueNode::Bool(*b))),
        TermNode::Var(_, v) => Some(node_bound(env, known, *v)),
        _ => Some(node_given(small_operation(lists, node, env, known)?)),
    }
}

// The value of a variable as a node; one without a value is 0. A list is not copied.
fn node_bound(
    env: &[(VarId, Value)],
    known: usize,
    v: VarId,
) -> Result<ValueNode, OrNoMemory<Fault>>
    requires { Rises env.now known }
    ensures { IsValue result (ends (unwrap_or (bound_to v.0 env.now) nought) 1) }
{
    match bound_value(env, known, v) {
        Some(value) => Ok(value.node().copy()?),
        None => Ok(ValueNode::Int(0)),
    }
}

// What an operator gave, as a node or a fault.
fn node_given(what: Yield) -> Result<ValueNode, OrNoMemory<Fault>>
    ensures { (n : ℕ) → IsValue result (given what n) }
{
    match what {
        Yield::Int(z) => Ok(ValueNode::Int(z)),
        Yield::Bool(b) => Ok(ValueNode::Bool(b)),
        Yield::Fault(fault) => Err(OrNoMemory::Answer(fault)),
    }
}
