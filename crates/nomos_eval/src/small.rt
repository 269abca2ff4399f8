//! Tests that are decided without memory, and operators between numbers and variables.
ghost use Rattle.std.specs.Prelude.{◌≡◌, ℕ, IfSome, MatchOption, slice_get, unwrap_or};
ghost use Rattle.nomos_ir.specs.Bindings.{bound_to};
ghost use Rattle.nomos_ir.specs.Evaluation.{nought, term_evaluation};
ghost use Rattle.nomos_ir.specs.Value.{truth_in};
ghost use Rattle.nomos_eval.specs.SmallTest.{Decides, IsSmallPart, IsSmallTest};
ghost use Rattle.nomos_eval.specs.mirror.Ascending.{Rises};
ghost use Rattle.nomos_eval.specs.mirror.Operation.{operation_node};
ghost use Rattle.nomos_eval.specs.mirror.SmallPart.{ComesTo, IsNumber, equal_parts, less_parts, part_of, part_value};

use crate::around::bound_value;
use crate::numbers::{NumberOperator, Yield, operate};
use nomos_ir::find::find_term;
use nomos_ir::ids::{TermId, VarId};
use nomos_ir::lists::ProgramLists;
use nomos_ir::program::Program;
use nomos_ir::term_node::TermNode;
use nomos_ir::value::Value;
use nomos_ir::value_node::ValueNode;

/// A part of a test: a number, or something else.
#[derive(Clone, Copy, PartialEq, Eq, Debug)]
pub(crate) enum SmallPart {
    Number(i64),
    Other,
}

/// Whether an `if` with this test takes its first part, where the test is a variable, or `<` or `=` between numbers and
/// variables. It takes no memory.
pub fn small_truth(program: &Program, t: TermId, env: &[(VarId, Value)]) -> Option<bool>
    ensures { MatchOption result (IsSmallTest program.now t.0 → ⊥) (λ first.
        IsSmallTest program.now t.0 × Decides (term_evaluation program.now env.now t) first) }
{
    let lists = program.lists();
    match find_term(lists, t)? {
        TermNode::Var(_, v) => Some(is_true(env, *v)),
        TermNode::Less(_, a, b) => {
            let (left, right) = (
                small_part(lists, *a, env, 0)?,
                small_part(lists, *b, env, 0)?,
            );
            Some(is_less(left, right))
        }
        TermNode::Equal(_, a, b) => {
            let (left, right) = (
                small_part(lists, *a, env, 0)?,
                small_part(lists, *b, env, 0)?,
            );
            Some(is_equal(left, right))
        }
        _ => None,
    }
}

// Whether a variable is true.
fn is_true(env: &[(VarId, Value)], v: VarId) -> bool
    ensures { result ≡ truth_in (unwrap_or (bound_to v.0 env.now) nought) }
{
    match bound_value(env, 0, v) {
        Some(value) => truth_in(value),
        None => false,
    }
}

// Whether a value is true.
fn truth_in(value: &Value) -> bool
    ensures { result ≡ truth_in value.now }
{
    match value.node() {
        ValueNode::Bool(b) => *b,
        _ => false,
    }
}

// A number or a variable, if it is one, among variables of which so many first ones are known to ascend.
fn small_part(
    lists: &ProgramLists,
    t: TermId,
    env: &[(VarId, Value)],
    known: usize,
) -> Option<SmallPart>
    requires { Rises env.now known }
    ensures { MatchOption result (IsSmallPart (slice_get lists.now.terms t.0) → ⊥) (λ part.
        IsSmallPart (slice_get lists.now.terms t.0)
        × (part ≡ part_of (part_value env.now (slice_get lists.now.terms t.0)))) }
{
    match find_term(lists, t)? {
        TermNode::Number(_, n) => Some(SmallPart::Number(i64::from(*n))),
        TermNode::Var(_, v) => Some(part_bound(env, known, *v)),
        _ => None,
    }
}

// A variable as a part; one without a value is 0.
fn part_bound(env: &[(VarId, Value)], known: usize, v: VarId) -> SmallPart
    requires { Rises env.now known }
    ensures { result ≡ part_of (unwrap_or (bound_to v.0 env.now) nought) }
{
    match bound_value(env, known, v) {
        Some(value) => part_from(value),
        None => SmallPart::Number(0),
    }
}

// A value as a part.
fn part_from(value: &Value) -> SmallPart
    ensures { result ≡ part_of value.now }
{
    match value.node() {
        ValueNode::Int(z) => SmallPart::Number(*z),
        _ => SmallPart::Other,
    }
}

// Whether one part is less than another; between other parts than numbers this is not true.
fn is_less(left: SmallPart, right: SmallPart) -> bool
    ensures { result ≡ less_parts left right }
{
    match (left, right) {
        (SmallPart::Number(x), SmallPart::Number(y)) => x < y,
        _ => false,
    }
}

// Whether two parts are one number.
fn is_equal(left: SmallPart, right: SmallPart) -> bool
    ensures { result ≡ equal_parts left right }
{
    match (left, right) {
        (SmallPart::Number(x), SmallPart::Number(y)) => x == y,
        _ => false,
    }
}

// The operator of a node and the terms on its sides, where it is one that takes numbers.
fn sides_of(node: &TermNode) -> Option<(NumberOperator, TermId, TermId)>
    ensures { IfSome result (λ found. (at : ℕ) × (node.now ≡ operation_node found.0 at found.1 found.2)) }
{
    match node {
        TermNode::Add(_, a, b) => Some((NumberOperator::Add, *a, *b)),
        TermNode::Sub(_, a, b) => Some((NumberOperator::Sub, *a, *b)),
        TermNode::Mul(_, a, b) => Some((NumberOperator::Mul, *a, *b)),
        TermNode::Div(_, a, b) => Some((NumberOperator::Div, *a, *b)),
        TermNode::Rem(_, a, b) => Some((NumberOperator::Rem, *a, *b)),
        TermNode::Less(_, a, b) => Some((NumberOperator::Less, *a, *b)),
        TermNode::Equal(_, a, b) => Some((NumberOperator::Equal, *a, *b)),
        _ => None,
    }
}

// A number, or a variable that is a number.
fn small_number(
    lists: &ProgramLists,
    t: TermId,
    env: &[(VarId, Value)],
    known: usize,
) -> Option<i64>
    requires { Rises env.now known }
    ensures { IfSome result (λ z. IsNumber env.now (slice_get lists.now.terms t.0) z) }
{
    match small_part(lists, t, env, known)? {
        SmallPart::Number(z) => Some(z),
        SmallPart::Other => None,
    }
}

/// What a node gives that is an operator between numbers and variables that are numbers. It takes no memory.
pub(crate) fn small_operation(
    lists: &ProgramLists,
    node: &TermNode,
    env: &[(VarId, Value)],
    known: usize,
) -> Option<Yield>
    requires { Rises env.now known }
    ensures { IfSome result (λ found. ComesTo lists.now env.now node.now found) }
{
    let (operator, a, b) = sides_of(node)?;
    let x = small_number(lists, a, env, known)?;
    let y = small_number(lists, b, env, known)?;
    Some(operate(operator, x, y))
}
