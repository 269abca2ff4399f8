//! The state of an evaluation, and what the forms of terms leave to do.
ghost use Rattle.std.specs.Prelude.{◌≡◌, ◌<◌, ◌≤◌, ◌++◌, ◌∷◌, ℕ, length, IfOk, OnOk};
ghost use Rattle.nomos_eval.specs.declared.pending.Pending.TheVariants as act;
ghost use Rattle.std.specs.List.{AllByRecursion};
ghost use Rattle.nomos_ir.specs.declared.term_node.TermNode.TheVariants as node;
ghost use Rattle.nomos_eval.specs.mirror.Ascending.{Rises};
ghost use Rattle.nomos_eval.specs.mirror.EvalTable.{reach};
ghost use Rattle.nomos_eval.specs.mirror.Evaluator.{IsSound, IsEntered, IsFound};
ghost use Rattle.nomos_eval.specs.mirror.Rest.{argument_acts};

use crate::around::{Around, look_around};
use crate::datum::Datum;
use crate::list_store::Lists;
use crate::numbers::NumberOperator;
use crate::pending::{Cases, Pending, TermScope};
use crate::scopes::Scopes;
use nomos_ir::ids::{FnId, TermId, VarId};
use nomos_ir::stack::Stack;
use nomos_ir::term_node::TermNode;
use std::alloc::AllocError;

/// An evaluation: what is left to do, the values found, the lists and the variables that these name, and the variables
/// around the term.
#[derive(Drop)]
pub(crate) struct Evaluator<'a> {
    pub(crate) todo: Stack<Pending>,
    pub(crate) values: Stack<Datum>,
    pub(crate) lists: Lists,
    pub(crate) scopes: Scopes,
    pub(crate) around: Around<'a>,
}

/// Puts acts on the top, the first one topmost.
pub(crate) fn plan(todo: &mut Stack<Pending>, acts: &[Pending]) -> Result<(), AllocError>
    ensures { OnOk result (todo.new ≡ acts.now ++ todo.old) }
{
    let mut left = acts.len();
    while left > 0 {
        left -= 1;
        todo.push(acts[left])?;
    }
    Ok(())
}

// The value of a variable in a scope, 0 where it has none. A function sees no variables around the term.
fn look_up(
    scopes: &Scopes,
    around: &mut Around<'_>,
    lists: &mut Lists,
    scope: TermScope,
    v: VarId,
) -> Result<Datum, AllocError>
    requires inside { scope.variables < length scopes.now }
    requires scopes { AllByRecursion (AllByRecursion (λ b. reach b.1 ≤ length lists.old)) scopes.now }
    requires rises { Rises around.old.env.now around.old.known }
    ensures { IfOk result (λ d. IsFound scopes.now scope v around.old lists.old around.new lists.new d) }
{
    if let Some(value) = scopes.look_up(scope.variables, v) {
        return Ok(value);
    }
    if scope.calls > 0 {
        return Ok(Datum::Int(0));
    }
    look_around(around, lists, v)
}

// Finds the value of a variable.
fn enter_variable(
    evaluator: &mut Evaluator<'_>,
    scope: TermScope,
    v: VarId,
) -> Result<(), AllocError>
    requires inside { scope.variables < length evaluator.old.scopes }
    requires sound { IsSound evaluator.old }
    ensures { OnOk result ((at : ℕ) → IsEntered scope (node.Var at v) evaluator.old evaluator.new) }
{
    let value = look_up(
        &evaluator.scopes,
        &mut evaluator.around,
        &mut evaluator.lists,
        scope,
        v,
    )?;
    evaluator.values.push(value)
}

/// Finds the value of a node that was entered, or plans what leads to it.
pub(crate) fn enter_node(
    evaluator: &mut Evaluator<'_>,
    scope: TermScope,
    node: &TermNode,
) -> Result<(), AllocError>
    requires inside { scope.variables < length evaluator.old.scopes }
    requires sound { IsSound evaluator.old }
    ensures { OnOk result (IsEntered scope node.now evaluator.old evaluator.new) }
{
    match node {
        TermNode::Number(_, n) => evaluator.values.push(Datum::Int(i64::from(*n))),
        TermNode::Truth(_, b) => evaluator.values.push(Datum::Bool(*b)),
        TermNode::Var(_, v) => enter_variable(evaluator, scope, *v),
        TermNode::Call(_, f, values) => call(&mut evaluator.todo, scope, *f, values.as_slice()),
        TermNode::Nil(_, _) => {
            let place = evaluator.lists.add_empty()?;
            evaluator.values.push(Datum::List(place))
        }
        TermNode::Add(_, a, b) => operate(&mut evaluator.todo, scope, *a, *b, NumberOperator::Add),
        TermNode::Sub(_, a, b) => operate(&mut evaluator.todo, scope, *a, *b, NumberOperator::Sub),
        TermNode::Mul(_, a, b) => operate(&mut evaluator.todo, scope, *a, *b, NumberOperator::Mul),
        TermNode::Div(_, a, b) => operate(&mut evaluator.todo, scope, *a, *b, NumberOperator::Div),
        TermNode::Rem(_, a, b) => operate(&mut evaluator.todo, scope, *a, *b, NumberOperator::Rem),
        TermNode::Less(_, a, b) => operate(
            &mut evaluator.todo,
            scope,
            *a,
            *b,
            NumberOperator::Less,
        ),
        TermNode::Equal(_, a, b) => operate(
            &mut evaluator.todo,
            scope,
            *a,
            *b,
            NumberOperator::Equal,
        ),
        TermNode::And(_, a, b) => plan(
            &mut evaluator.todo,
            &[Pending::Term(scope, *a), Pending::Both(scope, *b)],
        ),
        TermNode::Or(_, a, b) => plan(
            &mut evaluator.todo,
            &[Pending::Term(scope, *a), Pending::Either(scope, *b)],
        ),
        TermNode::Cons(_, a, b) => {
            plan(
                &mut evaluator.todo,
                &[
                    Pending::Term(scope, *a),
                    Pending::Term(scope, *b),
                    Pending::PutBefore,
                ],
            )
        }
        TermNode::Not(_, a) => plan(
            &mut evaluator.todo,
            &[Pending::Term(scope, *a), Pending::Not],
        ),
        TermNode::If(_, test, a, b) => {
            plan(
                &mut evaluator.todo,
                &[Pending::Term(scope, *test), Pending::Choose(scope, *a, *b)],
            )
        }
        TermNode::Match(_, taken, empty, head, tail, full) => {
            let cases = Cases {
                empty: *empty,
                head: *head,
                tail: *tail,
                full: *full,
            };
            plan(
                &mut evaluator.todo,
                &[Pending::Term(scope, *taken), Pending::Open(scope, cases)],
            )
        }
    }
}

// Both sides of an operator, and then the operator.
fn operate(
    todo: &mut Stack<Pending>,
    scope: TermScope,
    a: TermId,
    b: TermId,
    operator: NumberOperator,
) -> Result<(), AllocError>
    ensures { OnOk result (todo.new ≡ act.Term scope a ∷ act.Term scope b ∷ act.Numbers operator ∷ todo.old) }
{
    plan(
        todo,
        &[
            Pending::Term(scope, a),
            Pending::Term(scope, b),
            Pending::Numbers(operator),
        ],
    )
}

// The arguments of a call, and then the call.
fn call(
    todo: &mut Stack<Pending>,
    scope: TermScope,
    f: FnId,
    values: &[TermId],
) -> Result<(), AllocError>
    ensures { OnOk result
        (todo.new ≡ argument_acts scope values.now ++ act.Enter scope.calls f (length values.now) ∷ todo.old) }
{
    todo.push(Pending::Enter(scope.calls, f, values.len()))?;
    let mut left = values.len();
    while left > 0 {
        left -= 1;
        todo.push(Pending::Term(scope, values[left]))?;
    }
    Ok(())
}
