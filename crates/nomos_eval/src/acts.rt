//! How what is left to do is done, other than to enter a term or a function.
ghost use Rattle.std.specs.Prelude.{◌≡◌, ◌<◌, length};
ghost use Rattle.nomos_eval.specs.declared.pending.Pending.TheVariants as act;
ghost use Rattle.nomos_eval.specs.mirror.Evaluator.{IsSound, Does, IsGiven, Operated, top_datum, below_top};

use crate::datum::Datum;
use crate::evaluator::{Evaluator, plan};
use crate::numbers::{NumberOperator, Yield, operate};
use crate::pending::{Pending, TermScope};
use nomos_ir::fault::Fault;
use nomos_ir::ids::TermId;
use nomos_ir::limits::MAX_WEIGHT;
use nomos_ir::or_no_memory::OrNoMemory;
use nomos_ir::stack::Stack;

/// Takes the topmost value. There is one wherever an act takes it; without one it would be 0.
pub(crate) fn take(values: &mut Stack<Datum>) -> Datum
    ensures taken { result ≡ top_datum values.old }
    ensures rest { values.new ≡ below_top values.old }
{
    match values.pop() {
        Some(value) => value,
        None => Datum::Int(0),
    }
}

/// An operator takes the two topmost values.
pub(crate) fn numbers(
    evaluator: &mut Evaluator<'_>,
    operator: NumberOperator,
) -> Result<(), OrNoMemory<Fault>>
    requires { IsSound evaluator.old }
    ensures { Does (act.Numbers operator) evaluator.old evaluator.new result }
{
    let right = take(&mut evaluator.values);
    let left = take(&mut evaluator.values);
    let value = number_of(operator, left, right)?;
    evaluator.values.push(value)?;
    Ok(())
}

// What an operator gives of two values: 0 where they are no numbers.
fn number_of(
    operator: NumberOperator,
    left: Datum,
    right: Datum,
) -> Result<Datum, OrNoMemory<Fault>>
    ensures { Operated operator left right result }
{
    match (left, right) {
        (Datum::Int(x), Datum::Int(y)) => given(operate(operator, x, y)),
        _ => Ok(Datum::Int(0)),
    }
}

// What an operator gave, as a value or a fault.
fn given(what: Yield) -> Result<Datum, OrNoMemory<Fault>>
    ensures { IsGiven what result }
{
    match what {
        Yield::Int(z) => Ok(Datum::Int(z)),
        Yield::Bool(b) => Ok(Datum::Bool(b)),
        Yield::Fault(fault) => Err(OrNoMemory::Answer(fault)),
    }
}

/// The topmost value is to be a truth value.
pub(crate) fn truth(evaluator: &mut Evaluator<'_>) -> Result<(), OrNoMemory<Fault>>
    requires { IsSound evaluator.old }
    ensures { Does act.Truth evaluator.old evaluator.new result }
{
    let value = match take(&mut evaluator.values) {
        Datum::Bool(b) => Datum::Bool(b),
        _ => Datum::Int(0),
    };
    evaluator.values.push(value)?;
    Ok(())
}

/// The topmost value is turned round.
pub(crate) fn turn_round(evaluator: &mut Evaluator<'_>) -> Result<(), OrNoMemory<Fault>>
    requires { IsSound evaluator.old }
    ensures { Does act.Not evaluator.old evaluator.new result }
{
    let value = match take(&mut evaluator.values) {
        Datum::Bool(b) => Datum::Bool(!b),
        _ => Datum::Int(0),
    };
    evaluator.values.push(value)?;
    Ok(())
}

/// The part of an `if` that the topmost value takes.
pub(crate) fn choose(
    evaluator: &mut Evaluator<'_>,
    scope: TermScope,
    right: TermId,
    wrong: TermId,
) -> Result<(), OrNoMemory<Fault>>
    requires sound { IsSound evaluator.old }
    requires inside { scope.variables < length evaluator.old.scopes }
    ensures { Does (act.Choose scope right wrong) evaluator.old evaluator.new result }
{
    let part = match take(&mut evaluator.values) {
        Datum::Bool(true) => right,
        _ => wrong,
    };
    evaluator.todo.push(Pending::Term(scope, part))?;
    Ok(())
}

/// The topmost value is the left part of an `and`: the right one follows after true.
pub(crate) fn both(
    evaluator: &mut Evaluator<'_>,
    scope: TermScope,
    right: TermId,
) -> Result<(), OrNoMemory<Fault>>
    requires sound { IsSound evaluator.old }
    requires inside { scope.variables < length evaluator.old.scopes }
    ensures { Does (act.Both scope right) evaluator.old evaluator.new result }
{
    match take(&mut evaluator.values) {
        Datum::Bool(true) => Ok(plan(
            &mut evaluator.todo,
            &[Pending::Term(scope, right), Pending::Truth],
        )?),
        Datum::Bool(false) => Ok(evaluator.values.push(Datum::Bool(false))?),
        _ => Ok(evaluator.values.push(Datum::Int(0))?),
    }
}

/// The topmost value is the left part of an `or`: the right one follows after false.
pub(crate) fn either(
    evaluator: &mut Evaluator<'_>,
    scope: TermScope,
    right: TermId,
) -> Result<(), OrNoMemory<Fault>>
    requires sound { IsSound evaluator.old }
    requires inside { scope.variables < length evaluator.old.scopes }
    ensures { Does (act.Either scope right) evaluator.old evaluator.new result }
{
    match take(&mut evaluator.values) {
        Datum::Bool(true) => Ok(evaluator.values.push(Datum::Bool(true))?),
        Datum::Bool(false) => Ok(plan(
            &mut evaluator.todo,
            &[Pending::Term(scope, right), Pending::Truth],
        )?),
        _ => Ok(evaluator.values.push(Datum::Int(0))?),
    }
}

/// The value before the topmost one is put before the topmost one, a list.
pub(crate) fn put_before(evaluator: &mut Evaluator<'_>) -> Result<(), OrNoMemory<Fault>>
    requires { IsSound evaluator.old }
    ensures { Does act.PutBefore evaluator.old evaluator.new result }
{
    let list = take(&mut evaluator.values);
    let value = take(&mut evaluator.values);
    let Datum::List(place) = list else {
        return Ok(evaluator.values.push(Datum::Int(0))?);
    };
    if evaluator.lists.weight(value) + evaluator.lists.weight(list) >= MAX_WEIGHT {
        return Err(OrNoMemory::Answer(Fault::ListLength));
    }
    let joined = evaluator.lists.add_more(value, place)?;
    Ok(evaluator.values.push(Datum::List(joined))?)
}
