//! How functions are entered, and lists taken apart.
ghost use Rattle.std.specs.Prelude.{◌≡◌, ◌<◌, ◌≤◌, IsTrue, length, map, slice_get, IfOk};
ghost use Rattle.nomos_eval.specs.declared.pending.Pending.TheVariants as act;
ghost use Rattle.nomos_eval.specs.mirror.Ascending.{Rises};
ghost use Rattle.nomos_eval.specs.mirror.Evaluator.{IsBound, IsSound, Does, DoesFor, below_at};

use crate::acts::take;
use crate::ascending::rising;
use crate::datum::Datum;
use crate::evaluator::Evaluator;
use crate::pending::{Cases, Pending, TermScope};
use crate::values::parts;
use nomos_ir::fault::Fault;
use nomos_ir::find::find_function;
use nomos_ir::ids::{FnId, VarId};
use nomos_ir::kind::Kind;
use nomos_ir::lists::ProgramLists;
use nomos_ir::or_no_memory::OrNoMemory;
use nomos_ir::stack::Stack;
use std::alloc::AllocError;

/// How many calls may be open.
const MAX_CALLS: u32 = 1000;

// So many parameters are many.
const MANY_PARAMETERS: usize = 8;

/// The topmost value is taken apart.
pub(crate) fn open(
    evaluator: &mut Evaluator<'_>,
    scope: TermScope,
    cases: Cases,
) -> Result<(), OrNoMemory<Fault>>
    requires sound { IsSound evaluator.old }
    requires inside { scope.variables < length evaluator.old.scopes }
    ensures { Does (act.Open scope cases) evaluator.old evaluator.new result }
{
    let Datum::List(place) = take(&mut evaluator.values) else {
        return Ok(evaluator.todo.push(Pending::Term(scope, cases.full))?);
    };
    let Some((head, tail)) = parts(&mut evaluator.lists, place)? else {
        return Ok(evaluator.todo.push(Pending::Term(scope, cases.empty))?);
    };
    let with_head = evaluator
        .scopes
        .add_more(cases.head, head, scope.variables)?;
    let with_tail = evaluator
        .scopes
        .add_more(cases.tail, Datum::List(tail), with_head)?;
    let inner = TermScope {
        variables: with_tail,
        calls: scope.calls,
    };
    Ok(evaluator.todo.push(Pending::Term(inner, cases.full))?)
}

// The variable of a parameter, if there is such a parameter.
fn name_at(pars: &[(VarId, Kind)], place: usize) -> Option<VarId>
    ensures { result ≡ slice_get (map (λ par. par.0) pars.now) place }
{
    let par = pars.get(place)?;
    Some(par.0)
}

// Takes so many topmost values, and binds them to the parameters one by one.
fn bind_each(
    evaluator: &mut Evaluator<'_>,
    pars: &[(VarId, Kind)],
    count: usize,
) -> Result<usize, AllocError>
    ensures { IfOk result (λ place. IsBound pars.now count evaluator.old evaluator.new place) }
{
    let mut place = evaluator.scopes.add_nothing()?;
    let mut left = count;
    while left > 0 {
        left -= 1;
        let value = take(&mut evaluator.values);
        if let Some(name) = name_at(pars, left) {
            place = evaluator.scopes.add_more(name, value, place)?;
        }
    }
    Ok(place)
}

// Takes so many topmost values away.
fn drop_values(values: &mut Stack<Datum>, count: usize)
    ensures { values.new ≡ below_at count values.old }
{
    let mut left = count;
    while left > 0 {
        left -= 1;
        take(values);
    }
}

// Takes so many topmost values, and binds them to the parameters, which ascend, all at once.
fn bind_call(
    evaluator: &mut Evaluator<'_>,
    pars: &[(VarId, Kind)],
    count: usize,
) -> Result<usize, AllocError>
    requires enough { count ≤ length evaluator.old.values }
    requires rises { Rises pars.now (length pars.now) }
    ensures { IfOk result (λ place. IsBound pars.now count evaluator.old evaluator.new place) }
{
    let values = evaluator.values.as_slice();
    let arguments = &values[values.len() - count..];
    let place = evaluator.scopes.add_call(pars, arguments)?;
    drop_values(&mut evaluator.values, count);
    Ok(place)
}

// Whether the parameters are many and ascend, and so many values are there.
fn is_together(values: &Stack<Datum>, pars: &[(VarId, Kind)], count: usize) -> bool
    ensures { IsTrue result → (count ≤ length values.now) × Rises pars.now (length pars.now) }
{
    pars.len() >= MANY_PARAMETERS
        && count <= values.len()
        && rising(pars, 0, pars.len()) == pars.len()
}

/// Takes so many topmost values, and binds them to the parameters, of which they are the arguments; those without a
/// parameter are dropped. Gives the place of the parameters.
fn bind(
    evaluator: &mut Evaluator<'_>,
    pars: &[(VarId, Kind)],
    count: usize,
) -> Result<usize, AllocError>
    ensures { IfOk result (λ place. IsBound pars.now count evaluator.old evaluator.new place) }
{
    if is_together(&evaluator.values, pars, count) {
        bind_call(evaluator, pars, count)
    } else {
        bind_each(evaluator, pars, count)
    }
}

/// Enters the body of a function, with so many topmost values as its arguments.
pub(crate) fn enter_function(
    lists: &ProgramLists,
    evaluator: &mut Evaluator<'_>,
    calls: u32,
    f: FnId,
    count: usize,
) -> Result<(), OrNoMemory<Fault>>
    requires { IsSound evaluator.old }
    ensures { DoesFor lists.now (act.Enter calls f count) evaluator.old evaluator.new result }
{
    let Some(function) = find_function(lists, f) else {
        let _place = bind(evaluator, &[], count)?;
        return Ok(evaluator.values.push(Datum::Int(0))?);
    };
    if calls >= MAX_CALLS {
        return Err(OrNoMemory::Answer(Fault::Depth));
    }
    let variables = bind(evaluator, function.pars.as_slice(), count)?;
    let inner = TermScope {
        variables,
        calls: calls + 1,
    };
    Ok(evaluator.todo.push(Pending::Term(inner, function.body))?)
}
