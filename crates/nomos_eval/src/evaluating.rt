//! An evaluation from its first step to its last.
ghost use Rattle.std.specs.Prelude.{◌≡◌, ◌<◌, ◌≤◌, length, OnOk};
ghost use Rattle.nomos_eval.specs.mirror.Evaluator.{IsSound, DoesFor};
ghost use Rattle.nomos_eval.specs.mirror.Rest.{ScopeIn};
ghost use Rattle.nomos_eval.specs.mirror.EvalRun.{IsEnteredAt, IsOther, Steps, Ran};

use crate::acts::{both, choose, either, numbers, put_before, take, truth, turn_round};
use crate::calls::{enter_function, open};
use crate::datum::Datum;
use crate::evaluator::{Evaluator, enter_node};
use crate::pending::{Pending, TermScope};
use nomos_ir::fault::Fault;
use nomos_ir::find::find_term;
use nomos_ir::ids::TermId;
use nomos_ir::lists::ProgramLists;
use nomos_ir::or_no_memory::OrNoMemory;
use std::alloc::AllocError;

/// How many nodes one evaluation may enter.
const MAX_NODES: u32 = 100_000;

// Enters a term.
fn enter(
    lists: &ProgramLists,
    evaluator: &mut Evaluator<'_>,
    scope: TermScope,
    t: TermId,
) -> Result<(), AllocError>
    requires sound { IsSound evaluator.old }
    requires inside { scope.variables < length evaluator.old.scopes }
    ensures { OnOk result (IsEnteredAt lists.now scope t evaluator.old evaluator.new) }
{
    match find_term(lists, t) {
        Some(node) => enter_node(evaluator, scope, node),
        None => evaluator.values.push(Datum::Int(0)),
    }
}

// Does what is left to do, other than to enter a term.
fn do_act(
    lists: &ProgramLists,
    evaluator: &mut Evaluator<'_>,
    act: Pending,
) -> Result<(), OrNoMemory<Fault>>
    requires sound { IsSound evaluator.old }
    requires inside { ScopeIn (length evaluator.old.scopes) act }
    requires other { IsOther act }
    ensures { DoesFor lists.now act evaluator.old evaluator.new result }
{
    match act {
        Pending::Term(_, _) => unreachable!(),
        Pending::Numbers(operator) => numbers(evaluator, operator),
        Pending::PutBefore => put_before(evaluator),
        Pending::Both(scope, right) => both(evaluator, scope, right),
        Pending::Either(scope, right) => either(evaluator, scope, right),
        Pending::Truth => truth(evaluator),
        Pending::Not => turn_round(evaluator),
        Pending::Choose(scope, right, wrong) => choose(evaluator, scope, right, wrong),
        Pending::Open(scope, cases) => open(evaluator, scope, cases),
        Pending::Enter(calls, f, count) => enter_function(lists, evaluator, calls, f, count),
    }
}

// One step, after so many entered nodes. Gives how many are entered then.
fn step(
    lists: &ProgramLists,
    evaluator: &mut Evaluator<'_>,
    act: Pending,
    entered: u32,
) -> Result<u32, OrNoMemory<Fault>>
    requires sound { IsSound evaluator.old }
    requires inside { ScopeIn (length evaluator.old.scopes) act }
    requires few { entered ≤ 100000 }
    ensures { Steps lists.now act evaluator.old entered evaluator.new result }
{
    if let Pending::Term(scope, t) = act {
        if entered >= MAX_NODES {
            return Err(OrNoMemory::Answer(Fault::TermSteps));
        }
        enter(lists, evaluator, scope, t)?;
        return Ok(entered + 1);
    }
    do_act(lists, evaluator, act)?;
    Ok(entered)
}

/// Does all that is left to do, and gives the value that was found.
pub(crate) fn run(
    lists: &ProgramLists,
    evaluator: &mut Evaluator<'_>,
) -> Result<Datum, OrNoMemory<Fault>>
    requires { IsSound evaluator.old }
    ensures { Ran lists.now evaluator.old evaluator.new result }
{
    let mut entered = 0u32;
    while let Some(act) = evaluator.todo.pop() {
        entered = step(lists, evaluator, act, entered)?;
    }
    Ok(take(&mut evaluator.values))
}
