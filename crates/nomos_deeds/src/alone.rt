//! Instructions at which a process waits for nobody and sends nothing.
ghost use Rattle.std.specs.Prelude.{◌≡◌, ℕ, map, Some, slice_get, option_copied};
ghost use Rattle.std.specs.Option.{option_map};
ghost use Rattle.nomos_ir.specs.Value.{truth_in};
ghost use Rattle.nomos_ir.specs.ValueNode.{value_of};
ghost use Rattle.nomos_ir.specs.declared.code_node.Args.{Args};
ghost use Rattle.nomos_ir.specs.declared.code_node.CodeNode.TheVariants as code;
ghost use Rattle.nomos_ir.specs.declared.ids.TermId.{TermId};
ghost use Rattle.nomos_ir.specs.declared.kind.Kind.{Kind};
ghost use Rattle.nomos_types.specs.Acceptance.{IsAmountOf};
ghost use Rattle.nomos_types.specs.Amount.{dths};
ghost use Rattle.nomos_machine.specs.Deeds.{one_of};
ghost use Rattle.nomos_deeds.specs.Acting.{IsFrugalDoing};
ghost use Rattle.nomos_deeds.specs.Acts.{Decides, DecidesWith};

use crate::act::{Act, Doing};
use crate::arms::find_declaration;
use crate::sight::Sight;
use nomos_ir::amount::Amount;
use nomos_ir::fault::Fault;
use nomos_ir::ids::{CodeId, ProcId, VarId};
use nomos_ir::value::Values;
use nomos_ir::value_node::ValueNode;
use nomos_types::accepted::Accepted;

// The value of the one term that an instruction has.
fn one_of(values: &Values) -> Option<&ValueNode>
    ensures { option_map value_of (option_copied result) ≡ one_of values.now }
{
    let (value, rest) = values.parts()?;
    match rest.parts() {
        None => Some(value),
        Some(_) => None,
    }
}

// What a test says.
fn truth_in(value: &ValueNode) -> bool
    ensures { result ≡ truth_in (value_of value.now) }
{
    match value {
        ValueNode::Bool(b) => *b,
        _ => false,
    }
}

// The declared potential of a declaration, in Dths.
fn bound_of(accepted: &Accepted, f: ProcId) -> Option<u64>
    ensures { result ≡ option_map (λ d. dths accepted.now.annotations d.amount)
        (slice_get accepted.now.program.procs f.0) }
{
    let _declaration = find_declaration(accepted, f)?;
    Some(accepted.bound(f))
}

/// A `work`, where the purse has its gas.
pub(crate) fn work_at<S: Sight>(
    sight: &S,
    accepted: &Accepted,
    pid: u32,
    amount: Amount,
    next: CodeId,
) -> Option<Doing>
    requires { IsAmountOf accepted.now.program amount }
    ensures decides { (at : ℕ) → Decides accepted.now (S.state sight.now) pid (code.Work at amount next) result }
    ensures frugal { IsFrugalDoing result }
{
    let gas = accepted.amount(amount);
    if !sight.affords(pid, gas) {
        return None;
    }
    Some(Doing::Acts(Act::Work { gas, next }))
}

/// A `spawn`, where the purse has what the declaration needs.
pub(crate) fn spawn_at<S: Sight>(
    sight: &S,
    accepted: &Accepted,
    pid: u32,
    spawned: (VarId, ProcId),
    next: CodeId,
) -> Option<Doing>
    ensures { (at : ℕ) (args : Args)
        → Decides accepted.now (S.state sight.now) pid (code.Spawn at spawned.0 spawned.1 args next) result }
{
    let gas = bound_of(accepted, spawned.1)?;
    if !sight.affords(pid, gas) {
        return None;
    }
    Some(Doing::Acts(Act::Spawn {
        variable: spawned.0,
        declaration: spawned.1,
        next,
    }))
}

/// A `call`, where the purse has what the declaration needs.
pub(crate) fn call_at<S: Sight>(
    sight: &S,
    accepted: &Accepted,
    pid: u32,
    declaration: ProcId,
) -> Option<Doing>
    ensures { (at : ℕ) (args : Args)
        → Decides accepted.now (S.state sight.now) pid (code.Call at declaration args) result }
{
    let gas = bound_of(accepted, declaration)?;
    if !sight.affords(pid, gas) {
        return None;
    }
    Some(Doing::Acts(Act::Call { declaration }))
}

/// An `if`: the code that its test chooses.
pub(crate) fn if_at<S: Sight>(
    sight: &S,
    accepted: &Accepted,
    pid: u32,
    values: &Values,
    goes: (CodeId, CodeId),
) -> Option<Doing>
    ensures decides { (at : ℕ) (e : TermId)
        → DecidesWith accepted.now (S.state sight.now) pid values.now (code.If at e goes.0 goes.1) result }
    ensures frugal { IsFrugalDoing result }
{
    let next = if truth_in(one_of(values)?) {
        goes.0
    } else {
        goes.1
    };
    Some(Doing::Acts(Act::Choose { next }))
}

/// A `fwd`: the name of its own channel's other one.
pub(crate) fn fwd_at<S: Sight>(
    sight: &S,
    accepted: &Accepted,
    pid: u32,
    variable: VarId,
) -> Option<Doing>
    ensures decides { (at : ℕ) → Decides accepted.now (S.state sight.now) pid (code.Fwd at variable) result }
    ensures frugal { IsFrugalDoing result }
{
    let name = sight.channel(pid, variable)?;
    Some(Doing::Acts(Act::Forward { name }))
}

/// An empty list that carries potential.
pub(crate) fn empty_at<S: Sight>(
    sight: &S,
    accepted: &Accepted,
    pid: u32,
    made: (VarId, Amount),
    next: CodeId,
) -> Option<Doing>
    requires { IsAmountOf accepted.now.program made.1 }
    ensures { (at : ℕ) (kind : Kind)
        → Decides accepted.now (S.state sight.now) pid (code.Empty at made.0 made.1 kind next) result }
{
    Some(Doing::Acts(Act::Empty {
        variable: made.0,
        amount: accepted.amount(made.1),
        next,
    }))
}

/// A longer list that carries potential, where it is light enough and the purse has what the element carries.
pub(crate) fn add_at<S: Sight>(
    sight: &S,
    accepted: &Accepted,
    pid: u32,
    values: &Values,
    act: (VarId, VarId, CodeId),
) -> Option<Doing>
    ensures { (at : ℕ) (e : TermId)
        → DecidesWith accepted.now (S.state sight.now) pid values.now (code.Add at act.0 e act.1 act.2) result }
{
    let first = one_of(values)?;
    let list = sight.list(pid, act.1)?;
    if !sight.is_light_with(pid, act.1, first) {
        return Some(Doing::Faults(Fault::ListLength));
    }
    if !sight.affords(pid, list.amount) {
        return None;
    }
    Some(Doing::Acts(Act::Add {
        variable: act.0,
        list: act.1,
        next: act.2,
    }))
}

/// A `match` of a list that carries potential: the code where it is empty, or its head and its rest, and the code where
/// it has them.
pub(crate) fn match_at<S: Sight>(
    sight: &S,
    accepted: &Accepted,
    pid: u32,
    list: VarId,
    cases: (CodeId, VarId, VarId, CodeId),
) -> Option<Doing>
    ensures { (at : ℕ) → Decides accepted.now (S.state sight.now) pid
        (code.Match at list cases.0 cases.1 cases.2 cases.3) result }
{
    let seen = sight.list(pid, list)?;
    if seen.is_empty {
        return Some(Doing::Acts(Act::End {
            list,
            next: cases.0,
        }));
    }
    Some(Doing::Acts(Act::TakeApart {
        list,
        head: cases.1,
        tail: cases.2,
        next: cases.3,
    }))
}
