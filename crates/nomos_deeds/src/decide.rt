//! What a process does, its instruction's terms evaluated.
ghost use Rattle.std.specs.Prelude.{◌≡◌, [], IsOk, IfOk, IsSome, IfSome, Some, None, All, map, option_and_then, slice_get};
ghost use Rattle.std.specs.List.Sorted.{IsStrictlySortedBy};
ghost use Rattle.std.specs.Ordering.{nat_cmp};
ghost use Rattle.nomos_ir.specs.CodeParts.{code_amounts, code_terms};
ghost use Rattle.nomos_ir.specs.TermsEvaluation.{instruction_evaluation};
ghost use Rattle.nomos_eval.specs.Outcomes.{outcome_of};
ghost use Rattle.nomos_types.specs.Acceptance.{IsAmountOf};
ghost use Rattle.nomos_machine.specs.Objects.{object_number};
ghost use Rattle.nomos_machine.specs.State.{process_at};
ghost use Rattle.nomos_machine.specs.Step.{deed};
ghost use Rattle.nomos_machine.specs.declared.object.Process.{Process};
ghost use Rattle.nomos_deeds.specs.Acting.{IsFrugal, IsFrugalDoing, IsFrugalNode};
ghost use Rattle.nomos_deeds.specs.Acts.{doing_deed};
ghost use Rattle.nomos_deeds.specs.Decisions.{IsDeedAt, IsDeedOf, StandsAt, StandsNowhere, TermsComeTo, fault_in_doing};
ghost use Rattle.nomos_deeds.specs.declared.act.Act.TheVariants as act;
ghost use Rattle.nomos_deeds.specs.declared.act.Doing.TheVariants as doing;

use crate::act::{Act, Doing};
use crate::arms::code_at;
use crate::deeds::deed_at_node;
use crate::outcomes::{has_terms, known_or_evaluated};
use crate::sight::Sight;
use nomos_eval::small::small_truth;
use nomos_eval::wanted::{Outcome, Wanted, evaluate_at};
use nomos_ir::code_node::CodeNode;
use nomos_ir::fault::Fault;
use nomos_ir::ids::CodeId;
use nomos_ir::value::Values;
use nomos_types::accepted::Accepted;
use std::alloc::{AllocError, Global};

/// What a process does, and the values of its instruction's terms where those are needed for it.
#[derive(Drop, Debug)]
pub(crate) struct Decision {
    pub(crate) doing: Option<Doing>,
    pub(crate) values: Values,
}

// Where a process goes on at an `if` whose test is a small one.
#[inline(always)]
fn choice_at<S: Sight>(sight: &S, accepted: &Accepted, pid: u32, node: &CodeNode) -> Option<CodeId>
    ensures decides { IfSome result (λ next. (p : Process) → process_at (S.state sight.now) pid ≡ Some p
        → slice_get accepted.now.program.code p.code.0 ≡ Some node.now
        → doing_deed accepted.now (S.state sight.now) p [] (Some (doing.Acts (act.Choose next)))
        ≡ deed accepted.now (S.state sight.now) p) }
    ensures frugal { IsFrugalNode accepted.now.program node.now → result ≡ None → code_terms node.now ≡ [] }
{
    match node {
        CodeNode::If(_, e, yes, no) => {
            let first = small_truth(accepted.program(), *e, sight.values(pid))?;
            Some(if first { *yes } else { *no })
        }
        _ => None,
    }
}

// Where a process stands, and the instruction there, if there is such a process and such an instruction.
#[inline(always)]
fn stands_at<'a, S: Sight>(
    sight: &S,
    accepted: &'a Accepted,
    pid: u32,
) -> Option<(CodeId, &'a CodeNode)>
    ensures found { IfSome result (λ at. StandsAt accepted.now (S.state sight.now) pid at.0 at.1.now) }
    ensures amounts { IfSome result (λ at. All (IsAmountOf accepted.now.program) (code_amounts at.1.now)) }
    ensures none { result ≡ None → StandsNowhere accepted.now (S.state sight.now) pid }
{
    let seen = sight.process(pid)?;
    let node = code_at(accepted, seen.code)?;
    Some((seen.code, node))
}

// What the process does at this instruction, where it is an `if` whose test is a small one, or has no terms. It takes
// no memory.
#[inline(always)]
fn decide_at_once<S: Sight>(
    sight: &S,
    accepted: &Accepted,
    pid: u32,
    node: &CodeNode,
) -> Option<Decision>
    requires ordered { IsStrictlySortedBy nat_cmp (map object_number (S.state sight.now).objects) }
    requires amounts { All (IsAmountOf accepted.now.program) (code_amounts node.now) }
    ensures decides { IfSome result (IsDeedAt accepted.now (S.state sight.now) pid node.now) }
    ensures frugal { IsFrugalNode accepted.now.program node.now → IsSome result }
    ensures acts { IfSome result (λ decision.
        IsFrugalNode accepted.now.program node.now → IsFrugalDoing decision.doing) }
{
    let values = Values::empty();
    if let Some(next) = choice_at(sight, accepted, pid, node) {
        return Some(Decision {
            doing: Some(Doing::Acts(Act::Choose { next })),
            values,
        });
    }
    if has_terms(node) {
        return None;
    }
    let doing = deed_at_node(sight, accepted, pid, node, &values);
    Some(Decision { doing, values })
}

// What the process does at this instruction, whose terms come to this.
#[inline(always)]
fn decide_by<S: Sight>(
    sight: &S,
    accepted: &Accepted,
    pid: u32,
    node: &CodeNode,
    outcome: Outcome,
) -> Decision
    requires ordered { IsStrictlySortedBy nat_cmp (map object_number (S.state sight.now).objects) }
    requires amounts { All (IsAmountOf accepted.now.program) (code_amounts node.now) }
    requires outcome { TermsComeTo accepted.now (S.state sight.now) pid (outcome_of outcome) }
    ensures { IsDeedAt accepted.now (S.state sight.now) pid node.now result }
{
    match outcome {
        Outcome::Values(values) => {
            let doing = deed_at_node(sight, accepted, pid, node, &values);
            Decision { doing, values }
        }
        Outcome::Fault(fault) => Decision {
            doing: Some(Doing::Faults(fault)),
            values: Values::empty(),
        },
    }
}

// Nothing is done where a process stands nowhere.
fn undecided() -> Decision
    ensures { result.doing ≡ None }
{
    Decision {
        doing: None,
        values: Values::empty(),
    }
}

/// The fault that is done, if one is.
pub(crate) fn fault_of(doing: Option<Doing>) -> Option<Fault>
    ensures { result ≡ option_and_then fault_in_doing doing }
{
    match doing? {
        Doing::Acts(_) => None,
        Doing::Faults(fault) => Some(fault),
    }
}

/// What the process of this number does. It takes no memory at an instruction that needs a bounded room alone.
#[inline(always)]
pub(crate) fn decide<S: Sight>(
    sight: &S,
    alloc: Global,
    accepted: &Accepted,
    pid: u32,
) -> Result<Decision, AllocError>
    requires { IsStrictlySortedBy nat_cmp (map object_number (S.state sight.now).objects) }
    ensures decides { IfOk result (IsDeedOf accepted.now (S.state sight.now) pid) }
    ensures frugal { IsFrugal accepted.now (S.state sight.now) pid → IsOk result }
    ensures acts { IfOk result (λ decision.
        IsFrugal accepted.now (S.state sight.now) pid → IsFrugalDoing decision.doing) }
{
    let Some((code, node)) = stands_at(sight, accepted, pid) else {
        return Ok(undecided());
    };
    match decide_at_once(sight, accepted, pid, node) {
        Some(decision) => Ok(decision),
        None => {
            let outcome = evaluate_at(alloc, accepted.program(), code, sight.values(pid))?;
            Ok(decide_by(sight, accepted, pid, node, outcome))
        }
    }
}

/// What the process of this number does, as `decide` says. What is known of the terms of the wanted instruction is used
/// where the process stands there with the wanted values.
pub(crate) fn decide_with<S: Sight>(
    sight: &S,
    alloc: Global,
    accepted: &Accepted,
    pid: u32,
    known: (&Wanted, &Outcome),
) -> Result<Decision, AllocError>
    requires ordered { IsStrictlySortedBy nat_cmp (map object_number (S.state sight.now).objects) }
    requires known { outcome_of known.1.now
        ≡ instruction_evaluation accepted.now.program known.0.now.env known.0.now.code.0 }
    ensures decides { IfOk result (IsDeedOf accepted.now (S.state sight.now) pid) }
    ensures frugal { IsFrugal accepted.now (S.state sight.now) pid → IsOk result }
    ensures acts { IfOk result (λ decision.
        IsFrugal accepted.now (S.state sight.now) pid → IsFrugalDoing decision.doing) }
{
    let Some((_, node)) = stands_at(sight, accepted, pid) else {
        return Ok(undecided());
    };
    match decide_at_once(sight, accepted, pid, node) {
        Some(decision) => Ok(decision),
        None => {
            let outcome = known_or_evaluated(sight, alloc, accepted, pid, known)?;
            Ok(decide_by(sight, accepted, pid, node, outcome))
        }
    }
}
