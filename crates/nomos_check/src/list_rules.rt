//! The rules of instructions on lists that carry potential.
ghost use Rattle.std.specs.Prelude.{◌≡◌, ◌<◌, ℕ, IfOk, length};
ghost use Rattle.nomos_ir.specs.declared.code_node.CodeNode.{CodeNode};
ghost use Rattle.nomos_types.specs.Premises.{Adds, TakesApart};
ghost use Rattle.nomos_types.specs.TypingRule.{StandsAtCode};
ghost use Rattle.nomos_check.specs.mirror.FoundWrong.{FindsList};
ghost use Rattle.nomos_check.specs.mirror.StandingData.{shape_of, IsWithin, StepTells};

use crate::operands::{Adding, Matching};
use crate::standing::{Carried, ListParts, Standing, Step, WayOn};
use crate::variables::{is_free, is_of_kind, is_same_variable};
use nomos_ir::amount::Amount;
use nomos_ir::ids::{CodeId, VarId};
use nomos_ir::kind::Kind;
use nomos_ir::program::Program;
use std::alloc::{AllocError, Global};

/// A list of this kind of elements, each of which carries this amount.
pub(crate) fn carrying(kind: Kind, amount: Amount) -> Carried
    ensures kind { result.kind ≡ kind }
    ensures amount { result.amount ≡ amount }
{
    Carried { kind, amount }
}

/// The rule of an empty list.
pub(crate) fn at_empty(
    program: &Program,
    now: &mut Standing,
    v: VarId,
    carried: Carried,
    next: CodeId,
) -> Result<Step, AllocError>
    requires stands { (at : ℕ) × StandsAtCode program.now (shape_of now.old)
        (CodeNode.Empty at v carried.amount carried.kind next) }
    ensures { IfOk result (StepTells program.now now.old now.new) }
{
    if !is_free(now, v) {
        return Ok(Step::Stuck);
    }
    now.lists.bind(v, carried)?;
    now.code = next;
    Ok(Step::Next)
}

/// The list behind which an element is to be put, if the name is free and the element has the kind of the list's.
fn list_grows(
    program: &Program,
    alloc: Global,
    now: &Standing,
    adding: Adding,
) -> Result<Option<Carried>, AllocError>
    requires { adding.element.0 < length program.now.terms }
    ensures { IfOk result (FindsList now.now adding.list (Adds program.now
        (shape_of now.now) adding.longer adding.element adding.list)) }
{
    if !is_free(now, adding.longer) {
        return Ok(None);
    }
    let carried = match now.lists.get(adding.list) {
        Some(carried) => carried,
        None => return Ok(None),
    };
    if is_of_kind(program, alloc, now, adding.element, carried.kind)? {
        Ok(Some(carried))
    } else {
        Ok(None)
    }
}

/// The rule of an element that is put before a list.
pub(crate) fn at_add(
    program: &Program,
    alloc: Global,
    now: &mut Standing,
    adding: Adding,
) -> Result<Step, AllocError>
    requires within { IsWithin program.now now.old }
    requires stands { (at : ℕ) × StandsAtCode program.now (shape_of now.old)
        (CodeNode.Add at adding.longer adding.element adding.list adding.next) }
    ensures { IfOk result (StepTells program.now now.old now.new) }
{
    program.know();
    match list_grows(program, alloc, now, adding)? {
        Some(carried) => {
            now.lists.unbind(adding.list);
            now.lists.bind(adding.longer, carried)?;
            now.potential.spend(carried.amount);
            now.code = adding.next;
            Ok(Step::Next)
        }
        None => Ok(Step::Stuck),
    }
}

/// The list that is to be taken apart, if the names of its parts are free and differ.
fn list_parts(now: &Standing, matching: Matching) -> Option<Carried>
    ensures { FindsList now.now matching.list (TakesApart (shape_of now.now) matching.list matching.head
        matching.tail) result }
{
    if is_same_variable(matching.head, matching.tail) {
        return None;
    }
    if !is_free(now, matching.head) {
        return None;
    }
    if !is_free(now, matching.tail) {
        return None;
    }
    now.lists.get(matching.list)
}

/// The rule of a list that is taken apart.
pub(crate) fn at_match(
    program: &Program,
    alloc: Global,
    now: &Standing,
    matching: Matching,
) -> Result<Step, AllocError>
    requires stands { (at : ℕ) × StandsAtCode program.now (shape_of now.now)
        (CodeNode.Match at matching.list matching.empty_next matching.head matching.tail matching.full_next) }
    ensures { IfOk result (StepTells program.now now.now now.now) }
{
    let carried = match list_parts(now, matching) {
        Some(carried) => carried,
        None => return Ok(Step::Stuck),
    };
    let parts = ListParts {
        list: matching.list,
        carried,
        head: matching.head,
        tail: matching.tail,
        next: matching.full_next,
    };
    let ways = vec![in alloc;
        WayOn::Empty(matching.list, matching.empty_next),
        WayOn::Full(parts),
    ]?;
    Ok(Step::Branches(ways))
}
