//! Whether a shared type is synchronizing.
ghost use Rattle.std.specs.Prelude.{◌≡◌, ◌<◌, [], length, Some, IfOk};
ghost use Rattle.nomos_ir.specs.declared.ids.TypeId.{TypeId};
ghost use Rattle.nomos_ir.specs.declared.type_node.TypeNode.TheVariants as node;
ghost use Rattle.nomos_ir.specs.Nodes.{type_node};
ghost use Rattle.nomos_ir.specs.Unfold.{IsContractive};
ghost use Rattle.nomos_equality.specs.Comparing.{HasCompared, StaysCompared};
ghost use Rattle.nomos_equality.specs.SyncAnswer.{AnswersBeside, LeadsBack, AnswersShared, IsSharedExact};
ghost use Rattle.nomos_equality.specs.SyncAnswer.{AnswersSynchronizing, IsSynchronizingExact};
ghost use Rattle.nomos_equality.specs.mirror.Walk.{IsWalkable, TellsBehind};

use crate::continuation_walk::ContinuationWalk;
use crate::continuations::behind_down;
use crate::equalities::Equalities;
use crate::equality::Comparison;
use crate::hop::Path;
use nomos_ir::ids::TypeId;
use nomos_ir::items::Items;
use nomos_ir::lists::AmountPairs;
use nomos_ir::program::Program;
use nomos_ir::type_node::TypeNode;
use std::alloc::{AllocError, Global};

/// Whether a shared type is synchronizing.
#[derive(Drop, Debug)]
pub enum Synced {
    /// Behind each `down` that its body reaches stands a type that agrees with it at every depth where amounts
    /// are ignored. These are, each once, the pairs of amounts at equal paths of such types and of the shared
    /// one: it is synchronizing where both amounts of each pair are equal.
    Yes(AmountPairs),
    /// This path leads from its body to a `down` behind which stands another type.
    No(Path),
}

/// Whether the type behind this one, where it is a `down`, equals the shared one.
fn agrees_behind(
    equalities: &mut Equalities,
    program: &Program,
    at: TypeId,
    shared: TypeId,
) -> Result<bool, AllocError>
    requires walkable { IsWalkable program.now }
    requires at { at.0 < length program.now.types }
    requires shared { shared.0 < length program.now.types }
    requires compared { HasCompared program.now equalities.old }
    ensures compared { HasCompared program.now equalities.new }
    ensures kept { StaysCompared equalities.old equalities.new }
    ensures tells { IfOk result (TellsBehind program.now at shared equalities.old equalities.new) }
{
    let behind = match behind_down(program.node(at)) {
        Some(behind) => behind,
        None => return Ok(true),
    };
    match equalities.compare(program, behind, shared)? {
        Comparison::Equal => Ok(true),
        Comparison::Different(_) => Ok(false),
    }
}

/// Whether a type and those with which it goes on lead back to the shared one.
fn leads_back(
    walk: &mut ContinuationWalk,
    equalities: &mut Equalities,
    program: &Program,
    start: TypeId,
    shared: TypeId,
) -> Result<Comparison, AllocError>
    requires walkable { IsWalkable program.now }
    requires start { start.0 < length program.now.types }
    requires shared { shared.0 < length program.now.types }
    requires unused { walk.old.visits.entries ≡ [] }
    requires compared { HasCompared program.now equalities.old }
    ensures compared { HasCompared program.now equalities.new }
    ensures kept { StaysCompared equalities.old equalities.new }
    ensures answers { IfOk result (AnswersBeside program.now start shared equalities.old equalities.new) }
{
    walk.meet(program, start, None)?;
    let mut next = 0;
    while let Some((at, _)) = walk.visit(next) {
        let at = TypeId(at);
        if !agrees_behind(equalities, program, at, shared)? {
            return Ok(Comparison::Different(walk.path_to(next)?));
        }
        walk.step(program, next, at)?;
        next += 1;
    }
    Ok(Comparison::Equal)
}

/// Whether each `down` that a type reaches goes back to the shared one, beside what was compared before, as
/// `synchronizing_with` says it of a body. The type may be any, as that of a talk that is half over.
pub fn leads_back_with(
    alloc: Global,
    equalities: &mut Equalities,
    program: &Program,
    from: TypeId,
    shared: TypeId,
) -> Result<Comparison, AllocError>
    requires contractive { IsContractive program.now }
    requires from { from.0 < length program.now.types }
    requires shared { shared.0 < length program.now.types }
    requires compared { HasCompared program.now equalities.old }
    ensures compared { HasCompared program.now equalities.new }
    ensures kept { StaysCompared equalities.old equalities.new }
    ensures answers { IfOk result (AnswersBeside program.now from shared equalities.old equalities.new) }
{
    program.know();
    let mut walk = ContinuationWalk::new(alloc);
    leads_back(&mut walk, equalities, program, from, shared)
}

/// Whether each `down` that a type reaches goes back to the shared one: the pairs of amounts that need to be equal, or
/// a path from the type to a `down` behind which another type stands.
pub fn leads_back_to(
    alloc: Global,
    program: &Program,
    from: TypeId,
    shared: TypeId,
) -> Result<Synced, AllocError>
    requires contractive { IsContractive program.now }
    requires from { from.0 < length program.now.types }
    requires shared { shared.0 < length program.now.types }
    ensures answers { IfOk result (AnswersSynchronizing program.now from shared) }
    ensures exact { IfOk result (IsSynchronizingExact program.now from shared) }
{
    let mut equalities = Equalities::new(alloc);
    match leads_back_with(alloc, &mut equalities, program, from, shared)? {
        Comparison::Equal => {
            let pairs = equalities.into_amounts()?;
            Ok(Synced::Yes(pairs))
        }
        Comparison::Different(path) => Ok(Synced::No(path)),
    }
}

/// Whether a shared type is synchronizing, beside what was compared before: where it is, the pairs of amounts
/// that need to be equal join those that were there; where it is not, a path leads from its body to a `down`
/// behind which another type stands. In every case what was compared stays, each pair in its place, and what joins
/// it is sound; the amounts of no pair of types are gathered twice.
pub fn synchronizing_with(
    alloc: Global,
    equalities: &mut Equalities,
    program: &Program,
    shared: TypeId,
) -> Result<Comparison, AllocError>
    requires contractive { IsContractive program.now }
    requires shared { shared.0 < length program.now.types }
    requires up { (body : TypeId) × (type_node program.now shared.0 ≡ Some (node.Up body)) }
    requires compared { HasCompared program.now equalities.old }
    ensures compared { HasCompared program.now equalities.new }
    ensures kept { StaysCompared equalities.old equalities.new }
    ensures answers { IfOk result (LeadsBack program.now shared equalities.old equalities.new) }
{
    program.know();
    match program.node(shared) {
        TypeNode::Up(body) => leads_back_with(alloc, equalities, program, *body, shared),
        _ => Ok(Comparison::Equal),
    }
}

/// Whether a shared type is synchronizing: the pairs of amounts that need to be equal, or a path from its body
/// to a `down` behind which another type stands.
pub fn synchronizing(alloc: Global, program: &Program, shared: TypeId) -> Result<Synced, AllocError>
    requires contractive { IsContractive program.now }
    requires shared { shared.0 < length program.now.types }
    requires up { (body : TypeId) × (type_node program.now shared.0 ≡ Some (node.Up body)) }
    ensures answers { IfOk result (AnswersShared program.now shared) }
    ensures exact { IfOk result (IsSharedExact program.now shared) }
{
    program.know();
    match program.node(shared) {
        TypeNode::Up(body) => leads_back_to(alloc, program, *body, shared),
        _ => Ok(Synced::Yes(Items::of_vec(Vec::new(alloc)))),
    }
}
