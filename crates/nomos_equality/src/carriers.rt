//! Whether a channel is ever sent on a talk.
ghost use Rattle.std.specs.Prelude.{◌≡◌, ◌<◌, ◌↔◌, [], length, IsTrue, IfOk};
ghost use Rattle.nomos_ir.specs.Unfold.{IsContractive};
ghost use Rattle.nomos_equality.specs.Carriers.{CarriesChannel, IsCarrier};
ghost use Rattle.nomos_equality.specs.mirror.Walk.{IsWalkable};

use crate::continuation_walk::ContinuationWalk;
use nomos_ir::ids::TypeId;
use nomos_ir::program::Program;
use nomos_ir::type_node::TypeNode;
use std::alloc::{AllocError, Global};

/// Whether a channel is sent at a node.
fn is_carrier(node: &TypeNode) -> bool
    ensures { IsTrue result ↔ IsCarrier node.now }
{
    match node {
        TypeNode::Tensor(_, _) | TypeNode::Lolli(_, _) => true,
        _ => false,
    }
}

/// Whether a channel is sent at a type or at one with which it goes on.
fn walk_carries(
    walk: &mut ContinuationWalk,
    program: &Program,
    start: TypeId,
) -> Result<bool, AllocError>
    requires walkable { IsWalkable program.now }
    requires start { start.0 < length program.now.types }
    requires unused { walk.old.visits.entries ≡ [] }
    ensures { IfOk result (λ found. IsTrue found ↔ CarriesChannel program.now start) }
{
    walk.meet(program, start, None)?;
    let mut next = 0;
    while let Some((at, _)) = walk.visit(next) {
        let at = TypeId(at);
        if is_carrier(program.node(at)) {
            return Ok(true);
        }
        walk.step(program, next, at)?;
        next += 1;
    }
    Ok(false)
}

/// Whether a channel is ever sent on a talk that begins at a type: whether a path of continuations, which crosses no
/// `up` and no `down`, leads to one at which a channel is sent.
pub fn carries(alloc: Global, program: &Program, start: TypeId) -> Result<bool, AllocError>
    requires contractive { IsContractive program.now }
    requires start { start.0 < length program.now.types }
    ensures { IfOk result (λ found. IsTrue found ↔ CarriesChannel program.now start) }
{
    program.know();
    let mut walk = ContinuationWalk::new(alloc);
    walk_carries(&mut walk, program, start)
}
