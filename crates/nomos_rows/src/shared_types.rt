//! Whether the shared types of a program lead back to where they began.
ghost use Rattle.std.specs.Prelude.{◌≡◌, ◌<◌, ◌^◌, ℕ, length, IfOk};
ghost use Rattle.nomos_ir.specs.Unfold.{IsContractive};
ghost use Rattle.nomos_equality.specs.Comparing.{HasCompared};
ghost use Rattle.nomos_types.specs.Forming.{StandsAtOffset};
ghost use Rattle.nomos_rows.specs.mirror.FirstFault.{TellsOne, TellsBelow};
ghost use Rattle.nomos_rows.specs.mirror.Ups.{GoesAstray, GoesBack, IfNone, PairsOfOne, PairsBelow};

use crate::first_fault::earliest;
use nomos_equality::equalities::Equalities;
use nomos_equality::equality::Comparison;
use nomos_equality::hop::Path;
use nomos_equality::synchronizing::synchronizing_with;
use nomos_ir::ids::TypeId;
use nomos_ir::program::Program;
use nomos_ir::type_node::TypeNode;
use std::alloc::{AllocError, Global};

/// The offset of a type node.
fn offset(program: &Program, t: TypeId) -> u32
    requires { t.0 < length program.now.types }
    ensures { StandsAtOffset program.now t result }
{
    program.lists().types.as_slice()[t.0 as usize].at
}

/// Whether a type node goes astray: its offset and the path, if it is an `up` that does not lead back.
fn astray_at(
    alloc: Global,
    equalities: &mut Equalities,
    program: &Program,
    t: TypeId,
) -> Result<Option<(u32, Path)>, AllocError>
    requires contractive { IsContractive program.now }
    requires t { t.0 < length program.now.types }
    requires compared { HasCompared program.now equalities.old }
    ensures compared { HasCompared program.now equalities.new }
    ensures tells { IfOk result (TellsOne (GoesAstray program.now t.0) (GoesBack program.now t.0)) }
    ensures pairs { IfOk result (IfNone (PairsOfOne program.now t.0 equalities.old equalities.new)) }
{
    match program.node(t) {
        TypeNode::Up(_) => {}
        _ => return Ok(None),
    }
    match synchronizing_with(alloc, equalities, program, t)? {
        Comparison::Equal => Ok(None),
        Comparison::Different(path) => Ok(Some((offset(program, t), path))),
    }
}

/// The first `up`, in order of text, that does not lead back; or the pairs of amounts at which all of them do join
/// those that were compared before.
pub(crate) fn first_astray(
    alloc: Global,
    equalities: &mut Equalities,
    program: &Program,
) -> Result<Option<(u32, Path)>, AllocError>
    requires contractive { IsContractive program.now }
    requires count { length program.now.types < 2 ^ 32 }
    requires compared { HasCompared program.now equalities.old }
    ensures compared { HasCompared program.now equalities.new }
    ensures tell { IfOk result (TellsBelow (GoesAstray program.now) (GoesBack program.now) (length program.now.types)) }
    ensures pairs { IfOk result (IfNone
        (PairsBelow program.now (length program.now.types) equalities.old equalities.new)) }
{
    let count = program.lists().types.len() as u32;
    let mut first = None;
    for t in 0..count {
        let found = astray_at(alloc, equalities, program, TypeId(t))?;
        first = earliest(first, found);
    }
    Ok(first)
}
