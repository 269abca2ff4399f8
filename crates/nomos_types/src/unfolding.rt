//! Types behind their names.
ghost use Rattle.std.specs.Prelude.{◌≡◌, ◌<◌, length, slice_get};
ghost use Rattle.nomos_ir.specs.Unfold.{IsContractive};
ghost use Rattle.nomos_types.specs.Unfolding.{IsUnfolding};

use nomos_ir::ids::{DefId, TypeId};
use nomos_ir::lists::ProgramLists;
use nomos_ir::program::Program;
use nomos_ir::type_node::{Def, TypeNode};

/// The definition with this number.
pub(crate) fn definition(lists: &ProgramLists, id: DefId) -> &Def
    requires { id.0 < length lists.now.defs }
    ensures { slice_get lists.now.defs id.0 ≡ Some result.now }
{
    &lists.defs.as_slice()[id.0 as usize]
}

/// The type that stands for this one when a name is replaced by the body of its definition. It takes no
/// memory. In a contractive program one step is enough.
pub fn unfold(program: &Program, t: TypeId) -> TypeId
    requires contractive { IsContractive program.now }
    requires in_range { t.0 < length program.now.types }
    ensures in_range { result.0 < length program.now.types }
    ensures unfolds { IsUnfolding program.now t.0 result.0 }
{
    let lists = program.lists();
    match program.node(t) {
        TypeNode::Named(id) => definition(lists, *id).body,
        _ => t,
    }
}
