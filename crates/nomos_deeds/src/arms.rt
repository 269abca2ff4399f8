//! Code by its number, and the branch that a label chooses.
ghost use Rattle.std.specs.Prelude.{◌≡◌, ◌==◌, All, Some, option_copied, slice_get};
ghost use Rattle.nomos_ir.specs.CodeParts.{code_amounts};
ghost use Rattle.nomos_ir.specs.declared.code_node.CodeNode.{CodeNode as Instruction};
ghost use Rattle.nomos_types.specs.Acceptance.{IsAmountOf};
ghost use Rattle.nomos_machine.specs.Deeds.{arm_for};

use nomos_ir::code_node::{Arm, CodeNode};
use nomos_ir::declaration::ProcDecl;
use nomos_ir::find::find_code;
use nomos_ir::ids::{CodeId, Label, ProcId};
use nomos_types::accepted::Accepted;

/// The instruction of this number, if there is one. Its amounts are of the program.
#[inline(always)]
pub(crate) fn code_at(accepted: &Accepted, c: CodeId) -> Option<&CodeNode>
    ensures found { option_copied result ≡ slice_get accepted.now.program.code c.0 }
    ensures amounts { (n : Instruction) → option_copied result ≡ Some n
        → All (IsAmountOf accepted.now.program) (code_amounts n) }
{
    find_code(accepted.program().lists(), c)
}

/// The declaration of this number, if there is one.
pub(crate) fn find_declaration(accepted: &Accepted, p: ProcId) -> Option<&ProcDecl>
    ensures { option_copied result ≡ slice_get accepted.now.program.procs p.0 }
{
    let lists = accepted.program().lists();
    lists.procs.as_slice().get(p.0 as usize)
}

/// The code with which a `case` goes on after a label.
pub(crate) fn arm_for(arms: &[Arm], label: Label) -> Option<CodeId>
    ensures { result ≡ arm_for arms.now label }
{
    arms.iter()
        .find(|arm| arm.label.0 == label.0)
        .map(|arm| arm.goes)
}
