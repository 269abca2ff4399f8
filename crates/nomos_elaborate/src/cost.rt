//! The `work` that a cost model puts in.
ghost use Rattle.std.specs.Prelude.{◌≡◌, ◌+◌, ◌≤◌, IfOk};
ghost use Rattle.nomos_elaborate.specs.CostModel.{is_charged, put_code};
ghost use Rattle.nomos_elaborate.specs.mirror.Checked.{Gives, found};
ghost use Rattle.nomos_elaborate.specs.mirror.Entries.{entries, entry_limit};

use crate::builder::Builder;
use crate::elab_error::ElabError;
use nomos_ir::amount::Amount;
use nomos_ir::code_node::CodeNode;
use nomos_ir::ids::CodeId;
use nomos_surface::surface::CostModel;

/// Whether the cost model puts `work {1}` before an instruction.
fn is_charged(model: CostModel, node: &CodeNode) -> bool
    ensures { result ≡ is_charged model node.now }
{
    match model {
        CostModel::Ticks => false,
        CostModel::Sends => matches!(
            node,
            CodeNode::Label(_, _, _, _)
                | CodeNode::Send(_, _, _, _)
                | CodeNode::Put(_, _, _, _)
                | CodeNode::Close(_)
        ),
        CostModel::All => true,
    }
}

impl Builder {
    /// Puts a code node, and behind it the `work` that the cost model puts before the instruction.
    pub(crate) fn put_code(&mut self, model: CostModel, node: CodeNode) -> Result<CodeId, ElabError>
        requires { entries self.old + 2 ≤ entry_limit }
        ensures gives { Gives (λ c. (self.new, c)) result (found (put_code model self.old node)) }
        ensures grows { IfOk result (λ _. entries self.new ≤ entries self.old + 2) }
    {
        let at = node.offset();
        let charged = is_charged(model, &node);
        let next = self.put_node(node)?;
        if charged {
            self.put_node(CodeNode::Work(at, Amount::Written(1), next))
        } else {
            Ok(next)
        }
    }
}
