//! Steps before the code that follows them.
ghost use Rattle.std.specs.Prelude.{◌≡◌, ◌+◌, ◌*◌, ◌≤◌, length, IfOk};
ghost use Rattle.nomos_elaborate.specs.mirror.Checked.{Gives, found};
ghost use Rattle.nomos_elaborate.specs.mirror.CodeCheck.{steps_before};
ghost use Rattle.nomos_elaborate.specs.mirror.Following.{put_before, with_next};
ghost use Rattle.nomos_elaborate.specs.mirror.Entries.{entries, entry_limit};

use crate::builder::Builder;
use crate::elab_error::ElabError;
use nomos_ir::code_node::CodeNode;
use nomos_ir::ids::CodeId;
use nomos_surface::surface::CostModel;

/// A step that goes on with this code. Another instruction stays as it is.
#[tactic(auto, unfolding(crate::specs::mirror::Following::with_next))]
fn with_next(node: CodeNode, goes: CodeId) -> CodeNode
    ensures { result ≡ with_next node goes }
{
    match node {
        CodeNode::Label(at, x, label, _) => CodeNode::Label(at, x, label, goes),
        CodeNode::Send(at, x, y, _) => CodeNode::Send(at, x, y, goes),
        CodeNode::Recv(at, x, y, _) => CodeNode::Recv(at, x, y, goes),
        CodeNode::Put(at, x, e, _) => CodeNode::Put(at, x, e, goes),
        CodeNode::Take(at, x, v, _) => CodeNode::Take(at, x, v, goes),
        CodeNode::Pay(at, x, amount, _) => CodeNode::Pay(at, x, amount, goes),
        CodeNode::Get(at, x, amount, _) => CodeNode::Get(at, x, amount, goes),
        CodeNode::Work(at, amount, _) => CodeNode::Work(at, amount, goes),
        CodeNode::Wait(at, x, _) => CodeNode::Wait(at, x, goes),
        CodeNode::Accept(at, _) => CodeNode::Accept(at, goes),
        CodeNode::Detach(at, _) => CodeNode::Detach(at, goes),
        CodeNode::Acquire(at, a, x, _) => CodeNode::Acquire(at, a, x, goes),
        CodeNode::Release(at, x, a, _) => CodeNode::Release(at, x, a, goes),
        CodeNode::Spawn(at, x, f, args, _) => CodeNode::Spawn(at, x, f, args, goes),
        CodeNode::Let(at, v, e, _) => CodeNode::Let(at, v, e, goes),
        CodeNode::Emit(at, e, _) => CodeNode::Emit(at, e, goes),
        CodeNode::Empty(at, v, amount, kind, _) => CodeNode::Empty(at, v, amount, kind, goes),
        CodeNode::Add(at, v, e, w, _) => CodeNode::Add(at, v, e, w, goes),
        last => last,
    }
}

impl Builder {
    /// Puts steps before a code, the last step first.
    pub(crate) fn put_steps(
        &mut self,
        model: CostModel,
        steps: Vec<CodeNode>,
        last: CodeId,
    ) -> Result<CodeId, ElabError>
        requires { entries self.old + 2 * length steps.items ≤ entry_limit }
        ensures gives { Gives (λ c. (self.new, c)) result (found (put_before model steps.items (self.old, last))) }
        ensures grows { IfOk result (λ _. entries self.new ≤ entries self.old + 2 * length steps.items) }
    {
        let mut steps = steps;
        let mut next = last;
        while let Some(step) = steps.pop() {
            next = self.put_code(model, with_next(step, next))?;
        }
        Ok(next)
    }
}
