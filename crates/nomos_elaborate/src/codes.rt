//! Codes: their names and their nodes.
ghost use Rattle.std.specs.Prelude.{◌≡◌, ◌+◌, ◌*◌, ◌<◌, ◌≤◌, [], length, map, IfOk};
ghost use Rattle.nomos_elaborate.specs.mirror.Checked.{Gives, found};
ghost use Rattle.nomos_elaborate.specs.mirror.CodeCheck.{arms_alone, check_arm, check_arms, check_code, check_last, check_step, steps_before};
ghost use Rattle.nomos_elaborate.specs.mirror.Each.{each};
ghost use Rattle.nomos_elaborate.specs.mirror.Entries.{MakesAtMost, MayMake, all_entries, entry_limit, most_of};
ghost use Rattle.nomos_elaborate.specs.mirror.TermCheck.{kept};
ghost use Rattle.nomos_surface.specs.TreeBounds.{KeepsArms, KeepsCode, KeepsLast, KeepsStep};
ghost use Rattle.nomos_surface.specs.CodeView.{arm_tree, arm_trees, code_tree, last_tree};
ghost use Rattle.nomos_surface.specs.Counts.{in_arms, in_code, in_each, in_last, in_step};
ghost use Rattle.nomos_surface.specs.Grammatical.{Each};
ghost use Rattle.nomos_surface.specs.StepView.{step_tree};

use crate::claims::new_among;
use crate::elab_error::ElabError;
use crate::elaborator::Elaborator;
use crate::name_table::NameTable;
use crate::sort::Sort;
use nomos_ir::code_node::{Arm, Arms, CodeNode};
use nomos_ir::ids::CodeId;
use nomos_surface::codes::{SurfaceArm, SurfaceCode, SurfaceLast};
use nomos_surface::steps::SurfaceStep;

impl Elaborator {
    /// The nodes of steps, none of which goes on with a code yet.
    fn steps(&mut self, steps: &[SurfaceStep]) -> Result<Vec<CodeNode>, ElabError>
        requires keeps { Each KeepsStep (map step_tree steps.now) }
        requires room { MayMake self.old (in_each in_step (map step_tree steps.now)) }
        ensures gives { Gives (λ n. (self.new, n.items)) result (each check_step self.old (map step_tree steps.now)) }
        ensures grows { IfOk result (λ n. all_entries self.new + 2 * length n.items
            ≤ all_entries self.old + most_of (in_each in_step (map step_tree steps.now))) }
    {
        let mut nodes = Vec::new(self.built.alloc());
        for step in steps {
            let node = self.step(step)?;
            nodes.push(node)?;
        }
        Ok(nodes)
    }

    /// Puts steps before a last instruction, and leaves this many names bound.
    fn end_code(
        &mut self,
        bound: usize,
        steps: Vec<CodeNode>,
        last: CodeId,
    ) -> Result<CodeId, ElabError>
        requires { all_entries self.old + 2 * length steps.items ≤ entry_limit }
        ensures gives { Gives (λ c. (self.new, c)) result
            (found (steps_before (kept bound self.old) steps.items last)) }
        ensures grows { IfOk result (λ _. all_entries self.new ≤ all_entries self.old + 2 * length steps.items) }
    {
        self.scope.keep(bound);
        self.built.put_steps(self.model, steps, last)
    }

    /// Puts the nodes of a code. What it binds is bound no more behind it.
    #[cycle(codes)]
    #[tactic(auto, unfolding(crate::specs::mirror::CodeCheck::check_code, nomos_surface::specs::Counts::in_code))]
    pub(crate) fn code(&mut self, code: &SurfaceCode) -> Result<CodeId, ElabError>
        requires keeps { KeepsCode (code_tree code.now) }
        requires room { MayMake self.old (in_code (code_tree code.now)) }
        ensures gives { Gives (λ c. (self.new, c)) result (check_code self.old (code_tree code.now)) }
        ensures grows { IfOk result (λ _. MakesAtMost self.old (in_code (code_tree code.now)) self.new) }
    {
        let bound = self.scope.len();
        let steps = self.steps(code.steps.as_slice())?;
        let last = self.last(&code.last)?;
        self.end_code(bound, steps, last)
    }

    /// Puts the nodes of a last instruction.
    #[cycle(codes)]
    #[tactic(auto, unfolding(crate::specs::mirror::CodeCheck::check_last, nomos_surface::specs::Counts::in_last))]
    fn last(&mut self, last: &SurfaceLast) -> Result<CodeId, ElabError>
        requires keeps { KeepsLast (last_tree last.now) }
        requires room { MayMake self.old (in_last (last_tree last.now)) }
        ensures gives { Gives (λ c. (self.new, c)) result (check_last self.old (last_tree last.now)) }
        ensures grows { IfOk result (λ _. MakesAtMost self.old (in_last (last_tree last.now)) self.new) }
    {
        match last {
            SurfaceLast::Close { at } => self.built.put_code(self.model, CodeNode::Close(*at)),
            SurfaceLast::Fwd { at, chan } => {
                let chan = self.channel(chan)?;
                self.built.put_code(self.model, CodeNode::Fwd(*at, chan))
            }
            SurfaceLast::Call {
                at,
                process,
                arguments,
            } => {
                let process = self.process(process)?;
                let arguments = self.arguments(arguments)?;
                let node = CodeNode::Call(*at, process, arguments);
                self.built.put_code(self.model, node)
            }
            SurfaceLast::If {
                at,
                test,
                holds,
                fails,
            } => {
                let test = self.term(test)?;
                let holds = self.code(holds)?;
                let fails = self.code(fails)?;
                let node = CodeNode::If(*at, test, holds, fails);
                self.built.put_code(self.model, node)
            }
            SurfaceLast::Case { at, chan, arms } => {
                let chan = self.chan(chan)?;
                let arms = Arms::of_vec(self.arms(arms)?);
                self.built
                    .put_code(self.model, CodeNode::Case(*at, chan, arms))
            }
            SurfaceLast::Match {
                at,
                matched,
                empty,
                head,
                tail,
                more,
            } => {
                let matched = self.list(matched)?;
                let empty = self.code(empty)?;
                let bound = self.scope.len();
                let head = self.bind(head, Sort::Value)?;
                let tail = self.bind(tail, Sort::List)?;
                let more = self.code(more)?;
                self.scope.keep(bound);
                let node = CodeNode::Match(*at, matched, empty, head, tail, more);
                self.built.put_code(self.model, node)
            }
        }
    }

    /// Puts the nodes of the branches of a `case`.
    #[cycle(codes)]
    fn arms(&mut self, trees: &[SurfaceArm]) -> Result<Vec<Arm>, ElabError>
        requires keeps { KeepsArms (arm_trees (map arm_tree trees.now)) }
        requires room { MayMake self.old (in_arms (arm_trees (map arm_tree trees.now))) }
        ensures gives { Gives (λ a. (self.new, a.items)) result
            (arms_alone (check_arms (self.old, []) (arm_trees (map arm_tree trees.now)))) }
        ensures grows { IfOk result
            (λ _. MakesAtMost self.old (in_arms (arm_trees (map arm_tree trees.now))) self.new) }
    {
        let mut before = NameTable::new(self.built.alloc());
        let mut arms = Vec::new(self.built.alloc());
        for tree in trees {
            let arm = self.arm(&mut before, tree)?;
            arms.push(arm)?;
        }
        Ok(arms)
    }

    /// Puts the nodes of a branch, whose label is not to be among those before it.
    #[cycle(codes)]
    fn arm(&mut self, before: &mut NameTable, tree: &SurfaceArm) -> Result<Arm, ElabError>
        requires keeps { KeepsCode (arm_tree tree.now).1 }
        requires room { all_entries self.old + most_of (in_code (arm_tree tree.now).1) < entry_limit }
        ensures gives { Gives (λ a. ((self.new, before.new), a)) result
            (check_arm (λ w. check_code w (arm_tree tree.now).1) (self.old, before.old) (arm_tree tree.now).0) }
        ensures grows { IfOk result
            (λ _. all_entries self.new ≤ all_entries self.old + most_of (in_code (arm_tree tree.now).1) + 1) }
    {
        new_among(before, &tree.label)?;
        before.see(tree.label.name.as_bytes())?;
        let label = self.built.see_label(&tree.label)?;
        let goes = self.code(&tree.goes)?;
        Ok(Arm { label, goes })
    }
}
