//! The instructions that another one follows: their names and their nodes.
ghost use Rattle.std.specs.Prelude.{◌≡◌, ◌+◌, ◌≤◌, IfOk};
ghost use Rattle.nomos_elaborate.specs.CodeBuild.{chan_offset};
ghost use Rattle.nomos_elaborate.specs.mirror.Checked.{Gives};
ghost use Rattle.nomos_elaborate.specs.mirror.CodeCheck.{check_chan, check_list, check_process, check_step};
ghost use Rattle.nomos_elaborate.specs.mirror.Entries.{MayMake, all_entries, entry_limit, most_of};
ghost use Rattle.nomos_surface.specs.TreeBounds.{KeepsStep};
ghost use Rattle.nomos_surface.specs.Counts.{in_step};
ghost use Rattle.nomos_surface.specs.StepView.{step_tree};

use crate::claims::{bound_list, declared};
use crate::elab_error::ElabError;
use crate::elaborator::Elaborator;
use crate::kind_nodes::kind_of;
use crate::sort::Sort;
use nomos_ir::code_node::{Chan, CodeNode};
use nomos_ir::ids::{CodeId, ProcId, VarId};
use nomos_surface::name_at::NameAt;
use nomos_surface::steps::{ChanAt, SurfaceStep};

/// Where a step goes on until the code behind it is there.
const NO_CODE: CodeId = CodeId(0);

/// The offset of a channel's first token.
fn chan_offset(chan: &ChanAt) -> u32
    ensures { result ≡ chan_offset chan.now }
{
    match chan {
        ChanAt::Own { at } => *at,
        ChanAt::Variable { name } => name.at,
    }
}

impl Elaborator {
    /// The variable of a list.
    pub(crate) fn list(&self, name: &NameAt) -> Result<VarId, ElabError>
        requires { all_entries self.now ≤ entry_limit }
        ensures { Gives (λ v. v) result (check_list self.now name.now) }
    {
        bound_list(&self.scope, name)?;
        Ok(self.built.variable(name))
    }

    /// The channel at which an instruction works.
    pub(crate) fn chan(&self, chan: &ChanAt) -> Result<Chan, ElabError>
        requires { all_entries self.now ≤ entry_limit }
        ensures { Gives (λ c. c) result (check_chan self.now chan.now) }
    {
        match chan {
            ChanAt::Own { .. } => Ok(Chan::Own),
            ChanAt::Variable { name } => Ok(Chan::Var(self.channel(name)?)),
        }
    }

    /// The number of a declared process.
    pub(crate) fn process(&self, name: &NameAt) -> Result<ProcId, ElabError>
        requires { all_entries self.now ≤ entry_limit }
        ensures { Gives (λ p. p) result (check_process self.now name.now) }
    {
        declared(&self.spaces.processes, name)?;
        let place = self.spaces.processes.number_of(name.name.as_bytes());
        Ok(ProcId(place as u32))
    }

    /// The node of a step, which goes on with no code yet. What the step binds is bound from then on. Of what counts in
    /// the step two are left, for its node and the `work` before it.
    #[tactic(auto, unfolding(crate::specs::mirror::CodeCheck::check_step))]
    pub(crate) fn step(&mut self, step: &SurfaceStep) -> Result<CodeNode, ElabError>
        requires keeps { KeepsStep (step_tree step.now) }
        requires room { MayMake self.old (in_step (step_tree step.now)) }
        ensures gives { Gives (λ n. (self.new, n)) result (check_step self.old (step_tree step.now)) }
        ensures grows { IfOk result
            (λ _. all_entries self.new + 2 ≤ all_entries self.old + most_of (in_step (step_tree step.now))) }
    {
        match step {
            SurfaceStep::Label { chan, label } => {
                let at = chan_offset(chan);
                let chan = self.chan(chan)?;
                let label = self.built.see_label(label)?;
                Ok(CodeNode::Label(at, chan, label, NO_CODE))
            }
            SurfaceStep::Send { at, chan, sent } => {
                let chan = self.chan(chan)?;
                let sent = self.channel(sent)?;
                Ok(CodeNode::Send(*at, chan, sent, NO_CODE))
            }
            SurfaceStep::Recv { at, chan, bound } => {
                let chan = self.chan(chan)?;
                let bound = self.bind(bound, Sort::Channel)?;
                Ok(CodeNode::Recv(*at, chan, bound, NO_CODE))
            }
            SurfaceStep::Put { at, chan, term } => {
                let chan = self.chan(chan)?;
                let term = self.term(term)?;
                Ok(CodeNode::Put(*at, chan, term, NO_CODE))
            }
            SurfaceStep::Take { at, chan, bound } => {
                let chan = self.chan(chan)?;
                let bound = self.bind(bound, Sort::Value)?;
                Ok(CodeNode::Take(*at, chan, bound, NO_CODE))
            }
            SurfaceStep::Pay {
                at,
                chan,
                potential,
            } => {
                let chan = self.chan(chan)?;
                let amount = self.built.amount(*potential);
                Ok(CodeNode::Pay(*at, chan, amount, NO_CODE))
            }
            SurfaceStep::Get {
                at,
                chan,
                potential,
            } => {
                let chan = self.chan(chan)?;
                let amount = self.built.amount(*potential);
                Ok(CodeNode::Get(*at, chan, amount, NO_CODE))
            }
            SurfaceStep::Work { at, potential } => {
                let amount = self.built.amount(*potential);
                Ok(CodeNode::Work(*at, amount, NO_CODE))
            }
            SurfaceStep::Wait { at, chan } => {
                let chan = self.channel(chan)?;
                Ok(CodeNode::Wait(*at, chan, NO_CODE))
            }
            SurfaceStep::Accept { at } => Ok(CodeNode::Accept(*at, NO_CODE)),
            SurfaceStep::Detach { at } => Ok(CodeNode::Detach(*at, NO_CODE)),
            SurfaceStep::Acquire { at, shared, bound } => {
                let shared = self.channel(shared)?;
                let bound = self.bind(bound, Sort::Channel)?;
                Ok(CodeNode::Acquire(*at, shared, bound, NO_CODE))
            }
            SurfaceStep::Release { at, held, bound } => {
                let held = self.channel(held)?;
                let bound = self.bind(bound, Sort::Channel)?;
                Ok(CodeNode::Release(*at, held, bound, NO_CODE))
            }
            SurfaceStep::Spawn {
                at,
                bound,
                process,
                arguments,
            } => {
                let variable = self.new_variable(bound)?;
                let process = self.process(process)?;
                let arguments = self.arguments(arguments)?;
                self.scope.bind(bound, Sort::Channel)?;
                Ok(CodeNode::Spawn(*at, variable, process, arguments, NO_CODE))
            }
            SurfaceStep::Let { at, bound, term } => {
                let variable = self.new_variable(bound)?;
                let term = self.term(term)?;
                self.scope.bind(bound, Sort::Value)?;
                Ok(CodeNode::Let(*at, variable, term, NO_CODE))
            }
            SurfaceStep::Empty {
                at,
                bound,
                potential,
                element,
                ..
            } => {
                let variable = self.new_variable(bound)?;
                let amount = self.built.amount(*potential);
                let kind = kind_of(element);
                self.scope.bind(bound, Sort::List)?;
                Ok(CodeNode::Empty(*at, variable, amount, kind, NO_CODE))
            }
            SurfaceStep::Add {
                at,
                bound,
                first,
                rest,
            } => {
                let variable = self.new_variable(bound)?;
                let first = self.term(first)?;
                let rest = self.list(rest)?;
                self.scope.bind(bound, Sort::List)?;
                Ok(CodeNode::Add(*at, variable, first, rest, NO_CODE))
            }
            SurfaceStep::Emit { at, term } => {
                let term = self.term(term)?;
                Ok(CodeNode::Emit(*at, term, NO_CODE))
            }
        }
    }
}
