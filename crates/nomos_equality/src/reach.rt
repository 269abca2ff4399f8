//! Whether an amount can be reached from a type.
ghost use Rattle.std.specs.Prelude.{◌≡◌, ◌<◌, ◌^◌, [], length, slice_get, IsTrue, OnOk, IfOk, IfSome};
ghost use Rattle.nomos_equality.specs.Paths.{PaysNowhere};
ghost use Rattle.nomos_equality.specs.mirror.Reach.{IsVisited, WalksOn, MeetsPart, MeetsLabels, MeetsParts};
ghost use Rattle.nomos_equality.specs.declared.hop.Hop.TheVariants as hop;
ghost use Rattle.nomos_equality.specs.mirror.Search.{IsFormed};
ghost use Rattle.nomos_equality.specs.mirror.Walk.{HasBranch};

use crate::constructor::paid_by;
use crate::hop::Hop;
use crate::node_parts::{choices_of, part_by};
use indexmap::IndexSet;
use nomos_ir::ids::TypeId;
use nomos_ir::program::Program;
use nomos_ir::type_node::Branch;
use nomos_types::unfolding::unfold;
use std::alloc::{AllocError, Global};

/// The types that were met, behind their names, each once.
#[derive(Drop)]
struct TypeWalk {
    visits: IndexSet<u32>,
}

impl TypeWalk {
    /// Nothing is met. It takes no memory.
    fn new(alloc: Global) -> TypeWalk
        ensures { result.visits.keys ≡ [] }
    {
        TypeWalk {
            visits: IndexSet::new(alloc),
        }
    }

    /// The visit with this number, if there is one.
    fn visit(&self, number: usize) -> Option<u32>
        ensures there { result ≡ slice_get self.now.visits.keys number }
        ensures small { IfSome result (λ _. number < 2 ^ 63) }
    {
        if number >= self.visits.len() {
            return None;
        }
        self.visits.get_index(number).copied()
    }

    /// Meets a type, and visits it where it was not met before.
    fn meet(&mut self, program: &Program, t: TypeId) -> Result<(), AllocError>
        requires formed { IsFormed program.now }
        requires in_range { t.0 < length program.now.types }
        ensures walks { OnOk result (WalksOn program.now self.old.visits.keys self.new.visits.keys) }
        ensures met { OnOk result (IsVisited program.now self.new.visits.keys t) }
    {
        let at = unfold(program, t);
        self.visits.insert(at.0)?;
        Ok(())
    }

    /// Meets the part of a visit by a hop, where it has one.
    fn follow(&mut self, program: &Program, at: TypeId, hop: Hop) -> Result<(), AllocError>
        requires formed { IsFormed program.now }
        requires in_range { at.0 < length program.now.types }
        ensures walks { OnOk result (WalksOn program.now self.old.visits.keys self.new.visits.keys) }
        ensures meets { OnOk result (MeetsPart program.now at.0 hop self.new.visits.keys) }
    {
        match part_by(program.node(at), hop) {
            Some(part) => self.meet(program, part),
            None => Ok(()),
        }
    }

    /// Meets the part of a visit by one of its branches.
    fn follow_branch(
        &mut self,
        program: &Program,
        at: TypeId,
        branch: &Branch,
    ) -> Result<(), AllocError>
        requires formed { IsFormed program.now }
        requires branch { HasBranch program.now at.0 branch.now }
        ensures walks { OnOk result (WalksOn program.now self.old.visits.keys self.new.visits.keys) }
        ensures meets { OnOk result (MeetsPart program.now at.0 (hop.Label branch.now.label) self.new.visits.keys) }
    {
        self.meet(program, branch.goes)
    }

    /// Meets the parts of a visit by its labels.
    fn follow_labels(&mut self, program: &Program, at: TypeId) -> Result<(), AllocError>
        requires formed { IsFormed program.now }
        requires in_range { at.0 < length program.now.types }
        ensures walks { OnOk result (WalksOn program.now self.old.visits.keys self.new.visits.keys) }
        ensures meets { OnOk result (MeetsLabels program.now at.0 self.new.visits.keys) }
    {
        let branches = choices_of(program.node(at));
        for branch in branches {
            self.follow_branch(program, at, branch)?;
        }
        Ok(())
    }

    /// Meets all parts of a visit.
    fn step(&mut self, program: &Program, at: TypeId) -> Result<(), AllocError>
        requires formed { IsFormed program.now }
        requires in_range { at.0 < length program.now.types }
        ensures walks { OnOk result (WalksOn program.now self.old.visits.keys self.new.visits.keys) }
        ensures meets { OnOk result (MeetsParts program.now at.0 self.new.visits.keys) }
    {
        self.follow(program, at, Hop::Carried)?;
        self.follow(program, at, Hop::Next)?;
        self.follow_labels(program, at)
    }
}

/// Whether no path leads from a type to one that pays or gets an amount.
pub(crate) fn pays_nowhere(
    alloc: Global,
    program: &Program,
    start: TypeId,
) -> Result<bool, AllocError>
    requires formed { IsFormed program.now }
    requires start { start.0 < length program.now.types }
    ensures { IfOk result (λ nowhere. IsTrue nowhere → PaysNowhere program.now start) }
{
    let mut walk = TypeWalk::new(alloc);
    walk.meet(program, start)?;
    let mut next = 0;
    while let Some(at) = walk.visit(next) {
        let at = TypeId(at);
        if paid_by(program.node(at)).is_some() {
            return Ok(false);
        }
        walk.step(program, at)?;
        next += 1;
    }
    Ok(true)
}
