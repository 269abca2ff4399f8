//! The walk through the continuations of a type.
ghost use Rattle.std.specs.Prelude.{◌≡◌, ◌<◌, ◌^◌, [], length, slice_get, OnOk, IfOk, IfSome};
ghost use Rattle.nomos_equality.specs.mirror.Walk.{IsWalkable, MeetsType, WalksTo, FollowsHop, FollowsEachLabel};
ghost use Rattle.nomos_equality.specs.declared.hop.Hop.TheVariants as hop;
ghost use Rattle.nomos_equality.specs.mirror.Walk.{HasBranch, StandsVisited, WasMetBy, FollowsAll, WayTo, VisitsAreInOrder};

use crate::continuations::continuation_by;
use crate::hop::{Hop, Path};
use crate::node_parts::choices_of;
use indexmap::IndexMap;
use nomos_ir::ids::TypeId;
use nomos_ir::items::Items;
use nomos_ir::program::Program;
use nomos_ir::type_node::Branch;
use nomos_types::unfolding::unfold;
use std::alloc::{AllocError, Global};

/// By which hop, and from which visit, a type was met.
#[derive(Clone, Copy)]
pub(crate) struct Arrival {
    pub(crate) visit: usize,
    pub(crate) hop: Hop,
}

/// The types that were met, behind their names, each with the hop by which it was met first. That with
/// which a walk begins was met by none.
#[derive(Drop)]
pub(crate) struct ContinuationWalk {
    pub(crate) alloc: Global,
    pub(crate) visits: IndexMap<u32, Option<Arrival>>,
}

impl ContinuationWalk {
    /// A walk that has met nothing. It takes no memory.
    pub(crate) fn new(alloc: Global) -> ContinuationWalk
        ensures { result.visits.entries ≡ [] }
    {
        ContinuationWalk {
            alloc,
            visits: IndexMap::new(alloc),
        }
    }

    /// The visit with this number, if there is one.
    pub(crate) fn visit(&self, number: usize) -> Option<(u32, Option<Arrival>)>
        ensures there { result ≡ slice_get self.now.visits.entries number }
        ensures small { IfSome result (λ v. number < 2 ^ 63) }
    {
        if number >= self.visits.len() {
            return None;
        }
        match self.visits.get_index(number) {
            Some((at, from)) => Some((*at, *from)),
            None => None,
        }
    }

    /// Meets a type, and puts it at the end where it was not met before.
    pub(crate) fn meet(
        &mut self,
        program: &Program,
        t: TypeId,
        from: Option<Arrival>,
    ) -> Result<(), AllocError>
        requires walkable { IsWalkable program.now }
        requires in_range { t.0 < length program.now.types }
        ensures { OnOk result (MeetsType program.now self.old.visits.entries t from self.new.visits.entries) }
    {
        let at = unfold(program, t);
        if self.visits.contains_key(&at.0) {
            return Ok(());
        }
        self.visits.insert(at.0, from)?;
        Ok(())
    }

    /// Meets the continuation of a visit by a hop, where it has one.
    fn follow(
        &mut self,
        program: &Program,
        number: usize,
        at: TypeId,
        hop: Hop,
    ) -> Result<(), AllocError>
        requires walkable { IsWalkable program.now }
        requires there { StandsVisited self.old.visits.entries number at.0 }
        requires in_range { at.0 < length program.now.types }
        ensures walks { OnOk result (WalksTo program.now self.old.visits.entries self.new.visits.entries) }
        ensures follows { OnOk result (FollowsHop program.now at.0 hop self.new.visits.entries) }
    {
        match continuation_by(program.node(at), hop) {
            Some(next) => self.meet(program, next, Some(Arrival { visit: number, hop })),
            None => Ok(()),
        }
    }

    /// Meets the continuation of a visit by one of its branches.
    fn follow_branch(
        &mut self,
        program: &Program,
        number: usize,
        at: TypeId,
        branch: &Branch,
    ) -> Result<(), AllocError>
        requires walkable { IsWalkable program.now }
        requires there { StandsVisited self.old.visits.entries number at.0 }
        requires branch { HasBranch program.now at.0 branch.now }
        ensures walks { OnOk result (WalksTo program.now self.old.visits.entries self.new.visits.entries) }
        ensures follows { OnOk result
            (FollowsHop program.now at.0 (hop.Label branch.now.label) self.new.visits.entries) }
    {
        let hop = Hop::Label(branch.label);
        self.meet(program, branch.goes, Some(Arrival { visit: number, hop }))
    }

    /// Meets the continuations of a visit by its labels.
    fn follow_labels(
        &mut self,
        program: &Program,
        number: usize,
        at: TypeId,
    ) -> Result<(), AllocError>
        requires walkable { IsWalkable program.now }
        requires there { StandsVisited self.old.visits.entries number at.0 }
        requires in_range { at.0 < length program.now.types }
        ensures walks { OnOk result (WalksTo program.now self.old.visits.entries self.new.visits.entries) }
        ensures follows { OnOk result (FollowsEachLabel program.now at.0 self.new.visits.entries) }
    {
        let branches = choices_of(program.node(at));
        for branch in branches {
            self.follow_branch(program, number, at, branch)?;
        }
        Ok(())
    }

    /// Meets all continuations of a visit.
    pub(crate) fn step(
        &mut self,
        program: &Program,
        number: usize,
        at: TypeId,
    ) -> Result<(), AllocError>
        requires walkable { IsWalkable program.now }
        requires there { StandsVisited self.old.visits.entries number at.0 }
        requires in_range { at.0 < length program.now.types }
        ensures walks { OnOk result (WalksTo program.now self.old.visits.entries self.new.visits.entries) }
        ensures follows { OnOk result (FollowsAll program.now at.0 self.new.visits.entries) }
    {
        self.follow(program, number, at, Hop::Next)?;
        self.follow_labels(program, number, at)
    }

    /// The hop by which the visit with this number was met.
    fn arrival(&self, number: usize) -> Option<Arrival>
        requires { number < length self.now.visits.entries }
        ensures { WasMetBy self.now.visits.entries number result }
    {
        match self.visit(number) {
            Some((_, from)) => from,
            None => None,
        }
    }

    /// The hops by which a visit was reached.
    pub(crate) fn path_to(&self, number: usize) -> Result<Path, AllocError>
        requires there { number < length self.now.visits.entries }
        requires order { VisitsAreInOrder self.now.visits.entries }
        ensures { IfOk result (λ path. WayTo self.now.visits.entries number path) }
    {
        let mut path = Vec::new(self.alloc);
        let mut from = self.arrival(number);
        while let Some(arrival) = from {
            path.push(arrival.hop)?;
            from = self.arrival(arrival.visit);
        }
        path.reverse();
        Ok(Items::of_vec(path))
    }
}
