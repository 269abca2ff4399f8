//! The search for a difference of two types, along their paths.
ghost use Rattle.std.specs.Prelude.{◌≡◌, ◌<◌, [], length, slice_get, Some, OnOk, IfOk};
ghost use Rattle.nomos_equality.specs.mirror.Search.{IsFormed, Classed, Meets, HasNodes, GoesTo};
ghost use Rattle.nomos_equality.specs.mirror.Search.{Follows, FollowsLabels, ComparesVisit, DecidesShapes};
ghost use Rattle.nomos_equality.specs.mirror.Search.{AreInOrder, Trail};

use crate::choices::same_form;
use crate::equality::Comparison;
use crate::hop::{Hop, Path};
use crate::node_parts::{choices_of, part_by};
use crate::type_classes::TypeClasses;
use nomos_ir::ids::TypeId;
use nomos_ir::items::Items;
use nomos_ir::program::Program;
use nomos_types::unfolding::unfold;
use std::alloc::{AllocError, Global};

/// By which hop, and from which visit, two types were met.
#[derive(Clone, Copy)]
pub(crate) struct Origin {
    pub(crate) visit: usize,
    pub(crate) hop: Hop,
}

/// Two types, behind their names, and how they were met first. Those with which a search begins were met
/// by no hop.
#[derive(Clone, Copy)]
pub(crate) struct TypeVisit {
    pub(crate) left: TypeId,
    pub(crate) right: TypeId,
    pub(crate) from: Option<Origin>,
}

/// What a search has met: the types in classes, which have to be equal where the first two are, and the
/// visits. Types of one class are not visited again, so that there are fewer visits than types.
#[derive(Drop)]
pub(crate) struct DifferenceSearch {
    pub(crate) alloc: Global,
    pub(crate) classes: TypeClasses,
    pub(crate) visits: Vec<TypeVisit>,
}

impl DifferenceSearch {
    /// A search among so many types that has met nothing.
    fn new(alloc: Global, count: usize) -> Result<DifferenceSearch, AllocError>
        ensures visits { IfOk result (λ search. search.visits.items ≡ []) }
        ensures classes { IfOk result (λ search. search.classes ≡ []) }
    {
        Ok(DifferenceSearch {
            alloc,
            classes: TypeClasses::new(alloc, count)?,
            visits: Vec::new(alloc),
        })
    }

    /// The visit with this number.
    fn visit(&self, number: usize) -> TypeVisit
        requires { number < length self.now.visits.items }
        ensures { slice_get self.now.visits.items number ≡ Some result }
    {
        self.visits.as_slice()[number]
    }

    /// Meets two types, and visits them where they were not in one class before.
    fn meet(
        &mut self,
        program: &Program,
        left: TypeId,
        right: TypeId,
        from: Option<Origin>,
    ) -> Result<(), AllocError>
        requires formed { IsFormed program.now }
        requires left { left.0 < length program.now.types }
        requires right { right.0 < length program.now.types }
        ensures { OnOk result (Meets program.now self.old left right from self.new) }
    {
        let left = unfold(program, left);
        let right = unfold(program, right);
        if self.classes.join(left, right) {
            self.visits.push(TypeVisit { left, right, from })?;
        }
        Ok(())
    }

    /// Meets the parts of a visit by a hop, where it has some.
    fn follow(
        &mut self,
        program: &Program,
        number: usize,
        visit: TypeVisit,
        hop: Hop,
    ) -> Result<(), AllocError>
        requires formed { IsFormed program.now }
        requires there { slice_get self.old.visits.items number ≡ Some visit }
        requires nodes { HasNodes program.now visit }
        ensures goes { OnOk result (GoesTo program.now self.old self.new) }
        ensures follows { OnOk result (Follows program.now visit hop (Classed self.new)) }
    {
        let left = part_by(program.node(visit.left), hop);
        let right = part_by(program.node(visit.right), hop);
        match (left, right) {
            (Some(left), Some(right)) => {
                let origin = Origin { visit: number, hop };
                self.meet(program, left, right, Some(origin))
            }
            _ => Ok(()),
        }
    }

    /// Meets the parts of a visit by its labels.
    fn follow_labels(
        &mut self,
        program: &Program,
        number: usize,
        visit: TypeVisit,
    ) -> Result<(), AllocError>
        requires formed { IsFormed program.now }
        requires there { slice_get self.old.visits.items number ≡ Some visit }
        requires nodes { HasNodes program.now visit }
        ensures goes { OnOk result (GoesTo program.now self.old self.new) }
        ensures follows { OnOk result (FollowsLabels program.now visit (Classed self.new)) }
    {
        let branches = choices_of(program.node(visit.left));
        for branch in branches {
            self.follow(program, number, visit, Hop::Label(branch.label))?;
        }
        Ok(())
    }

    /// Whether the nodes of a visit have the same form; where they have, their parts are met.
    fn step(
        &mut self,
        program: &Program,
        number: usize,
        visit: TypeVisit,
    ) -> Result<bool, AllocError>
        requires formed { IsFormed program.now }
        requires there { slice_get self.old.visits.items number ≡ Some visit }
        requires nodes { HasNodes program.now visit }
        ensures goes { OnOk result (GoesTo program.now self.old self.new) }
        ensures compared { IfOk result (ComparesVisit program.now visit self.new) }
    {
        if !same_form(program.node(visit.left), program.node(visit.right)) {
            return Ok(false);
        }
        self.follow(program, number, visit, Hop::Carried)?;
        self.follow(program, number, visit, Hop::Next)?;
        self.follow_labels(program, number, visit)?;
        Ok(true)
    }

    /// The hops by which a visit was reached.
    fn path_to(&self, number: usize) -> Result<Path, AllocError>
        requires there { number < length self.now.visits.items }
        requires order { AreInOrder self.now.visits.items }
        ensures { IfOk result (λ path. Trail self.now.visits.items number path) }
    {
        let mut path = Vec::new(self.alloc);
        let mut at = self.visit(number).from;
        while let Some(origin) = at {
            path.push(origin.hop)?;
            at = self.visit(origin.visit).from;
        }
        path.reverse();
        Ok(Items::of_vec(path))
    }

    /// Searches for a difference of two types.
    fn run(
        &mut self,
        program: &Program,
        left: TypeId,
        right: TypeId,
    ) -> Result<Comparison, AllocError>
        requires formed { IsFormed program.now }
        requires left { left.0 < length program.now.types }
        requires right { right.0 < length program.now.types }
        requires visits { self.old.visits.items ≡ [] }
        requires classes { self.old.classes ≡ [] }
        ensures { IfOk result (DecidesShapes program.now left right) }
    {
        self.meet(program, left, right, None)?;
        let mut next = 0;
        while next < self.visits.len() {
            let visit = self.visit(next);
            if !self.step(program, next, visit)? {
                return Ok(Comparison::Different(self.path_to(next)?));
            }
            next += 1;
        }
        Ok(Comparison::Equal)
    }
}

/// Whether two types of a program have equal shapes, or where they differ. Two that unfold to the same type need no
/// search, which takes memory for each type of the program.
pub(crate) fn find_difference(
    alloc: Global,
    program: &Program,
    left: TypeId,
    right: TypeId,
) -> Result<Comparison, AllocError>
    requires formed { IsFormed program.now }
    requires left { left.0 < length program.now.types }
    requires right { right.0 < length program.now.types }
    ensures { IfOk result (DecidesShapes program.now left right) }
{
    let own = unfold(program, left);
    let other = unfold(program, right);
    if own.0 == other.0 {
        return Ok(Comparison::Equal);
    }
    let mut search = DifferenceSearch::new(alloc, program.lists().types.len())?;
    search.run(program, left, right)
}
