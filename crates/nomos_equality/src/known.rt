//! Which types are known to be equal, and which amounts stand at their equal paths.
ghost use Rattle.std.specs.Prelude.{◌≡◌, ◌<◌, [], IsTrue, length, OnOk, OnErr, IfOk};
ghost use Rattle.nomos_types.specs.Equality.{EqualShapes};
ghost use Rattle.nomos_equality.specs.Comparing.{nothing_compared, HasCompared, IsFront, StaysCompared, FindsEqual};
ghost use Rattle.nomos_equality.specs.Paths.{PaysNowhere};
ghost use Rattle.nomos_equality.specs.mirror.Search.{IsFormed, IsMet, HasNodes, Follows, FollowsLabels};
ghost use Rattle.nomos_equality.specs.mirror.Known.{compared_by, Among, visit_at, MeetsPair, Spreads};
ghost use Rattle.nomos_equality.specs.mirror.Known.{NotesPaid, IsSpread, HasGathered};

use crate::amount_table::AmountTable;
use crate::constructor::paid_by;
use crate::hop::Hop;
use crate::node_parts::{choices_of, part_by};
use crate::pair_table::PairTable;
use nomos_ir::ids::TypeId;
use nomos_ir::lists::AmountPairs;
use nomos_ir::program::Program;
use nomos_types::unfolding::unfold;
use std::alloc::{AllocError, Global};

/// What is known: pairs of equal types, and the amounts that stand at equal paths of these.
#[derive(Drop)]
pub(crate) struct Known {
    pub(crate) pairs: PairTable,
    pub(crate) amounts: AmountTable,
    /// Pairs that were put, whose parts are to be met.
    pub(crate) todo: Vec<(TypeId, TypeId)>,
}

impl Known {
    /// Nothing is known. It takes no memory.
    pub(crate) fn new(alloc: Global) -> Known
        ensures { compared_by result ≡ nothing_compared }
    {
        Known {
            pairs: PairTable::new(alloc),
            amounts: AmountTable::new(alloc),
            todo: Vec::new(alloc),
        }
    }

    /// Whether two types are known to be equal.
    pub(crate) fn has(&self, program: &Program, left: TypeId, right: TypeId) -> bool
        requires formed { IsFormed program.now }
        requires left { left.0 < length program.now.types }
        requires right { right.0 < length program.now.types }
        ensures { IsTrue result → IsMet program.now (Among self.now.pairs) left right }
    {
        self.pairs
            .holds(unfold(program, left), unfold(program, right))
    }

    /// Meets two types: puts their pair where it was not there.
    fn meet(&mut self, program: &Program, left: TypeId, right: TypeId) -> Result<(), AllocError>
        requires formed { IsFormed program.now }
        requires left { left.0 < length program.now.types }
        requires right { right.0 < length program.now.types }
        ensures meets { OnOk result (MeetsPair program.now self.old left right self.new) }
        ensures amounts { self.new.amounts ≡ self.old.amounts }
    {
        let left = unfold(program, left);
        let right = unfold(program, right);
        let count = program.lists().types.len();
        if self.pairs.insert(left, right, count)? {
            self.todo.push((left, right))?;
        }
        Ok(())
    }

    /// Meets the parts of two types by a hop, where they have some.
    fn follow(
        &mut self,
        program: &Program,
        left: TypeId,
        right: TypeId,
        hop: Hop,
    ) -> Result<(), AllocError>
        requires formed { IsFormed program.now }
        requires nodes { HasNodes program.now (visit_at left right) }
        ensures spreads { OnOk result (Spreads program.now left right self.old self.new) }
        ensures follows { OnOk result (Follows program.now (visit_at left right) hop (Among self.new.pairs)) }
        ensures amounts { self.new.amounts ≡ self.old.amounts }
    {
        let left_part = part_by(program.node(left), hop);
        let right_part = part_by(program.node(right), hop);
        match (left_part, right_part) {
            (Some(left_part), Some(right_part)) => self.meet(program, left_part, right_part),
            _ => Ok(()),
        }
    }

    /// Meets the parts of two types by their labels.
    fn follow_labels(
        &mut self,
        program: &Program,
        left: TypeId,
        right: TypeId,
    ) -> Result<(), AllocError>
        requires formed { IsFormed program.now }
        requires nodes { HasNodes program.now (visit_at left right) }
        ensures spreads { OnOk result (Spreads program.now left right self.old self.new) }
        ensures follows { OnOk result (FollowsLabels program.now (visit_at left right) (Among self.new.pairs)) }
        ensures amounts { self.new.amounts ≡ self.old.amounts }
    {
        let branches = choices_of(program.node(left));
        for branch in branches {
            self.follow(program, left, right, Hop::Label(branch.label))?;
        }
        Ok(())
    }

    /// Notes the amounts of two types, where they have some.
    fn note(&mut self, program: &Program, left: TypeId, right: TypeId) -> Result<(), AllocError>
        requires nodes { HasNodes program.now (visit_at left right) }
        ensures spreads { OnOk result (Spreads program.now left right self.old self.new) }
        ensures paid { OnOk result (NotesPaid program.now left right self.new.amounts) }
        ensures front { IsFront self.old.amounts self.new.amounts }
    {
        match (paid_by(program.node(left)), paid_by(program.node(right))) {
            (Some(left_paid), Some(right_paid)) => {
                self.amounts.insert(left_paid, right_paid)?;
                Ok(())
            }
            _ => Ok(()),
        }
    }

    /// Meets all parts of two types, and notes their amounts.
    fn spread(&mut self, program: &Program, left: TypeId, right: TypeId) -> Result<(), AllocError>
        requires formed { IsFormed program.now }
        requires nodes { HasNodes program.now (visit_at left right) }
        ensures spreads { OnOk result (Spreads program.now left right self.old self.new) }
        ensures all { OnOk result (IsSpread program.now left right self.new.pairs self.new.amounts) }
        ensures front { IsFront self.old.amounts self.new.amounts }
    {
        self.note(program, left, right)?;
        self.follow(program, left, right, Hop::Carried)?;
        self.follow(program, left, right, Hop::Next)?;
        self.follow_labels(program, left, right)
    }

    /// Gathers what follows from two types of equal shapes.
    fn gather_all(
        &mut self,
        program: &Program,
        left: TypeId,
        right: TypeId,
    ) -> Result<(), AllocError>
        requires formed { IsFormed program.now }
        requires left { left.0 < length program.now.types }
        requires right { right.0 < length program.now.types }
        requires shapes { EqualShapes program.now left right }
        requires todo { self.old.todo.items ≡ [] }
        ensures gathered { OnOk result (HasGathered program.now left right self.old self.new) }
        ensures front { IsFront self.old.amounts self.new.amounts }
    {
        self.meet(program, left, right)?;
        for _ in 0..u64::MAX {
            let Some((own, other)) = self.todo.pop() else {
                return Ok(());
            };
            self.spread(program, own, other)?;
        }
        // Not reached: there are no more pairs of 32 bits each, and each is put once.
        Err(AllocError)
    }

    /// Adds what follows from two types of equal shapes; where memory runs out, nothing is added.
    pub(crate) fn gather(
        &mut self,
        program: &Program,
        left: TypeId,
        right: TypeId,
    ) -> Result<(), AllocError>
        requires formed { IsFormed program.now }
        requires left { left.0 < length program.now.types }
        requires right { right.0 < length program.now.types }
        requires shapes { EqualShapes program.now left right }
        requires compared { HasCompared program.now (compared_by self.old) }
        ensures compared { HasCompared program.now (compared_by self.new) }
        ensures kept { StaysCompared (compared_by self.old) (compared_by self.new) }
        ensures finds { OnOk result (FindsEqual program.now left right (compared_by self.old) (compared_by self.new)) }
        ensures err { OnErr result (compared_by self.new ≡ compared_by self.old) }
    {
        let before = self.pairs.told();
        let amounts = self.amounts.len();
        self.todo.clear();
        match self.gather_all(program, left, right) {
            Ok(()) => Ok(()),
            Err(error) => {
                self.pairs.back(before);
                self.amounts.truncate(amounts);
                Err(error)
            }
        }
    }

    /// Adds two types of equal shapes from which no amount is reached, without what follows from them; where memory
    /// runs out, nothing is added.
    pub(crate) fn join(
        &mut self,
        program: &Program,
        left: TypeId,
        right: TypeId,
    ) -> Result<(), AllocError>
        requires formed { IsFormed program.now }
        requires left { left.0 < length program.now.types }
        requires right { right.0 < length program.now.types }
        requires shapes { EqualShapes program.now left right }
        requires free { PaysNowhere program.now left }
        requires compared { HasCompared program.now (compared_by self.old) }
        ensures compared { HasCompared program.now (compared_by self.new) }
        ensures kept { StaysCompared (compared_by self.old) (compared_by self.new) }
        ensures finds { OnOk result (FindsEqual program.now left right (compared_by self.old) (compared_by self.new)) }
        ensures err { OnErr result (compared_by self.new ≡ compared_by self.old) }
    {
        let left = unfold(program, left);
        let right = unfold(program, right);
        let count = program.lists().types.len();
        self.pairs.insert(left, right, count)?;
        Ok(())
    }

    /// The pairs of amounts that are known.
    pub(crate) fn into_amounts(self) -> Result<AmountPairs, AllocError>
        ensures { IfOk result (λ pairs. pairs ≡ self.amounts) }
    {
        let Known {
            pairs: _,
            amounts,
            todo: _,
        } = self;
        amounts.into_pairs()
    }
}
