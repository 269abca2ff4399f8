//! Equalities that were found in one program, kept so that no types that are known to be equal are compared again.
ghost use Rattle.std.specs.Prelude.{◌≡◌, ◌<◌, length, IfOk, OnOk, OnErr};
ghost use Rattle.nomos_ir.specs.Unfold.{IsContractive};
ghost use Rattle.nomos_types.specs.Equality.{EqualShapes};
ghost use Rattle.nomos_equality.specs.Comparing.{nothing_compared, HasCompared, StaysCompared, FindsEqual, AnswersComparison};
ghost use Rattle.nomos_equality.specs.mirror.Search.{IsFormed};

use crate::difference::find_difference;
use crate::equality::Comparison;
use crate::free_types::{are_joined, join_free};
use crate::known::Known;
use crate::reach::pays_nowhere;
use crate::type_classes::TypeClasses;
use nomos_ir::ids::TypeId;
use nomos_ir::lists::AmountPairs;
use nomos_ir::program::Program;
use std::alloc::{AllocError, Global};
use std::marker::Model;

/// What was compared in one program so far: contracts see the pairs of types, and, each once, the pairs of
/// amounts that stand at equal paths of these (`HasCompared`).
#[derive(Drop)]
pub struct Equalities {
    alloc: Global,
    known: Known,
    /// Types of one class are equal, and no amount is reached from them. So no pair of two of them is asked for twice.
    classes: TypeClasses,
}

impl Model for Equalities {
    ghost use Rattle.nomos_equality.specs.Comparing.{Compared};
    ghost use Rattle.nomos_equality.specs.mirror.Known.{compared_beside};

    ghost Value = { Compared };

    ghost view = { λ equalities. compared_beside equalities.known equalities.classes };
}

impl Equalities {
    /// Nothing is compared yet. It takes no memory.
    pub fn new(alloc: Global) -> Equalities
        ensures { result ≡ nothing_compared }
    {
        Equalities {
            alloc,
            known: Known::new(alloc),
            classes: TypeClasses::empty(alloc),
        }
    }

    /// Adds two types of equal shapes; where memory runs out, nothing is added.
    fn add(&mut self, program: &Program, left: TypeId, right: TypeId) -> Result<(), AllocError>
        requires formed { IsFormed program.now }
        requires left { left.0 < length program.now.types }
        requires right { right.0 < length program.now.types }
        requires shapes { EqualShapes program.now left right }
        requires compared { HasCompared program.now self.old }
        ensures compared { HasCompared program.now self.new }
        ensures kept { StaysCompared self.old self.new }
        ensures finds { OnOk result (FindsEqual program.now left right self.old self.new) }
        ensures err { OnErr result (self.new ≡ self.old) }
    {
        if !pays_nowhere(self.alloc, program, left)? {
            return self.known.gather(program, left, right);
        }
        self.classes.make_room(program.lists().types.len())?;
        self.known.join(program, left, right)?;
        join_free(&mut self.classes, program, left, right);
        Ok(())
    }

    /// Compares two types of the program of which all that was compared before is. Types that were found equal
    /// before are not compared again. All pairs stay, each in its place; where the types differ, and where
    /// memory runs out, nothing joins them.
    pub fn compare(
        &mut self,
        program: &Program,
        left: TypeId,
        right: TypeId,
    ) -> Result<Comparison, AllocError>
        requires contractive { IsContractive program.now }
        requires left { left.0 < length program.now.types }
        requires right { right.0 < length program.now.types }
        requires compared { HasCompared program.now self.old }
        ensures compared { HasCompared program.now self.new }
        ensures kept { StaysCompared self.old self.new }
        ensures answers { IfOk result (AnswersComparison program.now left right self.old self.new) }
        ensures err { OnErr result (self.new ≡ self.old) }
    {
        program.know();
        if self.known.has(program, left, right) {
            return Ok(Comparison::Equal);
        }
        if are_joined(&mut self.classes, program, left, right) {
            return Ok(Comparison::Equal);
        }
        match find_difference(self.alloc, program, left, right)? {
            Comparison::Equal => {
                self.add(program, left, right)?;
                Ok(Comparison::Equal)
            }
            Comparison::Different(path) => Ok(Comparison::Different(path)),
        }
    }

    /// The pairs of amounts that stand at equal paths of what was compared, each once.
    pub fn into_amounts(self) -> Result<AmountPairs, AllocError>
        ensures { IfOk result (λ pairs. pairs ≡ self.amounts) }
    {
        let Equalities {
            alloc: _,
            known,
            classes: _,
        } = self;
        known.into_amounts()
    }
}
