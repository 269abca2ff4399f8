//! Which pairs of amounts the instructions of a process need to be worth the same.
ghost use Rattle.std.specs.Prelude.{◌≡◌, OnOk};
ghost use Rattle.nomos_check.specs.mirror.StandingData.{Joins};

use nomos_equality::equalities::Equalities;
use nomos_ir::amount::Amount;
use nomos_ir::mode::Mode;
use std::alloc::{AllocError, Global};

/// The pairs that were asked for so far: those of compared types, and the others. Beside them stand the modes of the
/// program's types, by which types pass for one another.
#[derive(Drop)]
pub(crate) struct Asked<'p> {
    pub(crate) alloc: Global,
    pub(crate) modes: &'p [Mode],
    pub(crate) equalities: Equalities,
    pub(crate) pairs: Vec<(Amount, Amount)>,
}

impl Asked<'_> {
    /// One more pair is asked for.
    pub(crate) fn note(&mut self, left: Amount, right: Amount) -> Result<(), AllocError>
        ensures joins { OnOk result (Joins self.old self.new (λ pair. pair ≡ (left, right))) }
        ensures same_modes { self.new.modes.now ≡ self.old.modes.now }
        ensures same_compared { self.new.equalities ≡ self.old.equalities }
    {
        self.pairs.push((left, right))?;
        Ok(())
    }
}
