//! The firings of a batch, and the instructions that were fired.
ghost use Rattle.std.specs.Prelude.{◌≡◌, ◌<◌, ◌++◌, ◌∷◌, [], OnOk};
ghost use Rattle.nomos_ledger.specs.mirror.Fired.{HasSpace};

use nomos_ir::ids::CodeId;
use nomos_legal::journal::Firing;
use std::alloc::{AllocError, Global};

/// The firings of a batch in order, and for each the instruction that was fired.
#[derive(Drop, Debug)]
pub(crate) struct Fired {
    pub(crate) firings: Vec<Firing>,
    pub(crate) places: Vec<CodeId>,
}

impl Fired {
    /// No firings. It takes no memory.
    pub(crate) fn none(alloc: Global) -> Fired
        ensures firings { result.firings.items ≡ [] }
        ensures places { result.places.items ≡ [] }
    {
        Fired {
            firings: Vec::new(alloc),
            places: Vec::new(alloc),
        }
    }

    /// Makes room for one more firing.
    #[inline(always)]
    pub(crate) fn reserve(&mut self) -> Result<(), AllocError>
        ensures ok { OnOk result (HasSpace self.new) }
        ensures firings { self.new.firings.items ≡ self.old.firings.items }
        ensures places { self.new.places.items ≡ self.old.places.items }
    {
        self.firings.reserve(1)?;
        self.places.reserve(1)?;
        Ok(())
    }

    /// Puts a firing and its instruction at the end, for which there is room.
    #[inline(always)]
    pub(crate) fn note(&mut self, firing: Firing, place: CodeId)
        requires { HasSpace self.old }
        ensures firings { self.new.firings.items ≡ self.old.firings.items ++ firing ∷ [] }
        ensures places { self.new.places.items ≡ self.old.places.items ++ place ∷ [] }
    {
        self.firings.push_reserved(firing);
        self.places.push_reserved(place);
    }
}
