//! Names that maybe no object mentions any more.
ghost use Rattle.std.specs.Prelude.{◌≡◌, ◌++◌, ◌∷◌, [], Some, None, MatchOption, false, true};
ghost use Rattle.nomos_state.specs.Suspecting.{suspecting};

use std::alloc::{AllocError, Global};
use std::marker::Model;

/// Names that maybe no object mentions any more. Where there is no memory for one, it is lost, and that is remembered.
#[derive(Drop, Debug)]
pub struct Suspects {
    names: Vec<u32>,
    lost: bool,
}

impl Model for Suspects {
    ghost use Rattle.nomos_state.specs.Suspecting.{Suspicion};

    ghost Value = { Suspicion };

    ghost view = { λ s. record { names = s.names.items; lost = s.lost } };
}

impl Suspects {
    /// No suspects, and none is lost. It takes no memory.
    pub fn new(alloc: Global) -> Self
        ensures { result ≡ record { names = []; lost = false } }
    {
        Suspects {
            names: Vec::new(alloc),
            lost: false,
        }
    }

    /// Whether a suspect was lost.
    pub fn is_lost(&self) -> bool
        ensures { result ≡ self.now.lost }
    {
        self.lost
    }

    /// Whether there are none.
    pub fn is_empty(&self) -> bool
        ensures { result ≡ true → self.now.names ≡ [] }
    {
        self.names.is_empty()
    }

    /// Makes room for so many suspects more.
    pub fn reserve(&mut self, n: usize) -> Result<(), AllocError>
        ensures { self.new ≡ self.old }
    {
        self.names.reserve(n)
    }

    /// A name is a suspect too.
    pub fn push(&mut self, name: u32)
        ensures lost { self.new.lost ≡ false → self.old.lost ≡ false }
        ensures names { self.new.lost ≡ false → self.new.names ≡ self.old.names ++ name ∷ [] }
    {
        if self.names.push(name).is_err() {
            self.lost = true;
        }
    }

    /// The last suspect is none any longer.
    pub fn pop(&mut self) -> Option<u32>
        ensures { MatchOption result (self.new ≡ self.old × (self.old.names ≡ []))
            (λ name. self.old ≡ suspecting name self.new) }
    {
        self.names.pop()
    }

    /// There are none any longer; it is said whether some are lost.
    pub fn clear(&mut self, lost: bool)
        ensures { self.new ≡ record { names = []; lost = lost } }
    {
        self.names.clear();
        self.lost = lost;
    }
}
