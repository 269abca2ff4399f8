//! How often objects do what with one name.
ghost use Rattle.std.specs.Prelude.{◌≡◌, ◌+◌, ◌↔◌, ℕ, IfSome, IsTrue};
ghost use Rattle.nomos_state.specs.Tallying.{counted, one_if};
ghost use Rattle.nomos_state.specs.declared.tally.NameUse.{NameUse as Does};

/// What an object does with a name.
#[derive(Clone, Copy, Debug)]
pub enum NameUse {
    /// It provides the name.
    Provides,
    /// It uses it.
    Uses,
    /// It has it as base.
    Bases,
}

/// Who does it: the number of the object, and of a process that uses the name the variable.
#[derive(Clone, Copy, Debug)]
pub struct Hint {
    pub object: u32,
    pub variable: u32,
}

impl Hint {
    /// An object, without a variable.
    pub fn of(object: u32) -> Hint {
        Hint {
            object,
            variable: 0,
        }
    }
}

/// How often objects do each with a name, and who was the last that came to provide it, to use it and to have it as
/// base. Nothing is promised of who that was.
#[derive(Clone, Copy, Debug)]
pub struct Tally {
    pub provided: u32,
    pub used: u32,
    pub based: u32,
    pub provider: u32,
    pub user: Hint,
    pub holder: u32,
}

impl Tally {
    /// Nothing is done.
    pub fn none() -> Tally
        ensures { (d : Does) → counted d result ≡ 0 }
    {
        Tally {
            provided: 0,
            used: 0,
            based: 0,
            provider: 0,
            user: Hint::of(0),
            holder: 0,
        }
    }

    /// How often it is done.
    pub fn count(&self, doing: NameUse) -> u32
        ensures { result ≡ counted doing self.now }
    {
        match doing {
            NameUse::Provides => self.provided,
            NameUse::Uses => self.used,
            NameUse::Bases => self.based,
        }
    }

    /// Whether nothing is done.
    pub fn is_idle(&self) -> bool
        ensures { IsTrue result ↔ ((d : Does) → counted d self.now ≡ 0) }
    {
        self.provided == 0 && self.used == 0 && self.based == 0
    }

    /// It is done once more, by this one; nothing where that is too often for a number of 32 bits.
    pub fn more(self, doing: NameUse, by: Hint) -> Option<Tally>
        ensures { IfSome result (λ t. (d : Does) → counted d t ≡ counted d self + one_if doing d) }
    {
        match doing {
            NameUse::Provides => {
                let provided = self.provided.checked_add(1)?;
                Some(Tally {
                    provided,
                    provider: by.object,
                    ..self
                })
            }
            NameUse::Uses => {
                let used = self.used.checked_add(1)?;
                Some(Tally {
                    used,
                    user: by,
                    ..self
                })
            }
            NameUse::Bases => {
                let based = self.based.checked_add(1)?;
                Some(Tally {
                    based,
                    holder: by.object,
                    ..self
                })
            }
        }
    }

    /// It is done once less; nothing where it is not done at all.
    pub fn less(self, doing: NameUse) -> Option<Tally>
        ensures { IfSome result (λ t. (d : Does) → counted d t + one_if doing d ≡ counted d self) }
    {
        match doing {
            NameUse::Provides => {
                let provided = self.provided.checked_sub(1)?;
                Some(Tally { provided, ..self })
            }
            NameUse::Uses => {
                let used = self.used.checked_sub(1)?;
                Some(Tally { used, ..self })
            }
            NameUse::Bases => {
                let based = self.based.checked_sub(1)?;
                Some(Tally { based, ..self })
            }
        }
    }
}
