//! The kinds of values.
ghost use Rattle.std.specs.Prelude.{◌≡◌, MatchOption};
ghost use Rattle.nomos_ir.specs.TermKind.{list_kind};

/// What a value is made of in the end: numbers or truth values.
#[derive(Clone, Copy, PartialEq, Eq, Debug)]
pub enum Base {
    Int,
    Bool,
}

/// The kind of a value: `lists` times a list of values of `base`.
#[derive(Clone, Copy, PartialEq, Eq, Debug)]
pub struct Kind {
    pub lists: u8,
    pub base: Base,
}

impl Kind {
    /// The kind of numbers.
    pub const INT: Kind = Kind {
        lists: 0,
        base: Base::Int,
    };

    /// The kind of truth values.
    pub const BOOL: Kind = Kind {
        lists: 0,
        base: Base::Bool,
    };

    /// The kind of a list's elements, where the kind is that of a list.
    pub fn element(self) -> Option<Kind>
        ensures { MatchOption result ((element : Kind) → self ≡ list_kind element → ⊥)
            (λ element. self ≡ list_kind element) }
    {
        if self.lists == 0 {
            return None;
        }
        Some(Kind {
            lists: self.lists - 1,
            base: self.base,
        })
    }
}
