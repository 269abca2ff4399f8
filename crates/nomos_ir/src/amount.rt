//! The amounts of potential that a program names.
ghost use Rattle.std.specs.Prelude.{◌≡◌};
ghost use Rattle.nomos_ir.specs.Amounts.{star_of};

/// An amount of potential: a written number of whole units, or the star with this number, from 1 on,
/// for which an amount is to be found.
#[derive(Clone, Copy, PartialEq, Eq, Debug)]
pub enum Amount {
    Written(u32),
    Star(u16),
}

impl Amount {
    /// The number of the star, 0 for a written amount.
    pub fn star(self) -> u16
        ensures { result ≡ star_of self }
    {
        match self {
            Amount::Written(_) => 0,
            Amount::Star(star) => star,
        }
    }
}
