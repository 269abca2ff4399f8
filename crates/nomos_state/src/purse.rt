//! A purse in four words, so that what has it stands at a multiple of four bytes.
ghost use Rattle.std.specs.Prelude.{◌≡◌};

use crate::long::Long;
use std::marker::Model;

/// How many numbers of 64 bits there are.
const LONGS: u128 = 18446744073709551616;

/// So many Dths, in four words. Contracts see how many.
#[derive(Clone, Copy, Debug)]
pub(crate) struct Purse {
    high: Long,
    low: Long,
}

impl Model for Purse {
    ghost use Rattle.std.specs.Prelude.{ℕ};

    ghost Value = { ℕ };

    ghost use Rattle.nomos_state.specs.PurseDths.{IsOfLongs, dths_of, longs_of};

    ghost view = { dths_of };

    ghost invariant = { IsOfLongs };

    ghost inverse = { longs_of };
}

impl Purse {
    /// A purse with so many Dths.
    #[inline(always)]
    pub(crate) fn of(dths: u128) -> Purse
        ensures { result ≡ dths }
    {
        Purse {
            high: Long::of((dths / LONGS) as u64),
            low: Long::of((dths % LONGS) as u64),
        }
    }

    /// How many Dths it has.
    #[inline(always)]
    pub(crate) fn dths(self) -> u128
        ensures { result ≡ self }
    {
        u128::from(self.high.number()) * LONGS + u128::from(self.low.number())
    }
}
