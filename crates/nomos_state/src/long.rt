//! A number of 64 bits in two words, so that what has it stands at a multiple of four bytes.
ghost use Rattle.std.specs.Prelude.{◌≡◌};

use std::marker::Model;

/// How many numbers of 32 bits there are.
pub(crate) const WORDS: u64 = 4294967296;

/// A number of 64 bits in two words. Contracts see the number.
#[derive(Clone, Copy, Debug)]
pub(crate) struct Long {
    high: u32,
    low: u32,
}

impl Model for Long {
    ghost use Rattle.std.specs.Prelude.{ℕ};

    ghost Value = { ℕ };

    ghost use Rattle.nomos_state.specs.LongNumber.{IsOfWords, number_of, words_of};

    ghost view = { number_of };

    ghost invariant = { IsOfWords };

    ghost inverse = { words_of };
}

impl Long {
    /// A number, in two words.
    #[inline(always)]
    pub(crate) fn of(number: u64) -> Long
        ensures { result ≡ number }
    {
        Long {
            high: (number / WORDS) as u32,
            low: (number % WORDS) as u32,
        }
    }

    /// The number.
    #[inline(always)]
    pub(crate) fn number(self) -> u64
        ensures { result ≡ self }
    {
        u64::from(self.high) * WORDS + u64::from(self.low)
    }
}
