//! The bits of one word.
ghost use Rattle.std.specs.Prelude.{◌≡◌, ◌<◌, ◌==◌, ℕ, cond};
ghost use Rattle.nomos_state.specs.Spanning.{has_bit};

/// Whether the bit is set.
#[inline(always)]
pub(crate) fn has_bit(word: u64, at: usize) -> bool
    requires { at < 64 }
    ensures { result ≡ has_bit word at }
{
    word >> at & 1 == 1
}

/// The word with this bit set or cleared.
#[inline(always)]
pub(crate) fn with_bit(word: u64, at: usize, set: bool) -> u64
    requires { at < 64 }
    ensures { (i : ℕ) → i < 64 → has_bit result i ≡ cond (i == at) set (has_bit word i) }
{
    if set {
        word | 1 << at
    } else {
        word & !(1 << at)
    }
}
