//! Where bytes come from.

ghost use Rattle.std.specs.Prelude.{ℕ, ◌<◌, ◌≤◌, List, Option, length};

/// What one read got.
pub enum Got {
    /// This many bytes, which stand at the front of the buffer.
    Got(usize),
    /// Nothing, since nothing is left.
    End,
    /// Nothing, since the source failed.
    Failed,
}

/// Where bytes come from, a piece at a time.
pub trait Source {
    ghost use Rattle.nomos_base.specs.Source.{Reads};

    /// The bytes that are left, or `None` where the source does not tell: a source tells them after
    /// every read, or never.
    ghost left: { Self → Option (List ℕ) };

    /// How often the source has failed; the count stays at its last value, 2^64 - 1.
    ghost faults: { Self → ℕ };

    /// Reads the next bytes into the front of `into`. What stands behind them in `into` then is not
    /// said, and neither is what stands there after another answer.
    fn read(&mut self, into: &mut [u8]) -> Got
        requires { 0 < length into.old }
        ensures answer { Reads result into.new
            (left self.old) (left self.new) (faults self.old) (faults self.new) }
        ensures never_falls { faults self.old ≤ faults self.new };
}
