//! Where bytes go.

ghost use Rattle.std.specs.Prelude.{ℕ, ◌<◌, ◌≤◌, List, Option, length};

/// What one write put.
pub enum Put {
    /// This many bytes, from the front of those that were given.
    Wrote(usize),
    /// Nothing, since the sink failed.
    Failed,
}

/// Where bytes go, a piece at a time.
pub trait Sink {
    ghost use Rattle.nomos_base.specs.Sink.{Writes};

    /// The bytes that were written, or `None` where the sink does not tell: a sink tells them after
    /// every write, or never.
    ghost written: { Self → Option (List ℕ) };

    /// How often the sink has failed; the count stays at its last value, 2^64 - 1.
    ghost faults: { Self → ℕ };

    /// Writes some of the bytes, from the front on.
    fn write(&mut self, from: &[u8]) -> Put
        requires { 0 < length from.now }
        ensures answer { Writes result from.now
            (written self.old) (written self.new) (faults self.old) (faults self.new) }
        ensures never_falls { faults self.old ≤ faults self.new };
}
