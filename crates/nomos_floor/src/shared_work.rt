//! What is shared over a floor: a work with a start and a history.
ghost use Rattle.std.specs.Prelude.{◌≡◌, ℕ, ◌%◌, ◌^◌, List, length};

/// A work that threads take in turns. Its start never changes on a floor, and its history is a list of pairs of the
/// number of a pass and an entry, the first entry first.
pub trait Shared: Drop {
    /// What the work began with.
    type Start;
    /// What a turn adds to the work.
    type Entry;

    ghost start: { Self → Self.Start };

    ghost history: { Self → List (ℕ × Self.Entry) };

    /// The number of entries, modulo 2^64.
    fn entries(&self) -> u64
        ensures { result ≡ length (history self.now) % 2 ^ 64 };
}
