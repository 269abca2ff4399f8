//! What stands over the file that a word names.

ghost use Rattle.std.specs.Prelude.{ℕ, List, Option};

/// A source or a sink over the file that a word names.
pub trait OverFile {
    /// The word, or none where no word names a file.
    ghost word: { Self → Option (List ℕ) };
}
