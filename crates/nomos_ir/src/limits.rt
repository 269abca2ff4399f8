//! Limits that several crates keep: each stands here once.

/// The most bytes of a contract's text, and of a script's (docs/LANGUAGE.md, "Tokens"; docs/TEXTS.md, "The script").
pub const TEXT_LIMIT: usize = 1_048_576;

/// The most bytes of a name of a contract or of a script.
pub const NAME_LIMIT: usize = 64;

/// The greatest weight of a list that a term makes, that a script writes or that carries potential.
pub const MAX_WEIGHT: u32 = 10_000;

/// The most firings of a batch where a call says nothing of it.
pub const USUAL_LIMIT: u32 = 1_000_000;

/// The highest number that may be given as the most firings of a batch.
pub const HIGHEST_LIMIT: u32 = 10_000_000;

/// The most firings of all batches of a script.
pub const MAX_FIRINGS: u32 = 20_000_000;
