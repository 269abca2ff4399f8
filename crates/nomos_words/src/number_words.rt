//! Numbers in the words of a call.

ghost use Rattle.std.specs.Option.{option_map};
ghost use Rattle.nomos_words.specs.FindsOne.{FindsOne};
ghost use Rattle.nomos_words.specs.Options.{AreSteps, IsCount, IsCountOr};
ghost use Rattle.nomos_words.specs.Words.{IsSeed};

use nomos_ir::limits::{HIGHEST_LIMIT, USUAL_LIMIT};
use nomos_printing::number::{read_number, read_u64};

/// The number from 1 to the most that is allowed which a word writes.
pub(crate) fn read_count(word: &str, most: u32) -> Option<u32>
    ensures { FindsOne (IsCount most word.now) result }
{
    match read_number(word.as_bytes(), u64::from(most)) {
        Some(n) if n >= 1 => Some(n as u32),
        _ => None,
    }
}

/// The seed that a word writes.
pub(crate) fn read_seed(word: &str) -> Option<u64>
    ensures { FindsOne (IsSeed word.now) result }
{
    read_u64(word.as_bytes())
}

/// The number of an option, from 1 to the most that is allowed, or what stands for it where it is missing.
pub(crate) fn count_or(word: Option<&str>, missing: u32, most: u32) -> Option<u32>
    ensures { FindsOne (IsCountOr missing most (option_map (λ word. word.now) word.entry)) result }
{
    match word {
        Some(word) => read_count(word, most),
        None => Some(missing),
    }
}

/// The most firings of a batch, from the value of `--steps`.
pub(crate) fn steps_of(word: Option<&str>) -> Option<u32>
    ensures { FindsOne (AreSteps (option_map (λ word. word.now) word.entry)) result }
{
    count_or(word, USUAL_LIMIT, HIGHEST_LIMIT)
}
