//! Numbers behind words that say what they are.
ghost use Rattle.std.specs.Prelude.{◌≡◌, ◌≢◌, ◌∷◌, ℕ, List, MatchOption, Option, decimal, codes};
ghost use Rattle.nomos_printing.specs.ReadAs.{ReadsAs};
ghost use Rattle.nomos_snapshot.specs.Line.{IsGas, IsNumber, IsNumberIfAny, name_word};

use crate::line_words::Words;
use crate::plain_lines::read_gas;
use nomos_printing::number::read_u32;
use nomos_printing::splitting::is_word;

/// The number behind a word, which are both taken.
pub(crate) fn number_behind(words: &mut Words<'_>, word: &[u8]) -> Option<u32>
    ensures { MatchOption result
        ((n : ℕ) (rest : List (List ℕ)) → IsNumber n → words.old ≢ word.now ∷ decimal n ∷ rest)
        (λ n. IsNumber n × (words.old ≡ word.now ∷ decimal n ∷ words.new)) }
{
    let first = words.next_word()?;
    if !is_word(first, word) {
        return None;
    }
    read_u32(words.next_word()?)
}

/// The number of gas behind a word, which are both taken.
pub(crate) fn gas_behind(words: &mut Words<'_>, word: &[u8]) -> Option<u128>
    ensures { MatchOption result
        ((n : ℕ) (rest : List (List ℕ)) → IsGas n → words.old ≢ word.now ∷ decimal n ∷ rest)
        (λ n. IsGas n × (words.old ≡ word.now ∷ decimal n ∷ words.new)) }
{
    let first = words.next_word()?;
    if !is_word(first, word) {
        return None;
    }
    read_gas(words.next_word()?)
}

/// The name that a word is, or none.
pub(crate) fn read_any_name(word: &[u8]) -> Option<Option<u32>>
    ensures { ReadsAs IsNumberIfAny name_word word.now result }
{
    if is_word(word, b"-") {
        return Some(None);
    }
    Some(Some(read_u32(word)?))
}

/// The name behind the word `base`, or none; both words are taken.
pub(crate) fn base_behind(words: &mut Words<'_>) -> Option<Option<u32>>
    ensures { MatchOption result
        ((base : Option ℕ) (rest : List (List ℕ)) → IsNumberIfAny base
        → words.old ≢ codes "base" ∷ name_word base ∷ rest)
        (λ base. IsNumberIfAny base × (words.old ≡ codes "base" ∷ name_word base ∷ words.new)) }
{
    let first = words.next_word()?;
    if !is_word(first, b"base") {
        return None;
    }
    read_any_name(words.next_word()?)
}
