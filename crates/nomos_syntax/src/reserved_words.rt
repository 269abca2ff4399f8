//! The reserved words of a text, found by their first bytes.
ghost use Rattle.std.specs.Prelude.{◌≡◌, find};
ghost use Rattle.std.specs.Str.{bytes_eq};
ghost use Rattle.nomos_ir.specs.Word.{text_of, reserved_word};
ghost use Rattle.nomos_syntax.specs.mirror.FirstBytes.{words_from};

use nomos_ir::word::Word;

/// The reserved words that begin with this byte.
#[tactic(auto, unfolding(crate::specs::mirror::FirstBytes::words_from))]
fn words_from(first: u8) -> &'static [Word]
    ensures { result.now ≡ words_from first }
{
    match first {
        b'c' => &[Word::Cost, Word::Case, Word::Close, Word::Call],
        b't' => &[Word::Ticks, Word::Type, Word::True, Word::Then, Word::Take],
        b's' => &[Word::Sends, Word::SelfWord, Word::Send, Word::Spawn],
        b'a' => &[Word::All, Word::And, Word::Accept, Word::Acquire, Word::As],
        b'f' => &[Word::Fn, Word::False, Word::Fwd],
        b'p' => &[Word::Proc, Word::Put, Word::Pay],
        b'R' => &[Word::R],
        b'S' => &[Word::S],
        b'L' => &[Word::L],
        b'T' => &[Word::T],
        b'i' => &[Word::Int, Word::If],
        b'b' => &[Word::Bool],
        b'l' => &[Word::List, Word::Let],
        b'n' => &[Word::Nil, Word::Not],
        b'e' => &[Word::Else, Word::Emit],
        b'm' => &[Word::Match, Word::Me],
        b'o' => &[Word::Or],
        b'u' => &[Word::Up],
        b'd' => &[Word::Down, Word::Detach],
        b'r' => &[Word::Recv, Word::Release],
        b'g' => &[Word::Get],
        b'w' => &[Word::Work, Word::Wait],
        _ => &[],
    }
}

/// The first of the words with this text, if there is one.
fn word_among(words: &[Word], text: &[u8]) -> Option<Word>
    ensures { result ≡ find (λ word. bytes_eq (text_of word) text.now) words.now }
{
    words
        .iter()
        .copied()
        .find(|word| word.text().as_bytes() == text)
}

/// The reserved word with this text, if there is one: `Word::of_text` by a look at the few that begin alike.
pub(crate) fn word_of(text: &[u8]) -> Option<Word>
    ensures { result ≡ reserved_word text.now }
{
    match text {
        [] => None,
        [first, ..] => word_among(words_from(*first), text),
    }
}
