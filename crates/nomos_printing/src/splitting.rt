//! Texts that come apart: at a byte, and behind a front.

ghost use Rattle.std.specs.Prelude.{◌≡◌, ◌≢◌, ◌++◌, ◌↔◌, ℕ, List, IsTrue, MatchOption};
ghost use Rattle.nomos_printing.specs.Splitting.{Lacks, ComesApart};

/// What stands before the first place of a byte, and what comes behind it; none where the byte does not occur.
pub fn split_once(text: &[u8], mark: u8) -> Option<(&[u8], &[u8])>
    ensures { MatchOption result (Lacks mark text.now) (λ parts. ComesApart mark text.now parts.0.now parts.1.now) }
{
    let length = text.iter().take_while(|byte| **byte != mark).count();
    if length == text.len() {
        None
    } else {
        Some((&text[..length], &text[length + 1..]))
    }
}

/// What comes behind this front, where a text begins with it.
pub fn behind<'a>(text: &'a [u8], front: &[u8]) -> Option<&'a [u8]>
    ensures { MatchOption result ((back : List ℕ) → text.now ≢ front.now ++ back)
        (λ back. text.now ≡ front.now ++ back.now) }
{
    text.strip_prefix(front)
}

/// Whether a text is this word.
pub fn is_word(text: &[u8], word: &[u8]) -> bool
    ensures { IsTrue result ↔ (text.now ≡ word.now) }
{
    text == word
}
