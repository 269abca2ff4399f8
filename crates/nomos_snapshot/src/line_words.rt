//! The words of a line, one by one.
ghost use Rattle.std.specs.Prelude.{◌≡◌, ◌∷◌, [], MatchOption};
ghost use Rattle.nomos_snapshot.specs.LineWords.{words_in};

use nomos_printing::splitting::split_once;
use std::marker::Model;

/// The words of a line that are left to read: what stands between one blank and the next. Contracts see them as a list.
#[derive(Drop)]
pub struct Words<'a> {
    left: Option<&'a [u8]>,
}

impl<'a> Model for Words<'a> {
    ghost use Rattle.std.specs.Prelude.{List, ℕ, option_copied};
    ghost use Rattle.nomos_snapshot.specs.LineWords.{words_left};

    ghost Value = { List (List ℕ) };

    ghost view = { λ words. words_left (option_copied words.left) };
}

impl<'a> Words<'a> {
    /// The words of a line.
    pub fn of(line: &'a [u8]) -> Words<'a>
        ensures { result ≡ words_in line.now }
    {
        Words { left: Some(line) }
    }

    /// The next word, which is taken; none behind the last one.
    pub fn next_word(&mut self) -> Option<&'a [u8]>
        ensures { MatchOption result ((self.old ≡ []) × (self.new ≡ [])) (λ word. self.old ≡ word.now ∷ self.new) }
    {
        let left = self.left?;
        match split_once(left, b' ') {
            Some((word, rest)) => {
                self.left = Some(rest);
                Some(word)
            }
            None => {
                self.left = None;
                Some(left)
            }
        }
    }
}
