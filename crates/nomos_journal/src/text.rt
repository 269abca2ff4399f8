//! The lines of a text, one by one.

ghost use Rattle.std.specs.Prelude.{◌≡◌};
ghost use Rattle.nomos_journal.specs.Text.{NextLine};

use nomos_printing::splitting::split_once;
use std::marker::Model;

/// The next line of a text.
#[derive(Clone, Copy, Debug)]
pub enum TextLine<'a> {
    /// A line that ends with a line feed, which is left out.
    Whole(&'a [u8]),
    /// What stands behind the last line feed.
    Cut(&'a [u8]),
}

/// The lines of a text that are left to read, which contracts see as the bytes that are left.
#[derive(Drop)]
pub struct TextLines<'a> {
    left: &'a [u8],
}

impl<'a> Model for TextLines<'a> {
    ghost use Rattle.std.specs.Prelude.{List, ℕ};

    ghost Value = { List ℕ };

    ghost view = { λ lines. lines.left.now };
}

impl<'a> TextLines<'a> {
    /// The lines of a text.
    pub fn new(text: &'a [u8]) -> TextLines<'a>
        ensures { result ≡ text.now }
    {
        TextLines { left: text }
    }

    /// The next line, which is taken; none at the end of the text.
    pub fn next_line(&mut self) -> Option<TextLine<'a>>
        ensures { NextLine self.old result self.new }
    {
        if self.left.is_empty() {
            return None;
        }
        match split_once(self.left, b'\n') {
            Some((line, left)) => {
                self.left = left;
                Some(TextLine::Whole(line))
            }
            None => {
                let line = self.left;
                self.left = &[];
                Some(TextLine::Cut(line))
            }
        }
    }
}
