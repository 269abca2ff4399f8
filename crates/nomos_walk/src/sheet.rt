//! Texts that are written where they are wanted.
ghost use Rattle.std.specs.Prelude.{◌≡◌};
ghost use Rattle.std.specs.Option.{option_map};

use std::marker::Model;

/// A text that is written, or none where it is not wanted. Contracts see the text, if there is one.
#[derive(Drop)]
pub struct Sheet {
    pub(crate) text: Option<Vec<u8>>,
}

impl Model for Sheet {
    ghost use Rattle.std.specs.Prelude.{List, Option, ℕ};
    ghost use Rattle.std.specs.Option.{option_map};

    ghost Value = { Option (List ℕ) };

    ghost view = { λ s. option_map (λ t. t.items) s.text };
}

impl Sheet {
    /// The text, if one was written.
    pub fn into_text(self) -> Option<Vec<u8>>
        ensures { option_map (λ t. t.items) result ≡ self }
    {
        self.text
    }
}
