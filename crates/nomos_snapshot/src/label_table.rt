//! The labels of a program, found by their texts.
ghost use Rattle.std.specs.Prelude.{◌≡◌, ◌≢◌, ◌<◌, ◌^◌, ℕ, IfOk, MatchOption, Some, slice_get};

use indexmap::IndexSet;
use nomos_ir::program::Program;
use std::alloc::{AllocError, Global};
use std::marker::Model;

/// The labels of a program by number, each found by its text in one step.
#[derive(Drop)]
pub(crate) struct LabelTable {
    texts: IndexSet<Vec<u8>>,
}

impl Model for LabelTable {
    ghost use Rattle.std.specs.Prelude.{List, ℕ, map};

    ghost Value = { List (List ℕ) };

    ghost view = { λ t. map (λ text. text.items) t.texts.keys };
}

impl LabelTable {
    /// The labels of a program.
    pub(crate) fn of(alloc: Global, program: &Program) -> Result<LabelTable, AllocError>
        ensures { IfOk result (λ made. made ≡ program.now.labels) }
    {
        let mut texts = IndexSet::new(alloc);
        for label in program.lists().labels.as_slice() {
            texts.insert(Vec::from_slice(alloc, label.as_bytes())?)?;
        }
        Ok(LabelTable { texts })
    }

    /// The number of the label with this text, if there is one.
    pub(crate) fn number_of(&self, text: &[u8]) -> Option<u32>
        ensures { MatchOption result ((l : ℕ) → l < 2 ^ 32 → slice_get self.now l ≢ Some text.now)
            (λ l. slice_get self.now l ≡ Some text.now) }
    {
        let number = self.texts.get_index_of(text)?;
        if number <= u32::MAX as usize {
            Some(number as u32)
        } else {
            None
        }
    }
}
