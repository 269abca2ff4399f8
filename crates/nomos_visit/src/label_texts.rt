//! The labels of a program, found by their texts.

ghost use Rattle.std.specs.Prelude.{◌≡◌, IfOk, map};
ghost use Rattle.std.specs.List.{position_or_len};
ghost use Rattle.std.specs.Str.{bytes_eq};

use indexmap::IndexSet;
use nomos_ir::ids::Label;
use nomos_ir::program::Program;
use std::alloc::{AllocError, Global};
use std::marker::Model;

/// The texts of a program's labels, by number. They lie in the program.
#[derive(Drop)]
pub(crate) struct LabelTexts<'a> {
    texts: IndexSet<&'a [u8]>,
}

impl<'a> Model for LabelTexts<'a> {
    ghost use Rattle.std.specs.Prelude.{List, ℕ, map};

    ghost Value = { List (List ℕ) };

    ghost view = { λ t. map (λ text. text.now) t.texts.keys };
}

impl<'a> LabelTexts<'a> {
    /// Those of a program.
    pub(crate) fn of(alloc: Global, program: &'a Program) -> Result<LabelTexts<'a>, AllocError>
        ensures { IfOk result (λ made. made ≡ program.now.labels) }
    {
        let mut texts = IndexSet::new(alloc);
        for label in program.lists().labels.as_slice() {
            texts.insert(label.as_bytes())?;
        }
        Ok(LabelTexts { texts })
    }

    // The place of a text among them, or their number where it is not among them.
    fn place_of(&self, name: &[u8]) -> usize
        ensures { result ≡ position_or_len (λ l. bytes_eq l name.now) self.now }
    {
        self.texts.get_index_of(name).unwrap_or(self.texts.len())
    }

    /// The label with this text, or the one behind the last where none has it. No program whose text fits the limits
    /// has as many labels as there are numbers; where one had, memory is said to be wanting.
    pub(crate) fn label(&self, name: &[u8]) -> Result<Label, AllocError>
        ensures { IfOk result (λ l. l.0 ≡ position_or_len (λ l. bytes_eq l name.now) self.now) }
    {
        let place = self.place_of(name);
        if place > u32::MAX as usize {
            return Err(AllocError);
        }
        Ok(Label(place as u32))
    }
}
