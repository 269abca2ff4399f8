//! Names under their numbers.
ghost use Rattle.std.specs.Prelude.{◌≡◌, ◌+◌, ◌≤◌, [], length, IfOk};
ghost use Rattle.nomos_elaborate.specs.mirror.Checked.{Gives, found};
ghost use Rattle.nomos_elaborate.specs.mirror.Seeing.{name_seen};
ghost use Rattle.nomos_elaborate.specs.Names.{is_among, number_of};

use crate::elab_error::ElabError;
use indexmap::IndexSet;
use nomos_ir::name::Name;
use std::alloc::Global;
use std::marker::Model;

/// Names that differ, in the order in which they were put, each found by its text in one step.
#[derive(Drop)]
pub struct NameTable {
    alloc: Global,
    texts: IndexSet<Vec<u8>>,
}

impl Model for NameTable {
    ghost use Rattle.std.specs.Prelude.{List, ℕ, map};

    ghost Value = { List (List ℕ) };

    ghost view = { λ t. map (λ text. text.items) t.texts.keys };
}

impl NameTable {
    /// No names.
    pub(crate) fn new(alloc: Global) -> NameTable
        ensures { result ≡ [] }
    {
        NameTable {
            alloc,
            texts: IndexSet::new(alloc),
        }
    }

    /// Whether a name is among the names.
    pub(crate) fn has(&self, text: &[u8]) -> bool
        ensures { result ≡ is_among self.now text.now }
    {
        self.texts.contains(text)
    }

    /// The place of a name among the names, or their number where it is not among them.
    pub(crate) fn number_of(&self, text: &[u8]) -> usize
        ensures place { result ≡ number_of self.now text.now }
        ensures within { result ≤ length self.now }
    {
        self.texts.get_index_of(text).unwrap_or(self.texts.len())
    }

    /// Puts a name at the end, where it is not among the names yet, and gives its place. Only then it is copied.
    pub(crate) fn see(&mut self, text: &[u8]) -> Result<usize, ElabError>
        ensures gives { Gives (λ place. (self.new, place)) result (found (name_seen self.old text.now)) }
        ensures within { IfOk result (λ place. place ≤ length self.old) }
        ensures grows { IfOk result (λ _. length self.new ≤ length self.old + 1) }
    {
        let place = self.number_of(text);
        if place < self.len() {
            return Ok(place);
        }
        self.put(text)
    }

    /// How many names there are.
    fn len(&self) -> usize
        ensures { result ≡ length self.now }
    {
        self.texts.len()
    }

    /// Puts a copy of a name at the end, where it is not among the names yet, and gives its place.
    fn put(&mut self, text: &[u8]) -> Result<usize, ElabError>
        ensures gives { Gives (λ place. (self.new, place)) result (found (name_seen self.old text.now)) }
        ensures within { IfOk result (λ place. place ≤ length self.old) }
        ensures grows { IfOk result (λ _. length self.new ≤ length self.old + 1) }
    {
        let text = Vec::from_slice(self.alloc, text)?;
        let (place, _) = self.texts.insert_full(text)?;
        Ok(place)
    }

    /// The names, in their order.
    pub fn into_names(self) -> Result<Vec<Name>, ElabError>
        ensures { Gives (λ names. names.items) result (found self) }
    {
        let NameTable { alloc, texts } = self;
        let names = texts.into_iter().map(Name::of_vec).collect(alloc)?;
        Ok(names)
    }
}
