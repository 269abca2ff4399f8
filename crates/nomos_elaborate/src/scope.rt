//! The names that are bound.
ghost use Rattle.std.specs.Prelude.{◌≡◌, [], length, take};
ghost use Rattle.nomos_elaborate.specs.Scope.{bind, sort_of};
ghost use Rattle.nomos_elaborate.specs.mirror.Checked.{Gives, found};

use crate::elab_error::ElabError;
use crate::sort::Sort;
use indexmap::IndexMap;
use nomos_surface::name_at::NameAt;
use std::alloc::Global;
use std::marker::Model;

/// The names that are bound, each with its sort, in the order in which they were bound.
#[derive(Drop)]
pub struct Scope {
    alloc: Global,
    bound: IndexMap<Vec<u8>, Sort>,
}

impl Model for Scope {
    ghost use Rattle.std.specs.Prelude.{List, ℕ, map};
    ghost use Rattle.nomos_elaborate.specs.declared.sort.Sort.{Sort};

    ghost Value = { List (List ℕ × Sort) };

    ghost view = { λ s. map (λ e. (e.0.items, e.1)) s.bound.entries };
}

impl Scope {
    /// Nothing bound.
    pub fn new(alloc: Global) -> Scope
        ensures { result ≡ [] }
    {
        Scope {
            alloc,
            bound: IndexMap::new(alloc),
        }
    }

    /// How many names are bound.
    pub(crate) fn len(&self) -> usize
        ensures { result ≡ length self.now }
    {
        self.bound.len()
    }

    /// As what a name is bound.
    pub(crate) fn sort_of(&self, text: &[u8]) -> Option<Sort>
        ensures { result ≡ sort_of self.now text.now }
    {
        self.bound.get(text).copied()
    }

    /// Binds a name.
    pub(crate) fn bind(&mut self, name: &NameAt, sort: Sort) -> Result<(), ElabError>
        ensures { Gives (λ _. self.new) result (found (bind self.old name.now sort)) }
    {
        let text = Vec::from_slice(self.alloc, name.name.as_bytes())?;
        self.bound.insert(text, sort)?;
        Ok(())
    }

    /// Leaves this many names bound, those that were bound first.
    pub(crate) fn keep(&mut self, count: usize)
        ensures { self.new ≡ take count self.old }
    {
        self.bound.truncate(count);
    }
}
