//! Declarations by their names.
ghost use Rattle.std.specs.Prelude.{◌≡◌, ◌≢◌, AllPairs, IfOk, map, position, bytes_eq};

use indexmap::IndexSet;
use nomos_ir::declaration::ProcDecl;
use std::alloc::{AllocError, Global};
use std::marker::Model;

/// The names of declarations, in their order, each found in one step. They lie in the program.
#[derive(Drop)]
pub(crate) struct ProcNames<'a> {
    names: IndexSet<&'a [u8]>,
}

impl<'a> Model for ProcNames<'a> {
    ghost use Rattle.std.specs.Prelude.{List, ℕ, map};

    ghost Value = { List (List ℕ) };

    ghost view = { λ n. map (λ name. name.now) n.names.keys };
}

impl<'a> ProcNames<'a> {
    /// The names of these declarations.
    pub(crate) fn of(alloc: Global, procs: &'a [ProcDecl]) -> Result<ProcNames<'a>, AllocError>
        requires { AllPairs (λ d e. d.name ≢ e.name) procs.now }
        ensures { IfOk result (λ made. made ≡ map (λ d. d.name) procs.now) }
    {
        let mut names = IndexSet::new(alloc);
        for d in procs {
            names.insert(d.name.as_bytes())?;
        }
        Ok(ProcNames { names })
    }

    /// The place of this name, if it is one of them.
    pub(crate) fn place_of(&self, name: &[u8]) -> Option<usize>
        ensures { result ≡ position (λ n. bytes_eq n name.now) self.now }
    {
        self.names.get_index_of(name)
    }
}
