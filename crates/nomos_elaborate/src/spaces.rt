//! The name spaces of a text.
ghost use Rattle.std.specs.Prelude.{◌≡◌, map};
ghost use Rattle.nomos_elaborate.specs.Spaces.{declaring, declaring_all, no_names};
ghost use Rattle.nomos_elaborate.specs.mirror.Checked.{Gives, found};
ghost use Rattle.nomos_surface.specs.FileView.{decl_tree};

use crate::elab_error::ElabError;
use crate::name_table::NameTable;
use nomos_surface::declarations::SurfaceDecl;
use std::alloc::Global;

/// The declared names of a text, or of a front of its declarations, in the order in which they were first seen.
#[derive(Drop)]
pub struct Spaces {
    pub types: NameTable,
    pub functions: NameTable,
    pub processes: NameTable,
}

impl Spaces {
    /// No names.
    pub fn new(alloc: Global) -> Spaces
        ensures { result ≡ no_names }
    {
        Spaces {
            types: NameTable::new(alloc),
            functions: NameTable::new(alloc),
            processes: NameTable::new(alloc),
        }
    }

    /// Puts the name of a declaration into its space.
    pub fn declare(&mut self, decl: &SurfaceDecl) -> Result<(), ElabError>
        ensures { Gives (λ _. self.new) result (found (declaring self.old (decl_tree decl.now))) }
    {
        match decl {
            SurfaceDecl::Definition(tree) => {
                self.types.see(tree.name.name.as_bytes())?;
            }
            SurfaceDecl::Function(tree) => {
                self.functions.see(tree.name.name.as_bytes())?;
            }
            SurfaceDecl::Process(tree) => {
                self.processes.see(tree.name.name.as_bytes())?;
            }
            SurfaceDecl::Transaction(tree) => {
                self.processes.see(tree.name.name.as_bytes())?;
            }
        }
        Ok(())
    }

    /// The names of all declarations.
    pub fn of_all(alloc: Global, decls: &[SurfaceDecl]) -> Result<Spaces, ElabError>
        ensures { Gives (λ s. s) result (found (declaring_all no_names (map decl_tree decls.now))) }
    {
        let mut spaces = Spaces::new(alloc);
        for decl in decls {
            spaces.declare(decl)?;
        }
        Ok(spaces)
    }
}
