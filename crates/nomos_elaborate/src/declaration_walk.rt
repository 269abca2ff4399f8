//! The walk over the declarations of a text.
ghost use Rattle.std.specs.Prelude.{◌≡◌, map, IfOk};
ghost use Rattle.nomos_elaborate.specs.Nesting.{IsNestedWithinLimit};
ghost use Rattle.nomos_elaborate.specs.mirror.Checked.{Gives, found};
ghost use Rattle.nomos_elaborate.specs.mirror.FileCheck.{check_body, check_decl, check_decls, begun};
ghost use Rattle.nomos_elaborate.specs.mirror.Entries.{MakesAtMost, MayMake};
ghost use Rattle.nomos_surface.specs.TreeBounds.{KeepsDecl};
ghost use Rattle.nomos_surface.specs.Counts.{in_decl, in_each};
ghost use Rattle.nomos_surface.specs.FileView.{decl_tree};
ghost use Rattle.nomos_surface.specs.Grammatical.{Each};

use crate::builder::Builder;
use crate::claims::new_among;
use crate::elab_error::ElabError;
use crate::elaborator::Elaborator;
use crate::scope::Scope;
use crate::spaces::Spaces;
use nomos_ir::declaration::{FnDecl, ProcDecl};
use nomos_ir::type_node::Def;
use nomos_surface::declarations::SurfaceDecl;
use nomos_surface::surface::CostModel;
use std::alloc::Global;
use std::marker::Model;

/// What is declared so far, in order of text.
#[derive(Drop)]
pub(crate) struct Declared {
    pub(crate) defs: Vec<Def>,
    pub(crate) fns: Vec<FnDecl>,
    pub(crate) procs: Vec<ProcDecl>,
}

/// What is declared so far, the names of that, and the state of the walk.
#[derive(Drop)]
pub(crate) struct DeclarationWalk {
    declared: Declared,
    before: Spaces,
    work: Elaborator,
}

impl Model for DeclarationWalk {
    ghost use Rattle.nomos_elaborate.specs.mirror.FileCheck.{Progress};

    ghost Value = { Progress };

    ghost view = { λ v. record {
      defs = v.declared.defs.items;
      fns = v.declared.fns.items;
      procs = v.declared.procs.items;
      before = v.before;
      work = v.work;
    } };
}

impl DeclarationWalk {
    /// Nothing declared, in a text with these names and this cost model.
    pub(crate) fn new(alloc: Global, spaces: Spaces, model: CostModel) -> DeclarationWalk
        ensures { result ≡ begun spaces model }
    {
        DeclarationWalk {
            declared: Declared {
                defs: Vec::new(alloc),
                fns: Vec::new(alloc),
                procs: Vec::new(alloc),
            },
            before: Spaces::new(alloc),
            work: Elaborator {
                spaces,
                model,
                inside: false,
                scope: Scope::new(alloc),
                built: Builder::new(alloc),
            },
        }
    }

    /// A declaration, whose name is not to be among those before it.
    #[tactic(auto, unfolding(crate::specs::mirror::FileCheck::check_body))]
    fn body(&mut self, decl: &SurfaceDecl) -> Result<(), ElabError>
        requires keeps { KeepsDecl (decl_tree decl.now) }
        requires nests { IsNestedWithinLimit (decl_tree decl.now) }
        requires room { MayMake self.old.work (in_decl (decl_tree decl.now)) }
        ensures gives { Gives (λ _. self.new) result (check_body self.old (decl_tree decl.now)) }
        ensures grows { IfOk result (λ _. MakesAtMost self.old.work (in_decl (decl_tree decl.now)) self.new.work) }
    {
        match decl {
            SurfaceDecl::Definition(tree) => {
                new_among(&self.before.types, &tree.name)?;
                let def = self.work.definition_of(tree)?;
                self.declared.defs.push(def)?;
                Ok(())
            }
            SurfaceDecl::Function(tree) => {
                new_among(&self.before.functions, &tree.name)?;
                let function = self.work.function_of(tree)?;
                self.declared.fns.push(function)?;
                Ok(())
            }
            SurfaceDecl::Process(tree) => {
                new_among(&self.before.processes, &tree.name)?;
                let process = self.work.process_of(tree)?;
                self.declared.procs.push(process)?;
                Ok(())
            }
            SurfaceDecl::Transaction(tree) => {
                new_among(&self.before.processes, &tree.name)?;
                let process = self.work.transaction_of(tree)?;
                self.declared.procs.push(process)?;
                Ok(())
            }
        }
    }

    /// A declaration, whose name is declared from then on.
    fn declare(&mut self, decl: &SurfaceDecl) -> Result<(), ElabError>
        requires keeps { KeepsDecl (decl_tree decl.now) }
        requires nests { IsNestedWithinLimit (decl_tree decl.now) }
        requires room { MayMake self.old.work (in_decl (decl_tree decl.now)) }
        ensures gives { Gives (λ _. self.new) result (check_decl self.old (decl_tree decl.now)) }
        ensures grows { IfOk result (λ _. MakesAtMost self.old.work (in_decl (decl_tree decl.now)) self.new.work) }
    {
        self.body(decl)?;
        self.before.declare(decl)
    }

    /// Declarations, in order of text.
    pub(crate) fn declare_all(&mut self, decls: &[SurfaceDecl]) -> Result<(), ElabError>
        requires keeps { Each KeepsDecl (map decl_tree decls.now) }
        requires nests { Each IsNestedWithinLimit (map decl_tree decls.now) }
        requires room { MayMake self.old.work (in_each in_decl (map decl_tree decls.now)) }
        ensures { Gives (λ _. self.new) result (check_decls self.old (map decl_tree decls.now)) }
    {
        for decl in decls {
            self.declare(decl)?;
        }
        Ok(())
    }

    /// What is declared, and what is made of it.
    pub(crate) fn into_parts(self) -> (Declared, Builder)
        ensures defs { result.0.defs.items ≡ self.defs }
        ensures fns { result.0.fns.items ≡ self.fns }
        ensures procs { result.0.procs.items ≡ self.procs }
        ensures built { result.1 ≡ self.work.built }
    {
        let DeclarationWalk {
            declared,
            before,
            work,
        } = self;
        let Elaborator {
            spaces,
            scope,
            built,
            ..
        } = work;
        drop((before, spaces, scope));
        (declared, built)
    }
}
