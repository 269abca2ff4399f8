//! From the tree of a text to its program.
ghost use Rattle.std.specs.Prelude.{◌≡◌, ◌≤◌, length, IfOk};
ghost use Rattle.nomos_ir.specs.CostAll.{IsUnderCostAll};
ghost use Rattle.nomos_elaborate.specs.Elaborated.{Answers};
ghost use Rattle.nomos_elaborate.specs.CostModel.{model_of};
ghost use Rattle.nomos_elaborate.specs.Nesting.{NestsWithinLimit};
ghost use Rattle.nomos_elaborate.specs.Spaces.{declaring_all, no_names};
ghost use Rattle.nomos_elaborate.specs.mirror.Checked.{Gives, found};
ghost use Rattle.nomos_elaborate.specs.mirror.FileCheck.{begun, check_lists, lists_made};
ghost use Rattle.nomos_surface.specs.TreeBounds.{IsWithinLimits};
ghost use Rattle.nomos_surface.specs.declared.surface.CostModel.TheVariants as cost;
ghost use Rattle.nomos_surface.specs.FileView.{file_tree};
ghost use Rattle.nomos_syntax.specs.TextLimits.{node_limit};

use crate::builder::Builder;
use crate::declaration_walk::DeclarationWalk;
use crate::elab_error::ElabError;
use crate::spaces::Spaces;
use crate::works::{model_of, written_work};
use nomos_ir::code_node::{CodeNode, CodeNodes};
use nomos_ir::declaration::{FnDecls, ProcDecls};
use nomos_ir::lists::{Names, ProgramLists};
use nomos_ir::name::Name;
use nomos_ir::program::Program;
use nomos_ir::term_node::{TermNode, TermNodes};
use nomos_ir::type_node::{Defs, TypeAt, TypeAts};
use nomos_surface::surface::Surface;
use std::alloc::Global;

/// The types, the terms and the code that are made, and the names of the labels.
type Made = (Vec<TypeAt>, Vec<TermNode>, Vec<CodeNode>, Vec<Name>);

/// What is made, with the names of the labels.
fn made_of(built: Builder) -> Result<Made, ElabError>
    ensures types { IfOk result (λ made. made.0.items ≡ built.types) }
    ensures terms { IfOk result (λ made. made.1.items ≡ built.terms) }
    ensures code { IfOk result (λ made. made.2.items ≡ built.code) }
    ensures labels { IfOk result (λ made. made.3.items ≡ built.labels) }
    ensures memory { Gives (λ _. built) result (found built) }
{
    let (types, terms, code, labels) = built.into_parts();
    let names = labels.into_names()?;
    Ok((types, terms, code, names))
}

/// The lists of what was declared.
fn lists_of(walk: DeclarationWalk) -> Result<ProgramLists, ElabError>
    ensures { Gives (λ l. l) result (found (lists_made walk)) }
{
    let (declared, built) = walk.into_parts();
    let (types, terms, code, labels) = made_of(built)?;
    Ok(ProgramLists {
        defs: Defs::of_vec(declared.defs),
        types: TypeAts::of_vec(types),
        terms: TermNodes::of_vec(terms),
        code: CodeNodes::of_vec(code),
        fns: FnDecls::of_vec(declared.fns),
        procs: ProcDecls::of_vec(declared.procs),
        labels: Names::of_vec(labels),
    })
}

/// The walk over a tree before its first declaration, with the names of all declarations.
fn walk_over(alloc: Global, surface: &Surface) -> Result<DeclarationWalk, ElabError>
    ensures { Gives (λ walk. walk) result
        (found (begun (declaring_all no_names (file_tree surface.now).decls) (model_of surface.now.cost))) }
{
    let spaces = Spaces::of_all(alloc, surface.declarations.as_slice())?;
    Ok(DeclarationWalk::new(alloc, spaces, model_of(surface)))
}

/// The lists of the program of a tree whose names obey the rules.
fn named_lists(alloc: Global, surface: &Surface) -> Result<ProgramLists, ElabError>
    requires limits { IsWithinLimits (file_tree surface.now) }
    requires nests { NestsWithinLimit (file_tree surface.now) }
    ensures { Gives (λ l. l) result (check_lists (file_tree surface.now)) }
{
    let mut walk = walk_over(alloc, surface)?;
    match walk.declare_all(surface.declarations.as_slice()) {
        Ok(()) => lists_of(walk),
        Err(error) => {
            drop(walk);
            Err(error)
        }
    }
}

/// The lists of the program of a tree, or why it has none.
fn program_lists(alloc: Global, surface: &Surface) -> Result<ProgramLists, ElabError>
    requires limits { IsWithinLimits (file_tree surface.now) }
    requires nests { NestsWithinLimit (file_tree surface.now) }
    ensures { Answers (file_tree surface.now) result }
{
    let lists = named_lists(alloc, surface)?;
    match written_work(surface) {
        Some(at) => Err(ElabError::Cost(at)),
        None => Ok(lists),
    }
}

/// The program of a tree, or why it has none: the first name in order of text that breaks a rule of names, or else the
/// first written `work` where the cost model allows none. `docs/LANGUAGE.md` has the rules, and how nodes are numbered.
/// The tree has to be within the limits of texts and nested at most 64 deep, parentheses counted, as each tree is that
/// `parse` gives.
pub fn elaborate(alloc: Global, surface: &Surface) -> Result<Program, ElabError>
    requires limits { IsWithinLimits (file_tree surface.now) }
    requires nests { NestsWithinLimit (file_tree surface.now) }
    ensures answer { Answers (file_tree surface.now) result }
    ensures few { IfOk result (λ program. length program.types ≤ node_limit) }
    ensures cost_all { IfOk result (λ program. model_of surface.now.cost ≡ cost.All → IsUnderCostAll program) }
{
    let lists = program_lists(alloc, surface)?;
    Ok(Program::of_lists(lists))
}
