//! Programs of definitions, types and labels alone, made by hand.
ghost use Rattle.std.specs.Prelude.{◌≢◌, ◌<◌, ℕ, List, IsTrue, IfOk, All, AllPairs, length, get_or};
ghost use Rattle.nomos_ir.specs.declared.type_node.Def.{Def};
ghost use Rattle.nomos_ir.specs.Name.{IsShortName};
ghost use Rattle.nomos_contract_tests.specs.Fitting.{TypesFit, NamesFit, BodiesFit, HasBodies, IsShortWord};

use crate::fitting_nodes::{nodes_fit, places, stand_once};
use nomos_ir::items::Items;
use nomos_ir::letters::{is_letter, is_word_byte};
use nomos_ir::lists::ProgramLists;
use nomos_ir::name::Name;
use nomos_ir::program::Program;
use nomos_ir::type_node::{Def, TypeAt};
use nomos_ir::word::Word;
use std::alloc::{AllocError, Global};

/// How many bytes a name may have.
const NAME_LIMIT: usize = 64;

/// How many definitions a program may have.
const DEFINITION_LIMIT: usize = 10000;

/// Whether the text is a word that is not too long.
fn is_short_word(text: &[u8]) -> bool
    ensures { IsTrue result → IsShortWord text.now }
{
    match text {
        [first, ..] => {
            text.len() <= NAME_LIMIT
                && is_letter(*first)
                && text.iter().all(|byte| is_word_byte(*byte))
        }
        [] => false,
    }
}

/// Whether the text is a name that a program may have.
#[tactic(auto, using(crate::proofs::ShortNameLemmas::short_name))]
fn is_short_name(text: &[u8]) -> bool
    ensures { IsTrue result → IsShortName text.now }
{
    match Word::of_text(text) {
        Some(_) => false,
        None => is_short_word(text),
    }
}

/// Whether the definitions have names that a program may have.
fn are_named(defs: &[Def]) -> bool
    ensures { IsTrue result → All (λ d. IsShortName d.name) defs.now }
{
    defs.iter().all(|d| is_short_name(d.name.as_bytes()))
}

/// Whether the labels are names that a program may have.
fn are_names(labels: &[Name]) -> bool
    ensures { IsTrue result → All IsShortName labels.now }
{
    labels.iter().all(|label| is_short_name(label.as_bytes()))
}

/// Whether the definition at a place has a name that no earlier one has.
fn is_new_definition(defs: &[Def], place: usize) -> bool
    requires { place < length defs.now }
    ensures { IsTrue result →
        ((k : ℕ) (d : Def) → k < place → (get_or defs.now k d).name ≢ (get_or defs.now place d).name) }
{
    for k in 0..place {
        if defs[k].name.as_bytes() == defs[place].name.as_bytes() {
            return false;
        }
    }
    true
}

/// Whether no two definitions have the same name.
fn definitions_differ(defs: &[Def]) -> bool
    ensures { IsTrue result → AllPairs (λ d e. d.name ≢ e.name) defs.now }
{
    for place in 0..defs.len() {
        if !is_new_definition(defs, place) {
            return false;
        }
    }
    true
}

/// Whether the label at a place is no earlier one.
fn is_new_label(labels: &[Name], place: usize) -> bool
    requires { place < length labels.now }
    ensures { IsTrue result →
        ((k : ℕ) (d : List ℕ) → k < place → get_or labels.now k d ≢ get_or labels.now place d) }
{
    for k in 0..place {
        if labels[k].as_bytes() == labels[place].as_bytes() {
            return false;
        }
    }
    true
}

/// Whether no two labels are the same.
fn labels_differ(labels: &[Name]) -> bool
    ensures { IsTrue result → AllPairs (λ k l. k ≢ l) labels.now }
{
    for place in 0..labels.len() {
        if !is_new_label(labels, place) {
            return false;
        }
    }
    true
}

/// Whether the names of definitions and the labels are such as a program may have.
fn names_fit(defs: &[Def], labels: &[Name]) -> bool
    ensures { IsTrue result → NamesFit defs.now labels.now }
{
    are_named(defs) && are_names(labels) && definitions_differ(defs) && labels_differ(labels)
}

/// Whether there are not too many definitions, and their bodies are types.
fn has_bodies(defs: &[Def], types: usize) -> bool
    ensures { IsTrue result → HasBodies defs.now types }
{
    defs.len() <= DEFINITION_LIMIT && defs.iter().all(|d| (d.body.0 as usize) < types)
}

/// Whether the bodies of definitions are there, and each type node stands in one place.
fn bodies_fit(alloc: Global, defs: &[Def], types: &[TypeAt]) -> Result<bool, AllocError>
    ensures { IfOk result (λ fit. IsTrue fit → BodiesFit defs.now types.now) }
{
    let places = places(alloc, defs, types)?;
    let Ok(limit) = u32::try_from(types.len()) else {
        return Ok(false);
    };
    if !stand_once(&places, limit) {
        return Ok(false);
    }
    Ok(has_bodies(defs, types.len()))
}

/// Whether what a program's definitions, types and labels are to be holds of these lists.
fn fits(alloc: Global, lists: &ProgramLists) -> Result<bool, AllocError>
    ensures { IfOk result (λ fit. IsTrue fit → TypesFit lists.now) }
{
    let defs = lists.defs.as_slice();
    if !bodies_fit(alloc, defs, lists.types.as_slice())? {
        return Ok(false);
    }
    if !nodes_fit(alloc, lists)? {
        return Ok(false);
    }
    Ok(names_fit(defs, lists.labels.as_slice()))
}

/// The program that has these definitions, types and labels, and nothing else, or none where they are not
/// those of a program. The time grows with the square of the number of types and of names.
pub(crate) fn program_of_types(
    alloc: Global,
    defs: Vec<Def>,
    types: Vec<TypeAt>,
    labels: Vec<Name>,
) -> Result<Option<Program>, AllocError> {
    let lists = ProgramLists {
        defs: Items::of_vec(defs),
        types: Items::of_vec(types),
        terms: Items::of_vec(Vec::new(alloc)),
        code: Items::of_vec(Vec::new(alloc)),
        fns: Items::of_vec(Vec::new(alloc)),
        procs: Items::of_vec(Vec::new(alloc)),
        labels: Items::of_vec(labels),
    };
    match fits(alloc, &lists) {
        Ok(true) => Ok(Some(Program::of_lists(lists))),
        Ok(false) => {
            drop(lists);
            Ok(None)
        }
        Err(error) => {
            drop(lists);
            Err(error)
        }
    }
}
