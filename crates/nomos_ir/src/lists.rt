//! The lists that make up a program.
use crate::amount::Amount;
use crate::code_node::CodeNodes;
use crate::declaration::{FnDecls, ProcDecls};
use crate::items::Items;
use crate::name::Name;
use crate::term_node::TermNodes;
use crate::type_node::{Defs, TypeAts};

/// Names, or the texts of labels.
pub type Names = Items<Name>;

/// Pairs of amounts.
pub type AmountPairs = Items<(Amount, Amount)>;

/// Amounts that were found, by the number of the star.
pub type Amounts = Items<u64>;

/// The lists of a program. An id is a place in its list, and a label one in `labels`.
#[derive(Drop, Debug)]
pub struct ProgramLists {
    pub defs: Defs,
    pub types: TypeAts,
    pub terms: TermNodes,
    pub code: CodeNodes,
    pub fns: FnDecls,
    pub procs: ProcDecls,
    pub labels: Names,
}
