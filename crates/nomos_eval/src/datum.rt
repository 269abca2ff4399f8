//! Values while a term is evaluated.

/// A number, a truth value, or a list by its place in the store.
#[derive(Clone, Copy, PartialEq, Eq, Debug)]
pub(crate) enum Datum {
    Int(i64),
    Bool(bool),
    List(usize),
}
