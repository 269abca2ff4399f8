//! The operators that group to the left.

/// Which operators of terms: `or`; `and`; `+` and `-`; `*`, `/` and `%`.
#[derive(Clone, Copy, PartialEq, Eq, Debug)]
pub(crate) enum Chain {
    Disjunction,
    Conjunction,
    Sum,
    Product,
}
