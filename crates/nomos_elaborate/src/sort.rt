//! As what a name is bound.

/// What a bound name stands for: a value, a channel, or a list that carries potential.
#[derive(Clone, Copy, PartialEq, Eq, Debug)]
pub enum Sort {
    Value,
    Channel,
    List,
}
