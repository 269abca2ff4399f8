//! Potentials as they are written.

/// An amount of potential: a written number of whole units, or a star.
#[derive(Clone, Copy, PartialEq, Eq, Debug)]
pub enum Quantity {
    Number(u32),
    Star,
}

/// A potential, `{q}`: the offset of its `{` in the text, in bytes, what stands in it, and the offset of that.
#[derive(Clone, Copy, PartialEq, Eq, Debug)]
pub struct Potential {
    pub at: u32,
    pub quantity: Quantity,
    pub quantity_at: u32,
}
