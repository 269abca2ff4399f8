//! Paths from a type to a part of its unfolding.
use nomos_ir::ids::Label;
use nomos_ir::items::Items;

/// One hop of a path: from what a type unfolds to, to a part of it.
#[derive(Clone, Copy, PartialEq, Eq, Debug)]
pub enum Hop {
    /// Into the branch of a choice with this label.
    Label(Label),
    /// Into that with which every other type goes on, behind `up` and `down` too.
    Next,
    /// Into what `*` or `-o` carries.
    Carried,
}

/// The hops of a path, the first one first.
pub type Path = Items<Hop>;
