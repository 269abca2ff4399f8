//! The instructions of a code that another one follows, as trees.
use crate::name_at::{NameAt, NamesAt};
use crate::potential::Potential;
use crate::terms::{SurfaceTerm, SurfaceTerms};
use crate::value_type::ValueType;
use nomos_ir::items::Items;

/// The channel at which an instruction works: `self` at its offset in the text, in bytes, or a name.
#[derive(Drop)]
pub enum ChanAt {
    Own { at: u32 },
    Variable { name: NameAt },
}

/// The arguments of a spawned or called process: `(values; channels)`.
#[derive(Drop)]
pub struct SurfaceArgs {
    pub values: SurfaceTerms,
    pub channels: NamesAt,
}

/// An instruction that another one follows. `at` is the offset of its first token in the text, in bytes; that of a
/// label is its channel's.
#[derive(Drop)]
pub enum SurfaceStep {
    /// `x.l`
    Label {
        chan: ChanAt,
        label: NameAt,
    },
    /// `send x y`
    Send {
        at: u32,
        chan: ChanAt,
        sent: NameAt,
    },
    /// `recv x y`
    Recv {
        at: u32,
        chan: ChanAt,
        bound: NameAt,
    },
    /// `put x e`
    Put {
        at: u32,
        chan: ChanAt,
        term: SurfaceTerm,
    },
    /// `take x v`
    Take {
        at: u32,
        chan: ChanAt,
        bound: NameAt,
    },
    /// `pay x {q}`
    Pay {
        at: u32,
        chan: ChanAt,
        potential: Potential,
    },
    /// `get x {q}`
    Get {
        at: u32,
        chan: ChanAt,
        potential: Potential,
    },
    /// `work {q}`
    Work {
        at: u32,
        potential: Potential,
    },
    /// `wait x`
    Wait {
        at: u32,
        chan: NameAt,
    },
    /// `accept`
    Accept {
        at: u32,
    },
    /// `detach`
    Detach {
        at: u32,
    },
    /// `acquire a as x`
    Acquire {
        at: u32,
        shared: NameAt,
        bound: NameAt,
    },
    /// `release x as a`
    Release {
        at: u32,
        held: NameAt,
        bound: NameAt,
    },
    /// `spawn x = f(..)`
    Spawn {
        at: u32,
        bound: NameAt,
        process: NameAt,
        arguments: SurfaceArgs,
    },
    /// `let v = e`
    Let {
        at: u32,
        bound: NameAt,
        term: SurfaceTerm,
    },
    /// `let v = list {q} t`, with the offset of the word `list`
    Empty {
        at: u32,
        bound: NameAt,
        list_at: u32,
        potential: Potential,
        element: ValueType,
    },
    /// `let v = list e, w`
    Add {
        at: u32,
        bound: NameAt,
        first: SurfaceTerm,
        rest: NameAt,
    },
    /// `emit e`
    Emit {
        at: u32,
        term: SurfaceTerm,
    },
}

/// Steps in order of text.
pub type SurfaceSteps = Items<SurfaceStep>;
