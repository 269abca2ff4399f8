//! The tree of a whole text.
use crate::declarations::SurfaceDecl;
use nomos_ir::items::Items;

/// Which instructions `work {1}` is put before: none; label sends, `send`, `put` and `close`; all.
#[derive(Clone, Copy, PartialEq, Eq, Debug)]
pub enum CostModel {
    Ticks,
    Sends,
    All,
}

/// `cost MODEL;`, with the offset of the word `cost` in the text, in bytes.
#[derive(Clone, Copy, PartialEq, Eq, Debug)]
pub struct CostLine {
    pub at: u32,
    pub model: CostModel,
}

/// The tree of a text: its cost model, where one is named, and its declarations in order of text.
#[derive(Drop)]
pub struct Surface {
    pub cost: Option<CostLine>,
    pub declarations: Items<SurfaceDecl>,
}
