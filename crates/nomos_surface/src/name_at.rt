//! Names and labels where they stand in a text.
use nomos_ir::items::Items;
use nomos_ir::name::Name;

/// A name or a label, and its offset in the text, in bytes.
#[derive(Drop)]
pub struct NameAt {
    pub name: Name,
    pub at: u32,
}

/// Names in order of text.
pub type NamesAt = Items<NameAt>;
