//! The types of values.
use nomos_ir::items::Items;
use nomos_ir::kind::Base;

/// A type of values: the offsets of its words `list` in the text, in bytes and in order of text, then the word for
/// what the innermost lists hold, and its offset.
#[derive(Drop)]
pub struct ValueType {
    pub lists: Items<u32>,
    pub base: Base,
    pub base_at: u32,
}
