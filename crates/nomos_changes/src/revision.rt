//! What a process does by itself, without a message and without another process.

use nomos_ir::ids::VarId;
use nomos_ir::value::Value;
use nomos_ir::value_node::ValueNode;

/// What becomes of a process by itself, before it goes on.
#[derive(Drop, Debug)]
pub enum Revision {
    /// Nothing.
    Stands,
    /// It has so many Dths less.
    Spends(u64),
    /// A variable is bound to a value.
    Binds(VarId, Value),
    /// A variable is bound to an empty list, whose elements carry so many Dths each.
    Empty(VarId, u64),
    /// The first variable is bound to the list of the second with one more element in front, and that list is used up.
    Longer(VarId, VarId, ValueNode),
    /// A list is used up.
    UsedUp(VarId),
    /// A list is used up, and two variables are bound to its head and to its rest.
    Parted(VarId, VarId, VarId),
}
