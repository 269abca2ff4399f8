//! How the lists of a process change by one act on a list.

use nomos_ir::ids::VarId;
use nomos_ir::value::Value;
use nomos_machine::object::PotentialList;

/// What an act on a list of a process changes: one list may be used up, then one may be bound, and then a value, as the
/// head of a list is.
#[derive(Drop, Debug)]
pub struct ListChange {
    /// The variable of the list that is used up.
    pub used_up: Option<VarId>,
    /// A variable, and the list to which it is bound.
    pub bound: Option<(VarId, PotentialList)>,
    /// A variable, and the value to which it is bound.
    pub value: Option<(VarId, Value)>,
}
