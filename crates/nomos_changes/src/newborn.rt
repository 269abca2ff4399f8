//! Processes that come.

use nomos_deeds::sight::SeenProcess;
use nomos_ir::ids::VarId;
use nomos_ir::value::Value;
use nomos_machine::object::PotentialList;

/// A process that is to come: its plain fields, its values and its lists by variable, and its channels, of which for a
/// variable that stands twice the first pair counts.
#[derive(Drop, Debug)]
pub struct Newborn {
    pub fields: SeenProcess,
    pub values: Vec<(VarId, Value)>,
    pub lists: Vec<(VarId, PotentialList)>,
    pub channels: Vec<(VarId, u32)>,
}
