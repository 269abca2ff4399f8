//! A state as plain data.

use nomos_ir::ids::TypeId;
use nomos_ir::items::Items;
use nomos_machine::object::Object;

/// A state of the machine as plain data, with nothing emitted and nothing outside. All gas is in Dths.
#[derive(Drop, Debug)]
pub struct StateData {
    /// In order of number.
    pub objects: Items<Object>,
    /// The number that the next object will have.
    pub next_object: u32,
    /// The number that the next name will have.
    pub next_name: u32,
    /// Names in ascending order, each with the number of its type.
    pub types: Items<(u32, TypeId)>,
    /// What each account has, by number.
    pub balances: Items<u128>,
    pub spent: u128,
}
