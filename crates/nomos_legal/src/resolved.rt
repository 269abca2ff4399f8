//! Starts as they are resolved.

use nomos_ir::ids::{CodeId, ProcId};
use nomos_ir::items::Items;
use nomos_ir::value::Values;
use nomos_script::name::ScriptName;

/// Shared names, by their numbers.
pub type SharedNames = Items<u32>;

/// A start as it is resolved: the declaration, the values and the shared names for its parameters, in their order, the
/// number of the account that pays, and the name of the contract, where one is made.
#[derive(Drop, Debug)]
pub struct Resolved {
    pub proc: ProcId,
    pub values: Values,
    pub names: SharedNames,
    pub payer: u32,
    pub contract: Option<ScriptName>,
}

/// Resolved starts in order.
pub type ResolvedStarts = Items<Resolved>;

/// The instructions that were fired, in order of the firings.
pub type FiredPlaces = Items<CodeId>;
