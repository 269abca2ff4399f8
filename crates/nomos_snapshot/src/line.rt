//! The lines of a snapshot.

use nomos_deeds::sight::SeenProcess;
use nomos_ir::ids::{TypeId, VarId};
use nomos_ir::value::{Value, Values};
use nomos_machine::object::Message;
use nomos_script::name::ScriptName;

/// A line of a snapshot (docs/TEXTS.md, "Snapshots"). All gas is in Dths.
#[derive(Drop, Debug)]
pub enum SnapshotLine {
    /// The first line, which says the version.
    Head,
    /// In how many parts a unit of gas comes.
    Unit(u32),
    /// The numbers that the next object and the next name will have.
    Next(u32, u32),
    /// The gas spent.
    Spent(u128),
    /// The next account: its name, and what it has.
    Account(ScriptName, u128),
    /// The next contract: its name, and its shared name.
    Contract(ScriptName, u32),
    /// A name, with the number of its type node.
    Name(u32, TypeId),
    /// A process, whose variables follow.
    Process(SeenProcess),
    /// A variable with its value.
    Value(VarId, Value),
    /// A variable with its list, each of whose elements carries so much.
    List(VarId, u128, Values),
    /// A variable with the name of its channel.
    Channel(VarId, u32),
    /// A message.
    Message(Message),
}
