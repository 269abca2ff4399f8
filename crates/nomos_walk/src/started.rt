//! What the start of an item of a script comes to.

use nomos_deeds::undo::Undo;
use nomos_ledger::ledger::Ledger;
use nomos_ledger::world::World;
use nomos_legal::journal::Entry;
use nomos_report::course::Outset;

/// An item that has passed: the ledger behind it, and its entry, which a `show` has not.
#[derive(Drop)]
pub struct PassedItem<M: Undo> {
    pub ledger: Ledger<M>,
    pub entry: Option<Entry>,
}

/// A batch whose lines have started: where it began, and its world.
#[derive(Drop)]
pub struct BatchUnderWay<M: Undo> {
    pub outset: Outset,
    pub world: World<M>,
}

/// What the start of an item comes to: it has passed, or a batch is to be fired and then finished.
#[derive(Drop)]
pub enum StartedItem<M: Undo> {
    Passed(PassedItem<M>),
    UnderWay(BatchUnderWay<M>),
}
