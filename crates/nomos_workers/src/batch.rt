//! What a batch comes to that was run.

use nomos_deeds::undo::Undo;
use nomos_ledger::world::World;
use nomos_legal::journal::End;
use nomos_machine::policy::Policy;

/// Who runs a batch: one worker, as a policy says, or several that take turns, from 2 to 16.
#[derive(Clone, Copy, Drop, Debug)]
pub enum Crew {
    One(Policy),
    Many(u32),
}

/// How the running of a batch ended.
#[derive(Drop, Debug)]
pub enum BatchEnd {
    /// The batch came to this end.
    Done(End),
    /// Memory was wanting. The world is as the firings before left it.
    NoMemory,
}

/// A batch that was run: its world, and how the running ended.
#[derive(Drop, Debug)]
pub struct Ran<M: Undo> {
    pub world: World<M>,
    pub end: BatchEnd,
}
