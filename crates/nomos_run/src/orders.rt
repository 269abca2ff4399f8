//! How a script is to be run, and what its run comes to.

use nomos_deeds::undo::Undo;
use nomos_ir::value::Value;
use nomos_ledger::ledger::Ledger;
use nomos_legal::journal::Journal;
use nomos_workers::batch::Crew;

/// How a script is to be run: who runs its batches, the most firings of one batch, from 1 to 10,000,000, whether the
/// text of the journal is wanted, and whether the last result is.
#[derive(Clone, Copy, Debug)]
pub struct Orders {
    pub crew: Crew,
    pub limit: u32,
    pub text: bool,
    pub result: bool,
}

/// Who runs scripts: the runtime that makes threads and lets them wait, the gate that workers call before they
/// evaluate, and the orders.
#[derive(Drop)]
pub struct Runner<'a, G, R> {
    pub rt: &'a R,
    pub gate: &'a G,
    pub orders: Orders,
}

/// What a run comes to in which all items have passed: its report, the text of its journal in version 2 where it was
/// wanted, where it was wanted the last result of the last entry, which only a batch that stays has, and the last
/// ledger.
#[derive(Drop, Debug)]
pub struct WholeRun<M: Undo> {
    pub report: Vec<u8>,
    pub text: Option<Vec<u8>>,
    pub last_result: Option<Value>,
    pub ledger: Ledger<M>,
}

/// What a run of a script comes to: the journal of some first items, and the rest where these were all;
/// otherwise memory was wanting.
#[derive(Drop, Debug)]
pub struct ScriptRun<M: Undo> {
    pub journal: Journal,
    pub finished: Option<WholeRun<M>>,
}
