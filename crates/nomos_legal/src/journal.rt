//! What a run of a script kept: for each deposit and each batch, its firings and its end.

use crate::refusal::Refusal;
use nomos_ir::fault::Fault;
use nomos_ir::items::Items;

/// How a deposit or a batch ended.
#[derive(Drop, Debug)]
pub enum End {
    /// The deposit was made.
    Deposited,
    /// No process is ready, and no transaction is left: the batch stays.
    Committed,
    /// No process is ready, and a transaction is left: the batch is undone.
    Blocked,
    /// The process of this number had this fault: the batch is undone.
    Aborted(u32, Fault),
    /// So many firings were made, and a process is ready still: the batch is undone.
    Steps(u32),
    /// The line of this number could not be carried out: nothing changed.
    Refused(u32, Refusal),
}

/// A firing: the pass of the worker that made it, 0 where one worker runs, and the number of the process.
#[derive(Clone, Copy, PartialEq, Eq, Debug)]
pub struct Firing {
    pub pass: u32,
    pub pid: u32,
}

/// Firings in order.
pub type Firings = Items<Firing>;

/// The numbers of processes, in order of their firings.
pub type Pids = Items<u32>;

/// What became of a deposit or a batch: its line, counted from 1, its firings and its end.
#[derive(Drop, Debug)]
pub struct Entry {
    pub line: u32,
    pub firings: Pids,
    pub end: End,
}

/// Entries in order of the script.
pub type Entries = Items<Entry>;

/// What became of a script, with the most firings that a batch could make.
#[derive(Drop, Debug)]
pub struct Journal {
    pub limit: u32,
    pub entries: Entries,
}
