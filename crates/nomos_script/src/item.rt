//! What a script consists of.

use crate::name::{ScriptName, ScriptNames};
use nomos_ir::items::Items;
use nomos_ir::value::Values;

/// One process that a batch starts: the line of the text, counted from 1, that says so; the account that pays;
/// the declaration; its arguments; and the name of the contract, where one is made.
#[derive(Drop, Debug)]
pub struct Start {
    pub line: u32,
    pub sender: ScriptName,
    pub proc: ScriptName,
    pub values: Values,
    pub names: ScriptNames,
    pub contract: Option<ScriptName>,
}

/// The starts of a batch, in order of text.
pub type Starts = Items<Start>;

/// What is run as one: its line in the text, counted from 1, and its starts.
#[derive(Drop, Debug)]
pub struct Batch {
    pub line: u32,
    pub starts: Starts,
}

/// One item of a script. Lines are counted from 1, units are whole units of gas.
#[derive(Drop, Debug)]
pub enum ScriptItem {
    /// Adds units to the account with this name.
    Deposit {
        line: u32,
        name: ScriptName,
        units: u64,
    },
    Batch(Batch),
    /// Asks for the ledger as it stands.
    Show {
        line: u32,
    },
}

/// The items of a script, in order of text.
pub type ScriptItems = Items<ScriptItem>;
