//! What lines told, as the parts of a ledger.
ghost use Rattle.std.specs.Prelude.{◌≡◌, IfOk, map};
ghost use Rattle.nomos_snapshot.specs.GatheredLines.{ledger_of};
ghost use Rattle.nomos_snapshot.specs.ToldLines.{IsKept, list_told, object_told, parts_ledger, process_told, told};

use crate::gathered::Gathering;
use crate::told_lines::{ToldList, ToldObject, ToldProcess};
use nomos_contents::data::StateData;
use nomos_ir::ids::VarId;
use nomos_ir::items::Items;
use nomos_ledger::account_names::AccountNames;
use nomos_ledger::contract_names::ContractNames;
use nomos_machine::object::{Object, PotentialList, Process, VarLists};
use std::alloc::{AllocError, Global};

/// The parts of a ledger, all but its deposits and its machine.
#[derive(Drop)]
pub struct LedgerParts {
    pub accounts: AccountNames,
    pub contracts: ContractNames,
    pub contents: StateData,
}

// A list as a machine keeps it. An amount over 64 bits, which it cannot keep, is want of memory.
fn list_from(list: ToldList) -> Result<PotentialList, AllocError>
    ensures { IfOk result (λ made. made ≡ list_told list) }
{
    match u64::try_from(list.amount) {
        Ok(amount) => Ok(PotentialList {
            amount,
            items: list.items,
        }),
        Err(_) => Err(AllocError),
    }
}

// Lists as a machine keeps them.
fn lists_from(alloc: Global, lists: Vec<(VarId, ToldList)>) -> Result<VarLists, AllocError>
    ensures { IfOk result (λ made. made ≡ map (λ e. (e.0, list_told e.1)) lists.items) }
{
    let mut made = Vec::new(alloc);
    for entry in lists {
        let (v, list) = entry;
        made.push((v, list_from(list)?))?;
    }
    Ok(Items::of_vec(made))
}

// A process as a machine keeps it.
fn process_from(alloc: Global, process: ToldProcess) -> Result<Process, AllocError>
    ensures { IfOk result (λ made. made ≡ process_told process) }
{
    let lists = lists_from(alloc, process.lists)?;
    Ok(Process {
        pid: process.seen.pid,
        mode: process.seen.mode,
        code: process.seen.code,
        values: Items::of_vec(process.values),
        lists,
        channels: Items::of_vec(process.channels),
        offers: process.seen.offers,
        base: process.seen.base,
        purse: process.seen.purse,
        payer: process.seen.payer,
    })
}

// An object as a machine keeps it.
fn object_from(alloc: Global, object: ToldObject) -> Result<Object, AllocError>
    ensures { IfOk result (λ made. made ≡ object_told object) }
{
    match object {
        ToldObject::Process(process) => Ok(Object::Process(process_from(alloc, process)?)),
        ToldObject::Message(message) => Ok(Object::Message(message)),
    }
}

// Objects as a machine keeps them.
fn objects_from(alloc: Global, objects: Vec<ToldObject>) -> Result<Items<Object>, AllocError>
    ensures { IfOk result (λ made. made ≡ map object_told objects.items) }
{
    let mut made = Vec::new(alloc);
    for object in objects {
        made.push(object_from(alloc, object)?)?;
    }
    Ok(Items::of_vec(made))
}

// The parts of what was gathered, where no process is left whose variables may follow.
fn parts_of(alloc: Global, gathering: Gathering) -> Result<LedgerParts, AllocError>
    ensures { IfOk result (λ parts. parts_ledger parts ≡ (told gathering).ledger) }
{
    let objects = objects_from(alloc, gathering.objects)?;
    Ok(LedgerParts {
        accounts: gathering.accounts,
        contracts: gathering.contracts,
        contents: StateData {
            objects,
            next_object: gathering.next_object,
            next_name: gathering.next_name,
            types: Items::of_vec(gathering.types),
            balances: Items::of_vec(gathering.balances),
            spent: gathering.spent,
        },
    })
}

impl Gathering {
    /// The parts of the ledger that lines told. Where the elements of a list carry more than 64 bits count, which no
    /// machine can keep, memory is wanting.
    pub fn into_parts(self, alloc: Global) -> Result<LedgerParts, AllocError>
        requires { IsKept self }
        ensures { IfOk result (λ parts. parts_ledger parts ≡ ledger_of (told self)) }
    {
        let mut gathering = self;
        gathering.settle()?;
        parts_of(alloc, gathering)
    }
}
