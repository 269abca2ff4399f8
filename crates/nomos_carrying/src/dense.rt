//! DenseNumbers that are made dense: 1, 2, 3 and so on, in the order in which they stand.

ghost use Rattle.std.specs.Prelude.{◌≡◌, ◌≢◌, ◌≤◌, ◌^◌, AllPairs, IfOk, length, map};
ghost use Rattle.std.specs.List.Sorted.{IsStrictlySortedBy};
ghost use Rattle.std.specs.Option.{option_map};
ghost use Rattle.std.specs.Ordering.{nat_cmp};
ghost use Rattle.nomos_contents.specs.Data.{state_of};
ghost use Rattle.nomos_ir.specs.Bindings.{each_bound};
ghost use Rattle.nomos_legal.specs.Ledger.{AreNamed};
ghost use Rattle.nomos_machine.specs.Objects.{object_number};
ghost use Rattle.nomos_snapshot.specs.ToldLines.{AreSorted, parts_ledger};
ghost use Rattle.nomos_carrying.specs.Renumbered.{IsRenumbered, ledger_by, message_by, object_by, payload_by, process_by, state_by};
ghost use Rattle.nomos_carrying.specs.mirror.Dense.{AreFew, AreNumbersOf, place_in};

use nomos_contents::data::StateData;
use nomos_ir::ids::TypeId;
use nomos_ir::items::Items;
use nomos_ledger::contract_names::ContractNames;
use nomos_machine::object::{Message, Object, Payload, Process, VarNames};
use nomos_script::name::ScriptName;
use nomos_snapshot::ledger_parts::LedgerParts;
use std::alloc::{AllocError, Global};
use std::marker::Model;

// The numbers of the objects of a ledger, and its names, each in ascending order, and at most 2^31 of each.
#[derive(Drop)]
struct DenseNumbers {
    objects: Vec<u32>,
    names: Vec<u32>,
}

impl Model for DenseNumbers {
    ghost use Rattle.nomos_carrying.specs.mirror.Dense.{AreDistinct, NumberLists};

    ghost Value = { NumberLists };

    ghost view = { λ n. record { objects = n.objects.items; names = n.names.items } };

    ghost invariant = { λ n. AreDistinct n.objects.items × AreDistinct n.names.items };
}

// The number of an object.
fn number_of(object: &Object) -> u32
    ensures { result ≡ object_number object.now }
{
    match object {
        Object::Process(process) => process.pid,
        Object::Message(message) => message.number,
    }
}

// The numbers of objects.
fn numbers_of(alloc: Global, objects: &[Object]) -> Result<Vec<u32>, AllocError>
    ensures { IfOk result (λ made. made.items ≡ map object_number objects.now) }
{
    let mut made = Vec::new(alloc);
    for object in objects {
        made.push(number_of(object))?;
    }
    Ok(made)
}

// The names that have a type.
fn names_of(alloc: Global, types: &[(u32, TypeId)]) -> Result<Vec<u32>, AllocError>
    ensures { IfOk result (λ made. made.items ≡ map (λ t. t.0) types.now) }
{
    let mut made = Vec::new(alloc);
    for named in types {
        made.push(named.0)?;
    }
    Ok(made)
}

// The place of a number among these, from 1 on: one more than there are smaller ones.
fn place_in(numbers: &[u32], number: u32) -> u32
    requires sorted { IsStrictlySortedBy nat_cmp numbers.now }
    requires few { length numbers.now ≤ 2 ^ 31 }
    ensures { result ≡ place_in numbers.now number }
{
    let smaller = numbers.partition_point(|other| *other < number);
    smaller as u32 + 1
}

impl DenseNumbers {
    // The numbers of a state.
    fn of(alloc: Global, contents: &StateData) -> Result<DenseNumbers, AllocError>
        requires sorted { AreSorted contents.now }
        requires few { AreFew contents.now }
        ensures { IfOk result (AreNumbersOf contents.now) }
    {
        let objects = numbers_of(alloc, contents.objects.as_slice())?;
        let names = names_of(alloc, contents.types.as_slice())?;
        Ok(DenseNumbers { objects, names })
    }

    // What comes in place of the number of an object.
    fn number(&self, number: u32) -> u32
        ensures { result ≡ place_in self.now.objects number }
    {
        place_in(&self.objects, number)
    }

    // What comes in place of a name.
    fn name(&self, name: u32) -> u32
        ensures { result ≡ place_in self.now.names name }
    {
        place_in(&self.names, name)
    }

    // What comes in place of a name that may be absent.
    fn name_if_any(&self, name: Option<u32>) -> Option<u32>
        ensures { result ≡ option_map (place_in self.now.names) name }
    {
        match name {
            Some(name) => Some(self.name(name)),
            None => None,
        }
    }

    // What comes in place of what a message brings.
    fn payload(&self, payload: Payload) -> Payload
        ensures { result ≡ payload_by (place_in self.now.names) payload }
    {
        match payload {
            Payload::Channel(name) => Payload::Channel(self.name(name)),
            other => other,
        }
    }

    // What comes in place of a message.
    fn message(&self, message: Message) -> Message
        ensures { result ≡ message_by (place_in self.now.objects) (place_in self.now.names) message }
    {
        Message {
            number: self.number(message.number),
            to_client: message.to_client,
            from: self.name(message.from),
            next: self.name_if_any(message.next),
            payload: self.payload(message.payload),
            purse: message.purse,
        }
    }

    // What comes in place of the channels of a process.
    fn channels(&self, alloc: Global, channels: VarNames) -> Result<VarNames, AllocError>
        ensures { IfOk result (λ made. made ≡ each_bound (place_in self.now.names) channels) }
    {
        let mut made = Vec::new(alloc);
        for entry in channels.into_vec() {
            made.push((entry.0, self.name(entry.1)))?;
        }
        Ok(Items::of_vec(made))
    }

    // What comes in place of a process.
    fn process(&self, alloc: Global, process: Process) -> Result<Process, AllocError>
        ensures { IfOk result (λ made.
            made ≡ process_by (place_in self.now.objects) (place_in self.now.names) process) }
    {
        let channels = self.channels(alloc, process.channels)?;
        Ok(Process {
            pid: self.number(process.pid),
            channels,
            offers: self.name(process.offers),
            base: self.name_if_any(process.base),
            mode: process.mode,
            code: process.code,
            values: process.values,
            lists: process.lists,
            purse: process.purse,
            payer: process.payer,
        })
    }

    // What comes in place of an object.
    fn object(&self, alloc: Global, object: Object) -> Result<Object, AllocError>
        ensures { IfOk result (λ made.
            made ≡ object_by (place_in self.now.objects) (place_in self.now.names) object) }
    {
        match object {
            Object::Process(process) => Ok(Object::Process(self.process(alloc, process)?)),
            Object::Message(message) => Ok(Object::Message(self.message(message))),
        }
    }

    // What comes in place of objects.
    fn objects(&self, alloc: Global, objects: Items<Object>) -> Result<Items<Object>, AllocError>
        ensures { IfOk result (λ made.
            made ≡ map (object_by (place_in self.now.objects) (place_in self.now.names)) objects) }
    {
        let mut made = Vec::new(alloc);
        for object in objects.into_vec() {
            made.push(self.object(alloc, object)?)?;
        }
        Ok(Items::of_vec(made))
    }

    // What comes in place of names with their types.
    fn types(
        &self,
        alloc: Global,
        types: Items<(u32, TypeId)>,
    ) -> Result<Items<(u32, TypeId)>, AllocError>
        ensures { IfOk result (λ made. made ≡ map (λ t. (place_in self.now.names t.0, t.1)) types) }
    {
        let mut made = Vec::new(alloc);
        for named in types.into_vec() {
            made.push((self.name(named.0), named.1))?;
        }
        Ok(Items::of_vec(made))
    }

    // What comes in place of the names of contracts.
    fn contracts(
        &self,
        alloc: Global,
        contracts: &ContractNames,
    ) -> Result<ContractNames, AllocError>
        requires { AllPairs (λ c d. c.0 ≢ d.0) contracts.now }
        ensures { IfOk result (λ made. made ≡ map (λ c. (c.0, place_in self.now.names c.1)) contracts.now) }
    {
        let mut made = ContractNames::new(alloc);
        for place in 0..contracts.len() {
            let Some(contract) = contracts.contract(place) else {
                unreachable!()
            };
            let name = ScriptName::of_vec(Vec::from_slice(alloc, contract.name.as_bytes())?);
            made.add(alloc, &name, self.name(contract.shared))?;
        }
        Ok(made)
    }

    // What comes in place of a state. The next numbers are those behind the last.
    fn contents(&self, alloc: Global, contents: StateData) -> Result<StateData, AllocError>
        requires { AreNumbersOf contents self.now }
        ensures { IfOk result (λ made. state_of made
            ≡ state_by (place_in self.now.objects) (place_in self.now.names) (state_of contents)) }
    {
        let objects = self.objects(alloc, contents.objects)?;
        let types = self.types(alloc, contents.types)?;
        Ok(StateData {
            objects,
            next_object: self.objects.len() as u32 + 1,
            next_name: self.names.len() as u32 + 1,
            types,
            balances: contents.balances,
            spent: contents.spent,
        })
    }

    // What comes in place of the parts of a ledger.
    fn parts(&self, alloc: Global, parts: LedgerParts) -> Result<LedgerParts, AllocError>
        requires differ { AllPairs (λ c d. c.0 ≢ d.0) parts.contracts }
        requires numbers { AreNumbersOf parts.contents self.now }
        ensures { IfOk result (λ made. parts_ledger made
            ≡ ledger_by (place_in self.now.objects) (place_in self.now.names) (parts_ledger parts)) }
    {
        let contracts = self.contracts(alloc, &parts.contracts)?;
        Ok(LedgerParts {
            accounts: parts.accounts,
            contracts,
            contents: self.contents(alloc, parts.contents)?,
        })
    }
}

/// The parts of a ledger with the numbers 1, 2, 3 and so on in place of those of its objects, and of its names, in the
/// order in which they stand. Accounts, values and gas stay.
pub(crate) fn dense_parts(alloc: Global, parts: LedgerParts) -> Result<LedgerParts, AllocError>
    requires sorted { AreSorted parts.contents }
    requires few { AreFew parts.contents }
    requires named { AreNamed parts.accounts parts.contracts parts.contents.balances }
    ensures dense { IfOk result (λ made. IsRenumbered (parts_ledger parts) (parts_ledger made)) }
    ensures sorted { IfOk result (λ made. AreSorted made.contents) }
    ensures named { IfOk result (λ made. AreNamed made.accounts made.contracts made.contents.balances) }
{
    let numbers = DenseNumbers::of(alloc, &parts.contents)?;
    numbers.parts(alloc, parts)
}
