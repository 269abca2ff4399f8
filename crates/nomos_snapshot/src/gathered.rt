//! What lines told, and what one line more adds.
ghost use Rattle.std.specs.Prelude.{◌≡◌, IfOk, OnOk, None};
ghost use Rattle.nomos_snapshot.specs.GatheredLines.{ledger_of, no_ledger};
ghost use Rattle.nomos_snapshot.specs.ToldLines.{IsKept, IsNewAccount, IsSettled, LeadsOn, told};

use crate::line::SnapshotLine;
use crate::told_lines::{ToldList, ToldObject, ToldProcess};
use nomos_deeds::sight::SeenProcess;
use nomos_ir::ids::{TypeId, VarId};
use nomos_ir::value::{Value, Values};
use nomos_ledger::account_names::AccountNames;
use nomos_ledger::contract_names::ContractNames;
use nomos_machine::object::Message;
use nomos_script::name::ScriptName;
use std::alloc::{AllocError, Global};

/// What the lines of a text told, up to one of them. All gas is in Dths.
#[derive(Drop)]
pub struct Gathering {
    pub(crate) accounts: AccountNames,
    pub(crate) balances: Vec<u128>,
    pub(crate) contracts: ContractNames,
    pub(crate) types: Vec<(u32, TypeId)>,
    pub(crate) objects: Vec<ToldObject>,
    /// The process whose variables may follow.
    pub(crate) process: Option<ToldProcess>,
    pub(crate) next_object: u32,
    pub(crate) next_name: u32,
    pub(crate) spent: u128,
    /// The least number of an object that may follow.
    pub(crate) objects_from: u64,
    /// The least name that may follow.
    pub(crate) names_from: u64,
}

impl Gathering {
    /// Nothing but the next numbers and the gas spent.
    pub fn new(alloc: Global, next_object: u32, next_name: u32, spent: u128) -> Gathering
        ensures told { told result ≡ record { ledger = no_ledger next_object next_name spent; process = None } }
        ensures kept { IsKept result }
    {
        Gathering {
            accounts: AccountNames::new(alloc),
            balances: Vec::new(alloc),
            contracts: ContractNames::new(alloc),
            types: Vec::new(alloc),
            objects: Vec::new(alloc),
            process: None,
            next_object,
            next_name,
            spent,
            objects_from: 0,
            names_from: 0,
        }
    }

    // Whether no account has this name. More accounts than 32 bits count are want of memory.
    fn is_new_account(&self, name: &ScriptName) -> Result<bool, AllocError>
        requires { IsKept self.now }
        ensures { IfOk result (IsNewAccount self.now name.now) }
    {
        if self.balances.len() > u32::MAX as usize {
            return Err(AllocError);
        }
        Ok(self.accounts.number_of(name).is_none())
    }

    /// An account more.
    pub(crate) fn take_account(
        &mut self,
        alloc: Global,
        name: &ScriptName,
        dths: u128,
    ) -> Result<bool, AllocError>
        requires { IsKept self.old }
        ensures { IfOk result (LeadsOn (SnapshotLine.Account name.now dths) self.old self.new) }
    {
        if self.objects_from > 0 || self.names_from > 0 || self.contracts.len() > 0 {
            return Ok(false);
        }
        if !self.is_new_account(name)? {
            return Ok(false);
        }
        self.accounts.add(alloc, name)?;
        self.balances.push(dths)?;
        Ok(true)
    }

    /// A contract more.
    pub(crate) fn take_contract(
        &mut self,
        alloc: Global,
        name: &ScriptName,
        shared: u32,
    ) -> Result<bool, AllocError>
        requires { IsKept self.old }
        ensures { IfOk result (LeadsOn (SnapshotLine.Contract name.now shared) self.old self.new) }
    {
        if self.objects_from > 0 || self.names_from > 0 {
            return Ok(false);
        }
        if self.contracts.shared_name(name).is_some() {
            return Ok(false);
        }
        self.contracts.add(alloc, name, shared)?;
        Ok(true)
    }

    /// A name more.
    pub(crate) fn take_name(&mut self, name: u32, t: TypeId) -> Result<bool, AllocError>
        requires { IsKept self.old }
        ensures { IfOk result (LeadsOn (SnapshotLine.Name name t) self.old self.new) }
    {
        if self.objects_from > 0 || u64::from(name) < self.names_from {
            return Ok(false);
        }
        self.types.push((name, t))?;
        self.names_from = u64::from(name) + 1;
        Ok(true)
    }

    /// The process is one of the objects.
    pub(crate) fn settle(&mut self) -> Result<(), AllocError>
        requires { IsKept self.old }
        ensures { OnOk result (IsSettled self.old self.new) }
    {
        if let Some(process) = self.process.take() {
            self.objects.push(ToldObject::Process(process))?;
        }
        Ok(())
    }

    /// A process more, whose variables may follow.
    pub(crate) fn take_process(
        &mut self,
        alloc: Global,
        seen: SeenProcess,
    ) -> Result<bool, AllocError>
        requires { IsKept self.old }
        ensures { IfOk result (LeadsOn (SnapshotLine.Process seen) self.old self.new) }
    {
        if u64::from(seen.pid) < self.objects_from {
            return Ok(false);
        }
        self.settle()?;
        self.process = Some(ToldProcess::new(alloc, seen));
        self.objects_from = u64::from(seen.pid) + 1;
        Ok(true)
    }

    /// A message more.
    pub(crate) fn take_message(&mut self, message: Message) -> Result<bool, AllocError>
        requires { IsKept self.old }
        ensures { IfOk result (LeadsOn (SnapshotLine.Message message) self.old self.new) }
    {
        let number = u64::from(message.number);
        if number < self.objects_from {
            return Ok(false);
        }
        self.settle()?;
        self.objects.push(ToldObject::Message(message))?;
        self.objects_from = number + 1;
        Ok(true)
    }

    /// A variable with its value more.
    pub(crate) fn take_value(&mut self, v: VarId, value: Value) -> Result<bool, AllocError>
        requires { IsKept self.old }
        ensures { IfOk result (LeadsOn (SnapshotLine.Value v value) self.old self.new) }
    {
        let Some(mut process) = self.process.take() else {
            return Ok(false);
        };
        if !process.take_value(v, value)? {
            return Ok(false);
        }
        self.process = Some(process);
        Ok(true)
    }

    /// A variable with its list more.
    pub(crate) fn take_list(
        &mut self,
        v: VarId,
        amount: u128,
        items: Values,
    ) -> Result<bool, AllocError>
        requires { IsKept self.old }
        ensures { IfOk result (LeadsOn (SnapshotLine.List v amount items) self.old self.new) }
    {
        let Some(mut process) = self.process.take() else {
            return Ok(false);
        };
        if !process.take_list(v, ToldList { amount, items })? {
            return Ok(false);
        }
        self.process = Some(process);
        Ok(true)
    }

    /// A variable with its channel more.
    pub(crate) fn take_channel(&mut self, v: VarId, name: u32) -> Result<bool, AllocError>
        requires { IsKept self.old }
        ensures { IfOk result (LeadsOn (SnapshotLine.Channel v name) self.old self.new) }
    {
        let Some(mut process) = self.process.take() else {
            return Ok(false);
        };
        if !process.take_channel(v, name)? {
            return Ok(false);
        }
        self.process = Some(process);
        Ok(true)
    }

    /// Whether a line may stand behind what was gathered, to which it is then added.
    pub fn take_line(&mut self, alloc: Global, line: SnapshotLine) -> Result<bool, AllocError>
        requires { IsKept self.old }
        ensures { IfOk result (LeadsOn line self.old self.new) }
    {
        match line {
            SnapshotLine::Head => Ok(false),
            SnapshotLine::Unit(_) => Ok(false),
            SnapshotLine::Next(_, _) => Ok(false),
            SnapshotLine::Spent(_) => Ok(false),
            SnapshotLine::Account(name, dths) => self.take_account(alloc, &name, dths),
            SnapshotLine::Contract(name, shared) => self.take_contract(alloc, &name, shared),
            SnapshotLine::Name(name, t) => self.take_name(name, t),
            SnapshotLine::Process(seen) => self.take_process(alloc, seen),
            SnapshotLine::Value(v, value) => self.take_value(v, value),
            SnapshotLine::List(v, amount, items) => self.take_list(v, amount, items),
            SnapshotLine::Channel(v, name) => self.take_channel(v, name),
            SnapshotLine::Message(message) => self.take_message(message),
        }
    }
}
