//! How a ledger is written as its snapshot.
ghost use Rattle.std.specs.Prelude.{◌≡◌, ◌≢◌, ◌∷◌, [], All, IfErr, IfOk, Ok, Err, OnOk, map, zip};
ghost use Rattle.std.specs.List.{flat_map};
ghost use Rattle.nomos_contents.specs.Data.{state_of};
ghost use Rattle.nomos_deeds.specs.SeenObjects.{seen_process};
ghost use Rattle.nomos_ir.specs.declared.lists.ProgramLists.{ProgramLists};
ghost use Rattle.nomos_legal.specs.StandsFor.{StandsFor};
ghost use Rattle.nomos_machine.specs.TypedState.{HasVariables, VariablesDiffer};
ghost use Rattle.nomos_script.specs.ScriptNames.{IsScriptName};
ghost use Rattle.nomos_snapshot.specs.Line.{IsNumber};
ghost use Rattle.nomos_snapshot.specs.Loading.{Loads};
ghost use Rattle.nomos_snapshot.specs.Saving.{HasLowNumbers, Saves};
ghost use Rattle.nomos_snapshot.specs.Text.{ledger_lines, object_lines, variable_lines};
ghost use Rattle.nomos_snapshot.specs.mirror.Remaining.{WritesLines, lowest_line};

use crate::error::SaveError;
use crate::line::SnapshotLine;
use crate::line_bounds::{
    is_gas, is_line_list, is_line_value, is_message_line, is_process_line, is_type,
};
use crate::line_writing::{
    push_account, push_channel_line, push_contract, push_head, push_list_line, push_message,
    push_next, push_process, push_spent, push_typed_name, push_unit, push_value_line,
};
use crate::plain_lines::NEXT_LIMIT;
use crate::remaining::{LowestVariable, Remaining};
use nomos_contents::contents::Contents;
use nomos_contents::data::StateData;
use nomos_deeds::sight::SeenProcess;
use nomos_deeds::undo::Undo;
use nomos_ir::ids::{TypeId, VarId};
use nomos_ir::program::Program;
use nomos_ir::value::Value;
use nomos_ledger::ledger::Ledger;
use nomos_machine::object::{Message, Object, PotentialList, Process};
use nomos_types::accepted::Accepted;
use std::alloc::{AllocError, Global};

/// The most bytes of a snapshot.
pub const MAX_SNAPSHOT: usize = 1_073_741_824;

// In all that follows a line that has not the form is want of memory (docs/PROMISES.md).

// What is seen of a process.
fn seen_of(process: &Process) -> SeenProcess
    ensures { result ≡ seen_process process.now }
{
    SeenProcess {
        pid: process.pid,
        mode: process.mode,
        code: process.code,
        offers: process.offers,
        base: process.base,
        purse: process.purse,
        payer: process.payer,
    }
}

// A number that is passed is known to have 32 bits.
fn know_number(number: u32)
    ensures { IsNumber number }
{
    let _number = number;
}

// Appends the line of a variable with its value.
fn push_value_of(text: &mut Vec<u8>, v: VarId, value: &Value) -> Result<(), AllocError>
    ensures { (lists : ProgramLists) → OnOk result
        (WritesLines lists text.old.items text.new.items (SnapshotLine.Value v value.now ∷ [])) }
{
    know_number(v.0);
    if !is_line_value(value) {
        return Err(AllocError);
    }
    push_value_line(text, v, value)
}

// Appends the line of a variable with its list.
fn push_list_of(text: &mut Vec<u8>, v: VarId, list: &PotentialList) -> Result<(), AllocError>
    ensures { (lists : ProgramLists) → OnOk result
        (WritesLines lists text.old.items text.new.items (SnapshotLine.List v list.now.amount list.now.items ∷ [])) }
{
    know_number(v.0);
    if !is_line_list(&list.items) {
        return Err(AllocError);
    }
    let amount = u128::from(list.amount);
    push_list_line(text, v, amount, &list.items)
}

// Appends the line of a variable with its channel.
fn push_channel_of(text: &mut Vec<u8>, v: VarId, name: u32) -> Result<(), AllocError>
    ensures { (lists : ProgramLists) → OnOk result
        (WritesLines lists text.old.items text.new.items (SnapshotLine.Channel v name ∷ [])) }
{
    know_number(v.0);
    know_number(name);
    push_channel_line(text, v, name)
}

// Appends the line of a variable.
fn push_variable(text: &mut Vec<u8>, variable: LowestVariable<'_>) -> Result<(), AllocError>
    ensures { (lists : ProgramLists) → OnOk result
        (WritesLines lists text.old.items text.new.items (lowest_line variable.entry ∷ [])) }
{
    match variable {
        LowestVariable::Value(v, value) => push_value_of(text, v, value),
        LowestVariable::List(v, list) => push_list_of(text, v, list),
        LowestVariable::Channel(v, name) => push_channel_of(text, v, name),
    }
}

// Appends the lines of a process's variables.
fn push_variables(text: &mut Vec<u8>, process: &Process) -> Result<(), AllocError>
    requires { VariablesDiffer process.now }
    ensures { (lists : ProgramLists) → OnOk result
        (WritesLines lists text.old.items text.new.items (variable_lines process.now)) }
{
    let mut left = Remaining::of(process);
    while let Some(variable) = left.next_lowest() {
        push_variable(text, variable)?;
    }
    Ok(())
}

// Appends the lines of a process.
fn push_process_lines(
    text: &mut Vec<u8>,
    program: &Program,
    process: &Process,
) -> Result<(), AllocError>
    requires { VariablesDiffer process.now }
    ensures { OnOk result
        (WritesLines program.now text.old.items text.new.items (object_lines (Object.Process process.now))) }
{
    let seen = seen_of(process);
    if !is_process_line(program, seen) {
        return Err(AllocError);
    }
    push_process(text, &seen)?;
    push_variables(text, process)
}

// Appends the line of a message.
fn push_message_line(
    text: &mut Vec<u8>,
    program: &Program,
    message: &Message,
) -> Result<(), AllocError>
    ensures { OnOk result
        (WritesLines program.now text.old.items text.new.items (object_lines (Object.Message message.now))) }
{
    if !is_message_line(program, message) {
        return Err(AllocError);
    }
    push_message(text, program, message)
}

// Appends the lines of an object.
fn push_object(text: &mut Vec<u8>, program: &Program, object: &Object) -> Result<(), AllocError>
    requires { HasVariables object.now }
    ensures { OnOk result (WritesLines program.now text.old.items text.new.items (object_lines object.now)) }
{
    match object {
        Object::Process(process) => push_process_lines(text, program, process),
        Object::Message(message) => push_message_line(text, program, message),
    }
}

// Appends the lines of the objects.
fn push_objects(text: &mut Vec<u8>, program: &Program, objects: &[Object]) -> Result<(), AllocError>
    requires { All HasVariables objects.now }
    ensures { OnOk result (WritesLines program.now text.old.items text.new.items (flat_map object_lines objects.now)) }
{
    for object in objects {
        push_object(text, program, object)?;
    }
    Ok(())
}

// Appends the line of a name.
fn push_name_line(
    text: &mut Vec<u8>,
    program: &Program,
    name: u32,
    t: TypeId,
) -> Result<(), AllocError>
    ensures { OnOk result
        (WritesLines program.now text.old.items text.new.items (SnapshotLine.Name name t ∷ [])) }
{
    if !is_type(program, t) {
        return Err(AllocError);
    }
    push_typed_name(text, name, t)
}

// Appends the lines of the names.
fn push_names(
    text: &mut Vec<u8>,
    program: &Program,
    types: &[(u32, TypeId)],
) -> Result<(), AllocError>
    ensures { OnOk result
        (WritesLines program.now text.old.items text.new.items (map (λ t. SnapshotLine.Name t.0 t.1) types.now)) }
{
    let mut left = types;
    while let Some((named, others)) = left.split_first() {
        push_name_line(text, program, named.0, named.1)?;
        left = others;
    }
    Ok(())
}

// Appends the line of an account.
fn push_account_line(text: &mut Vec<u8>, name: &str, dths: u128) -> Result<(), AllocError>
    requires { IsScriptName name.now }
    ensures { (lists : ProgramLists) → OnOk result
        (WritesLines lists text.old.items text.new.items (SnapshotLine.Account name.now dths ∷ [])) }
{
    if !is_gas(dths) {
        return Err(AllocError);
    }
    push_account(text, name.as_bytes(), dths)
}

// Appends the lines of the accounts, which have these balances.
fn push_accounts<M: Undo>(
    text: &mut Vec<u8>,
    ledger: &Ledger<M>,
    balances: &[u128],
) -> Result<(), AllocError>
    requires { balances.now ≡ ledger.now.state.balances }
    ensures { (lists : ProgramLists) → OnOk result (WritesLines lists text.old.items text.new.items
        (map (λ e. SnapshotLine.Account e.0 e.1) (zip ledger.now.accounts balances.now))) }
{
    let mut number = 0;
    for dths in balances {
        let Some(name) = ledger.account(number) else {
            unreachable!()
        };
        push_account_line(text, name, *dths)?;
        number += 1;
    }
    Ok(())
}

// Appends the line of a contract.
fn push_contract_line(text: &mut Vec<u8>, name: &str, shared: u32) -> Result<(), AllocError>
    requires { IsScriptName name.now }
    ensures { (lists : ProgramLists) → OnOk result
        (WritesLines lists text.old.items text.new.items (SnapshotLine.Contract name.now shared ∷ [])) }
{
    know_number(shared);
    push_contract(text, name.as_bytes(), shared)
}

// Appends the lines of the contracts.
fn push_contracts<M: Undo>(text: &mut Vec<u8>, ledger: &Ledger<M>) -> Result<(), AllocError>
    ensures { (lists : ProgramLists) → OnOk result (WritesLines lists text.old.items text.new.items
        (map (λ c. SnapshotLine.Contract c.0 c.1) ledger.now.contracts)) }
{
    for place in 0..ledger.contracts() {
        let Some(contract) = ledger.contract_at(place) else {
            unreachable!()
        };
        push_contract_line(text, contract.name, contract.shared)?;
    }
    Ok(())
}

// Appends the first four lines.
fn push_heads(text: &mut Vec<u8>, unit: u32, contents: &StateData) -> Result<(), AllocError>
    requires { HasLowNumbers (state_of contents.now) }
    ensures { (lists : ProgramLists) → OnOk result (WritesLines lists text.old.items text.new.items (SnapshotLine.Head
        ∷ SnapshotLine.Unit unit ∷ SnapshotLine.Next contents.now.next_object contents.now.next_name
        ∷ SnapshotLine.Spent contents.now.spent ∷ [])) }
{
    if !is_gas(contents.spent) {
        return Err(AllocError);
    }
    push_head(text)?;
    push_unit(text, unit)?;
    push_next(text, contents.next_object, contents.next_name)?;
    push_spent(text, contents.spent)
}

// Appends the lines of a ledger whose state is these data.
fn push_ledger<M: Undo>(
    text: &mut Vec<u8>,
    accepted: &Accepted,
    ledger: &Ledger<M>,
    contents: &StateData,
) -> Result<(), AllocError>
    requires low { HasLowNumbers (state_of contents.now) }
    requires variables { All HasVariables contents.now.objects }
    requires state { state_of contents.now ≡ ledger.now.state }
    ensures { OnOk result (WritesLines accepted.now.program text.old.items text.new.items
        (ledger_lines accepted.now.annotations.unit ledger.now)) }
{
    let program = accepted.program();
    push_heads(text, accepted.unit(), contents)?;
    push_accounts(text, ledger, contents.balances.as_slice())?;
    push_contracts(text, ledger)?;
    push_names(text, program, contents.types.as_slice())?;
    push_objects(text, program, contents.objects.as_slice())
}

/// The snapshot of a ledger whose state is these data (docs/TEXTS.md, "Snapshots").
pub fn save_data<M: Undo>(
    alloc: Global,
    accepted: &Accepted,
    ledger: &Ledger<M>,
    contents: &StateData,
) -> Result<Vec<u8>, SaveError>
    requires stands { StandsFor accepted.now ledger.now }
    requires state { state_of contents.now ≡ ledger.now.state }
    ensures ok { IfOk result (λ text. Saves accepted.now ledger.now (Ok text.items)) }
    ensures loads { IfOk result (λ text. Loads accepted.now text.items (Ok ledger.now)) }
    ensures err { IfErr result (λ why. why ≢ SaveError.NoMemory → Saves accepted.now ledger.now (Err why)) }
{
    if contents.next_object > NEXT_LIMIT || contents.next_name > NEXT_LIMIT {
        return Err(SaveError::Numbers(contents.next_object, contents.next_name));
    }
    // Where an account is read it is known that the names of a ledger's accounts and contracts differ.
    let _account = ledger.account(0);
    let mut text = Vec::new(alloc);
    push_ledger(&mut text, accepted, ledger, contents)?;
    if text.len() > MAX_SNAPSHOT {
        return Err(SaveError::TooLong);
    }
    Ok(text)
}

/// The snapshot of a ledger (docs/TEXTS.md, "Snapshots"), which is loaded as that ledger.
pub fn save<M: Contents>(
    alloc: Global,
    accepted: &Accepted,
    ledger: &Ledger<M>,
) -> Result<Vec<u8>, SaveError>
    requires { StandsFor accepted.now ledger.now }
    ensures ok { IfOk result (λ text. Saves accepted.now ledger.now (Ok text.items)) }
    ensures loads { IfOk result (λ text. Loads accepted.now text.items (Ok ledger.now)) }
    ensures err { IfErr result (λ why. why ≢ SaveError.NoMemory → Saves accepted.now ledger.now (Err why)) }
{
    let contents = ledger.state().data(alloc)?;
    save_data(alloc, accepted, ledger, &contents)
}
