//! How a line of a batch is resolved.
ghost use Rattle.std.specs.Prelude.{◌≡◌, ◌<◌, ◌^◌, ℕ, List, All, IfOk, MatchOption, length, position};
ghost use Rattle.nomos_ir.specs.declared.mode.Mode.{Mode};
ghost use Rattle.nomos_machine.specs.TypedState.{IsContractName};
ghost use Rattle.nomos_types.specs.Modes.{HasMode};
ghost use Rattle.nomos_legal.specs.Ledger.{IsLedger};
ghost use Rattle.nomos_legal.specs.StandsFor.{IsSettled};
ghost use Rattle.nomos_legal.specs.LineStarts.{ArgumentsFit, ContractFits, ContractsFit, IsPayer};
ghost use Rattle.nomos_legal.specs.LineStarts.{Resolves, is_wanted, started_by};
ghost use Rattle.nomos_ledger.specs.mirror.Resolving.{FindsDeclaration, FindsNames, FindsPayer, FreesName};
ghost use Rattle.nomos_ledger.specs.mirror.Resolving.{HasGas, HaveModes, IfAnswered, PassesRest};

use crate::account_names::AccountNames;
use crate::books::Books;
use crate::contract_names::ContractNames;
use crate::start_arguments::Arguments;
use crate::value_fits::values_fit;
use nomos_deeds::machine::Machine;
use nomos_deeds::undo::Undo;
use nomos_ir::declaration::ProcDecl;
use nomos_ir::ids::{ProcId, TypeId, VarId};
use nomos_ir::items::Items;
use nomos_ir::or_no_memory::OrNoMemory;
use nomos_legal::refusal::Refusal;
use nomos_legal::resolved::{Resolved, SharedNames};
use nomos_script::item::Start;
use nomos_script::name::ScriptName;
use nomos_types::accepted::Accepted;
use std::alloc::{AllocError, Global};

/// Who pays for a line, and what it starts.
#[derive(Clone, Copy)]
struct ResolvedLine {
    payer: u32,
    proc: ProcId,
}

/// A copy of a name.
fn copy_name(alloc: Global, name: &ScriptName) -> Result<ScriptName, AllocError>
    ensures { IfOk result (λ made. made ≡ name.now) }
{
    Ok(ScriptName::of_vec(Vec::from_slice(alloc, name.as_bytes())?))
}

/// A copy of the name of a contract, where one is made.
fn copy_contract(
    alloc: Global,
    contract: &Option<ScriptName>,
) -> Result<Option<ScriptName>, AllocError>
    ensures { IfOk result (λ made. made ≡ contract.now) }
{
    match contract {
        Some(name) => Ok(Some(copy_name(alloc, name)?)),
        None => Ok(None),
    }
}

/// The account that pays.
fn payer_of(
    alloc: Global,
    accounts: &AccountNames,
    start: &Start,
) -> Result<u32, OrNoMemory<Refusal>>
    requires { length accounts.now < 2 ^ 32 }
    ensures { IfAnswered result (FindsPayer accounts.now start.now) }
{
    match accounts.number_of(&start.sender) {
        Some(account) => Ok(account),
        None => Err(OrNoMemory::Answer(Refusal::NoAccount(copy_name(alloc, &start.sender)?))),
    }
}

/// The declaration that a start wants.
fn declaration_of(
    alloc: Global,
    arguments: &Arguments<'_>,
    start: &Start,
) -> Result<ProcId, OrNoMemory<Refusal>>
    ensures { IfAnswered result (FindsDeclaration arguments.now.program.procs start.now) }
{
    match arguments.declaration(start) {
        Some(proc) => Ok(proc),
        None => Err(OrNoMemory::Answer(Refusal::NoProcess(copy_name(alloc, &start.proc)?))),
    }
}

/// The shared name of the contract of this name, where there is one and its type is alike to that of the parameter.
fn fitting_contract<M: Undo>(
    alloc: Global,
    books: &Books<M>,
    arguments: &mut Arguments<'_>,
    name: &ScriptName,
    par: (VarId, TypeId),
) -> Result<Option<u32>, AllocError>
    requires contracts { All (λ c. IsContractName arguments.old books.now.now.state c.1) books.now.now.contracts }
    requires parameter { (m : Mode) × HasMode arguments.old.program par.1 m }
    ensures fits { IfOk result (λ found. MatchOption found
        ((shared : ℕ) → ¬ (ContractFits arguments.old books.now.now name.now par shared))
        (ContractFits arguments.old books.now.now name.now par)) }
    ensures stays { arguments.new ≡ arguments.old }
{
    let Some(shared) = books.contracts.shared_name(name) else {
        return Ok(None);
    };
    let Some(own) = books.machine.name_type(shared) else {
        return Ok(None);
    };
    if arguments.are_alike(alloc, own, par.1)? {
        Ok(Some(shared))
    } else {
        Ok(None)
    }
}

/// The shared names for parameters, where there is one for each that fits.
fn fitting_contracts<M: Undo>(
    alloc: Global,
    books: &Books<M>,
    arguments: &mut Arguments<'_>,
    names: &[ScriptName],
    pars: &[(VarId, TypeId)],
) -> Result<Option<SharedNames>, AllocError>
    requires contracts { All (λ c. IsContractName arguments.old books.now.now.state c.1) books.now.now.contracts }
    requires parameters { HaveModes arguments.old.program pars.now }
    ensures fit { IfOk result (λ found. MatchOption found
        ((shared : List ℕ) → ¬ (ContractsFit arguments.old books.now.now names.now pars.now shared))
        (ContractsFit arguments.old books.now.now names.now pars.now)) }
    ensures stays { arguments.new ≡ arguments.old }
{
    if names.len() != pars.len() {
        return Ok(None);
    }
    let mut found = Vec::new(alloc);
    for at in 0..names.len() {
        match fitting_contract(alloc, books, arguments, &names[at], pars[at])? {
            Some(shared) => found.push(shared)?,
            None => return Ok(None),
        }
    }
    Ok(Some(Items::of_vec(found)))
}

/// The shared names for the channel parameters of a declaration, where the arguments of the line fit its parameters.
fn fitting_arguments<M: Undo>(
    alloc: Global,
    books: &Books<M>,
    arguments: &mut Arguments<'_>,
    start: &Start,
    d: &ProcDecl,
) -> Result<Option<SharedNames>, AllocError>
    requires contracts { All (λ c. IsContractName arguments.old books.now.now.state c.1) books.now.now.contracts }
    requires parameters { HaveModes arguments.old.program d.now.channels }
    ensures fit { IfOk result (λ found. MatchOption found
        ((shared : List ℕ) → ¬ (ArgumentsFit arguments.old books.now.now start.now d.now shared))
        (ArgumentsFit arguments.old books.now.now start.now d.now)) }
    ensures stays { arguments.new ≡ arguments.old }
{
    if !values_fit(&start.values, d.values.as_slice()) {
        return Ok(None);
    }
    let names = start.names.as_slice();
    fitting_contracts(alloc, books, arguments, names, d.channels.as_slice())
}

/// Refuses the name of a contract that is taken.
fn check_name<M: Undo>(
    alloc: Global,
    books: &Books<M>,
    contract: &Option<ScriptName>,
) -> Result<(), OrNoMemory<Refusal>>
    ensures { IfAnswered result (FreesName books.now.now contract.now) }
{
    let Some(name) = contract else {
        return Ok(());
    };
    match books.contracts.shared_name(name) {
        Some(_shared) => Err(OrNoMemory::Answer(Refusal::NameTaken(copy_name(alloc, name)?))),
        None => Ok(()),
    }
}

/// Refuses an account that has less than is needed, both in Dths.
fn check_gas(
    alloc: Global,
    start: &Start,
    has: u128,
    needs: u128,
) -> Result<(), OrNoMemory<Refusal>>
    ensures { IfAnswered result (HasGas start.now has needs) }
{
    if needs <= has {
        return Ok(());
    }
    let name = copy_name(alloc, &start.sender)?;
    Err(OrNoMemory::Answer(Refusal::NoGas { name, has, needs }))
}

/// What a line starts by a declaration, with these shared names, which this account pays.
fn started_by(
    alloc: Global,
    start: &Start,
    proc: ProcId,
    names: SharedNames,
    payer: u32,
) -> Result<Resolved, AllocError>
    ensures { IfOk result (λ made. made ≡ started_by start.now proc.0 names payer) }
{
    let contract = copy_contract(alloc, &start.contract)?;
    let values = start.values.copy()?;
    Ok(Resolved {
        proc,
        values,
        names,
        payer,
        contract,
    })
}

/// The shared names for the channel parameters of a declaration, or that the arguments of the line do not fit.
fn shared_names<M: Undo>(
    alloc: Global,
    books: &Books<M>,
    arguments: &mut Arguments<'_>,
    start: &Start,
    d: &ProcDecl,
) -> Result<SharedNames, OrNoMemory<Refusal>>
    requires contracts { All (λ c. IsContractName arguments.old books.now.now.state c.1) books.now.now.contracts }
    requires parameters { HaveModes arguments.old.program d.now.channels }
    ensures finds { IfAnswered result (FindsNames arguments.old books.now.now start.now d.now) }
    ensures stays { arguments.new ≡ arguments.old }
{
    match fitting_arguments(alloc, books, arguments, start, d)? {
        Some(names) => Ok(names),
        None => Err(OrNoMemory::Answer(Refusal::BadArguments(copy_name(alloc, &start.proc)?))),
    }
}

/// Refuses a name that is taken, and a payer that has less than the declared potential.
fn check_rest<M: Undo>(
    alloc: Global,
    books: &Books<M>,
    accepted: &Accepted,
    start: &Start,
    found: ResolvedLine,
) -> Result<(), OrNoMemory<Refusal>>
    requires payer { found.payer < length books.now.now.state.balances }
    requires proc { found.proc.0 < length accepted.now.program.procs }
    ensures { IfAnswered result (PassesRest accepted.now books.now.now start.now found) }
{
    check_name(alloc, books, &start.contract)?;
    let has = books.machine.balance(found.payer).unwrap_or(0);
    check_gas(alloc, start, has, u128::from(accepted.bound(found.proc)))
}

/// What a line comes to by the declaration that it wants, which this account pays.
fn resolve_found<M: Undo>(
    alloc: Global,
    books: &Books<M>,
    arguments: &mut Arguments<'_>,
    start: &Start,
    found: ResolvedLine,
) -> Result<Resolved, OrNoMemory<Refusal>>
    requires settled { IsSettled arguments.old books.now.now }
    requires ledger { IsLedger books.now.now }
    requires payer { IsPayer books.now.now start.now found.payer }
    requires wanted { position (is_wanted start.now) arguments.old.program.procs ≡ Some found.proc.0 }
    ensures resolves { IfAnswered result (Resolves arguments.old books.now.now start.now) }
    ensures stays { arguments.new ≡ arguments.old }
{
    let accepted = arguments.accepted();
    let d = accepted.program().proc(found.proc);
    let names = shared_names(alloc, books, arguments, start, d)?;
    check_rest(alloc, books, accepted, start, found)?;
    Ok(started_by(alloc, start, found.proc, names, found.payer)?)
}

/// What a line comes to, as lines before it left the books: a start, or why it is refused (docs/MACHINE.md, "Batches").
pub(crate) fn resolve<M: Undo>(
    alloc: Global,
    books: &Books<M>,
    arguments: &mut Arguments<'_>,
    start: &Start,
) -> Result<Resolved, OrNoMemory<Refusal>>
    requires settled { IsSettled arguments.old books.now.now }
    requires ledger { IsLedger books.now.now }
    ensures resolves { IfAnswered result (Resolves arguments.old books.now.now start.now) }
    ensures stays { arguments.new ≡ arguments.old }
{
    let payer = payer_of(alloc, &books.accounts, start)?;
    let proc = declaration_of(alloc, arguments, start)?;
    resolve_found(alloc, books, arguments, start, ResolvedLine { payer, proc })
}
