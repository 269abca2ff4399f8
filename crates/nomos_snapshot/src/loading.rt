//! How a text is loaded as a ledger, up to the questions whether its state is typed, and which process of it is ready.
ghost use Rattle.std.specs.Prelude.{◌≡◌, ◌≢◌, ◌↔◌, ◌*◌, ◌^◌, ◌<◌, ◌≤◌, ℕ, IfErr, IfOk, IsTrue, MatchResult, All, Err};
ghost use Rattle.nomos_contents.specs.Data.{state_of};
ghost use Rattle.nomos_legal.specs.Ending.{HasTransaction};
ghost use Rattle.nomos_machine.specs.Objects.{object_number, purse_of};
ghost use Rattle.nomos_machine.specs.State.{gas_of};
ghost use Rattle.nomos_snapshot.specs.GatheredLines.{ledger_of};
ghost use Rattle.nomos_snapshot.specs.Loading.{TellsLedger, IsWorth, Loads};
ghost use Rattle.nomos_snapshot.specs.ToldLines.{IsKept, told};
ghost use Rattle.nomos_snapshot.specs.mirror.Remaining.{IsTransactionObject};

use crate::error::LoadError;
use crate::gathered::Gathering;
use crate::saving::MAX_SNAPSHOT;
use crate::whole::gather;
use nomos_contents::data::StateData;
use nomos_ir::mode::Mode;
use nomos_machine::object::Object;
use nomos_types::accepted::Accepted;
use std::alloc::{AllocError, Global};

/// What a text tells, where it is not too long and all its lines may stand (docs/TEXTS.md, "Snapshots"). The errors are
/// `TooLong`, `BadLine` and `NoMemory` alone.
pub fn read_told(alloc: Global, accepted: &Accepted, text: &[u8]) -> Result<Gathering, LoadError>
    ensures ok { IfOk result (λ g. TellsLedger accepted.now text.now (ledger_of (told g))) }
    ensures kept { IfOk result IsKept }
    ensures err { IfErr result (λ why. why ≢ LoadError.NoMemory → Loads accepted.now text.now (Err why)) }
{
    if text.len() > MAX_SNAPSHOT {
        return Err(LoadError::TooLong);
    }
    match gather(alloc, accepted, text)? {
        Ok(gathering) => Ok(gathering),
        Err(at) => Err(LoadError::BadLine(at as u32)),
    }
}

// The number of an object.
fn number_of(object: &Object) -> u32
    ensures { result ≡ object_number object.now }
{
    match object {
        Object::Process(process) => process.pid,
        Object::Message(message) => message.number,
    }
}

/// Whether each object has a number below the next object's.
pub fn are_objects_below(contents: &StateData) -> bool
    ensures { IsTrue result ↔ All (λ o. object_number o < contents.now.next_object) contents.now.objects }
{
    contents
        .objects
        .as_slice()
        .iter()
        .all(|object| number_of(object) < contents.next_object)
}

/// Whether each name is below the next one.
pub fn are_names_below(contents: &StateData) -> bool
    ensures { IsTrue result ↔ All (λ t. t.0 < contents.now.next_name) contents.now.types }
{
    contents
        .types
        .as_slice()
        .iter()
        .all(|named| named.0 < contents.next_name)
}

// Whether an object is a transaction.
fn is_transaction(object: &Object) -> bool
    ensures { IsTrue result ↔ IsTransactionObject object.now }
{
    match object {
        Object::Process(process) => matches!(process.mode, Mode::T),
        Object::Message(_) => false,
    }
}

/// Whether a transaction is left.
pub fn has_transaction(contents: &StateData) -> bool
    ensures { IsTrue result ↔ HasTransaction (state_of contents.now) }
{
    for object in contents.objects.as_slice() {
        if is_transaction(object) {
            return true;
        }
    }
    false
}

// What an object carries, in Dths.
fn purse_of(object: &Object) -> u128
    ensures { result ≡ purse_of object.now }
{
    match object {
        Object::Process(process) => process.purse,
        Object::Message(message) => message.purse,
    }
}

// All gas, in Dths. A sum over 128 bits, which no text within the bounds of a snapshot has, is want of memory.
fn gas_of(contents: &StateData) -> Result<u128, AllocError>
    ensures { IfOk result (λ gas. gas ≡ gas_of (state_of contents.now)) }
{
    let mut gas = contents.spent;
    for dths in contents.balances.as_slice() {
        gas = gas.checked_add(*dths).ok_or(AllocError)?;
    }
    for object in contents.objects.as_slice() {
        gas = gas.checked_add(purse_of(object)).ok_or(AllocError)?;
    }
    Ok(gas)
}

// How many units so much gas is; where it is no whole number of units, or over 2^64 - 1, the gas again.
fn units_of(gas: u128, unit: u32) -> Result<u64, u128>
    requires { 1 ≤ unit }
    ensures { MatchResult result (λ units. gas ≡ units * unit)
        (λ kept. (kept ≡ gas) × ((units : ℕ) → units < 2 ^ 64 → gas ≢ units * unit)) }
{
    let unit = u128::from(unit);
    if gas % unit != 0 {
        return Err(gas);
    }
    match u64::try_from(gas / unit) {
        Ok(units) => Ok(units),
        Err(_) => Err(gas),
    }
}

/// How many deposited units all gas is worth; or all gas, where it is no whole number of units, or over 2^64 - 1.
pub fn deposits_of(
    accepted: &Accepted,
    contents: &StateData,
) -> Result<Result<u64, u128>, AllocError>
    ensures { IfOk result (λ answer. MatchResult answer
        (λ units. IsWorth accepted.now (gas_of (state_of contents.now)) units)
        (λ gas. (gas ≡ gas_of (state_of contents.now)) × ((units : ℕ) → ¬ (IsWorth accepted.now gas units)))) }
{
    // An accepted program has a unit.
    accepted.know();
    let gas = gas_of(contents)?;
    Ok(units_of(gas, accepted.unit()))
}
