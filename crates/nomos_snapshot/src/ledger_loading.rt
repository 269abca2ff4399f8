//! How a text is loaded as a ledger.
ghost use Rattle.std.specs.Prelude.{◌≡◌, ◌≢◌, ◌↔◌, ◌^◌, ◌<◌, IfErr, IfOk, IsTrue, MatchResult, Ok, Err, Some, length, slice_get};
ghost use Rattle.nomos_contents.specs.Data.{state_of};
ghost use Rattle.nomos_legal.specs.Ledger.{AreNamed, LedgerState};
ghost use Rattle.nomos_legal.specs.StandsFor.{StandsFor};
ghost use Rattle.nomos_machine.specs.TypedState.{IsContractName};
ghost use Rattle.nomos_types.specs.ModeTable.{AreModesOf};
ghost use Rattle.nomos_snapshot.specs.Loading.{Admits, LoadAnswer, Loads, TellsLedger};
ghost use Rattle.nomos_snapshot.specs.Saving.{HasLowNumbers};
ghost use Rattle.nomos_snapshot.specs.Snapshotted.{HasSnapshot};
ghost use Rattle.nomos_snapshot.specs.Text.{snapshot_text};
ghost use Rattle.nomos_snapshot.specs.ToldLines.{AreSorted, parts_ledger};
ghost use Rattle.nomos_snapshot.specs.mirror.Loaded.{AreShared, IsSoundState, IsWorthOf, MayStand, Refuses};

use crate::error::LoadError;
use crate::ledger_parts::LedgerParts;
use crate::loading::{are_names_below, are_objects_below, deposits_of, has_transaction, read_told};
use nomos_contents::contents::Contents;
use nomos_contents::data::StateData;
use nomos_deeds::machine::Machine;
use nomos_ir::ids::TypeId;
use nomos_ir::mode::Mode;
use nomos_ledger::contract_names::ContractNames;
use nomos_ledger::ledger::Ledger;
use nomos_typed::typed::is_typed;
use nomos_types::accepted::Accepted;
use nomos_types::mode_table::mode_table;
use std::alloc::{AllocError, Global};

// Whether the mode of a type is S, where these are the modes of all types.
fn is_of_mode_s(modes: &[Mode], t: TypeId) -> bool
    ensures { IsTrue result ↔ (slice_get modes.now t.0 ≡ Some Mode.S) }
{
    matches!(modes.get(t.0 as usize), Some(Mode::S))
}

// Whether a name has a type of mode S.
fn is_shared<M: Machine>(accepted: &Accepted, machine: &M, modes: &[Mode], name: u32) -> bool
    requires { AreModesOf accepted.now.program modes.now }
    ensures { IsTrue result ↔ IsContractName accepted.now (M.state machine.now) name }
{
    accepted.know();
    match machine.name_type(name) {
        Some(t) => is_of_mode_s(modes, t),
        None => false,
    }
}

// Whether each contract's name has a type of mode S.
fn all_shared<M: Machine>(
    accepted: &Accepted,
    machine: &M,
    modes: &[Mode],
    contracts: &ContractNames,
) -> bool
    requires { AreModesOf accepted.now.program modes.now }
    ensures { IsTrue result ↔ AreShared accepted.now (M.state machine.now) contracts.now }
{
    for place in 0..contracts.len() {
        let Some(contract) = contracts.contract(place) else {
            unreachable!()
        };
        if !is_shared(accepted, machine, modes, contract.shared) {
            return false;
        }
    }
    true
}

// The same, where the modes are yet to be found.
fn are_shared<M: Machine>(
    alloc: Global,
    accepted: &Accepted,
    machine: &M,
    contracts: &ContractNames,
) -> Result<bool, AllocError>
    ensures { IfOk result (λ yes. IsTrue yes ↔ AreShared accepted.now (M.state machine.now) contracts.now) }
{
    let modes = mode_table(alloc, accepted.program())?;
    Ok(all_shared(accepted, machine, modes.as_slice(), contracts))
}

// Whether the state of these data is typed, and no transaction is left.
fn is_sound_state(
    alloc: Global,
    accepted: &Accepted,
    contents: &StateData,
) -> Result<bool, AllocError>
    requires { AreSorted contents.now }
    ensures { IfOk result (λ yes. IsTrue yes ↔ IsSoundState accepted.now (state_of contents.now)) }
{
    if !are_objects_below(contents) {
        return Ok(false);
    }
    if !are_names_below(contents) {
        return Ok(false);
    }
    if has_transaction(contents) {
        return Ok(false);
    }
    let typed = is_typed(alloc, accepted, contents)?;
    Ok(typed)
}

/// The parts of the ledger that a text tells. The errors are `TooLong`, `BadLine`, `NoMemory`, and `NotTyped` of a list
/// that no machine keeps, which stands in no typed state.
pub fn parts_told(alloc: Global, accepted: &Accepted, text: &[u8]) -> Result<LedgerParts, LoadError>
    ensures ok { IfOk result (λ parts. TellsLedger accepted.now text.now (parts_ledger parts)) }
    ensures err { IfErr result (λ why. why ≢ LoadError.NoMemory → Loads accepted.now text.now (Err why)) }
{
    accepted.know();
    let gathering = read_told(alloc, accepted, text)?;
    if gathering.has_wide_list() {
        drop(gathering);
        return Err(LoadError::NotTyped);
    }
    let parts = gathering.into_parts(alloc)?;
    Ok(parts)
}

// The deposits of a ledger with this state and these contracts, where it may be loaded.
fn deposits_admitted<M: Machine>(
    alloc: Global,
    accepted: &Accepted,
    machine: &M,
    contracts: &ContractNames,
    worth: Result<u64, u128>,
) -> Result<u64, LoadError>
    requires sound { IsSoundState accepted.now (M.state machine.now) }
    requires worth { IsWorthOf accepted.now (M.state machine.now) worth }
    ensures ok { IfOk result (MayStand accepted.now (M.state machine.now) contracts.now) }
    ensures err { IfErr result (λ why. why ≢ LoadError.NoMemory
        → Refuses accepted.now (M.state machine.now) contracts.now why) }
{
    let shared = are_shared(alloc, accepted, machine, contracts)?;
    if !shared {
        return Err(LoadError::NotTyped);
    }
    let units = match worth {
        Ok(units) => units,
        Err(gas) => return Err(LoadError::Gas(gas)),
    };
    match machine.next_ready(accepted, 0) {
        Some(pid) => Err(LoadError::NotQuiet(pid)),
        None => Ok(units),
    }
}

// The ledger of parts whose state is sound, where it may be loaded.
fn opened<M: Contents + Drop>(
    alloc: Global,
    accepted: &Accepted,
    parts: LedgerParts,
) -> Result<Ledger<M>, LoadError>
    requires sound { IsSoundState accepted.now (state_of parts.contents) }
    requires sorted { AreSorted parts.contents }
    requires named { AreNamed parts.accounts parts.contracts parts.contents.balances }
    ensures ok { IfOk result (λ l. Admits accepted.now (parts_ledger parts) (Ok l)) }
    ensures err { IfErr result (λ why. why ≢ LoadError.NoMemory
        → Admits accepted.now (parts_ledger parts) (Err why)) }
{
    let worth = deposits_of(accepted, &parts.contents)?;
    let LedgerParts {
        accounts,
        contracts,
        contents,
    } = parts;
    let machine: M = M::of_data(alloc, contents)?;
    match deposits_admitted(alloc, accepted, &machine, &contracts, worth) {
        Ok(deposits) => Ok(Ledger::of_parts(machine, accounts, contracts, deposits)),
        Err(why) => Err(why),
    }
}

/// The ledger of parts that a text told, or that were made of such, where it may be loaded: its state is typed, its
/// names of contracts have mode S, its gas is worth its deposits, and nothing of it is ready. Otherwise the first cause
/// why not, in the order of `LoadError`.
pub fn admitted<M: Contents + Drop>(
    alloc: Global,
    accepted: &Accepted,
    parts: LedgerParts,
) -> Result<Ledger<M>, LoadError>
    requires sorted { AreSorted parts.contents }
    requires named { AreNamed parts.accounts parts.contracts parts.contents.balances }
    ensures ok { IfOk result (λ l. Admits accepted.now (parts_ledger parts) (Ok l)) }
    ensures err { IfErr result (λ why. why ≢ LoadError.NoMemory
        → Admits accepted.now (parts_ledger parts) (Err why)) }
{
    let sound = is_sound_state(alloc, accepted, &parts.contents)?;
    if !sound {
        drop(parts);
        return Err(LoadError::NotTyped);
    }
    opened(alloc, accepted, parts)
}

// The ledger as which a text is loaded, or why it is not.
fn loaded<M: Contents + Drop>(
    alloc: Global,
    accepted: &Accepted,
    text: &[u8],
) -> Result<Ledger<M>, LoadError>
    ensures ok { IfOk result (λ l. Loads accepted.now text.now (Ok l)) }
    ensures err { IfErr result (λ why. why ≢ LoadError.NoMemory → Loads accepted.now text.now (Err why)) }
{
    let parts = parts_told(alloc, accepted, text)?;
    admitted(alloc, accepted, parts)
}

/// The ledger of which a text is the snapshot (docs/TEXTS.md, "Snapshots"), or the first cause why it is not loaded, in
/// the order of `LoadError`. Nothing of the text is believed: it is loaded only where the ledger stands for the
/// program. A text is loaded as one ledger, whose own snapshot is that text, and a ledger that has a snapshot is loaded
/// from it.
pub fn load<M: Contents + Drop>(
    alloc: Global,
    accepted: &Accepted,
    text: &[u8],
) -> Result<Ledger<M>, LoadError>
    ensures ok { IfOk result (λ l. Loads accepted.now text.now (Ok l)) }
    ensures err { IfErr result (λ why. why ≢ LoadError.NoMemory → Loads accepted.now text.now (Err why)) }
    ensures only { (answer : LoadAnswer) → Loads accepted.now text.now answer
        → MatchResult result (λ l. answer ≡ Ok l) (λ why. why ≢ LoadError.NoMemory → answer ≡ Err why) }
    ensures text { IfOk result (λ l. text.now ≡ snapshot_text accepted.now l) }
    ensures stands { IfOk result (StandsFor accepted.now) }
    ensures numbers { IfOk result (λ l. HasLowNumbers l.state × (length l.accounts < 2 ^ 31)) }
    ensures again { (l : LedgerState) → Loads accepted.now text.now (Ok l)
        → MatchResult result (λ k. k ≡ l) (λ why. why ≡ LoadError.NoMemory) }
    ensures whole { (l : LedgerState) → HasSnapshot accepted.now l → text.now ≡ snapshot_text accepted.now l
        → MatchResult result (λ k. k ≡ l) (λ why. why ≡ LoadError.NoMemory) }
{
    accepted.know();
    loaded(alloc, accepted, text)
}
