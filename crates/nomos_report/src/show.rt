//! The lines of a `show`.

ghost use Rattle.std.specs.Prelude.{◌≡◌, ◌++◌, ◌*◌, ◌<◌, ◌^◌, codes, decimal, length, slice_get, sum_by, OnOk};
ghost use Rattle.std.specs.List.{flat_map, zip};
ghost use Rattle.std.specs.Option.{option_map};
ghost use Rattle.nomos_base.specs.Gas.{gas_text};
ghost use Rattle.nomos_machine.specs.Objects.{purse_of};
ghost use Rattle.nomos_machine.specs.State.{gas_of};
ghost use Rattle.nomos_machine.specs.TypedState.{IsTyped, Numbered};
ghost use Rattle.nomos_legal.specs.StandsFor.{StandsFor};
ghost use Rattle.nomos_report.specs.ReportLines.{line};
ghost use Rattle.nomos_report.specs.ShownState.{account_line, channel_line, held_text, named_line, owner_line, show_lines};
ghost use Rattle.nomos_report.specs.mirror.NamedLines.{name_line};

use crate::report_lines::{push_amount_line, push_counted, push_front, push_named, push_word};
use nomos_base::push_gas;
use nomos_deeds::machine::{Machine, View};
use nomos_deeds::undo::Undo;
use nomos_ledger::ledger::Ledger;
use nomos_ledger::named::Named;
use nomos_types::accepted::Accepted;
use std::alloc::AllocError;

/// An account: its name, and what it has, in Dths.
#[derive(Clone, Copy)]
struct Account<'a> {
    name: &'a str,
    dths: u128,
}

// The account of a number, if there is one.
fn account_of<M: Undo>(ledger: &Ledger<M>, n: u32) -> Option<Account<'_>>
    ensures account { option_map (λ a. (a.name.now, a.dths)) result
        ≡ slice_get (zip ledger.now.accounts ledger.now.state.balances) n }
    ensures few { length ledger.now.accounts < 2 ^ 32 }
{
    let name = ledger.account(n)?;
    let dths = ledger.state().balance(n)?;
    Some(Account { name, dths })
}

// Appends the line of an account.
fn push_account(text: &mut Vec<u8>, unit: u32, account: Account) -> Result<(), AllocError>
    ensures { OnOk result (text.new.items
        ≡ text.old.items ++ account_line unit (account.entry.name.now, account.entry.dths)) }
{
    push_named(text, b"account ", account.name)?;
    push_amount_line(text, b" ", account.dths, unit)
}

// Appends the accounts, by number.
fn push_accounts<M: Undo>(
    text: &mut Vec<u8>,
    unit: u32,
    ledger: &Ledger<M>,
) -> Result<(), AllocError>
    ensures { OnOk result (text.new.items
        ≡ text.old.items ++ flat_map (account_line unit) (zip ledger.now.accounts ledger.now.state.balances)) }
{
    let mut number = 0;
    while let Some(account) = account_of(ledger, number) {
        push_account(text, unit, account)?;
        number += 1;
    }
    Ok(())
}

// Whether a client has acquired a contract, for which a process stands with this base.
fn held_word(base: Option<u32>) -> &'static [u8]
    ensures { result.now ≡ held_text base }
{
    match base {
        Some(_) => b"held",
        None => b"free",
    }
}

// Appends what is shown of a process that stands for a contract, to the end of the line.
fn push_standing(text: &mut Vec<u8>, unit: u32, pid: u32, view: &View) -> Result<(), AllocError>
    ensures { OnOk result (text.new.items
        ≡ text.old.items ++ (codes " process " ++ decimal pid ++ codes " gas " ++ gas_text view.now.purse unit
        ++ codes " " ++ held_text view.now.base ++ codes "\n")) }
{
    push_counted(text, b" process ", u64::from(pid))?;
    text.extend_from_slice(b" gas ")?;
    push_gas(text, view.purse, unit)?;
    text.push(b' ')?;
    text.extend_from_slice(held_word(view.base))?;
    text.push(b'\n')?;
    Ok(())
}

// Appends the line of a contract: of the process that stands for its shared name.
fn push_contract<M: Machine>(
    text: &mut Vec<u8>,
    unit: u32,
    contract: Named,
    machine: &M,
) -> Result<(), AllocError>
    requires { Numbered (M.state machine.now) }
    ensures { OnOk result (text.new.items
        ≡ text.old.items ++ named_line unit (M.state machine.now).objects
        (contract.entry.name.now, contract.entry.shared)) }
{
    let Some(pid) = machine.keeper(contract.shared) else {
        return Ok(());
    };
    let Some(view) = machine.view(pid) else {
        return Ok(());
    };
    push_named(text, b"contract ", contract.name)?;
    push_standing(text, unit, pid, &view)
}

// Appends the contracts, in order of naming.
fn push_contracts<M: Undo>(
    text: &mut Vec<u8>,
    unit: u32,
    ledger: &Ledger<M>,
) -> Result<(), AllocError>
    requires { Numbered ledger.now.state }
    ensures { OnOk result (text.new.items
        ≡ text.old.items ++ flat_map (named_line unit ledger.now.state.objects) ledger.now.contracts) }
{
    for place in 0..ledger.contracts() {
        let Some(contract) = ledger.contract_at(place) else {
            unreachable!()
        };
        push_contract(text, unit, contract, ledger.state())?;
    }
    Ok(())
}

// Appends the line of a name with its owner, where there is one.
fn push_owner(text: &mut Vec<u8>, name: u32, owner: Option<u32>) -> Result<(), AllocError>
    ensures { OnOk result (text.new.items ≡ text.old.items ++ owner_line name owner) }
{
    let Some(owner) = owner else {
        return Ok(());
    };
    push_counted(text, b"channel ", u64::from(name))?;
    push_counted(text, b" owner ", u64::from(owner))?;
    text.push(b'\n')?;
    Ok(())
}

// Appends the line of a name, where it is one that is used exactly once.
fn push_name<M: Machine>(
    text: &mut Vec<u8>,
    accepted: &Accepted,
    machine: &M,
    name: u32,
) -> Result<(), AllocError>
    requires { IsTyped accepted.now (M.state machine.now) }
    ensures { OnOk result (text.new.items ≡ text.old.items ++ name_line accepted.now (M.state machine.now) name) }
{
    accepted.know();
    push_owner(text, name, machine.owner(accepted, name))
}

// Appends the names that are used exactly once with their owners, in ascending order.
fn push_channels<M: Machine>(
    text: &mut Vec<u8>,
    accepted: &Accepted,
    machine: &M,
) -> Result<(), AllocError>
    requires { IsTyped accepted.now (M.state machine.now) }
    ensures { OnOk result (text.new.items
        ≡ text.old.items ++ flat_map (channel_line accepted.now (M.state machine.now)) (M.state machine.now).types) }
{
    accepted.know();
    let mut name = 0;
    // No state that is reached has the name 0; a typed one may have it.
    push_name(text, accepted, machine, name)?;
    while let Some(next) = machine.next_owned(accepted, name) {
        push_name(text, accepted, machine, next)?;
        name = next;
    }
    Ok(())
}

// Appends the gas that is stored, what is spent and the deposits.
fn push_gas_lines<M: Undo>(
    text: &mut Vec<u8>,
    unit: u32,
    ledger: &Ledger<M>,
) -> Result<(), AllocError>
    requires gas { gas_of ledger.now.state < 2 ^ 96 }
    ensures { OnOk result (text.new.items
        ≡ text.old.items ++ (line (codes "stored " ++ gas_text (sum_by purse_of ledger.now.state.objects) unit)
        ++ line (codes "spent " ++ gas_text ledger.now.state.spent unit)
        ++ line (codes "deposits " ++ gas_text (ledger.now.deposits * unit) unit))) }
{
    let machine = ledger.state();
    let deposits = u128::from(ledger.deposits()) * u128::from(unit);
    push_amount_line(text, b"stored ", machine.stored(), unit)?;
    push_amount_line(text, b"spent ", machine.spent(), unit)?;
    push_amount_line(text, b"deposits ", deposits, unit)
}

/// Appends what a `show` at a line of the script prints of a ledger that stands for the program: its accounts by
/// number, its contracts in order of naming, its channels with their owners in ascending order, and the gas that is
/// stored, spent and deposited (docs/TEXTS.md, "The report"). It goes over each once, and sorts nothing.
pub fn push_show<M: Undo>(
    text: &mut Vec<u8>,
    accepted: &Accepted,
    ledger: &Ledger<M>,
    line: u32,
) -> Result<(), AllocError>
    requires { StandsFor accepted.now ledger.now }
    ensures { OnOk result (text.new.items ≡ text.old.items ++ show_lines accepted.now line ledger.now) }
{
    accepted.know();
    push_front(text, line)?;
    push_word(text, b"show\n")?;
    push_accounts(text, accepted.unit(), ledger)?;
    push_contracts(text, accepted.unit(), ledger)?;
    push_channels(text, accepted, ledger.state())?;
    push_gas_lines(text, accepted.unit(), ledger)
}
