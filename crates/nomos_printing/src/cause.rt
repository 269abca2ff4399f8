//! Why a line of a script is refused, as text.

ghost use Rattle.std.specs.Prelude.{◌≡◌, ◌++◌, codes, OnOk, IfOk};
ghost use Rattle.nomos_base.specs.Gas.{gas_text};
ghost use Rattle.nomos_script.specs.ScriptNames.{IsScriptName};
ghost use Rattle.nomos_printing.specs.Cause.{cause_text, IsCause};
ghost use Rattle.nomos_printing.specs.ReadAs.{ReadsAs};
ghost use Rattle.nomos_printing.specs.mirror.Shortages.{IsShortage, shortage_text};

use crate::number::read_gas;
use crate::splitting::{behind, is_word, split_once};
use nomos_base::push_gas;
use nomos_legal::refusal::Refusal;
use nomos_script::name::{ScriptName, is_script_name};
use std::alloc::{AllocError, Global};

// Appends a word and a name.
fn push_named(text: &mut Vec<u8>, word: &[u8], name: &[u8]) -> Result<(), AllocError>
    ensures { OnOk result (text.new.items ≡ text.old.items ++ (word.now ++ name.now)) }
{
    text.extend_from_slice(word)?;
    text.extend_from_slice(name)?;
    Ok(())
}

// Appends that an account has too little gas.
fn push_no_gas(
    text: &mut Vec<u8>,
    unit: u32,
    name: &[u8],
    has: u128,
    needs: u128,
) -> Result<(), AllocError>
    ensures { OnOk result (text.new.items
        ≡ text.old.items ++ (codes "NoGas " ++ name.now ++ codes " has " ++ gas_text has unit ++ codes " needs "
        ++ gas_text needs unit)) }
{
    push_named(text, b"NoGas ", name)?;
    text.extend_from_slice(b" has ")?;
    push_gas(text, has, unit)?;
    text.extend_from_slice(b" needs ")?;
    push_gas(text, needs, unit)?;
    Ok(())
}

/// Appends why a line could not be carried out, where a unit of gas has so many parts.
pub fn push_cause(text: &mut Vec<u8>, unit: u32, cause: &Refusal) -> Result<(), AllocError>
    ensures { OnOk result (text.new.items ≡ text.old.items ++ cause_text unit cause.now) }
{
    match cause {
        Refusal::NoAccount(name) => push_named(text, b"NoAccount ", name.as_bytes()),
        Refusal::NoProcess(name) => push_named(text, b"NoProcess ", name.as_bytes()),
        Refusal::BadArguments(name) => push_named(text, b"BadArguments ", name.as_bytes()),
        Refusal::NameTaken(name) => push_named(text, b"NameTaken ", name.as_bytes()),
        Refusal::NoGas { name, has, needs } => {
            push_no_gas(text, unit, name.as_bytes(), *has, *needs)
        }
        Refusal::TooMuchGas => {
            text.extend_from_slice(b"TooMuchGas")?;
            Ok(())
        }
    }
}

// The name of a script that a text is.
fn read_name(alloc: Global, text: &[u8]) -> Result<Option<ScriptName>, AllocError>
    ensures { IfOk result (λ name. ReadsAs IsScriptName (λ n. n) text.now name) }
{
    if is_script_name(text) {
        Ok(Some(ScriptName::of_vec(Vec::from_slice(alloc, text)?)))
    } else {
        Ok(None)
    }
}

/// What an account has and what is needed, in Dths.
#[derive(Clone, Copy)]
struct Shortage {
    has: u128,
    needs: u128,
}

// What stands behind the name of an account with too little gas.
fn read_shortage(unit: u32, text: &[u8]) -> Option<Shortage>
    ensures { ReadsAs IsShortage (shortage_text unit) text.now result }
{
    let (has, rest) = split_once(behind(text, b"has ")?, b' ')?;
    let has = read_gas(has, unit)?;
    let needs = read_gas(behind(rest, b"needs ")?, unit)?;
    Some(Shortage { has, needs })
}

// That an account has too little gas, behind the word for it.
fn read_no_gas(alloc: Global, unit: u32, text: &[u8]) -> Result<Option<Refusal>, AllocError>
    ensures { IfOk result (λ cause. ReadsAs IsCause (cause_text unit) (codes "NoGas " ++ text.now) cause) }
{
    let Some((name, rest)) = split_once(text, b' ') else {
        return Ok(None);
    };
    let Some(Shortage { has, needs }) = read_shortage(unit, rest) else {
        return Ok(None);
    };
    match read_name(alloc, name)? {
        Some(name) => Ok(Some(Refusal::NoGas { name, has, needs })),
        None => Ok(None),
    }
}

/// The cause that a text says, where a unit of gas has so many parts; none where it says none.
pub fn read_cause(alloc: Global, unit: u32, text: &[u8]) -> Result<Option<Refusal>, AllocError>
    ensures { IfOk result (λ cause. ReadsAs IsCause (cause_text unit) text.now cause) }
{
    if let Some(name) = behind(text, b"NoAccount ") {
        return Ok(read_name(alloc, name)?.map(Refusal::NoAccount));
    }
    if let Some(name) = behind(text, b"NoProcess ") {
        return Ok(read_name(alloc, name)?.map(Refusal::NoProcess));
    }
    if let Some(name) = behind(text, b"BadArguments ") {
        return Ok(read_name(alloc, name)?.map(Refusal::BadArguments));
    }
    if let Some(name) = behind(text, b"NameTaken ") {
        return Ok(read_name(alloc, name)?.map(Refusal::NameTaken));
    }
    if let Some(rest) = behind(text, b"NoGas ") {
        return read_no_gas(alloc, unit, rest);
    }
    Ok(if is_word(text, b"TooMuchGas") {
        Some(Refusal::TooMuchGas)
    } else {
        None
    })
}
