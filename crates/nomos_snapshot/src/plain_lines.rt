//! How the lines of a snapshot are read that stand before its objects.
ghost use Rattle.std.specs.Prelude.{◌≡◌, ◌≢◌, ◌∷◌, [], ◌≤◌, ◌^◌, ℕ, List, IfOk, MatchOption, decimal};
ghost use Rattle.nomos_ir.specs.declared.lists.ProgramLists.{ProgramLists};
ghost use Rattle.nomos_script.specs.ScriptNames.{IsScriptName};
ghost use Rattle.nomos_printing.specs.ReadAs.{ReadsAs};
ghost use Rattle.nomos_snapshot.specs.Line.{IsGas, IsNext, IsNumber, IsTypeNumber};
ghost use Rattle.nomos_snapshot.specs.mirror.LineKinds.{ReadsWords, IsAccountLine, IsContractLine, IsHeadLine, IsNameLine, IsNextLine, IsSpentLine, IsUnitLine};

use crate::line::SnapshotLine;
use crate::line_words::Words;
use nomos_ir::ids::TypeId;
use nomos_ir::program::Program;
use nomos_printing::number::{read_count, read_u32};
use nomos_printing::splitting::is_word;
use nomos_script::name::{ScriptName, is_script_name};
use std::alloc::{AllocError, Global};

/// More than any number of gas that a snapshot may have.
pub(crate) const GAS_LIMIT: u128 = 39_614_081_257_132_168_796_771_975_168;

/// The most that a next number may be.
pub(crate) const NEXT_LIMIT: u32 = 2_147_483_648;

/// The number of gas that a word is.
pub(crate) fn read_gas(word: &[u8]) -> Option<u128>
    ensures { ReadsAs IsGas decimal word.now result }
{
    match read_count(word) {
        Some(n) if n < GAS_LIMIT => Some(n),
        _ => None,
    }
}

// The next number that a word is.
fn read_next(word: &[u8]) -> Option<u32>
    ensures { ReadsAs IsNext decimal word.now result }
{
    match read_u32(word) {
        Some(n) if n <= NEXT_LIMIT => Some(n),
        _ => None,
    }
}

// The name that a word is.
fn read_name(alloc: Global, word: &[u8]) -> Result<Option<ScriptName>, AllocError>
    ensures { IfOk result (λ name. ReadsAs IsScriptName (λ n. n) word.now name) }
{
    if is_script_name(word) {
        Ok(Some(ScriptName::of_vec(Vec::from_slice(alloc, word)?)))
    } else {
        Ok(None)
    }
}

/// The next word, where it is the last one.
pub(crate) fn last_word<'a>(words: &mut Words<'a>) -> Option<&'a [u8]>
    ensures { MatchOption result ((word : List ℕ) → words.old ≢ word ∷ []) (λ word. words.old ≡ word.now ∷ []) }
{
    let word = words.next_word()?;
    match words.next_word() {
        Some(_) => None,
        None => Some(word),
    }
}

/// The first line, behind its word.
pub(crate) fn read_head(words: &mut Words<'_>) -> Option<SnapshotLine>
    ensures { (lists : ProgramLists) → ReadsWords IsHeadLine lists words.old result }
{
    if is_word(last_word(words)?, b"1") {
        Some(SnapshotLine::Head)
    } else {
        None
    }
}

/// In how many parts a unit comes, behind its word.
pub(crate) fn read_unit(words: &mut Words<'_>) -> Option<SnapshotLine>
    ensures { (lists : ProgramLists) → ReadsWords IsUnitLine lists words.old result }
{
    Some(SnapshotLine::Unit(read_u32(last_word(words)?)?))
}

/// The next numbers, behind their word.
pub(crate) fn read_next_numbers(words: &mut Words<'_>) -> Option<SnapshotLine>
    ensures { (lists : ProgramLists) → ReadsWords IsNextLine lists words.old result }
{
    let object = read_next(words.next_word()?)?;
    let name = read_next(last_word(words)?)?;
    Some(SnapshotLine::Next(object, name))
}

/// The gas spent, behind its word.
pub(crate) fn read_spent(words: &mut Words<'_>) -> Option<SnapshotLine>
    ensures { (lists : ProgramLists) → ReadsWords IsSpentLine lists words.old result }
{
    let dths = read_gas(last_word(words)?)?;
    Some(SnapshotLine::Spent(dths))
}

// The type node of the program whose number a word is.
fn read_type(program: &Program, word: &[u8]) -> Option<TypeId>
    ensures { ReadsAs (IsTypeNumber program.now) (λ t. decimal t.0) word.now result }
{
    let t = read_u32(word)?;
    if (t as usize) < program.lists().types.as_slice().len() {
        Some(TypeId(t))
    } else {
        None
    }
}

/// A name with the number of its type node, behind its word.
pub(crate) fn read_typed_name(program: &Program, words: &mut Words<'_>) -> Option<SnapshotLine>
    ensures { ReadsWords (IsNameLine program.now) program.now words.old result }
{
    let name = read_u32(words.next_word()?)?;
    let t = read_type(program, last_word(words)?)?;
    Some(SnapshotLine::Name(name, t))
}

/// An account, behind its word.
pub(crate) fn read_account(
    alloc: Global,
    words: &mut Words<'_>,
) -> Result<Option<SnapshotLine>, AllocError>
    ensures { (lists : ProgramLists) → IfOk result (ReadsWords IsAccountLine lists words.old) }
{
    let Some(word) = words.next_word() else {
        return Ok(None);
    };
    let Some(balance) = last_word(words) else {
        return Ok(None);
    };
    let Some(dths) = read_gas(balance) else {
        return Ok(None);
    };
    match read_name(alloc, word)? {
        Some(name) => Ok(Some(SnapshotLine::Account(name, dths))),
        None => Ok(None),
    }
}

/// A contract, behind its word.
pub(crate) fn read_contract(
    alloc: Global,
    words: &mut Words<'_>,
) -> Result<Option<SnapshotLine>, AllocError>
    ensures { (lists : ProgramLists) → IfOk result (ReadsWords IsContractLine lists words.old) }
{
    let Some(word) = words.next_word() else {
        return Ok(None);
    };
    let Some(number) = last_word(words) else {
        return Ok(None);
    };
    let Some(shared) = read_u32(number) else {
        return Ok(None);
    };
    match read_name(alloc, word)? {
        Some(name) => Ok(Some(SnapshotLine::Contract(name, shared))),
        None => Ok(None),
    }
}
