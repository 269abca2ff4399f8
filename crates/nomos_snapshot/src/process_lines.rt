//! How the lines of processes and of their variables are read.
ghost use Rattle.std.specs.Prelude.{◌≡◌, ◌≢◌, ◌∷◌, [], ℕ, List, IfOk, MatchOption, decimal};
ghost use Rattle.nomos_ir.specs.declared.lists.ProgramLists.{ProgramLists};
ghost use Rattle.nomos_printing.specs.ReadAs.{ReadsAs};
ghost use Rattle.nomos_snapshot.specs.Line.{IsGas, IsNumber, IsPlace, mode_word};
ghost use Rattle.nomos_snapshot.specs.mirror.LineKinds.{ReadsWords, IsChannelLine, IsListLine, IsProcessOf, IsValueLine};

use crate::line::SnapshotLine;
use crate::line_words::Words;
use crate::marked::{base_behind, gas_behind, number_behind};
use crate::plain_lines::{last_word, read_gas};
use crate::value_reading::{read_list, read_value};
use nomos_deeds::sight::SeenProcess;
use nomos_ir::ids::{CodeId, VarId};
use nomos_ir::mode::Mode;
use nomos_ir::program::Program;
use nomos_printing::number::read_u32;
use std::alloc::{AllocError, Global};

// The mode that a word is.
fn read_mode(word: &[u8]) -> Option<Mode>
    ensures { ReadsAs (λ m. Unit {0}) mode_word word.now result }
{
    match word {
        b"R" => Some(Mode::R),
        b"S" => Some(Mode::S),
        b"L" => Some(Mode::L),
        b"T" => Some(Mode::T),
        _ => None,
    }
}

// The instruction of the program whose number a word is.
fn read_place(program: &Program, word: &[u8]) -> Option<CodeId>
    ensures { ReadsAs (IsPlace program.now) (λ c. decimal c.0) word.now result }
{
    let c = read_u32(word)?;
    if (c as usize) < program.lists().code.as_slice().len() {
        Some(CodeId(c))
    } else {
        None
    }
}

/// A process, behind its word.
pub(crate) fn read_process(program: &Program, words: &mut Words<'_>) -> Option<SnapshotLine>
    ensures { ReadsWords (IsProcessOf program.now) program.now words.old result }
{
    let pid = read_u32(words.next_word()?)?;
    let mode = read_mode(words.next_word()?)?;
    let code = read_place(program, words.next_word()?)?;
    let offers = number_behind(words, b"offers")?;
    let base = base_behind(words)?;
    let purse = gas_behind(words, b"purse")?;
    let payer = number_behind(words, b"payer")?;
    match words.next_word() {
        Some(_) => None,
        None => Some(SnapshotLine::Process(SeenProcess {
            pid,
            mode,
            code,
            offers,
            base,
            purse,
            payer,
        })),
    }
}

// The number of a variable, which is the next word.
fn next_variable(words: &mut Words<'_>) -> Option<VarId>
    ensures { MatchOption result
        ((v : VarId) (rest : List (List ℕ)) → IsNumber v.0 → words.old ≢ decimal v.0 ∷ rest)
        (λ v. IsNumber v.0 × (words.old ≡ decimal v.0 ∷ words.new)) }
{
    Some(VarId(read_u32(words.next_word()?)?))
}

/// A variable with its value, behind its word.
pub(crate) fn read_value_line(
    alloc: Global,
    words: &mut Words<'_>,
) -> Result<Option<SnapshotLine>, AllocError>
    ensures { (lists : ProgramLists) → IfOk result (ReadsWords IsValueLine lists words.old) }
{
    let Some(v) = next_variable(words) else {
        return Ok(None);
    };
    let Some(word) = last_word(words) else {
        return Ok(None);
    };
    match read_value(alloc, word)? {
        Some(value) => Ok(Some(SnapshotLine::Value(v, value))),
        None => Ok(None),
    }
}

/// A variable with its list, behind its word.
pub(crate) fn read_list_line(
    alloc: Global,
    words: &mut Words<'_>,
) -> Result<Option<SnapshotLine>, AllocError>
    ensures { (lists : ProgramLists) → IfOk result (ReadsWords IsListLine lists words.old) }
{
    let Some(v) = next_variable(words) else {
        return Ok(None);
    };
    let Some(amount) = next_gas(words) else {
        return Ok(None);
    };
    let Some(word) = last_word(words) else {
        return Ok(None);
    };
    match read_list(alloc, word)? {
        Some(items) => Ok(Some(SnapshotLine::List(v, amount, items))),
        None => Ok(None),
    }
}

// An amount of gas, which is the next word.
fn next_gas(words: &mut Words<'_>) -> Option<u128>
    ensures { MatchOption result
        ((n : ℕ) (rest : List (List ℕ)) → IsGas n → words.old ≢ decimal n ∷ rest)
        (λ n. IsGas n × (words.old ≡ decimal n ∷ words.new)) }
{
    read_gas(words.next_word()?)
}

/// A variable with its channel, behind its word.
pub(crate) fn read_channel_line(words: &mut Words<'_>) -> Option<SnapshotLine>
    ensures { (lists : ProgramLists) → ReadsWords IsChannelLine lists words.old result }
{
    let v = next_variable(words)?;
    let name = read_u32(last_word(words)?)?;
    Some(SnapshotLine::Channel(v, name))
}
