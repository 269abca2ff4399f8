//! How a text is read as a talk.
ghost use Rattle.std.specs.Prelude.{◌≡◌, ◌≤◌, ℕ, List, length, OnOk, IsErrOf, Result};
ghost use Rattle.nomos_ir.specs.Limits.{text_limit};
ghost use Rattle.nomos_script.specs.TalkForm.{HasTalkForm};
ghost use Rattle.nomos_script.specs.TalkReading.{AnswersTalk, IsSameTalk};
ghost use Rattle.nomos_script.specs.declared.talk_line.TalkLine.{TalkLine as Said};
ghost use Rattle.nomos_script.specs.mirror.TalkSaying.{AddsTalkLine};

use crate::lines::split_line;
use crate::stop::LineStop;
use crate::talk_line::{TalkLine, TalkLines, read_talk_line};
use nomos_ir::items::Items;
use nomos_ir::limits::TEXT_LIMIT;
use std::alloc::Global;
use thiserror::Error;

/// Why a text is no talk. Lines are counted from 1, blank ones included.
#[derive(Clone, Copy, PartialEq, Eq, Debug, Error)]
pub enum TalkError {
    #[error("the talk has more than 1048576 bytes")]
    TooLong,
    /// The first line that has no form.
    #[error("line {0} has no form")]
    Syntax(u32),
    #[error("out of memory")]
    NoMemory,
}

// Reads a line, and puts what it says behind what others said.
fn add_line(
    alloc: Global,
    number: u32,
    line: &[u8],
    talk: &mut Vec<(u32, TalkLine)>,
) -> Result<(), LineStop>
    ensures ok { OnOk result (AddsTalkLine number line.now talk.old.items talk.new.items) }
    ensures none { IsErrOf result LineStop.NoForm → ¬ HasTalkForm line.now }
{
    if let Some(said) = read_talk_line(alloc, line)? {
        talk.push((number, said))?;
    }
    Ok(())
}

// The talk of a text that is not too long.
fn read_talk(alloc: Global, text: &[u8]) -> Result<TalkLines, TalkError>
    requires { length text.now ≤ text_limit }
    ensures { AnswersTalk text.now result }
{
    let mut talk = Vec::new(alloc);
    let mut rest = text;
    let mut number = 1;
    while !rest.is_empty() {
        let (line, after) = split_line(rest);
        match add_line(alloc, number, line, &mut talk) {
            Ok(()) => {}
            Err(LineStop::NoForm) => return Err(TalkError::Syntax(number)),
            Err(LineStop::NoMemory) => return Err(TalkError::NoMemory),
        }
        rest = after;
        number += 1;
    }
    Ok(Items::of_vec(talk))
}

/// The talk of a text, as docs/TEXTS.md, "The text of a talk", defines it. A text that is too long is refused as such,
/// whatever its bytes are. Want of memory is the one answer for which no reason is given.
pub fn parse_talk(alloc: Global, bytes: &[u8]) -> Result<TalkLines, TalkError>
    ensures answer { AnswersTalk bytes.now result }
    ensures only { (other : Result (List (ℕ × Said)) TalkError) → AnswersTalk bytes.now other
        → IsSameTalk other result }
{
    if bytes.len() > TEXT_LIMIT {
        return Err(TalkError::TooLong);
    }
    read_talk(alloc, bytes)
}
