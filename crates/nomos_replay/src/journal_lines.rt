//! The lines of a journal's text, as they are read and counted.

ghost use Rattle.std.specs.Prelude.{◌≡◌, ◌↔◌, [], IfOk, IfErr, IsTrue};
ghost use Rattle.nomos_replay.specs.mirror.JournalReading.{HasRead, IsCounted, IsNoLine};

use crate::error::ReplayError;
use nomos_journal::line::JournalLine;
use nomos_journal::read::read_line;
use nomos_journal::text::{TextLine, TextLines};
use nomos_types::accepted::Accepted;
use std::alloc::Global;

/// The lines of a text that are left to read, and the number of the line that was read last, 0 before the first.
#[derive(Drop)]
pub(crate) struct JournalLines<'a> {
    pub(crate) lines: TextLines<'a>,
    pub(crate) at: u32,
}

impl<'a> JournalLines<'a> {
    /// The next line. It is a bad line where it has no form of a line.
    pub(crate) fn next_line(
        &mut self,
        alloc: Global,
        accepted: &Accepted,
    ) -> Result<JournalLine, ReplayError>
        requires { IsCounted self.old }
        ensures ok { IfOk result (λ line. HasRead accepted.now.annotations.unit self.old line self.new) }
        ensures err { IfErr result (IsNoLine accepted.now.annotations.unit self.old) }
        ensures counted { IsCounted self.new }
    {
        accepted.know();
        match self.lines.next_line() {
            Some(TextLine::Whole(text)) => {
                self.at += 1;
                match read_line(alloc, accepted.unit(), text)? {
                    Some(line) => Ok(line),
                    None => Err(ReplayError::BadLine(self.at)),
                }
            }
            Some(TextLine::Cut(_)) => Err(ReplayError::BadLine(self.at + 1)),
            None => Err(ReplayError::BadLine(self.at + 1)),
        }
    }

    /// Whether no line is left. A line that is left is taken, and not counted.
    pub(crate) fn is_over(&mut self) -> bool
        ensures over { IsTrue result ↔ (self.old.lines ≡ []) }
        ensures at { self.new.at ≡ self.old.at }
    {
        match self.lines.next_line() {
            Some(_) => false,
            None => true,
        }
    }
}
