//! A journal that is kept, line by line, which a tale has to be that of.
ghost use Rattle.std.specs.Prelude.{IfOk};
ghost use Rattle.nomos_legal.specs.Legal.{IsLimit};

use crate::untold::Untold;
use nomos_ir::limits::HIGHEST_LIMIT;
use nomos_journal::line::{JournalLine, Version};
use nomos_journal::read::read_line;
use nomos_journal::text::{TextLine, TextLines};
use nomos_printing::splitting::{behind, is_word};
use std::alloc::{AllocError, Global};

/// A journal that is kept: its version, the next line, if there is one, with its number, and the lines behind it.
#[derive(Drop)]
pub(crate) struct KeptJournal<'a> {
    version: Version,
    next: Option<TextLine<'a>>,
    number: u32,
    behind: TextLines<'a>,
}

impl<'a> KeptJournal<'a> {
    // The journal of a text, before its first line.
    fn new(text: &'a [u8]) -> KeptJournal<'a> {
        let mut behind = TextLines::new(text);
        let next = behind.next_line();
        KeptJournal {
            version: Version::Two,
            next,
            number: 1,
            behind,
        }
    }

    /// The journal of a text behind its first two lines, and the most firings of a batch, as the second one says.
    pub(crate) fn open(
        alloc: Global,
        unit: u32,
        text: &'a [u8],
    ) -> Result<(KeptJournal<'a>, u32), Untold>
        ensures { IfOk result (λ opened. IsLimit opened.1) }
    {
        let mut kept = KeptJournal::new(text);
        let Some(JournalLine::Head(version)) = kept.said(alloc, unit)? else {
            return Err(kept.unfit());
        };
        kept.version = version;
        kept.go_on();
        let Some(JournalLine::Steps(limit)) = kept.said(alloc, unit)? else {
            return Err(kept.unfit());
        };
        if limit < 1 || HIGHEST_LIMIT < limit {
            return Err(kept.unfit());
        }
        kept.go_on();
        Ok((kept, limit))
    }

    /// The next line does not fit.
    pub(crate) fn unfit(&self) -> Untold {
        Untold::Unfit(self.number)
    }

    // The bytes of the next line, if there is a whole one.
    fn line(&self) -> Option<&'a [u8]> {
        match self.next {
            Some(TextLine::Whole(line)) => Some(line),
            _ => None,
        }
    }

    /// What the next line says, if it has a form.
    pub(crate) fn said(&self, alloc: Global, unit: u32) -> Result<Option<JournalLine>, AllocError> {
        match self.line() {
            Some(line) => read_line(alloc, unit, line),
            None => Ok(None),
        }
    }

    /// The process that a line says to fire, where it is one of the journal's version.
    pub(crate) fn fired(&self, line: &JournalLine) -> Option<u32> {
        match (self.version, line) {
            (Version::One, JournalLine::Pid(pid)) => Some(*pid),
            (Version::Two, JournalLine::Worked(pid, _) | JournalLine::Fired(pid, _)) => Some(*pid),
            _ => None,
        }
    }

    // The next line is behind us.
    fn go_on(&mut self) {
        self.next = self.behind.next_line();
        self.number = self.number.saturating_add(1);
    }

    /// Takes the next line, which has to be this one.
    pub(crate) fn meet(&mut self, told: &[u8]) -> Result<(), Untold> {
        match self.line() {
            Some(line) if is_word(line, told) => {
                self.go_on();
                Ok(())
            }
            _ => Err(self.unfit()),
        }
    }

    /// Takes the next line, which has to be this one of a firing, or in version 1 the number that it begins with.
    pub(crate) fn meet_firing(&mut self, told: &[u8]) -> Result<(), Untold> {
        match (self.version, self.line()) {
            (Version::One, Some(line)) if matches!(behind(told, line), Some([b' ', ..])) => {
                self.go_on();
                Ok(())
            }
            (Version::Two, _) => self.meet(told),
            _ => Err(self.unfit()),
        }
    }

    /// No line may be left.
    pub(crate) fn meet_end(&self) -> Result<(), Untold> {
        match self.next {
            None => Ok(()),
            Some(_) => Err(self.unfit()),
        }
    }
}
