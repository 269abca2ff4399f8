//! Who tells: the tale so far, and how a process is chosen.
ghost use Rattle.std.specs.Prelude.{IfOk, IfSome};
ghost use Rattle.nomos_legal.specs.Legal.{IsLimit};

use crate::kept_journal::KeptJournal;
use crate::next_firing::TaleChooser;
use crate::order::Order;
use crate::tale_words::push_pair;
use crate::untold::Untold;
use nomos_ir::limits::USUAL_LIMIT;
use nomos_legal::journal::End;
use nomos_printing::end::push_end;
use std::alloc::{AllocError, Global};

/// The tale so far, and how a process is chosen.
#[derive(Drop)]
pub(crate) struct Teller<'a> {
    pub(crate) text: Vec<u8>,
    pub(crate) chooser: TaleChooser<'a>,
}

// How a process is chosen in an order, and the most firings of a batch.
fn chooser_of<'a>(
    alloc: Global,
    unit: u32,
    order: Order<'a>,
    steps: Option<u32>,
) -> Result<(TaleChooser<'a>, u32), Untold>
    requires { IfSome steps IsLimit }
    ensures { IfOk result (λ chosen. IsLimit chosen.1) }
{
    let limit = steps.unwrap_or(USUAL_LIMIT);
    match order {
        Order::First => Ok((TaleChooser::First, limit)),
        Order::Round => Ok((TaleChooser::Round(0), limit)),
        Order::Seed(seed) => Ok((TaleChooser::Seed(seed), limit)),
        Order::Kept(text) => {
            let (kept, limit) = KeptJournal::open(alloc, unit, text)?;
            match steps {
                Some(steps) if steps != limit => Err(Untold::Unfit(2)),
                _ => Ok((TaleChooser::Kept(kept), limit)),
            }
        }
    }
}

// The first two lines of a tale.
fn heading(alloc: Global, limit: u32) -> Result<Vec<u8>, AllocError> {
    let mut text = Vec::from_slice(alloc, b"nomos-journal 2\n")?;
    push_pair(&mut text, b"steps ", limit)?;
    text.push(b'\n')?;
    Ok(text)
}

// Appends a line of the journal, and what is said behind it.
fn push_line(text: &mut Vec<u8>, told: &[u8], words: &[u8]) -> Result<(), AllocError> {
    text.extend_from_slice(told)?;
    text.extend_from_slice(words)?;
    text.push(b'\n')?;
    Ok(())
}

impl<'a> Teller<'a> {
    /// A teller who has told the first two lines, and the most firings of a batch: so many, or those that the journal
    /// says which is kept, or those that are usual.
    pub(crate) fn new(
        alloc: Global,
        unit: u32,
        order: Order<'a>,
        steps: Option<u32>,
    ) -> Result<(Teller<'a>, u32), Untold>
        requires { IfSome steps IsLimit }
        ensures { IfOk result (λ made. IsLimit made.1) }
    {
        let (chooser, limit) = chooser_of(alloc, unit, order, steps)?;
        let text = heading(alloc, limit)?;
        Ok((Teller { text, chooser }, limit))
    }

    /// A batch begins: the first look is for the lowest.
    pub(crate) fn begin_batch(&mut self) {
        if let TaleChooser::Round(last) = &mut self.chooser {
            *last = 0;
        }
    }

    // Tells a line of the journal, which is that of the one that is kept.
    fn line(&mut self, told: &[u8]) -> Result<(), Untold> {
        if let TaleChooser::Kept(kept) = &mut self.chooser {
            kept.meet(told)?;
        }
        push_line(&mut self.text, told, b"")?;
        Ok(())
    }

    /// Tells that an entry stands at this line of the script.
    pub(crate) fn item(&mut self, alloc: Global, line: u32) -> Result<(), Untold> {
        let mut told = Vec::new(alloc);
        push_pair(&mut told, b"line ", line)?;
        self.line(&told)
    }

    /// Tells how an entry ended.
    pub(crate) fn end(&mut self, alloc: Global, unit: u32, end: &End) -> Result<(), Untold> {
        let mut told = Vec::from_slice(alloc, b"end ")?;
        push_end(&mut told, unit, end)?;
        self.line(&told)
    }

    /// Tells a firing, as the journal has it, and what is said of it.
    pub(crate) fn firing(&mut self, told: &[u8], words: &[u8]) -> Result<(), Untold> {
        if let TaleChooser::Kept(kept) = &mut self.chooser {
            kept.meet_firing(told)?;
        }
        push_line(&mut self.text, told, words)?;
        Ok(())
    }

    /// The whole tale, where nothing is left of the journal that is kept.
    pub(crate) fn into_text(self) -> Result<Vec<u8>, Untold> {
        if let TaleChooser::Kept(kept) = &self.chooser {
            kept.meet_end()?;
        }
        Ok(self.text)
    }
}
