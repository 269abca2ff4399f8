//! How items are made of lines.
ghost use Rattle.std.specs.Prelude.{◌≡◌, ℕ, ◌++◌, ◌∷◌, [], Some, None, IfOk, IfErr, OnOk, IsErrOf};
ghost use Rattle.nomos_script.specs.Form.{Form, LineReadsAs};
ghost use Rattle.nomos_script.specs.mirror.ReaderSeen.{AddsLine};
ghost use Rattle.nomos_script.specs.mirror.Assembling.{add_line, add_outside, add_inside, with_item, nothing_assembled, line_said};

use crate::growing::put;
use crate::item::{Batch, ScriptItem, ScriptItems, Start};
use crate::line::{Line, read_line};
use crate::stop::LineStop;
use nomos_ir::items::Items;
use std::alloc::{AllocError, Global};
use std::marker::Model;
use std::mem;

/// What the lines so far came to: items; and, where a batch is open, the line of its `begin`, and its starts.
#[derive(Drop)]
pub(crate) struct Assembly {
    items: Vec<ScriptItem>,
    opened: Option<u32>,
    starts: Vec<Start>,
}

impl Model for Assembly {
    ghost use Rattle.std.specs.Coded.{codes};
    ghost use Rattle.nomos_ir.specs.ValueCode.{value_code};
    ghost use Rattle.nomos_script.specs.mirror.Assembling.{Assembled};

    ghost Value = { Assembled };

    ghost coded = { Prim.hlevel (codes, value_code) };

    ghost view = { λ a. record {
      items = a.items.items;
      opened = a.opened;
      starts = a.starts.items;
    } };
}

// A batch of one start.
fn batch_of(alloc: Global, start: Start) -> Result<Batch, AllocError>
    ensures { IfOk result (λ batch. batch ≡ record { line = start.line; starts = start ∷ [] }) }
{
    let line = start.line;
    let mut starts = Vec::new(alloc);
    put(&mut starts, 1, start)?;
    Ok(Batch {
        line,
        starts: Items::of_vec(starts),
    })
}

impl Assembly {
    /// What no lines come to.
    pub(crate) fn new(alloc: Global) -> Assembly
        ensures { result ≡ nothing_assembled }
    {
        Assembly {
            items: Vec::new(alloc),
            opened: None,
            starts: Vec::new(alloc),
        }
    }

    // Puts an item at the end.
    fn push(&mut self, item: ScriptItem) -> Result<(), LineStop>
        ensures ok { OnOk result (self.new ≡ with_item self.old item) }
        ensures memory { ¬ IsErrOf result LineStop.NoForm }
    {
        self.items.push(item)?;
        Ok(())
    }

    // Closes the batch that began at this line.
    fn close(&mut self, alloc: Global, first: u32) -> Result<(), LineStop>
        ensures ok { OnOk result (add_inside first Line.End self.old ≡ Some self.new) }
        ensures memory { ¬ IsErrOf result LineStop.NoForm }
    {
        let starts = mem::replace(&mut self.starts, Vec::new(alloc));
        self.opened = None;
        self.push(ScriptItem::Batch(Batch {
            line: first,
            starts: Items::of_vec(starts),
        }))
    }

    // Adds a line where a batch is open that began at this line.
    fn add_inside(&mut self, alloc: Global, first: u32, line: Line) -> Result<(), LineStop>
        ensures ok { OnOk result (add_inside first line self.old ≡ Some self.new) }
        ensures none { IsErrOf result LineStop.NoForm → add_inside first line self.old ≡ None }
    {
        match line {
            Line::Blank => Ok(()),
            Line::Start(start) => {
                put(&mut self.starts, 1, start)?;
                Ok(())
            }
            Line::End => self.close(alloc, first),
            _ => Err(LineStop::NoForm),
        }
    }

    // Adds a line where no batch is open.
    fn add_outside(&mut self, alloc: Global, number: u32, line: Line) -> Result<(), LineStop>
        ensures ok { OnOk result (add_outside number line self.old ≡ Some self.new) }
        ensures none { IsErrOf result LineStop.NoForm → add_outside number line self.old ≡ None }
    {
        match line {
            Line::Blank => Ok(()),
            Line::Deposit { name, units } => self.push(ScriptItem::Deposit {
                line: number,
                name,
                units,
            }),
            Line::Start(start) => self.push(ScriptItem::Batch(batch_of(alloc, start)?)),
            Line::Begin => {
                self.opened = Some(number);
                Ok(())
            }
            Line::End => Err(LineStop::NoForm),
            Line::Show => self.push(ScriptItem::Show { line: number }),
        }
    }

    // Adds a line.
    fn add(&mut self, alloc: Global, number: u32, line: Line) -> Result<(), LineStop>
        ensures ok { OnOk result (add_line number line self.old ≡ Some self.new) }
        ensures none { IsErrOf result LineStop.NoForm → add_line number line self.old ≡ None }
    {
        match self.opened {
            Some(first) => self.add_inside(alloc, first, line),
            None => self.add_outside(alloc, number, line),
        }
    }

    /// Reads a line, and adds it.
    pub(crate) fn read(&mut self, alloc: Global, number: u32, line: &[u8]) -> Result<(), LineStop>
        ensures ok { OnOk result (AddsLine number line.now self.old self.new) }
        ensures none { IsErrOf result LineStop.NoForm → (form : Form) → LineReadsAs line.now form
            → add_line number (line_said number form) self.old ≡ None }
    {
        let line = read_line(alloc, number, line)?;
        self.add(alloc, number, line)
    }

    /// The items; or, where a batch is open, the line of its `begin`.
    pub(crate) fn finish(self) -> Result<ScriptItems, u32>
        ensures closed { IfOk result (λ items. (self.opened ≡ None) × (items ≡ self.items)) }
        ensures open { IfErr result (λ first. self.opened ≡ Some first) }
    {
        match self.opened {
            None => Ok(Items::of_vec(self.items)),
            Some(first) => Err(first),
        }
    }
}
