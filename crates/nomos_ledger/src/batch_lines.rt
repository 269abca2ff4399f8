//! The lines of a batch, started one after another in the books.
ghost use Rattle.std.specs.Prelude.{◌≡◌, ◌+◌, ◌<◌, ◌^◌, Ok, OnOk, length};
ghost use Rattle.nomos_script.specs.declared.item.Start.{Start as Line};
ghost use Rattle.nomos_deeds.specs.Acting.{HasNumbers};
ghost use Rattle.nomos_legal.specs.Batch.{after_start};
ghost use Rattle.nomos_legal.specs.Ledger.{IsLedger};
ghost use Rattle.nomos_legal.specs.StandsFor.{IsSettled};
ghost use Rattle.nomos_legal.specs.LineStarts.{Resolves};
ghost use Rattle.nomos_ledger.specs.mirror.Books.{IsAtRest};
ghost use Rattle.nomos_ledger.specs.mirror.StartedLines.{Extends, StartsAll, StartsBatch, StartsLine, at_line};

use crate::books::Books;
use crate::resolving::resolve;
use crate::start_arguments::Arguments;
use nomos_deeds::undo::Undo;
use nomos_ir::items::Items;
use nomos_ir::or_no_memory::OrNoMemory;
use nomos_legal::refusal::Refusal;
use nomos_legal::resolved::{Resolved, ResolvedStarts};
use nomos_script::item::Start;
use nomos_types::accepted::Accepted;
use std::alloc::{AllocError, Global};

// Why a batch stops at the line of this number.
fn at_line(line: u32, stop: OrNoMemory<Refusal>) -> OrNoMemory<(u32, Refusal)>
    ensures { result ≡ at_line line stop }
{
    match stop {
        OrNoMemory::Answer(cause) => OrNoMemory::Answer((line, cause)),
        OrNoMemory::NoMemory => OrNoMemory::NoMemory,
    }
}

impl<M: Undo> Books<M> {
    // Makes a start that a line comes to. Want of memory may leave another state, and no other contracts.
    fn make(
        &mut self,
        alloc: Global,
        accepted: &Accepted,
        resolved: &Resolved,
    ) -> Result<(), AllocError>
        requires settled { IsSettled accepted.now self.old.now }
        requires ledger { IsLedger self.old.now }
        requires numbers { HasNumbers self.old.now.state }
        requires resolves { (start : Line) × Resolves accepted.now self.old.now start (Ok resolved.now) }
        ensures ok { OnOk result (self.new.now ≡ after_start accepted.now self.old.now resolved.now) }
        ensures extends { Extends self.old self.new }
    {
        accepted.know();
        let shared = self.machine.next_name();
        let given = (&resolved.values, resolved.names.as_slice());
        self.machine
            .start(alloc, accepted, resolved.proc, given, resolved.payer)?;
        if let Some(contract) = &resolved.contract {
            self.contracts.add(alloc, contract, shared)?;
        }
        Ok(())
    }

    // Starts a line.
    fn start_line(
        &mut self,
        alloc: Global,
        arguments: &mut Arguments<'_>,
        start: &Start,
    ) -> Result<Resolved, OrNoMemory<Refusal>>
        requires settled { IsSettled arguments.old self.old.now }
        requires ledger { IsLedger self.old.now }
        requires numbers { HasNumbers self.old.now.state }
        ensures starts { StartsLine arguments.old self.old.now start.now result self.new.now }
        ensures extends { Extends self.old self.new }
        ensures stays { arguments.new ≡ arguments.old }
    {
        let resolved = resolve(alloc, self, arguments, start)?;
        self.make(alloc, arguments.accepted(), &resolved)?;
        Ok(resolved)
    }

    // Starts lines, up to the first that is refused: then its number and the cause are given.
    fn start_lines(
        &mut self,
        alloc: Global,
        arguments: &mut Arguments<'_>,
        starts: &[Start],
    ) -> Result<ResolvedStarts, OrNoMemory<(u32, Refusal)>>
        requires settled { IsSettled arguments.old self.old.now }
        requires ledger { IsLedger self.old.now }
        requires objects { self.old.now.state.next_object + length starts.now < 2 ^ 32 }
        requires names { self.old.now.state.next_name + length starts.now < 2 ^ 32 }
        ensures starts { StartsAll arguments.old self.old.now starts.now result self.new.now }
        ensures extends { Extends self.old self.new }
        ensures stays { arguments.new ≡ arguments.old }
    {
        arguments.accepted().know();
        let mut made = Vec::new(alloc);
        for start in starts {
            match self.start_line(alloc, arguments, start) {
                Ok(resolved) => made.push(resolved)?,
                Err(stop) => return Err(at_line(start.line, stop)),
            }
        }
        Ok(Items::of_vec(made))
    }

    /// Starts the lines of a batch with the state marked, where no state is. Where one is refused, and where memory is
    /// wanting, all is as it was.
    pub(crate) fn start_batch(
        &mut self,
        alloc: Global,
        arguments: &mut Arguments<'_>,
        starts: &[Start],
    ) -> Result<ResolvedStarts, OrNoMemory<(u32, Refusal)>>
        requires rest { IsAtRest self.old }
        requires settled { IsSettled arguments.old self.old.now }
        requires objects { self.old.now.state.next_object + length starts.now < 2 ^ 32 }
        requires names { self.old.now.state.next_name + length starts.now < 2 ^ 32 }
        ensures starts { StartsBatch arguments.old self.old starts.now result self.new }
        ensures stays { arguments.new ≡ arguments.old }
    {
        let kept = self.contracts.len();
        self.mark();
        let started = self.start_lines(alloc, arguments, starts);
        if started.is_err() {
            self.back(kept);
        }
        started
    }
}
