//! The begin of a batch.
ghost use Rattle.std.specs.Prelude.{◌≡◌, ◌+◌, ◌<◌, ◌^◌, length};
ghost use Rattle.nomos_legal.specs.StandsFor.{StandsFor};
ghost use Rattle.nomos_ledger.specs.Beginning.{Begins, BegunStandsFor};

use crate::fired::Fired;
use crate::ledger::Ledger;
use crate::start_arguments::Arguments;
use crate::world::World;
use nomos_deeds::undo::Undo;
use nomos_ir::or_no_memory::OrNoMemory;
use nomos_legal::refusal::Refusal;
use nomos_script::item::Batch;
use nomos_types::accepted::Accepted;
use std::alloc::{AllocError, Global};

/// What the begin of a batch comes to.
#[derive(Drop, Debug)]
pub enum Begun<M: Undo> {
    /// Every line started.
    World(World<M>),
    /// The line of this number is refused; the ledger is as it was.
    Refused(Ledger<M>, u32, Refusal),
    /// Memory is wanting; the ledger is as it was.
    NoMemory(Ledger<M>),
}

impl<M: Undo> Ledger<M> {
    /// Starts the lines of a batch, in order, judged by what is known of arguments. Each line finds balances and
    /// contracts as the lines before it left them. The first line that can not start refuses the batch.
    pub fn begin_with(self, alloc: Global, arguments: &mut Arguments<'_>, batch: &Batch) -> Begun<M>
        requires stands { StandsFor arguments.old self }
        requires objects { self.state.next_object + length batch.now.starts < 2 ^ 32 }
        requires names { self.state.next_name + length batch.now.starts < 2 ^ 32 }
        ensures begins { Begins arguments.old self batch.now result }
        ensures stands { BegunStandsFor arguments.old result }
        ensures stays { arguments.new ≡ arguments.old }
    {
        arguments.accepted().know();
        let Ledger { mut books } = self;
        let kept = books.contracts.len();
        match books.start_batch(alloc, arguments, batch.starts.as_slice()) {
            Ok(starts) => Begun::World(World {
                books,
                kept,
                starts,
                fired: Fired::none(alloc),
            }),
            Err(OrNoMemory::Answer((line, refusal))) => {
                Begun::Refused(Ledger { books }, line, refusal)
            }
            Err(OrNoMemory::NoMemory) => Begun::NoMemory(Ledger { books }),
        }
    }

    /// The same, where nothing is known of arguments yet.
    pub fn begin(self, alloc: Global, accepted: &Accepted, batch: &Batch) -> Begun<M>
        requires stands { StandsFor accepted.now self }
        requires objects { self.state.next_object + length batch.now.starts < 2 ^ 32 }
        requires names { self.state.next_name + length batch.now.starts < 2 ^ 32 }
        ensures begins { Begins accepted.now self batch.now result }
        ensures stands { BegunStandsFor accepted.now result }
    {
        match Arguments::new(alloc, accepted) {
            Ok(mut arguments) => self.begin_with(alloc, &mut arguments, batch),
            Err(AllocError) => Begun::NoMemory(self),
        }
    }
}
