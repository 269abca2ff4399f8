//! Shops: a batch under way as a work that workers take in turns.
ghost use Rattle.std.specs.Prelude.{◌≡◌};
ghost use Rattle.nomos_ledger.specs.Watching.{IsWatched};
ghost use Rattle.nomos_ledger.specs.Running.{MayRun};
ghost use Rattle.nomos_workers.specs.declared.batch.BatchEnd.TheVariants as batch_end;
ghost use Rattle.nomos_workers.specs.Shops.{HasRun, IsShop, history_of, opening, shop_of};

use crate::batch::BatchEnd;
use crate::elsewhere::Elsewhere;
use crate::look::{Looker, look};
use crate::trade::{KnownOutcome, Seeks, Trade, Turned};
use nomos_deeds::undo::Undo;
use nomos_eval::wanted::{Wanted, evaluate};
use nomos_floor::shared_work::Shared;
use nomos_ledger::lent::Lent;
use nomos_ledger::watched::Watched;
use nomos_ledger::world::World;
use std::alloc::{AllocError, Global};
use std::marker::Model;

/// A batch under way, with the program and the most firings that it may make; contracts see it as these three. Over a
/// floor its start is the batch before any firing, and its history the firings, each as the number of a pass and that
/// of a process.
#[derive(Drop)]
pub struct Shop<A: Lent, M: Undo + Drop> {
    lent: A,
    watched: Watched<M>,
    limit: u32,
    elsewhere: Elsewhere,
}

impl<A: Lent, M: Undo + Drop> Model for Shop<A, M> {
    ghost use Rattle.std.specs.Coded.{codes};
    ghost use Rattle.nomos_ir.specs.ValueCode.{value_code};
    ghost use Rattle.nomos_workers.specs.Shops.{ShopState};
    ghost use Rattle.nomos_workers.specs.mirror.WatchedShop.{IsWatchedShop};

    ghost Value = { ShopState };

    ghost coded = { Prim.hlevel (codes, value_code) };

    ghost view = { λ s. record { accepted = A.program s.lent; world = s.watched.world; limit = s.limit } };

    ghost invariant = { λ s. IsWatchedShop
        (record { accepted = A.program s.lent; world = s.watched.world; limit = s.limit }) s.watched.awake };
}

impl<A: Lent, M: Undo + Drop> Shared for Shop<A, M> {
    type Start = Shop<A, M>;

    type Entry = u32;

    ghost start = { opening };

    ghost history = { history_of };

    fn entries(&self) -> u64 {
        self.watched.world.firings().len() as u64
    }
}

/// What is to be evaluated, for a program.
#[derive(Drop)]
pub struct AskedOutside<A: Lent> {
    lent: A,
    wanted: Wanted,
}

impl<A: Lent, M: Undo + Drop> Trade for Shop<A, M> {
    type Asked = AskedOutside<A>;

    type Stop = BatchEnd;

    ghost program = { λ start. start.accepted };

    ghost asked_of = { λ asked. A.program asked.lent };

    ghost stops = { λ opened history stop. HasRun (opening opened) history stop };

    ghost wanting = { batch_end.NoMemory };

    fn step(
        &mut self,
        alloc: Global,
        pass: u32,
        seeks: &Seeks,
    ) -> Result<Turned<AskedOutside<A>, BatchEnd>, AllocError> {
        self.elsewhere.put_down(pass);
        let looker = Looker {
            pass,
            seeks,
            elsewhere: &self.elsewhere,
        };
        match look(
            alloc,
            self.lent.accepted(),
            &mut self.watched,
            self.limit,
            looker,
        )? {
            Turned::Goes(pid) => Ok(Turned::Goes(pid)),
            Turned::Rests => Ok(Turned::Rests),
            Turned::Ends(end) => Ok(Turned::Ends(BatchEnd::Done(end))),
            Turned::Wants(pid, wanted) => {
                self.elsewhere.take(pass, pid);
                let lent = self.lent.again();
                Ok(Turned::Wants(pid, AskedOutside { lent, wanted }))
            }
        }
    }

    fn evaluate(alloc: Global, asked: AskedOutside<A>) -> Result<KnownOutcome, AllocError> {
        let AskedOutside { lent, wanted } = asked;
        let outcome = evaluate(alloc, lent.accepted().program(), &wanted)?;
        Ok(KnownOutcome { wanted, outcome })
    }

    fn no_memory() -> BatchEnd {
        BatchEnd::NoMemory
    }
}

impl<A: Lent, M: Undo + Drop> Shop<A, M> {
    /// The shop of a batch in which nothing has fired. It takes no memory.
    pub fn of(lent: A, world: World<M>, limit: u32) -> Shop<A, M>
        requires { MayRun (A.program lent) limit world }
        ensures { result ≡ record { accepted = A.program lent; world = world; limit = limit } }
    {
        let watched = Watched::of(world);
        Shop::over(lent, watched, limit)
    }

    // The shop of a batch in which nothing has fired, beside which is known who may be ready.
    pub(crate) fn over(lent: A, watched: Watched<M>, limit: u32) -> Shop<A, M>
        requires may { MayRun (A.program lent) limit watched.world }
        requires watched { IsWatched (A.program lent) watched.world.state watched.awake }
        ensures { result ≡ record { accepted = A.program lent; world = watched.world; limit = limit } }
    {
        Shop {
            lent,
            watched,
            limit,
            elsewhere: Elsewhere::none(),
        }
    }

    /// The batch as it has come to be. It takes no memory. The second clause also says what holds of every shop.
    pub fn into_world(self) -> World<M>
        ensures world { result ≡ self.world }
        ensures shop { IsShop self }
    {
        self.into_watched().into_world()
    }

    /// The batch as it has come to be, with the processes of it that may be ready. It takes no memory.
    pub(crate) fn into_watched(self) -> Watched<M>
        ensures world { result.world ≡ self.world }
        ensures watched { IsWatched self.accepted result.world.state result.awake }
        ensures shop { IsShop self }
    {
        let Shop {
            lent: _lent,
            watched,
            limit: _limit,
            elsewhere: _elsewhere,
        } = self;
        watched
    }
}
