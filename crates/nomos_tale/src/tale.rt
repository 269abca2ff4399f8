//! The tale of a script, item by item, along the walk over it.
ghost use Rattle.std.specs.Prelude.{◌≡◌, ◌≤◌, IfOk, IfSome};
ghost use Rattle.nomos_script.specs.declared.item.ScriptItem.{ScriptItem};
ghost use Rattle.nomos_legal.specs.Ledger.{LedgerState};
ghost use Rattle.nomos_legal.specs.Legal.{IsLimit, batch_limit, max_firings};
ghost use Rattle.nomos_legal.specs.StandsFor.{StandsFor};
ghost use Rattle.nomos_ledger.specs.Running.{MayRun};
ghost use Rattle.nomos_walk.specs.Walks.{HasBegunBatch, HasRoomFor};
ghost use Rattle.nomos_tale.specs.mirror.Tales.{IsTold};

use crate::batch_tale::fire_all;
use crate::order::Order;
use crate::starts::push_starts;
use crate::teller::Teller;
use crate::untold::Untold;
use nomos_deeds::machine::Machine;
use nomos_deeds::undo::Undo;
use nomos_ledger::ledger::Ledger;
use nomos_ledger::watched::Watched;
use nomos_script::item::ScriptItem;
use nomos_script::script::Script;
use nomos_types::accepted::Accepted;
use nomos_walk::papers::WantedTexts;
use nomos_walk::started::{BatchUnderWay, PassedItem, StartedItem};
use nomos_walk::walk::Walk;
use std::alloc::Global;

// Fires a batch to its end, tells its firings and the end, and finishes it.
fn tell_batch<M: Undo + Drop>(
    alloc: Global,
    teller: &mut Teller<'_>,
    walk: &mut Walk<'_>,
    under: BatchUnderWay<M>,
) -> Result<PassedItem<M>, Untold>
    requires made { walk.old.made ≤ max_firings }
    requires may { MayRun walk.old.accepted (batch_limit walk.old.limit walk.old.made) under.world }
    requires spent { under.outset.spent ≡ under.world.origin.state.spent }
    ensures { (l : LedgerState) (i : ScriptItem)
        → HasBegunBatch walk.old l i under.outset.line under.outset.spent under.world walk.old
        → IfOk result (λ passed. IsTold walk.old l i passed walk.new) }
{
    let accepted = walk.accepted();
    let limit = walk.next_limit();
    let BatchUnderWay { outset, world } = under;
    let mut watched = Watched::of(world);
    watched.watch(alloc, accepted);
    teller.begin_batch();
    let end = fire_all(alloc, accepted, teller, &mut watched, limit)?;
    teller.end(alloc, accepted.unit(), &end)?;
    let world = watched.into_world();
    Ok(walk.finish(alloc, BatchUnderWay { outset, world }, end)?)
}

// Tells an item that has passed without firings.
fn tell_still<M: Undo + Drop>(
    alloc: Global,
    teller: &mut Teller<'_>,
    unit: u32,
    passed: &PassedItem<M>,
) -> Result<(), Untold> {
    match &passed.entry {
        Some(entry) => {
            teller.item(alloc, entry.line)?;
            teller.end(alloc, unit, &entry.end)
        }
        None => Ok(()),
    }
}

// Tells an item.
fn tell_item<M: Undo + Drop>(
    alloc: Global,
    teller: &mut Teller<'_>,
    walk: &mut Walk<'_>,
    ledger: Ledger<M>,
    item: &ScriptItem,
) -> Result<PassedItem<M>, Untold>
    requires stands { StandsFor walk.old.accepted ledger }
    requires room { HasRoomFor walk.old ledger item.now }
    requires made { walk.old.made ≤ max_firings }
    ensures { IfOk result (λ passed. IsTold walk.old ledger item.now passed walk.new) }
{
    walk.accepted().know();
    let first = ledger.state().next_object();
    match walk.start(alloc, ledger, item)? {
        StartedItem::Passed(passed) => {
            tell_still(alloc, teller, walk.accepted().unit(), &passed)?;
            Ok(passed)
        }
        StartedItem::UnderWay(under) => {
            teller.item(alloc, under.outset.line)?;
            push_starts(&mut teller.text, under.world.state(), first, item)?;
            tell_batch(alloc, teller, walk, under)
        }
    }
}

// Tells all items, from the empty ledger.
fn tell_items<M: Undo + Drop>(
    alloc: Global,
    accepted: &Accepted,
    limit: u32,
    teller: &mut Teller<'_>,
    script: &Script,
) -> Result<(), Untold>
    requires { IsLimit limit }
{
    accepted.know();
    let wanted = WantedTexts {
        report: false,
        text: false,
        result: false,
    };
    let mut walk = Walk::new(alloc, accepted, limit, wanted)?;
    let mut ledger = Ledger::<M>::empty(alloc);
    let items = script.items().as_slice();
    'items: for item in items {
        let passed = tell_item(alloc, teller, &mut walk, ledger, item)?;
        ledger = passed.ledger;
    }
    Ok(())
}

/// The tale of a script, which is run from the empty ledger in this order, where a batch may make at most so many
/// firings, from 1 to 10,000,000; where that is not said, as many as the journal says which is kept, or else 1,000,000.
/// It is the text of its journal in version 2, in which ` : ` and words stand behind each firing, and a line that
/// begins with `:` for each process that a line of the script starts (docs/TEXTS.md, "The tale"). Nothing is promised
/// of what it says.
pub fn tell<M: Undo + Drop>(
    alloc: Global,
    accepted: &Accepted,
    script: &Script,
    order: Order<'_>,
    steps: Option<u32>,
) -> Result<Vec<u8>, Untold>
    requires { IfSome steps IsLimit }
{
    let (mut teller, limit) = Teller::new(alloc, accepted.unit(), order, steps)?;
    tell_items::<M>(alloc, accepted, limit, &mut teller, script)?;
    teller.into_text()
}
