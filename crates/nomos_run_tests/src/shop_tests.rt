//! Tests: a batch as a shop on a floor of the test, with two passes and two threads of the test.
ghost use Rattle.std.specs.Prelude.{◌≡◌, ◌<◌, [], All, length};
ghost use Rattle.std.specs.Thread.{IsSend, IsSync};
ghost use Rattle.nomos_floor.specs.FloorCrew.{IsManned, KeepStations, KeepsStation};
ghost use Rattle.nomos_workers.specs.Shops.{history_of};

use crate::crew_telling::SAY;
use crate::gates::MeetingGate;
use crate::told_scripts::accepted_of;
use crate::worlds::{ONE_ACCOUNT, SAY_TWICE, world_of};
use nomos_deeds::undo::Undo;
use nomos_floor::crew::{Station, join_all, split_all};
use nomos_floor::floor::Floor;
use nomos_ledger::lent::Lent;
use nomos_ledger::world::World;
use nomos_legal::journal::End;
use nomos_state::indexed::IndexedState;
use nomos_workers::batch::BatchEnd;
use nomos_workers::gate::Gate;
use nomos_workers::shop::Shop;
use nomos_workers::work::{Worked, work};
use std::alloc::Global;
use std::process::Abort;
use std::sync::Wait;
use std::thread;
use std::thread::Threads;

// A worker's part, with the pass of its station.
fn work_at<A: Lent, M: Undo + Drop, G: Gate, R: Wait>(
    rt: &R,
    alloc: Global,
    floor: &Floor<Shop<A, M>>,
    station: &mut Station<Shop<A, M>, BatchEnd>,
    gate: &G,
)
    requires { IsManned floor.now station.old }
    ensures { KeepsStation floor.now station.old station.new }
{
    if let Some(pass) = station.pass.take() {
        let Worked { pass, end } = work(rt, alloc, floor, pass, gate);
        station.pass = Some(pass);
        station.answer = Some(end);
    }
}

// The stations behind the parts of their workers, each in a thread of its own.
fn stations_behind<A: Lent, M: Undo + Drop + Send, G: Gate, R: Threads + Wait + Sync>(
    rt: &R,
    alloc: Global,
    floor: &Floor<Shop<A, M>>,
    mut stations: Vec<Station<Shop<A, M>, BatchEnd>>,
    gate: &G,
) -> Vec<Station<Shop<A, M>, BatchEnd>>
    requires some { 0 < length stations.items }
    requires manned { All (IsManned floor.now) stations.items }
    ensures { KeepStations floor.now stations.items result.items }
{
    let threads = stations.len();
    thread::for_each_mut(
        rt,
        stations.as_mut_slice(),
        threads,
        &|_, station|
            requires { IsSend A.row × IsSync A.row × IsSync G.row × IsManned floor.now station.old }
            ensures { KeepsStation floor.entry.now station.old station.new }
        { work_at(rt, alloc, floor, station, gate) },
    );
    stations
}

// The shop that two workers leave, which take turns with passes that were split off. Each finds that the batch stays.
fn shop_behind<A: Lent, M: Undo + Drop + Send, G: Gate, R: Abort + Threads + Wait + Sync>(
    rt: &R,
    alloc: Global,
    shop: Shop<A, M>,
    gate: &G,
) -> Shop<A, M>
    requires { history_of shop ≡ [] }
{
    let Ok((floor, mut opening)) = Floor::open(alloc, shop) else {
        panic!(rt; "memory was wanting")
    };
    let Ok(stations) = split_all(alloc, &floor, &mut opening, 2) else {
        panic!(rt; "memory was wanting")
    };
    let stations = stations_behind(rt, alloc, &floor, stations, gate);
    for station in stations.as_slice() {
        assert!(rt; matches!(station.answer, Some(BatchEnd::Done(End::Committed))));
    }
    join_all(&floor, &mut opening, stations);
    floor.close(opening)
}

// The batch, as two workers leave it.
fn say_twice<G: Gate, R: Abort + AllocGlobal + Threads + Wait + Sync>(
    rt: &R,
    gate: &G,
) -> World<IndexedState> {
    let accepted = accepted_of(rt, SAY);
    let world = world_of(rt, &accepted, ONE_ACCOUNT, SAY_TWICE);
    let shop = Shop::of(&accepted, world, 1_000_000);
    shop_behind(rt, rt.alloc(), shop, gate).into_world()
}

// Two passes of a floor that the caller has run the batch together, and each meets the other outside its turns.
#[test]
fn callers_may_have_their_own_floor(rt: HostRuntime) {
    let gate = MeetingGate::of(2);
    let world = say_twice(&rt, &gate);
    assert!(rt; gate.have_met());
    assert_eq!(rt; world.firings().len(), 4);
    for firing in world.firings() {
        assert!(rt; firing.pass == 1 || firing.pass == 2);
    }
}
