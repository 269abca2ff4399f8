//! Several workers: a batch is left to as many passes over a floor, each in a thread of its own, and taken back.
ghost use Rattle.std.specs.Prelude.{◌≡◌, ◌+◌, ◌<◌, ◌^◌, [], All, length};
ghost use Rattle.std.specs.Thread.{IsSend, IsSync};
ghost use Rattle.nomos_floor.specs.FloorCrew.{IsManned, KeepsStation, KeepStations};
ghost use Rattle.nomos_workers.specs.Crews.{IsOfWorker};
ghost use Rattle.nomos_workers.specs.Shops.{history_of, opening};

use crate::batch::BatchEnd;
use crate::gate::Gate;
use crate::shop::Shop;
use crate::work::{Worked, work};
use nomos_deeds::undo::Undo;
use nomos_floor::crew::{Station, join_all, split_all};
use nomos_floor::floor::{Floor, OpenError};
use nomos_ledger::lent::Lent;
use std::alloc::Global;
use std::sync::Wait;
use std::thread;
use std::thread::Threads;

// A worker's part, with the pass of its station.
fn work_at<A: Lent, M: Undo + Drop, G: Gate, R: Wait>(
    rt: &R,
    alloc: Global,
    floor: &Floor<Shop<A, M>>,
    station: &mut Station<Shop<A, M>, BatchEnd>,
    gate: &G,
)
    requires { IsManned floor.now station.old }
    ensures { KeepsStation floor.now station.old station.new }
{
    if let Some(pass) = station.pass.take() {
        let Worked { pass, end } = work(rt, alloc, floor, pass, gate);
        station.pass = Some(pass);
        station.answer = Some(end);
    }
}

// The parts of as many workers as there are stations, each in a thread of its own.
fn work_all<A: Lent, M: Undo + Drop + Send, G: Gate, R: Threads + Wait + Sync>(
    rt: &R,
    alloc: Global,
    floor: &Floor<Shop<A, M>>,
    mut stations: Vec<Station<Shop<A, M>, BatchEnd>>,
    gate: &G,
) -> Vec<Station<Shop<A, M>, BatchEnd>>
    requires some { 0 < length stations.items }
    requires manned { All (IsManned floor.now) stations.items }
    ensures { KeepStations floor.now stations.items result.items }
{
    let threads = stations.len();
    thread::for_each_mut(
        rt,
        stations.as_mut_slice(),
        threads,
        &|_, station|
            requires { IsSend A.row × IsSync A.row × IsSync G.row × IsManned floor.now station.old }
            ensures { KeepsStation floor.entry.now station.old station.new }
        { work_at(rt, alloc, floor, station, gate) },
    );
    stations
}

// The shop as so many workers leave it, or as it was where memory is wanting before they start. On every path all
// passes are joined and the floor is closed.
pub(crate) fn run_shop<A: Lent, M: Undo + Drop + Send, G: Gate, R: Threads + Wait + Sync>(
    rt: &R,
    alloc: Global,
    shop: Shop<A, M>,
    workers: u32,
    gate: &G,
) -> Shop<A, M>
    requires fresh { history_of shop ≡ [] }
    requires some { 0 < workers }
    requires few { workers + 1 < 2 ^ 32 }
    ensures opened { opening result ≡ opening shop }
    ensures passes { All (IsOfWorker workers) result.world.firings }
{
    let (floor, mut first) = match Floor::open(alloc, shop) {
        Ok(opened) => opened,
        Err(OpenError::NoMemory(shop)) => return shop,
    };
    match split_all(alloc, &floor, &mut first, workers) {
        Ok(stations) => {
            let stations = work_all(rt, alloc, &floor, stations, gate);
            join_all(&floor, &mut first, stations);
            floor.close(first)
        }
        Err(_) => floor.close(first),
    }
}
