//! Runs a script by a crew: by one worker, or by several that carry the whole of it on in turns.
ghost use Rattle.std.specs.Prelude.{◌≡◌, ◌+◌, ◌<◌, ◌^◌, [], All, IfSome, length};
ghost use Rattle.std.specs.Thread.{IsSend, IsSync};
ghost use Rattle.nomos_floor.specs.FloorCrew.{IsManned, KeepsStation, KeepStations};
ghost use Rattle.nomos_legal.specs.Legal.{IsLimit};
ghost use Rattle.nomos_journal.specs.JournalText.{IsTextOf};
ghost use Rattle.nomos_journal.specs.declared.line.Version.TheVariants as version;
ghost use Rattle.nomos_report.specs.Reported.{IsReport};
ghost use Rattle.nomos_workers.specs.Crews.{IsCrew};
ghost use Rattle.nomos_run.specs.Carried.{RunsScript};
ghost use Rattle.nomos_run.specs.mirror.Courses.{history_of, opening};

use crate::one_worker::run_script;
use crate::orders::{Runner, ScriptRun};
use crate::script_course::{CourseStop, ScriptCourse};
use crate::script_shop::{CarriedCourse, ScriptShop};
use crate::way::{begin, end, end_at_once, know_ledger};
use nomos_deeds::undo::Undo;
use nomos_floor::crew::{Station, join_all, split_all};
use nomos_floor::floor::{Floor, OpenError};
use nomos_ledger::ledger::Ledger;
use nomos_script::script::Script;
use nomos_types::accepted::Accepted;
use nomos_workers::batch::Crew;
use nomos_workers::gate::Gate;
use nomos_workers::work::{Worked, work};
use std::alloc::Global;
use std::sync::Wait;
use std::thread;
use std::thread::Threads;

// A worker's part, with the pass of its station.
fn work_at<C: CarriedCourse, G: Gate, R: Wait>(
    rt: &R,
    alloc: Global,
    floor: &Floor<ScriptShop<C>>,
    station: &mut Station<ScriptShop<C>, CourseStop>,
    gate: &G,
)
    requires { IsManned floor.now station.old }
    ensures { KeepsStation floor.now station.old station.new }
{
    if let Some(pass) = station.pass.take() {
        let Worked { pass, end } = work(rt, alloc, floor, pass, gate);
        station.pass = Some(pass);
        station.answer = Some(end);
    }
}

// The parts of as many workers as there are stations, each in a thread of its own.
fn work_all<C: CarriedCourse + Send, G: Gate, R: Threads + Wait + Sync>(
    rt: &R,
    alloc: Global,
    floor: &Floor<ScriptShop<C>>,
    mut stations: Vec<Station<ScriptShop<C>, CourseStop>>,
    gate: &G,
) -> Vec<Station<ScriptShop<C>, CourseStop>>
    requires some { 0 < length stations.items }
    requires manned { All (IsManned floor.now) stations.items }
    ensures { KeepStations floor.now stations.items result.items }
{
    let threads = stations.len();
    thread::for_each_mut(
        rt,
        stations.as_mut_slice(),
        threads,
        &|_, station|
            requires { IsSend C.row × IsSync G.row × IsManned floor.now station.old }
            ensures { KeepsStation floor.entry.now station.old station.new }
        { work_at(rt, alloc, floor, station, gate) },
    );
    stations
}

// The work as so many workers leave it, or as it was where memory is wanting before they start. On every path all
// passes are joined and the floor is closed.
fn run_shop<C: CarriedCourse + Send, G: Gate, R: Threads + Wait + Sync>(
    rt: &R,
    alloc: Global,
    shop: ScriptShop<C>,
    workers: u32,
    gate: &G,
) -> ScriptShop<C>
    requires fresh { history_of shop ≡ [] }
    requires some { 0 < workers }
    requires few { workers + 1 < 2 ^ 32 }
    ensures opened { opening result ≡ opening shop }
{
    let (floor, mut first) = match Floor::open(alloc, shop) {
        Ok(opened) => opened,
        Err(OpenError::NoMemory(shop)) => return shop,
    };
    match split_all(alloc, &floor, &mut first, workers) {
        Ok(stations) => {
            let stations = work_all(rt, alloc, &floor, stations, gate);
            join_all(&floor, &mut first, stations);
            floor.close(first)
        }
        Err(_) => floor.close(first),
    }
}

// What so many workers make of a script.
fn run_course<C: CarriedCourse + Send, G: Gate, R: Threads + Wait + Sync>(
    rt: &R,
    alloc: Global,
    course: Box<C>,
    workers: u32,
    gate: &G,
) -> C
    requires fresh { history_of (C.state course.value) ≡ [] }
    requires some { 0 < workers }
    requires few { workers + 1 < 2 ^ 32 }
    ensures { opening (C.state result) ≡ opening (C.state course.value) }
{
    run_shop(rt, alloc, ScriptShop::of(course), workers, gate).into_course()
}

/// Runs a script by a crew, from the empty ledger (docs/MACHINE.md, "Legal journals"): item by item. Several workers
/// are made once, and take turns until all items have passed: who has the turn does what is next. The report, and
/// the text of the journal where it is wanted, are made while it goes. Where memory is wanting, the journal of some
/// first items is given.
pub fn run_script_by_crew<M: Undo + Drop + Send, G: Gate, R: Threads + Wait + Sync>(
    runner: &Runner<'_, G, R>,
    alloc: Global,
    accepted: &Accepted,
    script: &Script,
) -> ScriptRun<M>
    requires crew { IsCrew runner.now.orders.crew }
    requires limit { IsLimit runner.now.orders.limit }
    ensures runs { RunsScript accepted.now script.now runner.now.orders result }
    ensures report { IfSome result.finished (λ f. IsReport accepted.now script.now result.journal f.report.items) }
    ensures text { IfSome result.finished (λ f.
        IfSome f.text (λ t. IsTextOf version.Two accepted.now script.now result.journal t.items)) }
{
    let orders = runner.orders;
    let workers = match orders.crew {
        Crew::One(_) => return run_script(orders, alloc, accepted, script),
        Crew::Many(workers) => workers,
    };
    accepted.know();
    let from = Ledger::empty(alloc);
    know_ledger(&from);
    let Ok(way) = begin(alloc, accepted, orders) else {
        return end_at_once(alloc, orders.limit);
    };
    let items = script.items().as_slice();
    let course = ScriptCourse::new(accepted, orders, items, way, from);
    let Ok(course) = Box::new(alloc, course) else {
        return end_at_once(alloc, orders.limit);
    };
    let course = run_course(runner.rt, alloc, course, workers, runner.gate);
    let (way, last) = course.into_last();
    end(way, orders.limit, last)
}
