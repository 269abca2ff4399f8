//! Threads that add their numbers to one row, and what the row has then.
ghost use Rattle.std.specs.Prelude.{◌≡◌, ℕ, ◌+◌, ◌%◌, ◌^◌, ◌<◌, List, [], All, length, IfOk};
ghost use Rattle.nomos_floor.specs.FloorPass.{IsPassOf, KeepsPass, AddsAtMostOne};
ghost use Rattle.nomos_floor.specs.FloorCrew.{IsManned, KeepsStation, KeepStations};

use crate::crew::{Station, join_all, split_all};
use crate::floor::{Floor, OpenError, Pass};
use crate::shared_work::Shared;
use std::alloc::{AllocError, Global};
use std::sync::Wait;
use std::test::Fail;
use std::thread;
use std::thread::Threads;

/// A work to which a number can be added.
trait Adds: Shared {
    /// Adds an entry, if there is memory.
    fn add(&mut self, number: u32, entry: u32)
        ensures start { Self.start self.new ≡ Self.start self.old }
        ensures history { AddsAtMostOne number (Self.history self.old) (Self.history self.new) };
}

/// A row of entries, each with the number of the pass that added it.
#[derive(Drop)]
struct EntryRow<'a> {
    label: &'a u32,
    entries: Vec<(u32, u32)>,
}

impl<'a> Shared for EntryRow<'a> {
    type Start = u32;

    type Entry = u32;

    ghost start = { λ row. row.label.now };

    ghost history = { λ row. row.entries.items };

    fn entries(&self) -> u64 {
        self.entries.len() as u64
    }
}

impl<'a> Adds for EntryRow<'a> {
    fn add(&mut self, number: u32, entry: u32) {
        let _ = self.entries.push((number, entry));
    }
}

// Adds so many entries, each in a turn of its own.
fn add_all<W: Adds, R: Wait>(rt: &R, floor: &Floor<W>, mut pass: Pass<W>, count: u32) -> Pass<W>
    requires { IsPassOf floor.now pass }
    ensures { KeepsPass floor.now pass result }
{
    for entry in 0..count {
        let mut turn = floor.take_turn(rt, pass);
        let number = turn.number();
        turn.work.add(number, entry);
        pass = floor.give_back(turn);
    }
    pass
}

// The same, with the pass of a station, where the count is the answer.
fn work_at<W: Adds, R: Wait>(rt: &R, floor: &Floor<W>, station: &mut Station<W, u32>, count: u32)
    requires { IsManned floor.now station.old }
    ensures { KeepsStation floor.now station.old station.new }
{
    if let Some(pass) = station.pass.take() {
        station.pass = Some(add_all(rt, floor, pass, count));
        station.answer = Some(count);
    }
}

// The same at all stations, with as many threads.
fn work_all<W: Adds + Send, R: Threads + Wait + Sync>(
    rt: &R,
    floor: &Floor<W>,
    mut stations: Vec<Station<W, u32>>,
    threads: u32,
    count: u32,
) -> Vec<Station<W, u32>>
    requires threads { 0 < threads }
    requires manned { All (IsManned floor.now) stations.items }
    ensures { KeepStations floor.now stations.items result.items }
{
    thread::for_each_mut(
        rt,
        stations.as_mut_slice(),
        threads as usize,
        &|_, station| work_at(rt, floor, station, count),
    );
    stations
}

// The work after so many threads, which add so many entries each, and then the opening pass, which adds as many.
fn after_all<W: Adds + Send, R: Threads + Wait + Sync>(
    rt: &R,
    alloc: Global,
    work: W,
    threads: u32,
    count: u32,
) -> Result<W, AllocError>
    requires empty { W.history work ≡ [] }
    requires few { (0 < threads) × (threads < 1000) }
    ensures { IfOk result (λ last. W.start last ≡ W.start work) }
{
    let (floor, mut opening) = match Floor::open(alloc, work) {
        Ok(opened) => opened,
        Err(OpenError::NoMemory(_)) => return Err(AllocError),
    };
    let stations = split_all(alloc, &floor, &mut opening, threads)?;
    let stations = work_all(rt, &floor, stations, threads, count);
    join_all(&floor, &mut opening, stations);
    let opening = add_all(rt, &floor, opening, count);
    Ok(floor.close(opening))
}

// The entries of each number are 0, 1, 2 and so on, in this order, and as many as were added.
#[test]
fn each_thread_has_its_entries_once_in_order(rt: HostRuntime) -> Result<(), Fail> {
    let label = 7;
    for threads in [2u32, 16] {
        let row = EntryRow {
            label: &label,
            entries: Vec::new(rt.alloc()),
        };
        let row = after_all(&rt, rt.alloc(), row, threads, 1000)?;
        let mut next = [0u32; 17];
        for (number, entry) in row.entries.as_slice() {
            let number = *number as usize;
            assert!(rt; number <= threads as usize && number < 17 && *entry < 1000);
            assert_eq!(rt; *entry, next[number]);
            next[number] = *entry + 1;
        }
        for (number, made) in next.iter().enumerate() {
            let wanted = if number <= threads as usize { 1000 } else { 0 };
            assert_eq!(rt; *made, wanted);
        }
    }
    Ok(())
}
