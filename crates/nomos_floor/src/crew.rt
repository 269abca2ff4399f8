//! Crews: passes split off the opening one, each at a station of its own, and all joined into it again.
ghost use Rattle.std.specs.Prelude.{◌≡◌, ℕ, ◌+◌, ◌^◌, ◌<◌, List, [], All, IfSome, IfOk, IfErr, option_to_list, vec_len};
ghost use Rattle.std.specs.List.{range_with_len};
ghost use Rattle.nomos_floor.specs.FloorPass.{IsPassOf, IsOpening, next_of, out_of, seen_by};
ghost use Rattle.nomos_floor.specs.FloorCrew.{IsManned, IsStationOf, IsNewStation, HasSplitOff, HasTakenIn, passes_at, numbers_at};

use crate::floor::{Floor, Pass};
use crate::shared_work::Shared;
use std::alloc::{AllocError, Global};

/// Where a worker of a crew finds its pass, puts it back, and leaves its answer.
#[derive(Drop)]
pub struct Station<W: Shared, A> {
    /// The pass, but while the worker takes its turns with it.
    pub pass: Option<Pass<W>>,
    /// What the worker answers, once it has.
    pub answer: Option<A>,
}

/// Splits off so many passes, each into a station of its own, in the order of their numbers. All memory is taken before
/// the first of them: where there is none, the opening pass is as it was.
pub fn split_all<W: Shared, A: Drop>(
    alloc: Global,
    floor: &Floor<W>,
    opening: &mut Pass<W>,
    count: u32,
) -> Result<Vec<Station<W, A>>, AllocError>
    requires of_floor { IsPassOf floor.now opening.old }
    requires opening { IsOpening opening.old }
    requires room { next_of opening.old + count < 2 ^ 32 }
    ensures of_floor { IsPassOf floor.now opening.new }
    ensures split { IfOk result (λ stations. HasSplitOff count opening.old opening.new) }
    ensures manned { IfOk result (λ stations. (vec_len stations ≡ count) × All (IsManned floor.now) stations.items) }
    ensures new { IfOk result (λ stations. All (IsNewStation (seen_by opening.old)) stations.items) }
    ensures numbers { IfOk result (λ stations. numbers_at stations.items
        ≡ range_with_len (next_of opening.old) count) }
    ensures no_memory { IfErr result (λ e. opening.new ≡ opening.old) }
{
    let mut stations = Vec::with_capacity(alloc, count as usize)?;
    for _ in 0..count {
        let pass = floor.split(opening);
        stations.push_reserved(Station {
            pass: Some(pass),
            answer: None,
        });
    }
    Ok(stations)
}

// Ends a pass, where there is one.
fn join_one<W: Shared>(floor: &Floor<W>, opening: &mut Pass<W>, pass: Option<Pass<W>>)
    requires of_floor { IsPassOf floor.now opening.old × IsOpening opening.old }
    requires one { IfSome pass (IsPassOf floor.now) }
    ensures of_floor { IsPassOf floor.now opening.new }
    ensures taken_in { HasTakenIn (option_to_list pass) opening.old opening.new }
{
    if let Some(pass) = pass {
        floor.join(opening, pass);
    }
}

/// Ends the passes at all stations, in their order. A station without one is passed over.
pub fn join_all<W: Shared, A: Drop>(
    floor: &Floor<W>,
    opening: &mut Pass<W>,
    stations: Vec<Station<W, A>>,
)
    requires of_floor { IsPassOf floor.now opening.old }
    requires opening { IsOpening opening.old }
    requires crew { All (IsStationOf floor.now) stations.items }
    ensures of_floor { IsPassOf floor.now opening.new }
    ensures taken_in { HasTakenIn (passes_at stations.items) opening.old opening.new }
    ensures none_out { out_of opening.old ≡ numbers_at stations.items → out_of opening.new ≡ [] }
{
    for station in stations {
        drop(station.answer);
        join_one(floor, opening, station.pass);
    }
}
