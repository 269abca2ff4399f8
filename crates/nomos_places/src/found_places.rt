//! The places of an accepted program, found by the number of the instruction.
ghost use Rattle.std.specs.Prelude.{◌≡◌, All, IfOk, List, Bool, length, map, option_copied};
ghost use Rattle.std.specs.List.Sorted.{IsNonDecreasingBy, IsPermutation};
ghost use Rattle.nomos_types.specs.Acceptance.{Acceptance};
ghost use Rattle.nomos_places.specs.WantedPlaces.{ArePlacesAt, SaysTyping};
ghost use Rattle.nomos_places.specs.mirror.Making.{HasProgramAmounts, least_in, place_in, StandsAt};

use crate::along::along_code;
use crate::place::{Place, place_under};
use crate::spares::leasts_of;
use nomos_check::standing::Standing;
use nomos_ir::ids::CodeId;
use nomos_ir::items::Items;
use nomos_types::accepted::Accepted;
use std::alloc::{AllocError, Global};
use std::marker::Model;

/// Places of an accepted program, which contracts see as a list.
#[derive(Drop)]
pub struct Places {
    places: Items<Place>,
}

impl Model for Places {
    ghost use Rattle.std.specs.Prelude.{List};
    ghost use Rattle.std.specs.List.Sorted.{IsNonDecreasingBy};
    ghost use Rattle.nomos_places.specs.declared.place.Place.{Place};

    ghost Value = { List Place };

    ghost view = { λ p. p.places };

    ghost invariant = { λ p. IsNonDecreasingBy (λ q. q.code.0) p.places };
}

fn least_at(leasts: &[u128], code: CodeId) -> u128
    ensures { result ≡ least_in leasts.now code }
{
    match leasts.get(code.0 as usize) {
        Some(least) => *least,
        None => 0,
    }
}

/// The places where these are in hand.
fn each_place(
    alloc: Global,
    accepted: &Accepted,
    standings: &[Standing],
    leasts: &[u128],
) -> Result<Vec<Place>, AllocError>
    requires { All (HasProgramAmounts accepted.now.program) standings.now }
    ensures { IfOk result (λ made. made.items ≡ map (place_in accepted.now.annotations leasts.now) standings.now) }
{
    let mut made = Vec::new(alloc);
    for standing in standings {
        let least = least_at(leasts, standing.code);
        let place = place_under(alloc, accepted, standing, least)?;
        made.push(place)?;
    }
    Ok(made)
}

fn by_code(places: Vec<Place>) -> Vec<Place>
    ensures same { IsPermutation places.items result.items }
    ensures sorted { IsNonDecreasingBy (λ p. p.code.0) result.items }
{
    let mut sorted = places;
    sorted.sort_unstable_by_key(|place| place.code.0);
    sorted
}

// Where a place stands at the instruction, if one does.
fn find(places: &[Place], code: CodeId) -> Option<usize>
    requires { IsNonDecreasingBy (λ p. p.code.0) places.now }
    ensures { StandsAt places.now code result }
{
    match places.binary_search_by_key(&code.0, |place| place.code.0) {
        Ok(at) => Some(at),
        Err(_) => None,
    }
}

impl Places {
    /// What typing says at the instructions of an accepted program that are wanted, by number, and the least potential
    /// that is needed there. Each declaration is followed once. `docs/LANGUAGE.md`, "The typing rules", has the rules.
    pub fn of(alloc: Global, accepted: &Accepted, wanted: &[bool]) -> Result<Places, AllocError>
        requires { length wanted.now ≡ length accepted.now.program.code }
        ensures { IfOk result (ArePlacesAt accepted.now wanted.now) }
    {
        let along = along_code(alloc, accepted, wanted)?;
        let leasts = leasts_of(alloc, accepted, along.potentials.as_slice())?;
        let places = each_place(
            alloc,
            accepted,
            along.standings.as_slice(),
            leasts.as_slice(),
        )?;
        Ok(Places {
            places: Items::of_vec(by_code(places)),
        })
    }

    /// What typing says at an instruction that was wanted: nothing where no process can stand there.
    pub fn get(&self, code: CodeId) -> Option<&Place>
        ensures { (a : Acceptance) (wanted : List Bool) → ArePlacesAt a wanted self.now
            → SaysTyping a wanted code (option_copied result) }
    {
        match find(self.places.as_slice(), code) {
            Some(at) => Some(&self.places.as_slice()[at]),
            None => None,
        }
    }
}
