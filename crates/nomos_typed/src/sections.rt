//! Whether each talk on a name of mode L is in a critical section that goes back to where it began.
ghost use Rattle.std.specs.Prelude.{◌≡◌, ◌<◌, ◌↔◌, ◌++◌, ◌∷◌, [], if◌then◌else◌, ℕ, IsTrue, IfOk, IfSome, OnOk, All, Contains, filter, length, map};
ghost use Rattle.std.specs.List.Sorted.{IsPermutation};
ghost use Rattle.std.specs.Option.{option_to_list};
ghost use Rattle.nomos_contents.specs.Data.{IsOrdered};
ghost use Rattle.nomos_typed.specs.Sections.{AreInSections};
ghost use Rattle.nomos_typed.specs.mirror.TypedTalks.{at_l, talks_at_l, IsTalkFor, AreTalks, IsBack, HasBack, IsDecided};
ghost use Rattle.nomos_typed.specs.mirror.ComparedWith.{IsTold};

use crate::leading::{Led, led_names};
use crate::owning::{are_numbers, mode_in};
use crate::told::Told;
use crate::worth::same_worth;
use nomos_contents::data::StateData;
use nomos_equality::synchronizing::{Synced, leads_back_to};
use nomos_ir::ids::TypeId;
use nomos_ir::mode::Mode;
use nomos_types::accepted::Accepted;
use nomos_types::mode_table::mode_table;
use std::alloc::{AllocError, Global};

/// A talk on a name, with its type and that of the contract to which it goes back.
#[derive(Clone, Copy)]
pub(crate) struct Talk {
    pub(crate) name: u32,
    pub(crate) own: TypeId,
    pub(crate) shared: TypeId,
}

/// Whether a talk goes back.
#[derive(Clone, Copy)]
pub(crate) struct Decided {
    pub(crate) talk: Talk,
    pub(crate) is_back: bool,
}

fn at_l(mode: Option<Mode>) -> bool
    ensures { result ≡ at_l mode }
{
    match mode {
        Some(Mode::L) => true,
        _ => false,
    }
}

/// The talk on a name of mode L that leads to a base.
fn talk_of(told: &Told<'_>, led: Led) -> Option<Talk>
    requires { IsTold told.now }
    ensures { IsTalkFor told.now led result }
{
    told.accepted.know();
    if !at_l(mode_in(told, led.name)) {
        return None;
    }
    match told.type_of(led.name) {
        Some(own) => match told.type_of(led.base) {
            Some(shared) => Some(Talk {
                name: led.name,
                own,
                shared,
            }),
            None => None,
        },
        None => None,
    }
}

fn push_talk(talks: &mut Vec<Talk>, talk: Option<Talk>) -> Result<(), AllocError>
    ensures { OnOk result (talks.new.items ≡ talks.old.items ++ option_to_list talk) }
{
    if let Some(talk) = talk {
        talks.push(talk)?;
    }
    Ok(())
}

/// The talks on names of mode L that lead to bases.
fn talks_of(alloc: Global, told: &Told<'_>, led: &[Led]) -> Result<Vec<Talk>, AllocError>
    requires { IsTold told.now }
    ensures { IfOk result (λ made. AreTalks told.now led.now made.items) }
{
    let mut made = Vec::new(alloc);
    for one in led {
        push_talk(&mut made, talk_of(told, *one))?;
    }
    Ok(made)
}

/// Talks of the same types one after the other.
fn by_types(talks: Vec<Talk>) -> Vec<Talk>
    ensures { IsPermutation talks.items result.items }
{
    let mut sorted = talks;
    sorted.sort_unstable_by_key(|talk| (talk.own.0, talk.shared.0));
    sorted
}

/// Whether a talk goes back to its contract.
fn is_back(alloc: Global, accepted: &Accepted, talk: Talk) -> Result<bool, AllocError>
    requires own { talk.own.0 < length accepted.now.program.types }
    requires shared { talk.shared.0 < length accepted.now.program.types }
    ensures { IfOk result (λ yes. IsTrue yes ↔ IsBack accepted.now talk) }
{
    let program = accepted.program();
    let synced = leads_back_to(alloc, program, talk.own, talk.shared)?;
    match synced {
        Synced::Yes(pairs) => Ok(same_worth(accepted, pairs.as_slice())),
        Synced::No(_path) => Ok(false),
    }
}

fn are_alike(one: Talk, other: Talk) -> bool
    ensures { IsTrue result ↔ ((one.own ≡ other.own) × (one.shared ≡ other.shared)) }
{
    one.own == other.own && one.shared == other.shared
}

/// Whether a talk goes back to its contract, where that was decided for another one.
fn decide(
    alloc: Global,
    accepted: &Accepted,
    last: Option<Decided>,
    talk: Talk,
) -> Result<Decided, AllocError>
    requires last { IfSome last (IsDecided accepted.now) }
    requires own { talk.own.0 < length accepted.now.program.types }
    requires shared { talk.shared.0 < length accepted.now.program.types }
    ensures { IfOk result (λ d. (d.talk ≡ talk) × IsDecided accepted.now d) }
{
    if let Some(decided) = last {
        if are_alike(decided.talk, talk) {
            return Ok(Decided {
                talk,
                is_back: decided.is_back,
            });
        }
    }
    let is_back = is_back(alloc, accepted, talk)?;
    Ok(Decided { talk, is_back })
}

fn push_if(names: &mut Vec<u32>, name: u32, wanted: bool) -> Result<(), AllocError>
    ensures { OnOk result (names.new.items ≡ names.old.items ++ (if wanted then name ∷ [] else [])) }
{
    if wanted {
        names.push(name)?;
    }
    Ok(())
}

/// The names whose talks go back. Talks of the same types one after the other are decided once.
fn names_back(alloc: Global, accepted: &Accepted, talks: &[Talk]) -> Result<Vec<u32>, AllocError>
    requires { All (λ t. (t.own.0 < length accepted.now.program.types)
        × (t.shared.0 < length accepted.now.program.types)) talks.now }
    ensures { IfOk result (λ names. (name : ℕ) → Contains names.items name ↔ HasBack accepted.now talks.now name) }
{
    let mut names = Vec::new(alloc);
    let mut last = None;
    for talk in talks {
        let decided = decide(alloc, accepted, last, *talk)?;
        push_if(&mut names, talk.name, decided.is_back)?;
        last = Some(decided);
    }
    Ok(names)
}

/// The state's names of mode L.
fn names_at_l(alloc: Global, told: &Told<'_>) -> Result<Vec<u32>, AllocError>
    requires { IsTold told.now }
    ensures { IfOk result (λ made. made.items ≡ filter (talks_at_l told.now) (map (λ t. t.0) told.now.types.now)) }
{
    let mut made = Vec::new(alloc);
    for entry in told.types {
        if at_l(mode_in(told, entry.0)) {
            made.push(entry.0)?;
        }
    }
    Ok(made)
}

/// Whether each talk on a name of mode L comes from an acquired contract to which each end of its section goes back: a
/// part of what makes a state typed. It is asked last: where names have several providers it may want all memory.
pub fn are_in_sections(
    alloc: Global,
    accepted: &Accepted,
    state: &StateData,
) -> Result<bool, AllocError>
    requires ordered { IsOrdered state.now }
    ensures { IfOk result (λ yes. IsTrue yes ↔ AreInSections accepted.now state.now) }
{
    let modes = mode_table(alloc, accepted.program())?;
    let told = Told {
        accepted,
        modes: modes.as_slice(),
        types: state.types.as_slice(),
    };
    let led = led_names(alloc, state.objects.as_slice())?;
    let talks = by_types(talks_of(alloc, &told, led.as_slice())?);
    let names = names_back(alloc, accepted, talks.as_slice())?;
    let wanted = names_at_l(alloc, &told)?;
    Ok(are_numbers(names, wanted.as_slice()))
}
