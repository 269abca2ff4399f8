//! The potentials before instructions, in Dths.
ghost use Rattle.std.specs.Prelude.{◌≡◌, ◌<◌, ◌≤◌, IfOk, All, length, slice_set, unsigned_abs};
ghost use Rattle.nomos_forms.specs.Bounds.{IsForm, IsFound};
ghost use Rattle.nomos_places.specs.mirror.Noting.{noted};

use nomos_forms::form::Form;
use nomos_forms::found::Found;
use nomos_forms::meeting::value_of;
use nomos_ir::amount::Amount;
use nomos_ir::ids::CodeId;
use nomos_ir::items::Items;
use nomos_types::accepted::Accepted;
use std::alloc::{AllocError, Global};

/// The amounts that were accepted, as a form is weighed by them.
pub(crate) fn accepted_amounts(alloc: Global, accepted: &Accepted) -> Result<Found, AllocError>
    ensures stars { IfOk result (λ found. found.stars ≡ accepted.now.annotations.stars) }
    ensures unit { IfOk result (λ found. found.unit ≡ accepted.now.annotations.unit) }
{
    let stars = accepted.program().stars();
    let mut amounts = Vec::new(alloc);
    for star in 0..stars {
        amounts.push(accepted.amount(Amount::Star(star + 1)))?;
    }
    Ok(Found {
        stars: Items::of_vec(amounts),
        unit: accepted.unit(),
    })
}

fn size_of(value: i128) -> u128
    ensures { result ≡ unsigned_abs value }
{
    value.unsigned_abs()
}

fn note(potentials: &mut [u128], code: CodeId, potential: u128)
    requires { code.0 < length potentials.old }
    ensures { potentials.new ≡ slice_set potentials.old code.0 potential }
{
    potentials[code.0 as usize] = potential;
}

/// Notes what the forms before these instructions come to, each at the number of its instruction.
pub(crate) fn note_all(potentials: &mut [u128], amounts: &Found, forms: &[(CodeId, Form)])
    requires few { length amounts.now.stars ≤ 64 }
    requires amounts { IsFound (length amounts.now.stars) amounts.now }
    requires codes { All (λ e. e.0.0 < length potentials.old) forms.now }
    requires forms { All (λ e. IsForm (length amounts.now.stars) e.1) forms.now }
    ensures { potentials.new ≡ noted amounts.now forms.now potentials.old }
{
    for entry in forms {
        let potential = size_of(value_of(&entry.1, amounts));
        note(potentials, entry.0, potential);
    }
}
