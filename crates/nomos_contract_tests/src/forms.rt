//! Forms and rows from small tables.
ghost use Rattle.std.specs.Prelude.{◌≡◌, ◌≤◌, All, IfOk};
ghost use Rattle.nomos_forms.specs.Bounds.{IsForm};

use nomos_forms::collecting::rows;
use nomos_forms::form::Form;
use nomos_forms::row_list::RowList;
use nomos_ir::amount::Amount;
use nomos_ir::items::Items;
use std::alloc::{AllocError, Global};
use std::process::Abort;

/// The coefficients of the first stars of a form, and its number of units. The other coefficients are 0.
pub(crate) type FormSketch<'a> = (&'a [i32], i32);

// The coefficient of the star at this place.
fn coef_at(coefs: &[i32], place: u16) -> i32 {
    coefs.get(usize::from(place)).copied().unwrap_or(0)
}

/// A form over so many stars.
pub(crate) fn form(alloc: Global, sketch: FormSketch<'_>, stars: u16) -> Result<Form, AllocError>
    ensures { IfOk result (IsForm stars) }
{
    let mut coefs = Vec::new(alloc);
    for star in 0..stars {
        coefs.push(i64::from(coef_at(sketch.0, star)))?;
    }
    Ok(Form {
        coefs: Items::of_vec(coefs),
        plus: i64::from(sketch.1),
    })
}

// The forms of sketches.
fn forms(alloc: Global, sketches: &[FormSketch<'_>], stars: u16) -> Result<Vec<Form>, AllocError>
    ensures { IfOk result (λ made. All (IsForm stars) made.items) }
{
    let mut forms = Vec::new(alloc);
    for sketch in sketches {
        let next = form(alloc, *sketch, stars)?;
        forms.push(next)?;
    }
    Ok(forms)
}

/// The rows that say that these forms are 0 or more, and that the amounts of each pair are equal.
pub(crate) fn system(
    alloc: Global,
    sketches: &[FormSketch<'_>],
    pairs: &[(Amount, Amount)],
    stars: u16,
) -> Result<RowList, AllocError>
    requires { stars ≤ 64 }
    ensures { IfOk result (λ made. made.stars ≡ stars) }
{
    let forms = Items::of_vec(forms(alloc, sketches, stars)?);
    let pairs = Items::of_vec(Vec::from_slice(alloc, pairs)?);
    rows(alloc, &forms, &pairs, stars)
}

// The sketch whose coefficients stand before its number of units.
fn sketch_of(numbers: &[i32]) -> FormSketch<'_> {
    match numbers {
        [coefs @ .., plus] => (coefs, *plus),
        [] => (numbers, 0),
    }
}

/// The rows that say that forms are 0 or more. Of each form there are the coefficients of all stars, and then the
/// number of units.
pub(crate) fn table_system(
    alloc: Global,
    numbers: &[i32],
    stars: u16,
) -> Result<RowList, AllocError>
    requires { stars ≤ 64 }
{
    let mut sketches = Vec::new(alloc);
    for line in numbers.chunks(usize::from(stars) + 1) {
        sketches.push(sketch_of(line))?;
    }
    system(alloc, &sketches, &[], stars)
}

/// Fails unless this text was wanted.
pub(crate) fn expect(rt: &impl Abort, found: String, wanted: &str) {
    assert_eq!(rt; found.as_str(), wanted);
}
