//! Objects, looked up by number.
ghost use Rattle.std.specs.Prelude.{◌≡◌, Some};
ghost use Rattle.nomos_state.specs.Indexed.{IsHolding, held_now};
ghost use Rattle.nomos_state.specs.Looked.{IsObjectAt, IsProcessAt, IsMessageAt};
ghost use Rattle.nomos_state.specs.Objects.{kept_at};

use crate::inside::Columns;
use crate::kept::{Kept, KeptMessage, KeptProcess};

/// What is kept at a place, with its number.
#[inline(always)]
pub(crate) fn kept_at(contents: &Columns, place: usize) -> Option<(u32, Kept)>
    ensures { result ≡ kept_at contents.now.objects.now place }
{
    let slot = contents.objects.slot(place)?;
    let kept = slot.item?;
    Some((slot.number, kept))
}

/// Where the object of this number stands, and what is kept there.
#[inline(always)]
pub(crate) fn object_at(contents: &Columns, number: u32) -> Option<(usize, Kept)>
    requires { IsHolding (held_now contents.now) }
    ensures { IsObjectAt (held_now contents.now) number result }
{
    let place = contents.objects.place_of(number)?;
    let (_, kept) = kept_at(contents, place)?;
    Some((place, kept))
}

/// Where the process of this number stands, and what is kept there.
#[inline(always)]
pub(crate) fn process_at(contents: &Columns, pid: u32) -> Option<(usize, KeptProcess)>
    requires { IsHolding (held_now contents.now) }
    ensures { IsProcessAt (held_now contents.now) pid result }
{
    match object_at(contents, pid) {
        Some((place, Kept::Process(kept))) => Some((place, kept)),
        _ => None,
    }
}

/// Where the message of this number stands, and what is kept there.
#[inline(always)]
pub(crate) fn message_at(contents: &Columns, number: u32) -> Option<(usize, KeptMessage)>
    requires { IsHolding (held_now contents.now) }
    ensures { IsMessageAt (held_now contents.now) number result }
{
    match object_at(contents, number) {
        Some((place, Kept::Message(kept))) => Some((place, kept)),
        _ => None,
    }
}
