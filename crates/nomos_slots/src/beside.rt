//! Rows that stand beside slots: they go where gaps of these are closed.
ghost use Rattle.std.specs.Prelude.{◌≡◌, ◌≤◌, ◌<◌, [], IfSome, length, slice_index_or, slice_set};
ghost use Rattle.nomos_slots.specs.Beside.{close_rows, is_held_at};

use crate::numbered::Numbered;
use crate::shelf::Shelf;
use std::alloc::Global;

// Whether something stands in the slot at a place.
fn is_held<T: Copy>(slots: &Numbered<T>, place: usize) -> bool
    ensures { result ≡ is_held_at slots.now.now place }
{
    match slots.slot(place) {
        Some(slot) => slot.item.is_some(),
        None => false,
    }
}

// A row that came since the mark moves to a place that is not behind it, and nothing is left where it stood.
fn move_row<R: Drop>(rows: &mut Shelf<R>, alloc: Global, from: usize, to: usize)
    requires late { IfSome rows.old.marked (λ list. length list ≤ to) }
    requires before { to ≤ from }
    requires within { from < length rows.old.now }
    ensures now { rows.new.now
        ≡ slice_set (slice_set rows.old.now from []) to (slice_index_or rows.old.now from []) }
    ensures marked { rows.new.marked ≡ rows.old.marked }
    ensures room { rows.new.room ≡ rows.old.room }
{
    let row = rows.replace_late(from, Vec::new(alloc));
    let _before = rows.replace_late(to, row);
}

/// The rows before this place stay, and of the others, none of which is marked, those beside a slot with an item, in
/// their order. It takes no room and no memory.
pub fn close_rows<T: Copy, R: Drop>(
    slots: &Numbered<T>,
    rows: &mut Shelf<R>,
    alloc: Global,
    from: usize,
)
    requires long { length rows.old.now ≡ length slots.now.now }
    requires late { IfSome rows.old.marked (λ list. length list ≤ from) }
    ensures now { rows.new.now ≡ close_rows from slots.now.now rows.old.now }
    ensures marked { rows.new.marked ≡ rows.old.marked }
    ensures room { rows.old.room ≤ rows.new.room }
{
    let mut to = from;
    for place in from..slots.len() {
        if is_held(slots, place) {
            move_row(rows, alloc, place, to);
            to += 1;
        }
    }
    rows.truncate(to);
}
