//! Where the numbers over one start.
ghost use Rattle.std.specs.Prelude.{◌≤◌, length};
ghost use Rattle.nomos_slots.specs.Numbers.{IsAscending};
ghost use Rattle.nomos_state.specs.SlotsOver.{AreNotOver};

use nomos_slots::numbered::Numbered;

/// A place before which no slot has a number over this one. It goes by halves.
pub(crate) fn start_over<T: Copy>(slots: &Numbered<T>, after: u32) -> usize
    requires { IsAscending slots.now.now }
    ensures within { result ≤ length slots.now.now }
    ensures before { AreNotOver after slots.now.now result }
{
    let mut from = 0;
    let mut to = slots.len();
    while from < to {
        let middle = from + (to - from) / 2;
        match slots.slot(middle) {
            Some(slot) if slot.number <= after => from = middle + 1,
            _ => to = middle,
        }
    }
    from
}
