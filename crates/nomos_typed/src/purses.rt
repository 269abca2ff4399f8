//! What is left of the purse of a process beside the potential of its lists.
ghost use Rattle.std.specs.Prelude.{◌≡◌, ◌+◌, ◌<◌, ◌≤◌, MatchOption};
ghost use Rattle.nomos_machine.specs.Objects.{free_purse, potential_of};
ghost use Rattle.nomos_typed.specs.mirror.Purses.{carried_in};

use nomos_ir::ids::VarId;
use nomos_machine::object::{PotentialList, Process};

// What is left of a purse beside what lists carry; none where it is less than that.
fn left_beside(lists: &[(VarId, PotentialList)], purse: u128) -> Option<u128>
    ensures { MatchOption result (purse < carried_in lists.now) (λ left. left + carried_in lists.now ≡ purse) }
{
    let mut left = purse;
    for pair in lists {
        let elements = pair.1.items.len();
        left = left.checked_sub(u128::from(pair.1.amount) * u128::from(elements))?;
    }
    Some(left)
}

/// What is left of the purse of a process beside the potential of its lists, in Dths; nothing where the purse does not
/// cover them. No sum of potentials is made: it may have over 128 bits.
pub fn free_purse(process: &Process) -> Option<u128>
    ensures { MatchOption result (process.now.purse < potential_of process.now)
        (λ left. (potential_of process.now ≤ process.now.purse) × (left ≡ free_purse process.now)) }
{
    left_beside(process.lists.as_slice(), process.purse)
}
