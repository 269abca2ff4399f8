//! How heavy a list that carries potential is, and what its elements carry.
ghost use Rattle.std.specs.Prelude.{◌≡◌, ◌+◌, ◌<◌, nat_le, MatchOption};
ghost use Rattle.nomos_ir.specs.ValueNode.{value_of};
ghost use Rattle.nomos_machine.specs.Deeds.{is_light, lengthened};
ghost use Rattle.nomos_machine.specs.Objects.{potential_of};
ghost use Rattle.nomos_changes.specs.Gives.{potential_in};
ghost use Rattle.nomos_plain.specs.Parts.{process_in};

use crate::plain_object::PlainProcess;
use nomos_ir::ids::VarId;
use nomos_ir::limits::MAX_WEIGHT;
use nomos_ir::value_node::ValueNode;
use nomos_machine::object::PotentialList;

/// Whether a list is light enough with one more element in front.
pub(crate) fn is_light_with(list: &PotentialList, first: &ValueNode) -> bool
    ensures { result ≡ is_light (lengthened (value_of first.now) list.now) }
{
    first.weight() + 1 + list.items.weight() <= MAX_WEIGHT
}

// What is left of a purse beside the potential of lists; none where it is less than that.
fn purse_beside(lists: &[(VarId, PotentialList)], purse: u128) -> Option<u128>
    ensures { MatchOption result (purse < potential_in lists.now) (λ left. left + potential_in lists.now ≡ purse) }
{
    let mut left = purse;
    for pair in lists {
        let elements = pair.1.items.len();
        left = left.checked_sub(u128::from(pair.1.amount) * u128::from(elements))?;
    }
    Some(left)
}

/// Whether the purse of a process has so many Dths beside the potential of its lists.
pub(crate) fn affords(p: &PlainProcess, gas: u64) -> bool
    ensures { result ≡ nat_le (gas + potential_of (process_in p.now)) p.now.purse }
{
    match p.purse.checked_sub(u128::from(gas)) {
        Some(left) => purse_beside(&p.lists, left).is_some(),
        None => false,
    }
}
