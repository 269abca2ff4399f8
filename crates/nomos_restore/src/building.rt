//! The state of plain data is made.
ghost use Rattle.std.specs.Prelude.{◌≡◌, ◌≤◌, ℕ, IsSome, OnOk};
ghost use Rattle.nomos_contents.specs.Data.{IsOrdered, state_of};
ghost use Rattle.nomos_machine.specs.Objects.{mentioned, times};
ghost use Rattle.nomos_machine.specs.State.{type_of};
ghost use Rattle.nomos_restore.specs.Numbering.{nothing_drawn};

use crate::accounts::open_accounts;
use crate::names::come_names;
use crate::objects::come_objects;
use crate::restoring::Restoring;
use nomos_contents::data::StateData;
use std::alloc::{AllocError, Global};

/// The state with nothing in it, in which no number is drawn, becomes that of these data. Names come first, so that an
/// object finds the names that it mentions. Where memory is wanting, some of it may be there.
pub fn restore<P: Restoring>(
    parts: &mut P,
    alloc: Global,
    plain: StateData,
) -> Result<(), AllocError>
    requires begins { P.state parts.old ≡ nothing_drawn }
    requires ordered { IsOrdered plain }
    requires mentioned { (name : ℕ) → IsSome (type_of plain.types name) → 1 ≤ times mentioned plain.objects name }
    ensures ok { OnOk result (P.state parts.new ≡ state_of plain) }
    ensures marked { P.marked parts.new ≡ P.marked parts.old }
{
    let objects = plain.objects.into_vec();
    let types = plain.types.into_vec();
    let changes = objects.len().checked_add(types.len()).ok_or(AllocError)?;
    parts.make_room(changes)?;
    come_names(parts, types, plain.next_name);
    come_objects(parts, alloc, objects, plain.next_object)?;
    open_accounts(parts, plain.balances.as_slice())?;
    parts.burn(plain.spent);
    parts.tidy();
    Ok(())
}
