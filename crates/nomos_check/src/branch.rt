//! Where a way of an instruction begins.
ghost use Rattle.std.specs.Prelude.{◌≡◌, ℕ, IfOk, OnOk};
ghost use Rattle.nomos_check.specs.Account.{Account};
ghost use Rattle.nomos_check.specs.mirror.StandingData.{shape_of, HasAccount, way_shape, way_account};
ghost use Rattle.nomos_check.specs.mirror.Ways.{HasWayRoom, GoesWay};
ghost use Rattle.nomos_check.specs.declared.standing.WayOn.{WayOn};

use crate::in_hand::go_on;
use crate::standing::{ListParts, Standing, WayOn};
use std::alloc::{AllocError, Global};

/// What is bound is bound there too.
fn copy_bindings(now: &Standing, made: &mut Standing) -> Result<(), AllocError>
    ensures { OnOk result (made.new ≡ record made.old {
      kinds = now.now.kinds;
      lists = now.now.lists;
      shared = now.now.shared;
      linear = now.now.linear;
    }) }
{
    made.kinds = now.kinds.copy()?;
    made.lists = now.lists.copy()?;
    made.shared = now.shared.copy()?;
    made.linear = now.linear.copy()?;
    Ok(())
}

/// The same once more.
pub(crate) fn copy_of(alloc: Global, now: &Standing) -> Result<Standing, AllocError>
    ensures { IfOk result (λ s. s ≡ now.now) }
{
    let potential = now.potential.copy(alloc)?;
    let mut made = Standing::unbound(alloc, now.mode, potential, now.code, now.offers);
    match copy_bindings(now, &mut made) {
        Ok(()) => Ok(made),
        Err(error) => {
            drop(made);
            Err(error)
        }
    }
}

/// The list is taken apart.
fn take_parts(now: &mut Standing, parts: ListParts) -> Result<(), AllocError>
    requires { HasWayRoom now.old (WayOn.Full parts) }
    ensures { OnOk result (GoesWay now.old (WayOn.Full parts) now.new) }
{
    now.lists.unbind(parts.list);
    now.lists.bind(parts.tail, parts.carried)?;
    now.kinds.bind(parts.head, parts.carried.kind)?;
    now.potential.gain(parts.carried.amount);
    now.code = parts.next;
    Ok(())
}

/// The process goes the way.
fn go_way(now: &mut Standing, way: WayOn) -> Result<(), AllocError>
    requires { HasWayRoom now.old way }
    ensures { OnOk result (GoesWay now.old way now.new) }
{
    match way {
        WayOn::Label(c, t, next) => go_on(now, c, t, next),
        WayOn::Truth(next) => {
            now.code = next;
            Ok(())
        }
        WayOn::Empty(w, next) => {
            now.lists.unbind(w);
            now.code = next;
            Ok(())
        }
        WayOn::Full(parts) => take_parts(now, parts),
    }
}

/// What the process has in hand where the way begins.
pub(crate) fn along(alloc: Global, before: &Standing, way: WayOn) -> Result<Standing, AllocError>
    requires { HasWayRoom before.now way }
    ensures { IfOk result (GoesWay before.now way) }
{
    let mut now = copy_of(alloc, before)?;
    go_way(&mut now, way)?;
    Ok(now)
}
