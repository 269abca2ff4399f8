//! Along the code of a process.
ghost use Rattle.std.specs.Prelude.{◌<◌, [], ◌∷◌, OnOk};
ghost use Rattle.nomos_ir.specs.Amounts.{star_count};
ghost use Rattle.nomos_types.specs.Typed.{IsWellFormed};
ghost use Rattle.nomos_check.specs.mirror.StandingData.{IsReady, KeepsCompared};
ghost use Rattle.nomos_check.specs.mirror.Walking.{IsOnWay, Goes, IsWalk, WalksOn, width, work};

use crate::branch::along;
use crate::code_walk::CodeWalk;
use crate::standing::{Forks, Standing, Step};
use crate::step::step;
use nomos_ir::program::Program;
use std::alloc::AllocError;

/// Goes on from where the process stands until the code ends, is stuck, or parts; the ways into which it parts are
/// left to do.
pub(crate) fn go_along(
    program: &Program,
    walk: &mut CodeWalk<'_>,
    now: Standing,
) -> Result<(), AllocError>
    requires formed { IsWellFormed program.now }
    requires on_way { IsOnWay program.now (star_count program.now) now }
    requires ready { IsReady program.now walk.old.asked }
    ensures ready { IsReady program.now walk.new.asked }
    ensures kept { KeepsCompared walk.old.asked walk.new.asked }
    ensures goes { OnOk result (Goes program.now (star_count program.now) now walk.old walk.new) }
{
    let mut at = now;
    loop {
        let here = at.code;
        walk.note(program, &at)?;
        match step(program, &mut walk.asked, &mut at)? {
            Step::Stuck => {
                walk.stop(program.code(here));
                return Ok(());
            }
            Step::Done => return Ok(()),
            Step::Next => {}
            Step::Branches(ways) => {
                walk.todo.push(Forks { before: at, ways })?;
                return Ok(());
            }
        }
    }
}

/// Goes the last of the ways, if there is one; the others are left to do.
fn take_way(program: &Program, walk: &mut CodeWalk<'_>, forks: Forks) -> Result<(), AllocError>
    requires formed { IsWellFormed program.now }
    requires walk { IsWalk program.now (star_count program.now) (forks ∷ walk.old.todo) walk.old }
    requires ready { IsReady program.now walk.old.asked }
    ensures ready { IsReady program.now walk.new.asked }
    ensures kept { KeepsCompared walk.old.asked walk.new.asked }
    ensures walks { OnOk result (WalksOn program.now (star_count program.now)
        (forks ∷ walk.old.todo) walk.old walk.new.todo walk.new) }
    ensures light { OnOk result (work (width program.now) walk.new.todo < work (width program.now)
        (forks ∷ walk.old.todo)) }
{
    let mut rest = forks;
    let way = match rest.ways.pop() {
        Some(way) => way,
        None => return Ok(()),
    };
    let branch = along(walk.asked.alloc, &rest.before, way)?;
    walk.todo.push(rest)?;
    go_along(program, walk, branch)
}

/// Goes all ways that are left to do.
pub(crate) fn go_all(program: &Program, walk: &mut CodeWalk<'_>) -> Result<(), AllocError>
    requires formed { IsWellFormed program.now }
    requires walk { IsWalk program.now (star_count program.now) walk.old.todo walk.old }
    requires ready { IsReady program.now walk.old.asked }
    ensures ready { IsReady program.now walk.new.asked }
    ensures kept { KeepsCompared walk.old.asked walk.new.asked }
    ensures walks { OnOk result (WalksOn program.now (star_count program.now) walk.old.todo walk.old [] walk.new) }
{
    while let Some(forks) = walk.todo.pop() {
        take_way(program, walk, forks)?;
    }
    Ok(())
}
