//! Firings that take no memory, behind room that was made for them, on both forms.
ghost use Rattle.std.specs.Prelude.{◌≡◌, None};
ghost use Rattle.nomos_machine.specs.State.{empty};

use crate::expecting::{begun_on, expect_lowest};
use crate::run_tests::FORWARD;
use crate::runner::FormRunner;
use crate::sharing_tests::{ONCE, OPPOSITE};
use nomos_deeds::fire::Fire;
use nomos_deeds::machine::Machine;
use nomos_deeds::undo::Undo;
use nomos_plain::plain::PlainState;
use nomos_state::indexed::IndexedState;
use std::process::Abort;
use std::test::Fail;

// Room is made for so many firings, and no run has more.
const ROOM: usize = 100;

// Fires the lowest process that is ready, in room where it stands at an instruction that takes no memory there: whether
// it does, or nothing where none is ready.
fn fire_next<M: Machine>(
    rt: &(impl Abort + AllocGlobal),
    runner: &mut FormRunner<M>,
) -> Result<Option<bool>, Fail> {
    let Some(pid) = runner.lowest() else {
        return Ok(None);
    };
    if !runner.is_frugal(pid) {
        expect_lowest(rt, runner, pid)?;
        return Ok(Some(false));
    }
    let answer = runner.fire_in_room(rt.alloc(), pid)?;
    assert!(rt; matches!(&answer, Some(Fire::Fired)), "{pid} makes no step");
    Ok(Some(true))
}

// Makes room for a run, and goes on to its end: how many firings took no memory.
fn frugal_firings<M: Machine>(
    rt: &(impl Abort + AllocGlobal),
    runner: &mut FormRunner<M>,
) -> Result<u32, Fail> {
    runner.reserve(ROOM)?;
    let mut count: u32 = 0;
    for _ in 0..ROOM {
        match fire_next(rt, runner)? {
            Some(true) => count = count.saturating_add(1),
            Some(false) => {}
            None => return Ok(count),
        }
    }
    Err(Fail::new("the run does not end"))
}

// The same for the run of a text on a machine with nothing in it.
fn frugal_firings_on<M: Machine + Drop>(
    rt: &(impl Abort + AllocGlobal),
    machine: M,
    text: &str,
) -> Result<u32, Fail>
    requires state { M.state machine ≡ empty }
    requires marked { M.marked machine ≡ None }
{
    let mut runner = begun_on(rt, machine, text, 0, "t")?;
    let count = frugal_firings(rt, &mut runner);
    drop(runner);
    count
}

// All that fires at `wait`, `case`, `recv`, `acquire`, `release`, `close` and `fwd` counts, and nothing else.
#[test]
fn frugal_firings_in_room(rt: HostRuntime) -> Result<(), Fail> {
    for (text, wanted) in [(ONCE, 3), (OPPOSITE, 13), (FORWARD, 12)] {
        assert_eq!(rt;
            frugal_firings_on(&rt, IndexedState::empty(rt.alloc()), text)?,
            wanted
        );
        assert_eq!(rt;
            frugal_firings_on(&rt, PlainState::empty(rt.alloc()), text)?,
            wanted
        );
    }
    Ok(())
}
