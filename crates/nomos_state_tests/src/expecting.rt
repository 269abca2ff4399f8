//! How a run is made in the tests, and what is wanted of it.
ghost use Rattle.std.specs.Prelude.{◌≡◌, None};
ghost use Rattle.nomos_machine.specs.State.{empty};

use crate::runner::FormRunner;
use nomos_accept::accepting::accept;
use nomos_deeds::fire::Fire;
use nomos_deeds::machine::Machine;
use nomos_ir::fault::Fault;
use nomos_plain::plain::PlainState;
use std::process::Abort;
use std::test::Fail;

// A run on the plain form.
pub(crate) type PlainRunner = FormRunner<PlainState>;

// Opens an account with so many Dths, which starts the transaction of a name.
fn begin<M: Machine>(
    rt: &(impl Abort + AllocGlobal),
    runner: &mut FormRunner<M>,
    dths: u64,
    name: &str,
) -> Result<(), Fail> {
    let opened = runner.deposit(dths)?;
    let started = runner.exec(rt.alloc(), name, 0)?;
    assert_eq!(rt; opened, Some(0));
    assert_eq!(rt; started, Some(1), "{name} is not started");
    Ok(())
}

// A run of a contract text on a machine with nothing in it, in which an account with so many Dths has started the
// transaction of a name.
pub(crate) fn begun_on<M: Machine + Drop>(
    rt: &(impl Abort + AllocGlobal),
    machine: M,
    text: &str,
    dths: u64,
    name: &str,
) -> Result<FormRunner<M>, Fail>
    requires state { M.state machine ≡ empty }
    requires marked { M.marked machine ≡ None }
{
    let accepted = accept(rt.alloc(), text.as_bytes())?;
    let mut runner = FormRunner::new(accepted, machine);
    match begin(rt, &mut runner, dths, name) {
        Ok(()) => Ok(runner),
        Err(fail) => {
            drop(runner);
            Err(fail)
        }
    }
}

// The same on the plain form.
pub(crate) fn begun(
    rt: &(impl Abort + AllocGlobal),
    text: &str,
    dths: u64,
    name: &str,
) -> Result<PlainRunner, Fail> {
    begun_on(rt, PlainState::empty(rt.alloc()), text, dths, name)
}

// Fails unless the lowest ready process is this one, and it makes its step.
pub(crate) fn expect_lowest<M: Machine>(
    rt: &(impl Abort + AllocGlobal),
    runner: &mut FormRunner<M>,
    pid: u32,
) -> Result<(), Fail> {
    match runner.fire_lowest(rt.alloc())? {
        Some((fired, Fire::Fired)) => assert_eq!(rt; fired, pid),
        Some((other, Fire::Faulted(fault))) => assert!(rt; false, "{other} has {fault:?}"),
        None => assert!(rt; false, "none is ready, where {pid} was wanted"),
    }
    Ok(())
}

// Fails unless the lowest ready process is this one, and it has this fault.
pub(crate) fn expect_fault(
    rt: &(impl Abort + AllocGlobal),
    runner: &mut PlainRunner,
    pid: u32,
    wanted: Fault,
) -> Result<(), Fail> {
    assert_eq!(rt; runner.fault(rt.alloc(), pid)?, Some(wanted));
    match runner.fire_lowest(rt.alloc())? {
        Some((faulty, Fire::Faulted(fault))) => {
            assert_eq!(rt; faulty, pid);
            assert_eq!(rt; fault, wanted);
        }
        _ => assert!(rt; false, "{pid} makes its step"),
    }
    Ok(())
}

// Fails unless these numbers were emitted, each by the process of its number.
pub(crate) fn expect_results(rt: &impl Abort, runner: &PlainRunner, wanted: &[(u32, i64)]) {
    for (place, result) in wanted.iter().enumerate() {
        assert_eq!(rt; runner.result(place), Some(*result));
    }
    assert_eq!(rt; runner.result_count(), wanted.len());
}

// Fails unless no process is ready, so many Dths are spent, and these numbers were emitted.
pub(crate) fn expect_end(
    rt: &impl Abort,
    runner: &PlainRunner,
    spent: u128,
    results: &[(u32, i64)],
) {
    assert!(rt; runner.lowest().is_none());
    assert_eq!(rt; runner.spent(), spent);
    expect_results(rt, runner, results);
}
