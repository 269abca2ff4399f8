//! How scripts are run in the tests by a crew that calls a gate, and how their journals tell the same again.
ghost use Rattle.nomos_workers.specs.Crews.{IsCrew};

use crate::told_scripts::{ToldScript, accepted_of, ran, replayed, script_of, told_of};
use nomos_run::orders::{Orders, Runner};
use nomos_workers::batch::Crew;
use nomos_workers::gate::Gate;
use std::process::Abort;
use std::sync::Wait;
use std::test::Fail;
use std::thread::Threads;

/// Two transactions each emit what they are given.
pub(crate) const SAY: &str = "proc T say(n: int;) = emit n; close;
";

/// Two transactions in one batch.
pub(crate) const TWO_SAY: &str = "deposit u 0
begin
exec u say(1;)
exec u say(2;)
end
";

/// What is told of a script on a contract, run by a crew that calls this gate.
pub(crate) fn tell<G: Gate, R: Abort + AllocGlobal + Threads + Wait + Sync>(
    rt: &R,
    texts: (&str, &str),
    crew: Crew,
    gate: &G,
) -> ToldScript
    requires { IsCrew crew }
{
    let accepted = accepted_of(rt, texts.0);
    let script = script_of(rt, texts.1);
    let orders = Orders {
        crew,
        limit: 1_000_000,
        text: true,
        result: false,
    };
    let runner = Runner { rt, gate, orders };
    told_of(rt, ran(&runner, rt.alloc(), &accepted, &script))
}

/// Fails unless the journal gives the report again.
pub(crate) fn expect_again<R: Abort + AllocGlobal>(
    rt: &R,
    texts: (&str, &str),
    told: &ToldScript,
) -> Result<(), Fail> {
    let report = replayed(rt, texts, &told.journal)?;
    assert_eq!(rt; str::from_utf8(&report)?, str::from_utf8(&told.report)?);
    Ok(())
}
