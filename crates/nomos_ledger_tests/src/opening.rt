//! How talks are opened in the tests: on a state with one account, by the name of a declaration.
ghost use Rattle.std.specs.Prelude.{◌≡◌, [], None};
ghost use Rattle.nomos_deeds.specs.Firings.{MayFire};

use nomos_accept::accepting::accept;
use nomos_deeds::talking::Talking;
use nomos_monitor::outside_talk::{TalkOpening, open_talk};
use nomos_types::accepted::Accepted;
use std::process::Abort;

/// With whom a talk is opened: how many Dths the one account has, whose number is 0; the declaration; and the number of
/// the party's account.
#[derive(Clone, Copy)]
pub(crate) struct TestParty<'a> {
    pub(crate) dths: u64,
    pub(crate) proc: &'a str,
    pub(crate) account: u32,
}

/// The acceptance of a contract.
pub(crate) fn accepted_of<R: Abort + AllocGlobal>(rt: &R, contract: &str) -> Accepted {
    match accept(rt.alloc(), contract.as_bytes()) {
        Ok(accepted) => accepted,
        Err(_) => panic!(rt; "not accepted"),
    }
}

// A state with one account, which has so many Dths.
fn machine_with<M: Talking + Drop, R: Abort + AllocGlobal>(
    rt: &R,
    accepted: &Accepted,
    dths: u64,
) -> M
    ensures may { MayFire accepted.now (M.state result) }
    ensures nobody { (M.state result).outside ≡ [] }
    ensures unmarked { M.marked result ≡ None }
{
    let mut machine: M = M::empty(rt.alloc());
    if machine.open_account(u128::from(dths)).is_err() {
        panic!(rt; "memory was wanting")
    }
    machine
}

/// The answer to one who opens a talk. Where memory is wanting, the account has to be as it was and nobody outside, and
/// it is asked once more.
pub(crate) fn opening<'a, M: Talking + Drop, R: Abort + AllocGlobal>(
    rt: &R,
    accepted: &'a Accepted,
    party: TestParty<'_>,
) -> TalkOpening<'a, M> {
    let machine: M = machine_with(rt, accepted, party.dths);
    let before = machine.balance(0);
    match open_talk(rt.alloc(), accepted, machine, party.proc, party.account) {
        TalkOpening::NoMemory(machine) => {
            assert!(rt; machine.balance(0) == before && machine.outside().is_none());
            open_talk(rt.alloc(), accepted, machine, party.proc, party.account)
        }
        answer => answer,
    }
}
