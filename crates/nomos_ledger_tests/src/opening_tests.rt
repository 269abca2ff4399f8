//! Tests: why talks are not opened.

use crate::holding::tell;
use crate::opening::TestParty;
use crate::talk_contracts::{COINS, GATE, HALVES};
use std::test::Fail;

// A contract, the Dths of account 0, the declaration, the number of the party's account, and what is told of a talk
// that is opened so.
const OPENINGS: [(&str, u64, &str, u32, &str); 10] = [
    (COINS, 0, "five", 1, "refused NoAccount"),
    (COINS, 0, "nobody", 1, "refused NoAccount"),
    (COINS, 0, "nobody", 0, "refused NoProcess"),
    (COINS, 0, "mint", 0, "refused NoProcess"),
    (COINS, 0, "t", 0, "refused NoProcess"),
    (COINS, 0, "", 0, "refused NoProcess"),
    (COINS, 0, "swallow", 0, "refused Carries"),
    (COINS, 0, "give", 0, "refused Carries"),
    (GATE, 0, "open", 0, "refused NoGas has 0 needs 1"),
    (HALVES, 0, "g", 0, "refused NoGas has 0/2 needs 1/2"),
];

#[test]
fn refusals_come_in_their_order(rt: HostRuntime) -> Result<(), Fail> {
    for (contract, dths, proc, account, told) in OPENINGS {
        let party = TestParty {
            dths,
            proc,
            account,
        };
        let found = tell(&rt, contract, party, "hear", 1_000_000);
        assert_eq!(rt; str::from_utf8(&found)?, told);
    }
    Ok(())
}
