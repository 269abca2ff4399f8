//! Tests: talks that are held, line by line.

use crate::holding::tell;
use crate::opening::TestParty;
use crate::talk_contracts::{COINS, GATE, HALVES, VALUES};
use std::process::Abort;
use std::test::Fail;

// A contract, the Dths of the party's account, the declaration, how many firings may be made, the talk, and what is
// told of it.
type TalkCase<'a> = (&'a str, u64, &'a str, u32, &'a str, &'a str);

const MILLION: u32 = 1_000_000;

// Fails unless this is told of these talks.
fn expect_talks<R: Abort + AllocGlobal>(rt: &R, table: &[TalkCase<'_>]) -> Result<(), Fail> {
    for (contract, dths, proc, firings, talk, told) in table {
        let party = TestParty {
            dths: *dths,
            proc,
            account: 0,
        };
        let found = tell(rt, contract, party, talk, *firings);
        assert_eq!(rt; str::from_utf8(&found)?, *told);
    }
    Ok(())
}

// Labels, values and closes; what may not be said; and a forward of the outside name.
const COIN_TALKS: [TalkCase<'static>; 6] = [
    (
        COINS,
        0,
        "five",
        MILLION,
        "label value\nhear\nhear\nlabel burn",
        "opened\n1 said\n2 heard value 5\n3 heard nothing\n4 protocol\n",
    ),
    (
        COINS,
        0,
        "five",
        MILLION,
        "label melt\nhear\nhear\nlabel melt",
        "opened\n1 said\n2 heard closed\n3 heard nothing\n4 protocol\n",
    ),
    (COINS, 0, "five", MILLION, "value 5", "opened\n1 protocol\n"),
    (COINS, 0, "five", MILLION, "\npay", "opened\n2 protocol\n"),
    (
        COINS,
        0,
        "five",
        MILLION,
        "label value\nhear\nlabel value\nhear\nlabel melt",
        "opened\n1 said\n2 heard value 5\n3 said\n4 heard value 5\n5 said\n",
    ),
    (
        COINS,
        0,
        "by",
        MILLION,
        "label value\nhear\nlabel melt\nhear",
        "opened\n1 said\n2 heard value 7\n3 said\n4 heard closed\n",
    ),
];

// What is paid and heard, at whole units and at halves; and an account that has too little.
const PAID_TALKS: [TalkCase<'static>; 4] = [
    (
        GATE,
        4,
        "open",
        MILLION,
        "pay\nhear\nvalue 7\nhear\nhear\nhear\nvalue 1",
        "opened\n1 said\n2 heard label yes\n3 said\n4 heard paid 2\n5 heard closed\n6 heard nothing\n7 protocol\n",
    ),
    (GATE, 9, "open", MILLION, "value 7", "opened\n1 protocol\n"),
    (
        GATE,
        3,
        "open",
        MILLION,
        "pay",
        "opened\n1 gas has 2 needs 3\n",
    ),
    (
        HALVES,
        2,
        "g",
        MILLION,
        "hear\nhear",
        "opened\n1 heard paid 1/2\n2 heard closed\n",
    ),
];

// Values of each kind; faults; and firings that are no more than may be made.
const VALUE_TALKS: [TalkCase<'static>; 9] = [
    (
        VALUES,
        0,
        "divide",
        MILLION,
        "value 3\nhear\nhear",
        "opened\n1 said\n2 heard value 3\n3 heard closed\n",
    ),
    (
        VALUES,
        0,
        "divide",
        MILLION,
        "value 0\nhear",
        "opened\n1 said\naborted 1 DivideByZero\n",
    ),
    (
        VALUES,
        0,
        "divide",
        2,
        "value 0",
        "opened\n1 said\naborted 1 DivideByZero\n",
    ),
    (VALUES, 0, "divide", 1, "value 0", "opened\n1 said\nsteps\n"),
    (
        VALUES,
        0,
        "divide",
        MILLION,
        "value true",
        "opened\n1 protocol\n",
    ),
    (VALUES, 0, "loop", 1_000, "hear", "opened\nsteps\n"),
    (
        VALUES,
        0,
        "echo",
        MILLION,
        "value [1,2]\nhear\nvalue false\nhear\nhear",
        "opened\n1 said\n2 heard value [1,2]\n3 said\n4 heard value true\n5 heard closed\n",
    ),
    (
        VALUES,
        0,
        "echo",
        MILLION,
        "value []\nhear\nvalue []",
        "opened\n1 said\n2 heard value []\n3 protocol\n",
    ),
    (
        VALUES,
        0,
        "echo",
        MILLION,
        "value [[1]]",
        "opened\n1 protocol\n",
    ),
];

#[test]
fn talks_are_held(rt: HostRuntime) -> Result<(), Fail> {
    expect_talks(&rt, &COIN_TALKS)?;
    expect_talks(&rt, &PAID_TALKS)?;
    expect_talks(&rt, &VALUE_TALKS)
}
