//! Tests: texts that are loaded, and saved as the same text, and texts that are not loaded.

use crate::accepted_texts::accepted_of;
use crate::load_answer::{Answer, answer_of};
use crate::saved_contracts::{
    AUCTION, AUCTION_BIDDEN, AUCTION_STARTED, BOX, BOX_BEGIN, BOX_LEDGER, CELLS, CELLS_LEDGER,
    CROSSED_LEDGER, CROSSING, GIFT, GIFT_LEDGER, HALVES, HELD_LEDGER, HOLDERS, IDLE, IDLE_LEDGER,
};
use nomos_types::accepted::Accepted;
use std::alloc::{AllocError, Global};
use std::process::Abort;
use std::test::Fail;

// Asserts what is answered of texts of an accepted contract.
fn assert_answers_on<R: Abort + AllocGlobal>(
    rt: &R,
    accepted: &Accepted,
    texts: &[(&str, Answer)],
) -> Result<(), Fail> {
    for case in texts {
        let (text, wanted) = *case;
        let answer = answer_of(rt.alloc(), accepted, text.as_bytes())?;
        assert!(rt; answer == wanted, "{text}");
    }
    Ok(())
}

// The same, where the contract is a text.
fn assert_answers<R: Abort + AllocGlobal>(
    rt: &R,
    contract: &str,
    texts: &[(&str, Answer)],
) -> Result<(), Fail> {
    let accepted = accepted_of(rt, contract);
    assert_answers_on(rt, &accepted, texts)
}

/// Texts of the contract that does nothing: lines that are missing, may not stand there or have numbers over their
/// bounds; next numbers from 0 on; gas that is too much; a transaction that is left.
const IDLE_TEXTS: [(&str, Answer); 24] = [
    (IDLE_LEDGER, Answer::Loaded),
    (
        "nomos-ledger 1\nunit 1\nnext 2 2\nspent 0\naccount u 05\n",
        Answer::BadLine(5),
    ),
    ("", Answer::BadLine(1)),
    ("nomos-ledger 1\n", Answer::BadLine(2)),
    (
        "nomos-ledger 1\nunit 2\nnext 2 2\nspent 0\n",
        Answer::BadLine(2),
    ),
    (
        "nomos-ledger 1\nnext 2 2\nunit 1\nspent 0\n",
        Answer::BadLine(2),
    ),
    (
        "nomos-ledger 1\nunit 1\nnext 1 0\nspent 0\n",
        Answer::Loaded,
    ),
    (
        "nomos-ledger 1\nunit 1\nnext 0 1\nspent 0\n",
        Answer::NotTyped,
    ),
    (
        "nomos-ledger 1\nunit 1\nnext 2147483648 2147483648\nspent 0\n",
        Answer::Loaded,
    ),
    (
        "nomos-ledger 1\nunit 1\nnext 2147483649 2\nspent 0\n",
        Answer::BadLine(3),
    ),
    (
        "nomos-ledger 1\nunit 1\nnext 2 2147483649\nspent 0\n",
        Answer::BadLine(3),
    ),
    (
        "nomos-ledger 1\nunit 1\nnext 2 2\nspent 0",
        Answer::BadLine(4),
    ),
    (
        "nomos-ledger 1\nunit 1\nnext 2 2\nspent 0\r\n",
        Answer::BadLine(4),
    ),
    (
        "nomos-ledger 1\nunit 1\nnext 2 2\nspent 39614081257132168796771975167\n",
        Answer::Gas(39614081257132168796771975167),
    ),
    (
        "nomos-ledger 1\nunit 1\nnext 2 2\nspent 39614081257132168796771975168\n",
        Answer::BadLine(4),
    ),
    (
        "nomos-ledger 1\nunit 1\nnext 2 2\nspent 18446744073709551615\n",
        Answer::Loaded,
    ),
    (
        "nomos-ledger 1\nunit 1\nnext 2 2\nspent 18446744073709551616\n",
        Answer::Gas(18446744073709551616),
    ),
    (
        "nomos-ledger 1\nunit 1\nnext 2 2\nspent 0\n\n",
        Answer::BadLine(5),
    ),
    (
        "nomos-ledger 1\nunit 1\nnext 2 2\nspent 0\naccount u 5\naccount u 5\n",
        Answer::BadLine(6),
    ),
    (
        "nomos-ledger 1\nunit 1\nnext 2 2\nspent 0\naccount u 5\naccount v 18446744073709551611\n",
        Answer::Gas(18446744073709551616),
    ),
    (
        "nomos-ledger 1\nunit 1\nnext 2 2\nspent 0\ncontract c 1\n",
        Answer::NotTyped,
    ),
    (
        "nomos-ledger 1\nunit 1\nnext 2 2\nspent 0\ncontract c 1\naccount u 5\n",
        Answer::BadLine(6),
    ),
    (
        "nomos-ledger 1\nunit 1\nnext 2 2\nspent 0\naccount u 0\nname 1 0\n\
         process 1 T 0 offers 1 base - purse 0 payer 0\n",
        Answer::NotTyped,
    ),
    (
        "nomos-ledger 1\nunit 1\nnext 2 2\nspent 0\naccount u 0\nname 1 0\n\
         process 1 T 0 offers 1 base - purse 5 payer 0\nchan 2 1\nvalue 1 0\n",
        Answer::BadLine(9),
    ),
];

#[test]
fn a_contract_that_does_nothing(rt: HostRuntime) -> Result<(), Fail> {
    assert_answers(&rt, IDLE, &IDLE_TEXTS)
}

/// Gas of whole units, and one part more.
const HALVES_TEXTS: [(&str, Answer); 2] = [
    (
        "nomos-ledger 1\nunit 2\nnext 1 1\nspent 0\naccount u 6\n",
        Answer::Loaded,
    ),
    (
        "nomos-ledger 1\nunit 2\nnext 1 1\nspent 0\naccount u 5\n",
        Answer::Gas(5),
    ),
];

#[test]
fn gas_is_whole_units(rt: HostRuntime) -> Result<(), Fail> {
    assert_answers(&rt, HALVES, &HALVES_TEXTS)
}

/// Contracts by themselves: without a process, with a name 0, with a process that is ready, without an account.
const CELLS_TEXTS: [(&str, Answer); 6] = [
    (CELLS_LEDGER, Answer::Loaded),
    (
        "nomos-ledger 1\nunit 1\nnext 2 2\nspent 0\naccount u 0\ncontract p 1\nname 1 3\n",
        Answer::NotTyped,
    ),
    (
        "nomos-ledger 1\nunit 1\nnext 2 1\nspent 0\naccount u 0\ncontract z 0\nname 0 3\n\
         process 1 S 2 offers 0 base - purse 0 payer 0\n",
        Answer::Loaded,
    ),
    (
        "nomos-ledger 1\nunit 1\nnext 2 2\nspent 0\naccount u 0\nname 1 3\n\
         process 1 S 0 offers 1 base - purse 0 payer 0\n",
        Answer::NotQuiet(1),
    ),
    (
        "nomos-ledger 1\nunit 1\nnext 9 9\nspent 0\naccount u 0\nname 1 3\nname 2 3\n\
         process 1 S 2 offers 1 base - purse 0 payer 0\nprocess 7 S 0 offers 2 base - purse 0 payer 0\n",
        Answer::NotQuiet(7),
    ),
    (
        "nomos-ledger 1\nunit 1\nnext 2 2\nspent 0\ncontract p 1\nname 1 3\n\
         process 1 S 2 offers 1 base - purse 0 payer 0\n",
        Answer::NotTyped,
    ),
];

#[test]
fn contracts_by_themselves(rt: HostRuntime) -> Result<(), Fail> {
    assert_answers(&rt, CELLS, &CELLS_TEXTS)?;
    assert_answers(&rt, HOLDERS, &[(HELD_LEDGER, Answer::Loaded)])
}

#[test]
fn an_auction(rt: HostRuntime) -> Result<(), Fail> {
    assert_answers(
        &rt,
        AUCTION,
        &[
            (AUCTION_STARTED, Answer::Loaded),
            (AUCTION_BIDDEN, Answer::Loaded),
        ],
    )
}

#[test]
fn messages_that_wait(rt: HostRuntime) -> Result<(), Fail> {
    assert_answers(&rt, GIFT, &[(GIFT_LEDGER, Answer::Loaded)])?;
    assert_answers(&rt, CROSSING, &[(CROSSED_LEDGER, Answer::Loaded)])?;
    assert_answers(&rt, BOX, &[(BOX_LEDGER, Answer::Loaded)])
}

/// What may stand behind the box, and what is then answered.
const BOX_LINES: [(&str, Answer); 7] = [
    ("list 0 2 [7,5]\n", Answer::Loaded),
    ("list 0 18446744073709551616 [7,5]\n", Answer::NotTyped),
    ("list 0 18446744073709551616 []\n", Answer::NotTyped),
    (
        "list 0 18446744073709551616 []\nlist 0 2 []\n",
        Answer::BadLine(10),
    ),
    ("list 0 3 [7]\n", Answer::NotTyped),
    ("list 0 2 [7,5,1]\n", Answer::NotTyped),
    ("value 0 1\n", Answer::NotTyped),
];

// The box with this behind it.
fn box_with(alloc: Global, lines: &str) -> Result<String, AllocError> {
    format!(in alloc; "{BOX_BEGIN}{lines}")
}

// Asserts what is answered of the box with these lines behind it.
fn assert_boxes<R: Abort + AllocGlobal>(rt: &R, accepted: &Accepted) -> Result<(), Fail> {
    for (lines, wanted) in BOX_LINES {
        let text = box_with(rt.alloc(), lines)?;
        let answer = answer_of(rt.alloc(), accepted, text.as_bytes())?;
        assert!(rt; answer == wanted, "{lines}");
    }
    Ok(())
}

#[test]
fn lists_that_carry_potential(rt: HostRuntime) -> Result<(), Fail> {
    let accepted = accepted_of(&rt, BOX);
    assert_boxes(&rt, &accepted)
}

// The box with a value in which so many lists stand in one another.
fn box_nested(alloc: Global, depth: usize) -> Result<String, AllocError> {
    let mut text = box_with(alloc, "value 0 ")?;
    for _ in 0..depth {
        text.push('[')?;
    }
    for _ in 0..depth {
        text.push(']')?;
    }
    text.push('\n')?;
    Ok(text)
}

// Asserts what is answered of the box with nested lists.
fn assert_nested<R: Abort + AllocGlobal>(rt: &R, accepted: &Accepted) -> Result<(), Fail> {
    for (depth, wanted) in [(256, Answer::NotTyped), (257, Answer::BadLine(9))] {
        let text = box_nested(rt.alloc(), depth)?;
        let answer = answer_of(rt.alloc(), accepted, text.as_bytes())?;
        assert!(rt; answer == wanted, "{depth}");
    }
    Ok(())
}

#[test]
fn lists_in_one_another(rt: HostRuntime) -> Result<(), Fail> {
    let accepted = accepted_of(&rt, BOX);
    assert_nested(&rt, &accepted)
}
