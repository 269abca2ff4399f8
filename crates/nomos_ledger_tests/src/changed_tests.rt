//! Tests: texts that were changed at any byte, or at numbers alone, are refused, or loaded and saved as they are, as
//! often as an independent program answers so of the same texts.
ghost use Rattle.std.specs.Prelude.{◌<◌, ◌≤◌, vec_len};

use crate::accepted_texts::accepted_of;
use crate::load_answer::{Answer, answer_of};
use crate::saved_contracts::{
    AUCTION, AUCTION_BIDDEN, BOX, BOX_LEDGER, CROSSED_LEDGER, CROSSING, GIFT, GIFT_LEDGER,
};
use nomos_types::accepted::Accepted;
use std::alloc::{AllocError, Global};
use std::process::Abort;
use std::test::Fail;

/// Numbers that look as if by chance, and are always the same.
#[derive(Drop)]
struct Dice {
    state: u64,
}

impl Dice {
    // A number below this one.
    fn roll(&mut self, sides: usize) -> usize
        requires { 0 < sides }
        ensures { result < sides }
    {
        self.state = self
            .state
            .wrapping_mul(6364136223846793005)
            .wrapping_add(1442695040888963407);
        (self.state >> 33) as usize % sides
    }
}

/// What is put into texts.
const LETTERS: &[u8; 20] = b"0123456789 \n-[],RSLT";

// How many of the letters may stand in the place of this one: in that of a digit, the digits.
fn letters_for(old: u8) -> usize
    ensures some { 0 < result }
    ensures few { result ≤ 20 }
{
    if old.is_ascii_digit() { 10 } else { 20 }
}

// One of the letters.
fn letter_for(dice: &mut Dice, old: u8) -> u8 {
    LETTERS[dice.roll(letters_for(old))]
}

// Changes one byte of a text, leaves one out, or puts one in.
fn change(text: &mut Vec<u8>, dice: &mut Dice) -> Result<(), AllocError>
    requires { 0 < vec_len text.old }
{
    let place = dice.roll(text.len());
    let letter = letter_for(dice, text[place]);
    match dice.roll(6) {
        0 => {
            text.remove(place);
        }
        1 => text.insert(place, letter)?,
        _ => text[place] = letter,
    }
    Ok(())
}

// The first digit from a place on that stands behind the second blank of its line. No order hangs on such a digit.
fn free_digit(text: &[u8], from: usize) -> Option<usize> {
    let mut blanks: usize = 0;
    for (place, byte) in text.iter().enumerate() {
        match *byte {
            b'\n' => blanks = 0,
            b' ' => blanks = blanks.saturating_add(1),
            other => {
                if place >= from && blanks > 1 && other.is_ascii_digit() {
                    return Some(place);
                }
            }
        }
    }
    None
}

// Another digit.
fn other_digit(dice: &mut Dice, old: u8) -> u8 {
    let more = dice.roll(9) as u8;
    let digit = old.wrapping_sub(b'0').wrapping_add(more).wrapping_add(1) % 10;
    digit.wrapping_add(b'0')
}

// Puts a byte at a place of a text.
fn put(text: &mut [u8], place: usize, byte: u8) {
    if let Some(old) = text.get_mut(place) {
        *old = byte;
    }
}

// Puts another digit in the place of one, or lets two that differ change places.
fn exchange(text: &mut [u8], places: (usize, usize), dice: &mut Dice) {
    let (Some(first), Some(second)) = (text.get(places.0).copied(), text.get(places.1).copied())
    else {
        return;
    };
    if first == second || dice.roll(2) == 0 {
        put(text, places.0, other_digit(dice, first));
    } else {
        put(text, places.0, second);
        put(text, places.1, first);
    }
}

// Changes numbers of a text on which no order hangs.
fn change_numbers(text: &mut Vec<u8>, dice: &mut Dice)
    requires { 0 < vec_len text.old }
{
    let from = dice.roll(text.len());
    let to = dice.roll(text.len());
    if let Some(first) = free_digit(text, from) {
        if let Some(second) = free_digit(text, to) {
            exchange(text, (first, second), dice);
        }
    }
}

/// How a text is changed.
#[derive(Clone, Copy, PartialEq, Eq, Debug)]
enum ChangeWay {
    Anywhere,
    /// Where mostly its form stays.
    AtNumbers,
}

/// How often what was answered.
#[derive(Clone, Copy, PartialEq, Eq, Debug)]
struct Counts {
    loaded: u32,
    bad_line: u32,
    not_typed: u32,
    not_quiet: u32,
    others: u32,
}

/// Nothing yet.
const NONE: Counts = Counts {
    loaded: 0,
    bad_line: 0,
    not_typed: 0,
    not_quiet: 0,
    others: 0,
};

impl Counts {
    fn note(&mut self, answer: Answer) {
        match answer {
            Answer::Loaded => self.loaded = self.loaded.saturating_add(1),
            Answer::BadLine(_) => self.bad_line = self.bad_line.saturating_add(1),
            Answer::NotTyped => self.not_typed = self.not_typed.saturating_add(1),
            Answer::NotQuiet(_) => self.not_quiet = self.not_quiet.saturating_add(1),
            _ => self.others = self.others.saturating_add(1),
        }
    }
}

// A text that was changed.
fn changed(
    alloc: Global,
    text: &str,
    way: ChangeWay,
    dice: &mut Dice,
) -> Result<Vec<u8>, AllocError> {
    let mut changed = text.as_bytes().to_vec(alloc)?;
    if changed.len() > 0 {
        match way {
            ChangeWay::Anywhere => change(&mut changed, dice)?,
            ChangeWay::AtNumbers => change_numbers(&mut changed, dice),
        }
    }
    Ok(changed)
}

// What is answered of a text that was changed.
fn changed_answer(
    alloc: Global,
    accepted: &Accepted,
    text: &str,
    way: ChangeWay,
    dice: &mut Dice,
) -> Result<Answer, AllocError> {
    let changed = changed(alloc, text, way, dice)?;
    answer_of(alloc, accepted, changed.as_slice())
}

// What is answered of so many changes of a text.
fn counts_on(
    alloc: Global,
    accepted: &Accepted,
    text: &str,
    way: ChangeWay,
    times: u32,
) -> Result<Counts, AllocError> {
    let mut dice = Dice { state: 70 };
    let mut counts = NONE;
    for _ in 0..times {
        counts.note(changed_answer(alloc, accepted, text, way, &mut dice)?);
    }
    Ok(counts)
}

// The same, where the contract is a text.
fn counts_of<R: Abort + AllocGlobal>(
    rt: &R,
    texts: (&str, &str),
    way: ChangeWay,
    times: u32,
) -> Result<Counts, AllocError> {
    let accepted = accepted_of(rt, texts.0);
    counts_on(rt.alloc(), &accepted, texts.1, way, times)
}

/// A contract, a ledger of it, how often it is changed, and what is then answered.
type ChangedCase = (&'static str, &'static str, u32, Counts);

/// Ledgers that are changed at any byte.
const ANYWHERE: [ChangedCase; 2] = [
    (
        AUCTION,
        AUCTION_BIDDEN,
        1000,
        Counts {
            loaded: 69,
            bad_line: 873,
            not_typed: 56,
            not_quiet: 2,
            others: 0,
        },
    ),
    (
        BOX,
        BOX_LEDGER,
        1000,
        Counts {
            loaded: 89,
            bad_line: 862,
            not_typed: 48,
            not_quiet: 1,
            others: 0,
        },
    ),
];

/// Ledgers of which numbers are changed.
const AT_NUMBERS: [ChangedCase; 4] = [
    (
        AUCTION,
        AUCTION_BIDDEN,
        1200,
        Counts {
            loaded: 389,
            bad_line: 216,
            not_typed: 581,
            not_quiet: 14,
            others: 0,
        },
    ),
    (
        GIFT,
        GIFT_LEDGER,
        800,
        Counts {
            loaded: 86,
            bad_line: 153,
            not_typed: 561,
            not_quiet: 0,
            others: 0,
        },
    ),
    (
        CROSSING,
        CROSSED_LEDGER,
        600,
        Counts {
            loaded: 134,
            bad_line: 115,
            not_typed: 342,
            not_quiet: 9,
            others: 0,
        },
    ),
    (
        BOX,
        BOX_LEDGER,
        600,
        Counts {
            loaded: 242,
            bad_line: 17,
            not_typed: 328,
            not_quiet: 13,
            others: 0,
        },
    ),
];

// Asserts what is answered of ledgers that are changed so.
fn assert_counts<R: Abort + AllocGlobal>(
    rt: &R,
    way: ChangeWay,
    cases: &[ChangedCase],
) -> Result<(), Fail> {
    for case in cases {
        let (contract, ledger, times, wanted) = *case;
        let counts = counts_of(rt, (contract, ledger), way, times)?;
        assert!(rt; counts == wanted, "{ledger}");
    }
    Ok(())
}

#[test]
fn ledgers_changed_anywhere(rt: HostRuntime) -> Result<(), Fail> {
    assert_counts(&rt, ChangeWay::Anywhere, &ANYWHERE)
}

#[test]
fn ledgers_changed_at_numbers(rt: HostRuntime) -> Result<(), Fail> {
    assert_counts(&rt, ChangeWay::AtNumbers, &AT_NUMBERS)
}
