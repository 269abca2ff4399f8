//! Tests: lines that are read and written back byte for byte, and texts that are no lines.

use crate::programs::example_program;
use nomos_ir::program::Program;
use nomos_snapshot::line::SnapshotLine;
use nomos_snapshot::line_reader::LineReader;
use nomos_snapshot::line_writing::push_line;
use std::alloc::{AllocError, Global};
use std::process::Abort;
use std::test::Fail;

/// Lines of every kind.
const LINES: [&str; 22] = [
    "nomos-ledger 1",
    "unit 1",
    "next 2 2147483648",
    "spent 39614081257132168796771975167",
    "account u 5",
    "contract wa 4294967295",
    "name 4 3",
    "process 3 S 0 offers 3 base - purse 0 payer 0",
    "process 4 L 0 offers 4 base 3 purse 17 payer 1",
    "value 1 0",
    "value 1 -9223372036854775808",
    "value 2 true",
    "value 3 [[],[1,-2],[3]]",
    "list 3 18446744073709551616 [true]",
    "list 3 2 []",
    "chan 5 1",
    "message 9 client 4 5 label ok purse 0",
    "message 9 provider 4 5 value [9223372036854775807] purse 2",
    "message 9 client 4 - channel 7 purse 0",
    "message 9 provider 4 - pay purse 3",
    "message 9 client 4 - close purse 0",
    "next 1 0",
];

/// Texts that are none.
const OTHERS: [&str; 26] = [
    "",
    "nomos-ledger 2",
    "unit 01",
    "unit  1",
    "unit 1 ",
    " unit 1",
    "next 2 2147483649",
    "spent 39614081257132168796771975168",
    "account u 05",
    "account 5u 5",
    "contract wa 4294967296",
    "name 4 4",
    "process 3 S 1 offers 3 base - purse 0 payer 0",
    "process 3 X 0 offers 3 base - purse 0 payer 0",
    "process 3 S 0 offers 3 base - purse 0",
    "value 1 -0",
    "value 1 9223372036854775808",
    "value 1 [1,]",
    "value 1 [1]2",
    "value 1 [[1]",
    "list 3 2 true",
    "chan 5",
    "message 9 client 4 5 label no purse 0",
    "message 9 client 4 5 pay 1 purse 0",
    "message 9 user 4 5 pay purse 0",
    "Unit 1",
];

// Whether a line is written so.
fn is_written_so(
    alloc: Global,
    program: &Program,
    line: &SnapshotLine,
    text: &str,
) -> Result<bool, AllocError> {
    let mut written = Vec::new(alloc);
    push_line(&mut written, program, line)?;
    Ok(written.pop() == Some(b'\n') && written.as_slice() == text.as_bytes())
}

// Whether a text is read as a line that is written so, by a reader of a program's lines.
fn comes_back_by(
    alloc: Global,
    reader: &LineReader<'_>,
    program: &Program,
    text: &str,
) -> Result<bool, AllocError> {
    match reader.read(alloc, text.as_bytes())? {
        Some(line) => is_written_so(alloc, program, &line, text),
        None => Ok(false),
    }
}

// The same, where the reader is made for it.
fn comes_back(alloc: Global, program: &Program, text: &str) -> Result<bool, AllocError> {
    let reader = LineReader::of(alloc, program)?;
    comes_back_by(alloc, &reader, program, text)
}

// Asserts whether texts come back.
fn assert_come_back<R: Abort + AllocGlobal>(
    rt: &R,
    program: &Program,
    texts: &[&str],
    wanted: bool,
) -> Result<(), Fail> {
    for text in texts {
        let found = comes_back(rt.alloc(), program, text)?;
        assert!(rt; found == wanted, "{text}");
    }
    Ok(())
}

#[test]
fn lines_come_back(rt: HostRuntime) -> Result<(), Fail> {
    let program = example_program(rt.alloc())?;
    assert_come_back(&rt, &program, &LINES, true)
}

#[test]
fn other_texts_are_no_lines(rt: HostRuntime) -> Result<(), Fail> {
    let program = example_program(rt.alloc())?;
    assert_come_back(&rt, &program, &OTHERS, false)
}
