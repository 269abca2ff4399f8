//! Tests of what no clause says: that the calls succeed where memory is found, and examples from outside.

ghost use Rattle.std.specs.Prelude.{◌<◌, IsOk, IsErrOf, Some, None};

use nomos_base::{
    MemorySink, MemorySource, ReadError, Sink, Source, SureSink, SureSource, WriteError, push_gas,
    read_all, write_all,
};
use std::alloc::{AllocError, Global};
use std::test::Fail;

// A source that never fails is read without a fault.
fn read_sure(alloc: Global, source: &mut SureSource, limit: usize) -> Result<Vec<u8>, ReadError>
    ensures { ¬ IsErrOf result ReadError.ReadFault }
{
    read_all(alloc, source, limit)
}

// A sink that never fails takes everything.
fn write_sure(sink: &mut SureSink, bytes: &[u8]) -> Result<(), WriteError>
    ensures { IsOk result }
{
    write_all(sink, bytes)
}

// A source of which two calls fail at most. A call 0 is never made.
fn source_of(
    alloc: Global,
    bytes: &str,
    piece: usize,
    failing: (u64, u64),
) -> Result<MemorySource, AllocError> {
    let bytes = Vec::from_slice(alloc, bytes.as_bytes())?;
    let failing = vec![in alloc; failing.0, failing.1]?;
    Ok(MemorySource::new(bytes, piece.max(1), failing))
}

// What is read of a source, or why it is not read.
fn read_answer(alloc: Global, source: &mut MemorySource, limit: usize) -> Result<String, Fail> {
    match read_all(alloc, source, limit) {
        Ok(bytes) => Ok(String::from_str(alloc, str::from_utf8(&bytes)?)?),
        Err(error) => Ok(format!(in alloc; "{error:?}")?),
    }
}

// What is read of a source, what is left, and how many reads failed.
fn source_text(alloc: Global, source: &mut MemorySource, limit: usize) -> Result<String, Fail> {
    let answer = read_answer(alloc, source, limit)?;
    let left = str::from_utf8(source.left())?;
    Ok(format!(in alloc; "{answer}, left {left}, {} faults", source.faults())?)
}

// What is read of these bytes in pieces.
fn read_text(
    alloc: Global,
    bytes: &str,
    piece: usize,
    failing: (u64, u64),
    limit: usize,
) -> Result<String, Fail> {
    let mut source = source_of(alloc, bytes, piece, failing)?;
    source_text(alloc, &mut source, limit)
}

#[test]
fn reads_no_more_than_the_limit(rt: HostRuntime) -> Result<(), Fail> {
    let table = [
        ("", 0, ", left , 0 faults"),
        ("", 3, ", left , 0 faults"),
        ("abc", 3, "abc, left , 0 faults"),
        ("abcd", 3, "TooLong, left , 0 faults"),
        ("a", 0, "TooLong, left , 0 faults"),
        ("abcdefg", 3, "TooLong, left efg, 0 faults"),
        ("abcd", usize::MAX, "abcd, left , 0 faults"),
    ];
    for (bytes, limit, wanted) in table {
        for piece in [1usize, 3, 4] {
            let found = read_text(rt.alloc(), bytes, piece, (0, 0), limit)?;
            assert_eq!(rt; found.as_str(), wanted);
        }
    }
    Ok(())
}

#[test]
fn reads_up_to_a_failing_call(rt: HostRuntime) -> Result<(), Fail> {
    let table = [
        (1usize, (3, 0), "ReadFault, left cd, 1 faults"),
        (3, (3, 0), "ReadFault, left , 1 faults"),
        (4, (3, 0), "abcd, left , 0 faults"),
        (1, (1, 0), "ReadFault, left abcd, 1 faults"),
        (3, (9, 2), "ReadFault, left d, 1 faults"),
        (4, (0, 0), "abcd, left , 0 faults"),
    ];
    for (piece, failing, wanted) in table {
        let found = read_text(rt.alloc(), "abcd", piece, failing, 9)?;
        assert_eq!(rt; found.as_str(), wanted);
    }
    Ok(())
}

// Whether a write of `abcd` fails, and then one of nothing, what was written, and how many writes failed.
fn sink_text(alloc: Global, sink: &mut MemorySink) -> Result<String, Fail> {
    let fails = write_all(sink, b"abcd").is_err();
    let nothing_fails = write_all(sink, b"").is_err();
    let written = str::from_utf8(sink.written())?;
    Ok(format!(in alloc; "{fails} {nothing_fails} {written} {}", sink.faults())?)
}

// What is written in pieces, where there is room for so many bytes and one call fails.
fn write_text(alloc: Global, room: usize, piece: usize, call: u64) -> Result<String, Fail> {
    let failing = vec![in alloc; call]?;
    let mut sink = MemorySink::new(alloc, room, piece.max(1), failing)?;
    sink_text(alloc, &mut sink)
}

#[test]
fn writes_up_to_a_failing_call(rt: HostRuntime) -> Result<(), Fail> {
    let table = [
        (9usize, 1usize, 2u64, "true false a 1"),
        (9, 3, 2, "true false abc 1"),
        (9, 4, 2, "false false abcd 0"),
        (9, 1, 0, "false false abcd 0"),
        (4, 3, 0, "false false abcd 0"),
        (3, 4, 0, "true false abc 1"),
        (0, 1, 0, "true false  1"),
    ];
    for (room, piece, call, wanted) in table {
        let found = write_text(rt.alloc(), room, piece, call)?;
        assert_eq!(rt; found.as_str(), wanted);
    }
    Ok(())
}

#[test]
fn sure_forms_never_fail(rt: HostRuntime) -> Result<(), AllocError> {
    let bytes = vec![in rt.alloc(); 7u8; 9000]?;
    let mut source = SureSource::new(bytes);
    let Ok(read) = read_sure(rt.alloc(), &mut source, 9000) else {
        panic!(rt; "no fault and no want of memory");
    };
    assert!(rt; read.len() == 9000 && read.iter().all(|byte| *byte == 7));
    assert!(rt; source.left().is_empty());
    assert!(rt; write_sure(&mut SureSink, &read).is_ok());
    Ok(())
}

// An amount of gas behind other text.
fn gas_text(alloc: Global, dths: u128, unit: u32) -> Result<String, Fail> {
    let mut text = Vec::from_slice(alloc, b"= ")?;
    push_gas(&mut text, dths, unit)?;
    Ok(String::from_str(alloc, str::from_utf8(&text)?)?)
}

#[test]
fn writes_gas_as_a_count_or_a_fraction(rt: HostRuntime) -> Result<(), Fail> {
    let table = [
        (0, 1, "= 0"),
        (808, 1, "= 808"),
        (2, 2, "= 2/2"),
        (0, 3, "= 0/3"),
        (
            36893488147419103230,
            2147483648,
            "= 36893488147419103230/2147483648",
        ),
        (u128::MAX, 1, "= 340282366920938463463374607431768211455"),
    ];
    for (dths, unit, wanted) in table {
        let found = gas_text(rt.alloc(), dths, unit)?;
        assert_eq!(rt; found.as_str(), wanted);
    }
    Ok(())
}
