//! How the top call is made in the tests, and the texts that several of them use.
use nomos_base::{MemorySink, MemorySource};
use nomos_top::nomos;
use nomos_workers::gate::OpenGate;
use std::alloc::{AllocError, Global};
use std::process::Abort;
use std::sync::Wait;
use std::test::Fail;
use std::thread::Threads;

// The words of a line, each behind one space.
pub(crate) fn words_of(alloc: Global, line: &str) -> Result<Vec<String>, AllocError> {
    let mut words = Vec::new(alloc);
    for text in line.split(' ') {
        words.push(String::from_str(alloc, text)?)?;
    }
    Ok(words)
}

// The texts of a contract, of a script, and of a journal that is read.
pub(crate) type CallTexts<'a> = (&'a [u8], &'a [u8], &'a [u8]);

// The numbers of the calls that fail: of the three sources, of the output, and of the sink of the journal.
pub(crate) type Faults = ((u64, u64, u64), (u64, u64));

// The number of a call that is never made.
pub(crate) const NEVER: u64 = 1_000_000;

pub(crate) const NO_FAULTS: Faults = ((NEVER, NEVER, NEVER), (NEVER, NEVER));

// How bytes move: each read and write moves at most one byte more than this number, and some fail.
pub(crate) type Moves = (u16, Faults);

const EVERYTHING: usize = 4_194_304;

// A source over a text, of which one read fails.
fn source(alloc: Global, text: &[u8], piece: u16, fault: u64) -> Result<MemorySource, AllocError> {
    let bytes = Vec::from_slice(alloc, text)?;
    let failing = vec![in alloc; fault]?;
    Ok(MemorySource::new(bytes, usize::from(piece) + 1, failing))
}

// A sink of which one write fails.
fn sink(alloc: Global, piece: u16, fault: u64) -> Result<MemorySink, AllocError> {
    let failing = vec![in alloc; fault]?;
    MemorySink::new(alloc, EVERYTHING, usize::from(piece) + 1, failing)
}

// What a call reads, and what it writes.
#[derive(Drop)]
struct Sources {
    contract: MemorySource,
    script: MemorySource,
    journal_in: MemorySource,
}

#[derive(Drop)]
struct Sinks {
    out: MemorySink,
    journal_out: MemorySink,
}

// A source that is not there fails the test, as want of memory.
fn source_or_fail<R: Abort + AllocGlobal>(
    rt: &R,
    text: &[u8],
    piece: u16,
    fault: u64,
) -> MemorySource {
    match source(rt.alloc(), text, piece, fault) {
        Ok(source) => source,
        Err(_) => panic!(rt; "memory was wanting"),
    }
}

fn sink_or_fail<R: Abort + AllocGlobal>(rt: &R, piece: u16, fault: u64) -> MemorySink {
    match sink(rt.alloc(), piece, fault) {
        Ok(sink) => sink,
        Err(_) => panic!(rt; "memory was wanting"),
    }
}

// Sources over texts, whose bytes move so.
fn sources_of<R: Abort + AllocGlobal>(rt: &R, texts: CallTexts, moves: Moves) -> Sources {
    let (piece, (faults, _)) = moves;
    Sources {
        contract: source_or_fail(rt, texts.0, piece, faults.0),
        script: source_or_fail(rt, texts.1, piece, faults.1),
        journal_in: source_or_fail(rt, texts.2, piece, faults.2),
    }
}

fn sinks_of<R: Abort + AllocGlobal>(rt: &R, moves: Moves) -> Sinks {
    let (piece, (_, faults)) = moves;
    Sinks {
        out: sink_or_fail(rt, piece, faults.0),
        journal_out: sink_or_fail(rt, piece, faults.1),
    }
}

// How a call ended: the status, whether the contract was accepted, and the entries of the journal.
type CallEnd = (u8, bool, usize);

// How the call with these words ends.
fn end_of<R: AllocGlobal + Threads + Wait + Sync>(
    rt: &R,
    words: &[String],
    sources: &mut Sources,
    sinks: &mut Sinks,
) -> CallEnd {
    let ended = nomos(
        rt,
        rt.alloc(),
        words,
        &mut sources.contract,
        &mut sources.script,
        &mut sources.journal_in,
        &mut sinks.out,
        &mut sinks.journal_out,
        &OpenGate,
    );
    let end = (
        ended.status,
        ended.accepted.is_some(),
        ended.journal.entries.len(),
    );
    drop(ended);
    end
}

// How the call with the words of a line ends.
fn end_of_line<R: AllocGlobal + Threads + Wait + Sync>(
    rt: &R,
    line: &str,
    sources: &mut Sources,
    sinks: &mut Sinks,
) -> Result<CallEnd, AllocError> {
    let words = words_of(rt.alloc(), line)?;
    Ok(end_of(rt, &words, sources, sinks))
}

// How many reads and writes failed.
fn faults_text(alloc: Global, sources: &Sources, sinks: &Sinks) -> Result<String, AllocError> {
    let contract = sources.contract.faults();
    let script = sources.script.faults();
    let journal_in = sources.journal_in.faults();
    let out = sinks.out.faults();
    let journal_out = sinks.journal_out.faults();
    format!(in alloc; "({contract}, {script}, {journal_in}; {out}, {journal_out})")
}

// How a call ended, how many reads and writes failed, and what was written: to the output, and behind a line to the
// sink of the journal.
fn whole_text(alloc: Global, end: CallEnd, faults: &str, sinks: &Sinks) -> Result<String, Fail> {
    let (status, accepted, entries) = end;
    let out = str::from_utf8(sinks.out.written())?;
    let kept = str::from_utf8(sinks.journal_out.written())?;
    Ok(format!(in alloc; "{status} {accepted} {entries} {faults}\n{out}--\n{kept}")?)
}

// What a call with the words of a line comes to.
fn course_of_line<R: AllocGlobal + Threads + Wait + Sync>(
    rt: &R,
    line: &str,
    sources: &mut Sources,
    sinks: &mut Sinks,
) -> Result<String, Fail> {
    let end = end_of_line(rt, line, sources, sinks)?;
    let faults = faults_text(rt.alloc(), sources, sinks)?;
    whole_text(rt.alloc(), end, faults.as_str(), sinks)
}

// What is answered to the words of a line.
pub(crate) fn answer_in_pieces<R: Abort + AllocGlobal + Threads + Wait + Sync>(
    rt: &R,
    line: &str,
    texts: CallTexts,
    moves: Moves,
) -> Result<String, Fail> {
    let mut sources = sources_of(rt, texts, moves);
    let mut sinks = sinks_of(rt, moves);
    let answered = course_of_line(rt, line, &mut sources, &mut sinks);
    drop(sources);
    drop(sinks);
    answered
}

// Fails unless this text was wanted.
pub(crate) fn expect_text(rt: &impl Abort, found: String, wanted: &str) {
    assert_eq!(rt; found.as_str(), wanted);
}

// Fails unless this is answered to the words of a line.
pub(crate) fn expect_in_pieces<R: Abort + AllocGlobal + Threads + Wait + Sync>(
    rt: &R,
    line: &str,
    texts: CallTexts,
    moves: Moves,
    wanted: &str,
) -> Result<(), Fail> {
    let found = answer_in_pieces(rt, line, texts, moves)?;
    expect_text(rt, found, wanted);
    Ok(())
}

// The same where no read and no write fails.
pub(crate) fn expect<R: Abort + AllocGlobal + Threads + Wait + Sync>(
    rt: &R,
    line: &str,
    texts: (&str, &str, &str),
    wanted: &str,
) -> Result<(), Fail> {
    let texts = (texts.0.as_bytes(), texts.1.as_bytes(), texts.2.as_bytes());
    expect_in_pieces(rt, line, texts, (8191, NO_FAULTS), wanted)
}

// A text with a piece that is repeated.
pub(crate) fn repeated(alloc: Global, piece: &str, times: usize) -> Result<String, AllocError> {
    let mut text = String::new(alloc);
    for _ in 0..times {
        text.push_str(piece)?;
    }
    Ok(text)
}

pub(crate) const ACCEPTED: &str = "0 true 0 (0, 0, 0; 0, 0)\naccepted\nunit 1\nbound t = 0\n--\n";

pub(crate) const EMPTY_ACCEPTED: &str = "0 true 0 (0, 0, 0; 0, 0)\naccepted\nunit 1\n--\n";

pub(crate) const CUT_SHORT: &str = "1 false 0 (0, 0, 0; 0, 0)\nrefused Syntax 4\n--\n";

pub(crate) const FLIP: &str = "type R flip = +{ heads : 1 | tails : 1 };
proc R toss(;) : flip = self.heads; close;
proc T t(;) = spawn c = toss(;); case c { tails => wait c; close | heads => wait c; close };
";

// A process needs a unit of two sources that are of one type, so that each gives a half.
pub(crate) const HALVES: &str = "type R src = |{*}> 1;
proc R both(; a : src, b : src) : 1 = get a {*}; get b {*}; work {1}; wait a; wait b; close;
proc R half(;) {*} : src = pay self {*}; close;
proc T t(;) {1} = spawn a = half(;); spawn b = half(;); spawn c = both(; a, b); wait c; close;
";

pub(crate) const BIT: &str = "type R bit = +{ one : 1 };
proc R mk(;) : bit = self.one; close;
proc T t(;) = spawn x = mk(;); case x { one => wait x; close };
";
