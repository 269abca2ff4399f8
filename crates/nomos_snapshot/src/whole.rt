//! How the text of a snapshot is read, line by line.
ghost use Rattle.std.specs.Prelude.{◌≡◌, IfOk, IfSome, MatchResult, Ok, Err};
ghost use Rattle.nomos_ir.specs.Naming.{NamesAreShort, NamesDiffer};
ghost use Rattle.nomos_snapshot.specs.GatheredLines.{at_head, ledger_of};
ghost use Rattle.nomos_snapshot.specs.SnapshotReading.{Reads};
ghost use Rattle.nomos_snapshot.specs.mirror.Stands.{HasEnded, IsLedBy, IsStandKept};
ghost use Rattle.nomos_snapshot.specs.ToldLines.{IsKept, told};

use crate::gathered::Gathering;
use crate::line_reader::LineReader;
use crate::stand::TextStand;
use nomos_printing::splitting::split_once;
use nomos_types::accepted::Accepted;
use std::alloc::{AllocError, Global};

// What was gathered, where a text may end.
fn ended(stand: TextStand) -> Option<Gathering>
    requires { IsStandKept stand }
    ensures ended { HasEnded stand result }
    ensures kept { IfSome result IsKept }
{
    match stand {
        TextStand::Behind(gathering) => Some(gathering),
        _ => None,
    }
}

// Where a line's text leads from where a text stands.
fn led(
    alloc: Global,
    accepted: &Accepted,
    reader: &LineReader<'_>,
    stand: TextStand,
    text: &[u8],
) -> Result<Option<TextStand>, AllocError>
    requires kept { IsStandKept stand }
    requires reader { reader.now ≡ accepted.now.program }
    requires short { NamesAreShort accepted.now.program }
    requires differ { NamesDiffer accepted.now.program }
    ensures { IfOk result (IsLedBy accepted.now stand text.now) }
{
    match reader.read(alloc, text)? {
        Some(line) => stand.after(alloc, accepted.unit(), line),
        None => Ok(None),
    }
}

/// What the lines of a text told, or the number of the first line that may not stand there.
pub fn gather(
    alloc: Global,
    accepted: &Accepted,
    text: &[u8],
) -> Result<Result<Gathering, usize>, AllocError>
    ensures told { IfOk result (λ answer. MatchResult answer
        (λ g. Reads accepted.now 1 at_head text.now (Ok (ledger_of (told g))))
        (λ at. Reads accepted.now 1 at_head text.now (Err at))) }
    ensures kept { IfOk result (λ answer. IfOk answer IsKept) }
{
    let program = accepted.program();
    program.know();
    let reader = LineReader::of(alloc, program)?;
    let mut stand = TextStand::Head;
    let mut at = 1;
    let mut left = text;
    while let Some((line, rest)) = split_once(left, b'\n') {
        match led(alloc, accepted, &reader, stand, line)? {
            Some(next) => stand = next,
            None => return Ok(Err(at)),
        }
        left = rest;
        at += 1;
    }
    if !left.is_empty() {
        return Ok(Err(at));
    }
    match ended(stand) {
        Some(gathering) => Ok(Ok(gathering)),
        None => Ok(Err(at)),
    }
}
