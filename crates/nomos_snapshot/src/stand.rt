//! Where a text stands, and where a line leads from there.
ghost use Rattle.std.specs.Prelude.{◌≡◌, ◌≢◌, ◌↔◌, ℕ, IfOk, IsTrue, MatchOption};
ghost use Rattle.nomos_types.specs.Acceptance.{Acceptance};
ghost use Rattle.nomos_snapshot.specs.mirror.Stands.{IsLed, IsStandKept};
ghost use Rattle.nomos_snapshot.specs.ToldLines.{IsKept, LeadsOn};

use crate::gathered::Gathering;
use crate::line::SnapshotLine;
use std::alloc::{AllocError, Global};

/// Where a text stands.
#[derive(Drop)]
pub(crate) enum TextStand {
    Head,
    Unit,
    Next,
    Spent(u32, u32),
    /// Behind the first four lines, where this was gathered.
    Behind(Gathering),
}

// The parts of the unit, where a line says them.
fn unit_told(line: &SnapshotLine) -> Option<u32>
    ensures { MatchOption result ((n : ℕ) → line.now ≢ SnapshotLine.Unit n) (λ n. line.now ≡ SnapshotLine.Unit n) }
{
    match line {
        SnapshotLine::Unit(unit) => Some(*unit),
        _ => None,
    }
}

// The next numbers, where a line says them.
fn next_told(line: &SnapshotLine) -> Option<(u32, u32)>
    ensures { MatchOption result ((n m : ℕ) → line.now ≢ SnapshotLine.Next n m)
        (λ p. line.now ≡ SnapshotLine.Next p.0 p.1) }
{
    match line {
        SnapshotLine::Next(object, name) => Some((*object, *name)),
        _ => None,
    }
}

// The gas spent, where a line says it.
fn spent_told(line: &SnapshotLine) -> Option<u128>
    ensures { MatchOption result ((n : ℕ) → line.now ≢ SnapshotLine.Spent n) (λ n. line.now ≡ SnapshotLine.Spent n) }
{
    match line {
        SnapshotLine::Spent(dths) => Some(*dths),
        _ => None,
    }
}

// Whether a line is the first one of a text.
fn is_head(line: &SnapshotLine) -> bool
    ensures { IsTrue result ↔ (line.now ≡ SnapshotLine.Head) }
{
    match line {
        SnapshotLine::Head => true,
        _ => false,
    }
}

impl TextStand {
    /// Where a line leads from here, if it may stand here, where the unit has so many parts.
    pub(crate) fn after(
        self,
        alloc: Global,
        unit: u32,
        line: SnapshotLine,
    ) -> Result<Option<TextStand>, AllocError>
        requires { IsStandKept self }
        ensures { (a : Acceptance) → a.annotations.unit ≡ unit → IfOk result (IsLed a self line) }
    {
        match self {
            TextStand::Head => {
                if is_head(&line) {
                    Ok(Some(TextStand::Unit))
                } else {
                    Ok(None)
                }
            }
            TextStand::Unit => match unit_told(&line) {
                Some(parts) if parts == unit => Ok(Some(TextStand::Next)),
                _ => Ok(None),
            },
            TextStand::Next => match next_told(&line) {
                Some((object, name)) => Ok(Some(TextStand::Spent(object, name))),
                None => Ok(None),
            },
            TextStand::Spent(object, name) => match spent_told(&line) {
                Some(dths) => Ok(Some(TextStand::Behind(Gathering::new(
                    alloc, object, name, dths,
                )))),
                None => Ok(None),
            },
            TextStand::Behind(mut gathering) => {
                if gathering.take_line(alloc, line)? {
                    Ok(Some(TextStand::Behind(gathering)))
                } else {
                    Ok(None)
                }
            }
        }
    }
}
