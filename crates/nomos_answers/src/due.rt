//! What is due: a status, what is to be written, and the journal.

ghost use Rattle.std.specs.Prelude.{◌≡◌, IfOk, IfErr};
ghost use Rattle.nomos_answers.specs.Finding.{IsBare};
ghost use Rattle.nomos_answers.specs.DueLines.{no_entries};

use nomos_ir::items::Items;
use nomos_legal::journal::Journal;
use std::alloc::Global;

/// What is due where memory sufficed: the exit status that stands once all is written, what is to be written to the
/// output, the text of the journal, or the snapshot, where one is to be kept, and the journal.
#[derive(Drop, Debug)]
pub struct Due {
    pub status: u8,
    pub out: Vec<u8>,
    pub kept: Option<Vec<u8>>,
    pub journal: Journal,
}

/// The journal without entries.
pub fn no_entries(alloc: Global, limit: u32) -> Journal
    ensures { result ≡ no_entries limit }
{
    Journal {
        limit,
        entries: Items::of_vec(Vec::new(alloc)),
    }
}

/// A text with its status, where nothing was run.
pub fn bare_due(alloc: Global, limit: u32, status: u8, out: Vec<u8>) -> Due
    ensures { IsBare result status out.items limit }
{
    Due {
        status,
        out,
        kept: None,
        journal: no_entries(alloc, limit),
    }
}

/// A line with its status, where nothing was run.
pub fn line_due(alloc: Global, limit: u32, status: u8, line: &[u8]) -> Result<Due, Journal>
    ensures ok { IfOk result (λ due. IsBare due status line.now limit) }
    ensures err { IfErr result (λ journal. journal ≡ no_entries limit) }
{
    match Vec::from_slice(alloc, line) {
        Ok(out) => Ok(bare_due(alloc, limit, status, out)),
        Err(_) => Err(no_entries(alloc, limit)),
    }
}
