//! How a line of a snapshot is read.
ghost use Rattle.std.specs.Prelude.{◌≡◌, ◌≢◌, IfOk, MatchOption};
ghost use Rattle.nomos_snapshot.specs.Line.{IsLine, line_text};
ghost use Rattle.nomos_snapshot.specs.declared.line.SnapshotLine.{SnapshotLine as Told};
ghost use Rattle.nomos_snapshot.specs.mirror.LineKinds.{IsOfKind, ReadsWords};

use crate::label_table::LabelTable;
use crate::line::SnapshotLine;
use crate::line_kind::{LineKind, kind_named};
use crate::line_words::Words;
use crate::message_lines::read_message;
use crate::plain_lines::{
    read_account, read_contract, read_head, read_next_numbers, read_spent, read_typed_name,
    read_unit,
};
use crate::process_lines::{read_channel_line, read_list_line, read_process, read_value_line};
use nomos_ir::program::Program;
use std::alloc::{AllocError, Global};
use std::marker::Model;

/// What reads the lines of a program's snapshots, which contracts see as the program's lists. It finds a label
/// by its text in one step.
#[derive(Drop)]
pub struct LineReader<'a> {
    program: &'a Program,
    labels: LabelTable,
}

impl<'a> Model for LineReader<'a> {
    ghost use Rattle.std.specs.Prelude.{◌≡◌};
    ghost use Rattle.nomos_ir.specs.declared.lists.ProgramLists.{ProgramLists};

    ghost Value = { ProgramLists };

    ghost view = { λ r. r.program.now };

    ghost invariant = { λ r. r.labels ≡ r.program.now.labels };
}

impl<'a> LineReader<'a> {
    /// What reads lines for this program.
    pub fn of(alloc: Global, program: &'a Program) -> Result<LineReader<'a>, AllocError>
        ensures { IfOk result (λ made. made ≡ program.now) }
    {
        Ok(LineReader {
            program,
            labels: LabelTable::of(alloc, program)?,
        })
    }

    // The line of a kind, behind its first word.
    fn read_kind(
        &self,
        alloc: Global,
        kind: LineKind,
        words: &mut Words<'_>,
    ) -> Result<Option<SnapshotLine>, AllocError>
        ensures { IfOk result (ReadsWords (IsOfKind self.now kind) self.now words.old) }
    {
        match kind {
            LineKind::Head => Ok(read_head(words)),
            LineKind::Unit => Ok(read_unit(words)),
            LineKind::Next => Ok(read_next_numbers(words)),
            LineKind::Spent => Ok(read_spent(words)),
            LineKind::Account => read_account(alloc, words),
            LineKind::Contract => read_contract(alloc, words),
            LineKind::Name => Ok(read_typed_name(self.program, words)),
            LineKind::Process => Ok(read_process(self.program, words)),
            LineKind::Value => read_value_line(alloc, words),
            LineKind::List => read_list_line(alloc, words),
            LineKind::Channel => Ok(read_channel_line(words)),
            LineKind::Message => read_message(alloc, &self.labels, words),
        }
    }

    /// The line that a text is without its line feed; none where it has no form, numbers over their bounds, leading
    /// zeros, and types, places and labels that the program lacks included (docs/TEXTS.md, "Snapshots"). It uses the
    /// machine's stack in step with how deep lists stand in one another, at most 256.
    pub fn read(&self, alloc: Global, text: &[u8]) -> Result<Option<SnapshotLine>, AllocError>
        ensures { IfOk result (λ found. MatchOption found
            ((l : Told) → IsLine self.now l → text.now ≢ line_text self.now l)
            (λ l. IsLine self.now l × (text.now ≡ line_text self.now l))) }
    {
        self.program.know();
        let mut words = Words::of(text);
        let Some(first) = words.next_word() else {
            return Ok(None);
        };
        let Some(kind) = kind_named(first) else {
            return Ok(None);
        };
        self.read_kind(alloc, kind, &mut words)
    }
}
