//! The program `nomos-carry`: it carries a saved ledger on by a script, and renumbers one.
#![tactic(auto)]

mod carry;
mod errands;

ghost use Rattle.std.specs.Prelude.{map, string_bytes};
ghost use Rattle.nomos_answers.specs.Outside.{sink_state, source_state};
ghost use Rattle.nomos_carry.specs.Alone.{LeavesAlone};
ghost use Rattle.nomos_carry.specs.CarryClaims.{CarryClaims};
ghost use Rattle.nomos_carry.specs.CarryWords.{Names, contract_file, new_file, script_file, snapshot_file};

use crate::carry::{Edges, carry};
use crate::errands::file_words;
use nomos_base::{Sink, Source};
use nomos_files::{FileSource, OutputSink, OverFile, own_words};
use std::alloc::{AllocGlobal, Global};
use std::process::ExitCode;

fn main(rt: HostRuntime) -> ExitCode {
    let Ok(words) = own_words(&rt) else {
        return ExitCode::from(7);
    };
    let files = file_words(&words);
    let mut edges = Edges {
        contract: FileSource::open(&rt, files.contract),
        snapshot: FileSource::open(&rt, files.snapshot),
        script: FileSource::open(&rt, files.script),
        out: OutputSink::stdout(&rt, rt.stdout()),
        next: OutputSink::file(&rt, files.new),
    };
    ExitCode::from(call(rt.alloc(), &words, &mut edges))
}

// Does what the words say, over the files that they name. All is claimed of it that is claimed of `carry`.
fn call<S: Source + OverFile + Drop, K: Sink + OverFile + Drop>(
    alloc: Global,
    words: &[String],
    edges: &mut Edges<S, K>,
) -> u8
    requires contract { Names contract_file (map string_bytes words.now) (S.word edges.old.contract) }
    requires snapshot { Names snapshot_file (map string_bytes words.now) (S.word edges.old.snapshot) }
    requires script { Names script_file (map string_bytes words.now) (S.word edges.old.script) }
    requires next { Names new_file (map string_bytes words.now) (K.word edges.old.next) }
    ensures claims { CarryClaims (record {
      words = map string_bytes words.now;
      contract = source_state (S.left edges.old.contract) (S.faults edges.old.contract) (S.faults edges.new.contract);
      snapshot = source_state (S.left edges.old.snapshot) (S.faults edges.old.snapshot) (S.faults edges.new.snapshot);
      script = source_state (S.left edges.old.script) (S.faults edges.old.script) (S.faults edges.new.script);
      out = sink_state (K.written edges.old.out) (K.written edges.new.out)
          (K.faults edges.old.out) (K.faults edges.new.out);
      new = sink_state (K.written edges.old.next) (K.written edges.new.next)
          (K.faults edges.old.next) (K.faults edges.new.next);
      status = result;
    }) }
    ensures alone { LeavesAlone (map string_bytes words.now) result edges.old edges.new }
{
    carry(alloc, words, edges)
}
