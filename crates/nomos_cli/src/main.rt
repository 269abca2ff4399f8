//! The program: it hands its words, the files that they name and its standard output to `nomos`.
#![tactic(auto)]

mod file_words;

ghost use Rattle.std.specs.Prelude.{map, string_bytes};
ghost use Rattle.nomos_cli.specs.FileWords.{Names, contract_file, kept_file, script_file, third_file};
ghost use Rattle.nomos_answers.specs.Outside.{sink_state, source_state};
ghost use Rattle.nomos_top.specs.Claims.{Claims};
ghost use Rattle.nomos_top.specs.Turns.{Untouched};

use crate::file_words::file_words;
use nomos_base::{Sink, Source};
use nomos_files::{FileSource, OutputSink, OverFile, own_words};
use nomos_top::{Ended, may_wait, nomos, nomos_by_one};
use nomos_workers::gate::OpenGate;
use std::alloc::AllocGlobal;
use std::process::ExitCode;
use std::sync::Wait;
use std::thread::Threads;

// What is outside: the files of the contract, of the script and of the third text that are read, which is a journal, a
// snapshot or what is said in a talk; the standard output, and the file in which a journal or a snapshot is kept.
#[derive(Drop)]
struct OutsideWorld<S: Drop, K: Drop> {
    contract: S,
    script: S,
    journal_in: S,
    out: K,
    journal_out: K,
}

fn main(rt: HostRuntime) -> ExitCode {
    let Ok(words) = own_words(&rt) else {
        return ExitCode::from(7);
    };
    let files = file_words(&words);
    let mut outside = OutsideWorld {
        contract: FileSource::open(&rt, files.contract),
        script: FileSource::open(&rt, files.script),
        journal_in: FileSource::open(&rt, files.third),
        out: OutputSink::stdout(&rt, rt.stdout()),
        journal_out: OutputSink::file(&rt, files.kept),
    };
    let ended = call(&rt, &words, &mut outside);
    ExitCode::from(ended.status)
}

// Does what the words say, over the files that they name, by a call that is proved to return wherever the words ask
// neither for a run by several workers nor for one whose lines threads submit. All is claimed of it that is claimed of
// the top call, and each file of which it is not the turn is neither read nor written.
fn call<
    S: Source + OverFile + Drop,
    K: Sink + OverFile + Drop,
    R: AllocGlobal + Threads + Wait + Sync,
>(rt: &R, words: &[String], outside: &mut OutsideWorld<S, K>) -> Ended
    requires contract { Names contract_file (map string_bytes words.now) (S.word outside.old.contract) }
    requires script { Names script_file (map string_bytes words.now) (S.word outside.old.script) }
    requires journal_in { Names third_file (map string_bytes words.now) (S.word outside.old.journal_in) }
    requires journal_out { Names kept_file (map string_bytes words.now) (K.word outside.old.journal_out) }
    ensures claims { Claims (record {
      words = map string_bytes words.now;
      contract = source_state (S.left outside.old.contract)
          (S.faults outside.old.contract) (S.faults outside.new.contract);
      script = source_state (S.left outside.old.script) (S.faults outside.old.script) (S.faults outside.new.script);
      journal_in = source_state (S.left outside.old.journal_in)
          (S.faults outside.old.journal_in) (S.faults outside.new.journal_in);
      out = sink_state (K.written outside.old.out) (K.written outside.new.out)
          (K.faults outside.old.out) (K.faults outside.new.out);
      journal_out = sink_state (K.written outside.old.journal_out) (K.written outside.new.journal_out)
          (K.faults outside.old.journal_out) (K.faults outside.new.journal_out);
      status = result.status;
      accepted = result.accepted;
      journal = result.journal;
      taken = result.taken;
    }) }
    ensures untouched { Untouched (map string_bytes words.now)
        (record { script = S.left outside.old.script; third = S.left outside.old.journal_in }) result.status
        result.accepted
        (record {
          contract = outside.old.contract;
          script = outside.old.script;
          journal_in = outside.old.journal_in;
          out = outside.old.out;
          journal_out = outside.old.journal_out;
        })
        (record {
          contract = outside.new.contract;
          script = outside.new.script;
          journal_in = outside.new.journal_in;
          out = outside.new.out;
          journal_out = outside.new.journal_out;
        }) }
{
    if may_wait(words) {
        nomos(
            rt,
            rt.alloc(),
            words,
            &mut outside.contract,
            &mut outside.script,
            &mut outside.journal_in,
            &mut outside.out,
            &mut outside.journal_out,
            &OpenGate,
        )
    } else {
        nomos_by_one(
            rt.alloc(),
            words,
            &mut outside.contract,
            &mut outside.script,
            &mut outside.journal_in,
            &mut outside.out,
            &mut outside.journal_out,
        )
    }
}
