//! The program `nomos-tell`: it runs a script in one of many orders, and writes what each firing did.
#![tactic(auto)]

mod failure;
mod telling;
mod words;

use crate::failure::Failure;
use crate::telling::{Texts, tale_of};
use crate::words::{TellCall, call_of};
use nomos_base::write_all;
use nomos_files::{FileSource, OutputSink, own_words};
use std::alloc::AllocGlobal;
use std::process::ExitCode;

fn main(rt: HostRuntime) -> ExitCode {
    let Ok(words) = own_words(&rt) else {
        return ExitCode::from(7);
    };
    let Some(call) = call_of(&words) else {
        return ended(&rt, Failure::OtherWords);
    };
    let mut texts = Texts {
        contract: FileSource::open(&rt, Some(call.contract)),
        script: FileSource::open(&rt, Some(call.script)),
        journal: FileSource::open(&rt, call.journal()),
    };
    let mut out = OutputSink::stdout(&rt, rt.stdout());
    match tale_of(rt.alloc(), &call, &mut texts) {
        Ok(tale) => match write_all(&mut out, &tale) {
            Ok(_) => ExitCode::from(0),
            Err(_) => ended(&rt, Failure::Unwritten),
        },
        Err(failure) => ended(&rt, failure),
    }
}

// Says why there is no tale, and gives the status that the program ends with.
fn ended(rt: &HostRuntime, failure: Failure) -> ExitCode {
    let _ = eprintln!(rt; "{failure}");
    ExitCode::from(failure.status())
}
