//! Tests: each command once, and what is no command.
use nomos_words::job::words;
use std::alloc::{AllocError, Global};
use std::test::Fail;

// The words of a line, each behind one space.
fn words_from(alloc: Global, line: &str) -> Result<Vec<String>, AllocError> {
    let mut words = Vec::new(alloc);
    for text in line.split(' ') {
        words.push(String::from_str(alloc, text)?)?;
    }
    Ok(words)
}

// The job of a line, as it is printed.
fn job_in(alloc: Global, line: &str) -> Result<String, AllocError> {
    let list = words_from(alloc, line)?;
    let job = words(list.as_slice());
    format!(in alloc; "{job:?}")
}

/// Each command, the options in another order than in the usage line.
#[test]
fn commands(rt: HostRuntime) -> Result<(), Fail> {
    let table = [
        ("check c", "Some(Check { file: \"c\" })"),
        ("least c", "Some(Least { file: \"c\" })"),
        (
            "replay c s j",
            "Some(Replay { file: \"c\", script: \"s\", journal: \"j\" })",
        ),
        (
            "pool c s 8",
            "Some(Pool { file: \"c\", script: \"s\", threads: 8 })",
        ),
        (
            "talk c s  - t",
            "Some(Talk { file: \"c\", script: \"s\", name: \"\", proc: \"-\", text: \"t\" })",
        ),
        (
            "save c s n",
            "Some(Save { file: \"c\", script: \"s\", snapshot: \"n\" })",
        ),
        (
            "resume c n s",
            "Some(Resume { file: \"c\", snapshot: \"n\", script: \"s\" })",
        ),
        (
            "bench 18446744073709551615 10000",
            "Some(Bench { seed: 18446744073709551615, bidders: 10000 })",
        ),
        (
            "run c s",
            "Some(Run { file: \"c\", script: \"s\", workers: One(First), steps: 1000000, journal: None })",
        ),
        (
            "run c s --steps 10000000 --workers 16",
            "Some(Run { file: \"c\", script: \"s\", workers: Many(16), steps: 10000000, journal: None })",
        ),
        (
            "run c s --journal j --policy round --steps 1 --workers 1",
            "Some(Run { file: \"c\", script: \"s\", workers: One(Round), steps: 1, journal: Some(\"j\") })",
        ),
    ];
    for (line, wanted) in table {
        let job = job_in(rt.alloc(), line)?;
        assert_eq!(rt; job.as_str(), wanted);
    }
    Ok(())
}

/// Words of no form: numbers past their limits, with a sign or a leading zero, options that are doubled, are none or
/// lack their value, files that are none, and too few or too many words.
#[test]
fn no_commands(rt: HostRuntime) -> Result<(), Fail> {
    let table = [
        "",
        "check",
        "check -x",
        "check c d",
        "checks c",
        "least",
        "run c",
        "run -c s",
        "run c s --workers 0",
        "run c s --workers 17",
        "run c s --workers 2 --policy first",
        "run c s --policy round --workers 2",
        "run c s --policy last",
        "run c s --steps 0",
        "run c s --steps 01",
        "run c s --steps +1",
        "run c s --steps 10000001",
        "run c s --steps 1 --steps 1",
        "run c s --journal",
        "run c s --journal -j",
        "run c s j",
        "run --steps 1 c s",
        "replay c s",
        "replay c s j --steps 1",
        "pool c s",
        "pool c s 0",
        "pool c s 9",
        "pool c s 01",
        "pool c s 1 --steps 1",
        "pool -c s 1",
        "talk c s n p",
        "talk c s n p -t",
        "talk c s n p ",
        "talk c s n p t u",
        "save c s",
        "save c s -n",
        "save c s n --workers 1",
        "resume c n",
        "resume c -n s",
        "resumes c n s",
        "bench 0",
        "bench 0 0",
        "bench 0 10001",
        "bench 18446744073709551616 1",
        "bench -1 1",
        "bench 00 1",
    ];
    for line in table {
        let list = words_from(rt.alloc(), line)?;
        assert!(rt; words(list.as_slice()).is_none(), "{line}");
    }
    assert!(rt; words(&[]).is_none());
    Ok(())
}
