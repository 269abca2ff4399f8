//! What the words of a call ask for.

ghost use Rattle.std.specs.Prelude.{◌≡◌, ◌∷◌, [], codes, map, string_bytes};
ghost use Rattle.std.specs.Option.{option_map};
ghost use Rattle.nomos_words.specs.Commands.{file_word, kept_word, row, third_word};
ghost use Rattle.nomos_words.specs.FindsOne.{FindsOne};
ghost use Rattle.nomos_words.specs.Jobs.{task};
ghost use Rattle.nomos_words.specs.Words.{Asks, AsksFile};

use crate::number_words::{read_count, read_seed, steps_of};
use crate::options::{given_of, is_file_word, is_journal};
use crate::workers::{Workers, workers_of};

/// What is to be done.
#[derive(Clone, Copy, Debug)]
pub enum Job<'a> {
    /// The contract in this file is to be checked.
    Check {
        file: &'a str,
    },
    /// The script in the second file is to be run on the contract in the first, each batch for at most so many
    /// firings, from 1 to 10,000,000, and the journal is to be kept in this file, if any.
    Run {
        file: &'a str,
        script: &'a str,
        workers: Workers,
        steps: u32,
        journal: Option<&'a str>,
    },
    /// The journal in the third file is to be replayed, of the script in the second on the contract in the first.
    Replay {
        file: &'a str,
        script: &'a str,
        journal: &'a str,
    },
    /// The generated auction is to be run, with bids that are drawn from this seed, of so many bidders, from 1 to
    /// 10,000.
    Bench {
        seed: u64,
        bidders: u32,
    },
    /// The least bounds of the contract in this file are sought.
    Least {
        file: &'a str,
    },
    /// The script in the second file is to be run on the contract in the first, with its single lines in an order in
    /// which so many threads, from 1 to 8, submit them.
    Pool {
        file: &'a str,
        script: &'a str,
        threads: u32,
    },
    /// The script in the second file is to be run on the contract in the first, and behind it a party from outside, for
    /// whom the account of this name pays, talks on a channel that the process of this name offers, as the text in this
    /// file says. The names are any words.
    Talk {
        file: &'a str,
        script: &'a str,
        name: &'a str,
        proc: &'a str,
        text: &'a str,
    },
    /// The script in the second file is to be run on the contract in the first, and the ledger is to be saved in the
    /// third.
    Save {
        file: &'a str,
        script: &'a str,
        snapshot: &'a str,
    },
    /// The script in the third file is to be run on the contract in the first, from the ledger that is saved in the
    /// second.
    Resume {
        file: &'a str,
        snapshot: &'a str,
        script: &'a str,
    },
}

/// The words that name files: those of the contract and of the script that are read; that of the third text, which is a
/// journal, a snapshot or what is said in a talk; and the one in which the journal of a run, or a snapshot, is kept;
/// each where there is one.
#[derive(Clone, Copy, Debug)]
pub struct Files<'a> {
    pub contract: Option<&'a str>,
    pub script: Option<&'a str>,
    pub third: Option<&'a str>,
    pub kept: Option<&'a str>,
}

impl<'a> Job<'a> {
    /// The files that the job reads and keeps, as the table of commands has them (docs/TEXTS.md, "Words and statuses").
    pub fn files(self) -> Files<'a>
        ensures contract { option_map (λ word. word.now) result.contract ≡ file_word (row (task self.entry)).contract }
        ensures script { option_map (λ word. word.now) result.script ≡ file_word (row (task self.entry)).script }
        ensures third { option_map (λ word. word.now) result.third ≡ third_word (row (task self.entry)).third }
        ensures kept { option_map (λ word. word.now) result.kept ≡ kept_word (row (task self.entry)).kept }
    {
        let (contract, script, third, kept) = match self {
            Job::Check { file } | Job::Least { file } => (Some(file), None, None, None),
            Job::Run {
                file,
                script,
                journal,
                ..
            } => (Some(file), Some(script), None, journal),
            Job::Replay {
                file,
                script,
                journal,
            } => (Some(file), Some(script), Some(journal), None),
            Job::Bench { .. } => (None, None, None, None),
            Job::Pool { file, script, .. } => (Some(file), Some(script), None, None),
            Job::Talk {
                file,
                script,
                text,
                ..
            } => (Some(file), Some(script), Some(text), None),
            Job::Save {
                file,
                script,
                snapshot,
            } => (Some(file), Some(script), None, Some(snapshot)),
            Job::Resume {
                file,
                snapshot,
                script,
            } => (Some(file), Some(script), Some(snapshot), None),
        };
        Files {
            contract,
            script,
            third,
            kept,
        }
    }
}

/// The job that the words ask for, or none where they have no form of the usage line (docs/TEXTS.md, "Words and
/// statuses"). The words are those after the program's own name. It takes no memory.
pub fn words<'a>(words: &'a [String]) -> Option<Job<'a>>
    ensures { FindsOne (Asks (map string_bytes words.now)) (option_map task result) }
{
    let (command, operands) = words.split_first()?;
    match command.as_str() {
        "check" => check_of(operands),
        "run" => run_of(operands),
        "replay" => replay_of(operands),
        "bench" => bench_of(operands),
        "least" => least_of(operands),
        "pool" => pool_of(operands),
        "talk" => talk_of(operands),
        "save" => save_of(operands),
        "resume" => resume_of(operands),
        _ => None,
    }
}

// `check FILE`.
fn check_of<'a>(operands: &'a [String]) -> Option<Job<'a>>
    ensures { FindsOne (Asks (codes "check" ∷ map string_bytes operands.now)) (option_map task result) }
{
    let file = file_of(operands)?;
    Some(Job::Check { file })
}

// `least FILE`.
fn least_of<'a>(operands: &'a [String]) -> Option<Job<'a>>
    ensures { FindsOne (Asks (codes "least" ∷ map string_bytes operands.now)) (option_map task result) }
{
    let file = file_of(operands)?;
    Some(Job::Least { file })
}

// The one file that the words name.
fn file_of<'a>(operands: &'a [String]) -> Option<&'a str>
    ensures { FindsOne (AsksFile (map string_bytes operands.now)) (option_map (λ word. word.now) result) }
{
    match operands {
        [file] if is_file_word(file.as_str()) => Some(file.as_str()),
        _ => None,
    }
}

// `run FILE SCRIPT` with options.
fn run_of<'a>(operands: &'a [String]) -> Option<Job<'a>>
    ensures { FindsOne (Asks (codes "run" ∷ map string_bytes operands.now)) (option_map task result) }
{
    match operands {
        [file, script, options @ ..] => run_with(file.as_str(), script.as_str(), options),
        _ => None,
    }
}

// The run of a script on a contract, with these words behind them.
fn run_with<'a>(file: &'a str, script: &'a str, options: &'a [String]) -> Option<Job<'a>>
    ensures { FindsOne (Asks (codes "run" ∷ file.now ∷ script.now ∷ map string_bytes options.now))
        (option_map task result) }
{
    let given = given_of(options)?;
    let workers = workers_of(given.workers, given.policy)?;
    let steps = steps_of(given.steps)?;
    if is_file_word(file) && is_file_word(script) && is_journal(given.journal) {
        Some(Job::Run {
            file,
            script,
            workers,
            steps,
            journal: given.journal,
        })
    } else {
        None
    }
}

// `replay FILE SCRIPT JOURNAL`.
fn replay_of<'a>(operands: &'a [String]) -> Option<Job<'a>>
    ensures { FindsOne (Asks (codes "replay" ∷ map string_bytes operands.now)) (option_map task result) }
{
    match operands {
        [file, script, journal] => replay_with(file.as_str(), script.as_str(), journal.as_str()),
        _ => None,
    }
}

// The replay of a journal of a script on a contract.
fn replay_with<'a>(file: &'a str, script: &'a str, journal: &'a str) -> Option<Job<'a>>
    ensures { FindsOne (Asks (codes "replay" ∷ file.now ∷ script.now ∷ journal.now ∷ [])) (option_map task result) }
{
    if is_file_word(file) && is_file_word(script) && is_file_word(journal) {
        Some(Job::Replay {
            file,
            script,
            journal,
        })
    } else {
        None
    }
}

// `bench SEED BIDDERS`.
fn bench_of<'a>(operands: &'a [String]) -> Option<Job<'a>>
    ensures { FindsOne (Asks (codes "bench" ∷ map string_bytes operands.now)) (option_map task result) }
{
    match operands {
        [seed, bidders] => Some(Job::Bench {
            seed: read_seed(seed.as_str())?,
            bidders: read_count(bidders.as_str(), 10_000)?,
        }),
        _ => None,
    }
}

// `pool FILE SCRIPT THREADS`.
fn pool_of<'a>(operands: &'a [String]) -> Option<Job<'a>>
    ensures { FindsOne (Asks (codes "pool" ∷ map string_bytes operands.now)) (option_map task result) }
{
    match operands {
        [file, script, threads] => pool_with(file.as_str(), script.as_str(), threads.as_str()),
        _ => None,
    }
}

// The run of a script whose single lines so many threads submit.
fn pool_with<'a>(file: &'a str, script: &'a str, threads: &str) -> Option<Job<'a>>
    ensures { FindsOne (Asks (codes "pool" ∷ file.now ∷ script.now ∷ threads.now ∷ [])) (option_map task result) }
{
    let threads = read_count(threads, 8)?;
    if is_file_word(file) && is_file_word(script) {
        Some(Job::Pool {
            file,
            script,
            threads,
        })
    } else {
        None
    }
}

// `talk FILE SCRIPT NAME PROC TALK`.
fn talk_of<'a>(operands: &'a [String]) -> Option<Job<'a>>
    ensures { FindsOne (Asks (codes "talk" ∷ map string_bytes operands.now)) (option_map task result) }
{
    match operands {
        [file, script, name, proc, text] => talk_with(
            file.as_str(),
            script.as_str(),
            name.as_str(),
            proc.as_str(),
            text.as_str(),
        ),
        _ => None,
    }
}

// A talk behind the run of a script.
fn talk_with<'a>(
    file: &'a str,
    script: &'a str,
    name: &'a str,
    proc: &'a str,
    text: &'a str,
) -> Option<Job<'a>>
    ensures { FindsOne (Asks (codes "talk" ∷ file.now ∷ script.now ∷ name.now ∷ proc.now ∷ text.now ∷ []))
        (option_map task result) }
{
    if is_file_word(file) && is_file_word(script) && is_file_word(text) {
        Some(Job::Talk {
            file,
            script,
            name,
            proc,
            text,
        })
    } else {
        None
    }
}

// `save FILE SCRIPT SNAP`.
fn save_of<'a>(operands: &'a [String]) -> Option<Job<'a>>
    ensures { FindsOne (Asks (codes "save" ∷ map string_bytes operands.now)) (option_map task result) }
{
    match operands {
        [file, script, snapshot] => save_with(file.as_str(), script.as_str(), snapshot.as_str()),
        _ => None,
    }
}

// The run of a script whose ledger is saved.
fn save_with<'a>(file: &'a str, script: &'a str, snapshot: &'a str) -> Option<Job<'a>>
    ensures { FindsOne (Asks (codes "save" ∷ file.now ∷ script.now ∷ snapshot.now ∷ [])) (option_map task result) }
{
    if is_file_word(file) && is_file_word(script) && is_file_word(snapshot) {
        Some(Job::Save {
            file,
            script,
            snapshot,
        })
    } else {
        None
    }
}

// `resume FILE SNAP SCRIPT`.
fn resume_of<'a>(operands: &'a [String]) -> Option<Job<'a>>
    ensures { FindsOne (Asks (codes "resume" ∷ map string_bytes operands.now)) (option_map task result) }
{
    match operands {
        [file, snapshot, script] => resume_with(file.as_str(), snapshot.as_str(), script.as_str()),
        _ => None,
    }
}

// The run of a script from a ledger that was saved.
fn resume_with<'a>(file: &'a str, snapshot: &'a str, script: &'a str) -> Option<Job<'a>>
    ensures { FindsOne (Asks (codes "resume" ∷ file.now ∷ snapshot.now ∷ script.now ∷ [])) (option_map task result) }
{
    if is_file_word(file) && is_file_word(snapshot) && is_file_word(script) {
        Some(Job::Resume {
            file,
            snapshot,
            script,
        })
    } else {
        None
    }
}
