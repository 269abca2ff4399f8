//! What the words of a call ask for.

ghost use Rattle.std.specs.Prelude.{◌≡◌, ◌≢◌, ◌∷◌, ◌↔◌, [], IsTrue, codes, map, string_bytes};
ghost use Rattle.std.specs.Option.{option_map};
ghost use Rattle.nomos_words.specs.FindsOne.{FindsOne};
ghost use Rattle.nomos_words.specs.Options.{IsFileWord};
ghost use Rattle.nomos_carry.specs.CarryWords.{AreTwoFiles, AsksToCarry, Names, contract_file, contract_word, new_file, script_file, snapshot_file};
ghost use Rattle.nomos_carry.specs.mirror.Errands.{carry_task};

/// What is to be done. Each word but the command names a file.
#[derive(Clone, Copy, Debug)]
pub(crate) enum Errand<'a> {
    /// The script in the third file is run on the contract in the first, from the ledger that is saved in the second,
    /// or from the empty one where there is none, and the last ledger is saved in the fourth.
    Carry {
        file: &'a str,
        snapshot: Option<&'a str>,
        script: &'a str,
        new: &'a str,
    },
    /// The ledger that is saved in the second file is renumbered, and saved in the third.
    Renumber {
        file: &'a str,
        snapshot: &'a str,
        new: &'a str,
    },
    /// The next numbers of the ledger that is saved in the second file are told.
    Numbers {
        file: &'a str,
        snapshot: &'a str,
    },
}

/// The words that name files, each where there is one.
#[derive(Clone, Copy, Debug)]
pub(crate) struct CarryFiles<'a> {
    pub(crate) contract: Option<&'a str>,
    pub(crate) snapshot: Option<&'a str>,
    pub(crate) script: Option<&'a str>,
    pub(crate) new: Option<&'a str>,
}

impl<'a> Errand<'a> {
    /// The file of the contract.
    pub(crate) fn contract(&self) -> &'a str
        ensures { result.now ≡ contract_word (carry_task self.now) }
    {
        match *self {
            Errand::Carry { file, .. } => file,
            Errand::Renumber { file, .. } => file,
            Errand::Numbers { file, .. } => file,
        }
    }

    /// The files that are read and written.
    pub(crate) fn files(self) -> CarryFiles<'a>
        ensures contract { option_map (λ word. word.now) result.contract ≡ contract_file (carry_task self.entry) }
        ensures snapshot { option_map (λ word. word.now) result.snapshot ≡ snapshot_file (carry_task self.entry) }
        ensures script { option_map (λ word. word.now) result.script ≡ script_file (carry_task self.entry) }
        ensures new { option_map (λ word. word.now) result.new ≡ new_file (carry_task self.entry) }
    {
        let (contract, snapshot, script, new) = match self {
            Errand::Carry {
                file,
                snapshot,
                script,
                new,
            } => (Some(file), snapshot, Some(script), Some(new)),
            Errand::Renumber {
                file,
                snapshot,
                new,
            } => (Some(file), Some(snapshot), None, Some(new)),
            Errand::Numbers { file, snapshot } => (Some(file), Some(snapshot), None, None),
        };
        CarryFiles {
            contract,
            snapshot,
            script,
            new,
        }
    }
}

/// The files that the words name: none where they ask for nothing.
pub(crate) fn file_words(words: &[String]) -> CarryFiles<'_>
    ensures contract { Names contract_file (map string_bytes words.now)
        (option_map (λ word. word.now) result.contract) }
    ensures snapshot { Names snapshot_file (map string_bytes words.now)
        (option_map (λ word. word.now) result.snapshot) }
    ensures script { Names script_file (map string_bytes words.now) (option_map (λ word. word.now) result.script) }
    ensures new { Names new_file (map string_bytes words.now) (option_map (λ word. word.now) result.new) }
{
    match errand_of(words) {
        Some(errand) => errand.files(),
        None => CarryFiles {
            contract: None,
            snapshot: None,
            script: None,
            new: None,
        },
    }
}

// Whether a word can name a file: it is not empty, and does not begin as an option does.
fn is_file_word(word: &str) -> bool
    ensures { IsTrue result ↔ IsFileWord word.now }
{
    match word.as_bytes() {
        [] => false,
        [first, ..] => *first != b'-',
    }
}

/// What the words ask for, which stand behind the program's own name, or nothing where they have another form
/// (docs/LEDGER.md, "The words"). It takes no memory.
pub(crate) fn errand_of(words: &[String]) -> Option<Errand<'_>>
    ensures { FindsOne (AsksToCarry (map string_bytes words.now)) (option_map carry_task result) }
{
    match words {
        [first, second, third] => numbers_of(first.as_str(), second.as_str(), third.as_str()),
        [first, second, third, fourth] => four_of(
            first.as_str(),
            second.as_str(),
            third.as_str(),
            fourth.as_str(),
        ),
        _ => None,
    }
}

// `--numbers FILE SNAP`.
fn numbers_of<'a>(option: &str, file: &'a str, snapshot: &'a str) -> Option<Errand<'a>>
    ensures { FindsOne (AsksToCarry (option.now ∷ file.now ∷ snapshot.now ∷ [])) (option_map carry_task result) }
{
    if option == "--numbers" && is_file_word(file) && is_file_word(snapshot) {
        Some(Errand::Numbers { file, snapshot })
    } else {
        None
    }
}

// `--renumber FILE SNAP NEW`, or `FILE SNAP SCRIPT NEW`.
fn four_of<'a>(
    first: &'a str,
    second: &'a str,
    third: &'a str,
    fourth: &'a str,
) -> Option<Errand<'a>>
    ensures { FindsOne (AsksToCarry (first.now ∷ second.now ∷ third.now ∷ fourth.now ∷ []))
        (option_map carry_task result) }
{
    match first {
        "--renumber" => renumber_of(second, third, fourth),
        _ => carry_of(first, second, third, fourth),
    }
}

// `--renumber FILE SNAP NEW`, behind the option. The snapshot and the new one have two words.
fn renumber_of<'a>(file: &'a str, snapshot: &'a str, new: &'a str) -> Option<Errand<'a>>
    ensures { FindsOne (AsksToCarry (codes "--renumber" ∷ file.now ∷ snapshot.now ∷ new.now ∷ []))
        (option_map carry_task result) }
{
    if is_file_word(file) && are_two_files(snapshot, new) {
        Some(Errand::Renumber {
            file,
            snapshot,
            new,
        })
    } else {
        None
    }
}

// `FILE SNAP SCRIPT NEW`, where `-` stands for no snapshot.
fn carry_of<'a>(
    file: &'a str,
    snapshot: &'a str,
    script: &'a str,
    new: &'a str,
) -> Option<Errand<'a>>
    ensures { file.now ≢ codes "--renumber" → FindsOne
        (AsksToCarry (file.now ∷ snapshot.now ∷ script.now ∷ new.now ∷ [])) (option_map carry_task result) }
{
    if snapshot == "-" {
        begin_of(file, script, new)
    } else {
        go_on_of(file, snapshot, script, new)
    }
}

// `FILE - SCRIPT NEW`.
fn begin_of<'a>(file: &'a str, script: &'a str, new: &'a str) -> Option<Errand<'a>>
    ensures { file.now ≢ codes "--renumber" → FindsOne
        (AsksToCarry (file.now ∷ codes "-" ∷ script.now ∷ new.now ∷ [])) (option_map carry_task result) }
{
    if is_file_word(file) && is_file_word(script) && is_file_word(new) {
        Some(Errand::Carry {
            file,
            snapshot: None,
            script,
            new,
        })
    } else {
        None
    }
}

// `FILE SNAP SCRIPT NEW`, where there is a snapshot, and the new one has another word.
fn go_on_of<'a>(
    file: &'a str,
    snapshot: &'a str,
    script: &'a str,
    new: &'a str,
) -> Option<Errand<'a>>
    ensures { snapshot.now ≢ codes "-" → file.now ≢ codes "--renumber" → FindsOne
        (AsksToCarry (file.now ∷ snapshot.now ∷ script.now ∷ new.now ∷ [])) (option_map carry_task result) }
{
    if is_file_word(file) && is_file_word(script) && are_two_files(snapshot, new) {
        Some(Errand::Carry {
            file,
            snapshot: Some(snapshot),
            script,
            new,
        })
    } else {
        None
    }
}

// Whether the words name a snapshot and a new one, each by a word of its own.
fn are_two_files(snapshot: &str, new: &str) -> bool
    ensures { IsTrue result ↔ AreTwoFiles snapshot.now new.now }
{
    is_file_word(snapshot) && is_file_word(new) && snapshot != new
}
