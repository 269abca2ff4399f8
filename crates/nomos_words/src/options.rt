//! The options behind `run FILE SCRIPT`, and what they say.

ghost use Rattle.std.specs.Prelude.{◌≡◌, ◌↔◌, IsTrue, IfSome, map, string_bytes};
ghost use Rattle.std.specs.Option.{option_map};
ghost use Rattle.nomos_words.specs.FindsOne.{FindsOne};
ghost use Rattle.nomos_words.specs.Options.{IsFileWord};
ghost use Rattle.nomos_words.specs.mirror.GivenOptions.{AreGiven, option_values, with_option};

/// The values of the options that were given, as words.
#[derive(Clone, Copy)]
pub(crate) struct GivenOptions<'a> {
    pub(crate) workers: Option<&'a str>,
    pub(crate) policy: Option<&'a str>,
    pub(crate) steps: Option<&'a str>,
    pub(crate) journal: Option<&'a str>,
}

// The options with one more; nothing, where its name is none or was there before.
fn with_option<'a>(given: GivenOptions<'a>, name: &str, value: &'a str) -> Option<GivenOptions<'a>>
    ensures { option_map option_values result ≡ with_option (option_values given.entry) name.now value.now }
{
    match name {
        "--workers" if given.workers.is_none() => Some(GivenOptions {
            workers: Some(value),
            ..given
        }),
        "--policy" if given.policy.is_none() => Some(GivenOptions {
            policy: Some(value),
            ..given
        }),
        "--steps" if given.steps.is_none() => Some(GivenOptions {
            steps: Some(value),
            ..given
        }),
        "--journal" if given.journal.is_none() => Some(GivenOptions {
            journal: Some(value),
            ..given
        }),
        _ => None,
    }
}

/// The options that the words are, if they are some, each at most once.
pub(crate) fn given_of<'a>(words: &'a [String]) -> Option<GivenOptions<'a>>
    ensures { FindsOne (AreGiven (map string_bytes words.now)) (option_map option_values result) }
{
    let mut given = GivenOptions {
        workers: None,
        policy: None,
        steps: None,
        journal: None,
    };
    let mut left = words;
    while let [name, value, after @ ..] = left {
        given = with_option(given, name.as_str(), value.as_str())?;
        left = after;
    }
    if left.is_empty() { Some(given) } else { None }
}

/// Whether a word can name a file: it is not empty, and does not begin as an option does.
pub(crate) fn is_file_word(word: &str) -> bool
    ensures { IsTrue result ↔ IsFileWord word.now }
{
    match word.as_bytes() {
        [] => false,
        [first, ..] => *first != b'-',
    }
}

/// Whether the value of `--journal`, if there is one, can name a file.
pub(crate) fn is_journal(word: Option<&str>) -> bool
    ensures { IsTrue result ↔ IfSome (option_map (λ word. word.now) word.entry) IsFileWord }
{
    match word {
        Some(word) => is_file_word(word),
        None => true,
    }
}
