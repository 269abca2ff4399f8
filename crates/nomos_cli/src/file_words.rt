//! Which words name the files of a call.

ghost use Rattle.std.specs.Prelude.{map, string_bytes};
ghost use Rattle.std.specs.Option.{option_map};
ghost use Rattle.nomos_cli.specs.FileWords.{Names, contract_file, kept_file, script_file, third_file};

use nomos_words::job::{self, Files};

/// The words that name the files of the contract, of the script and of the third text that are read, and of what is
/// kept, each where there is one.
pub(crate) fn file_words(words: &[String]) -> Files<'_>
    ensures contract { Names contract_file (map string_bytes words.now)
        (option_map (λ word. word.now) result.contract) }
    ensures script { Names script_file (map string_bytes words.now) (option_map (λ word. word.now) result.script) }
    ensures third { Names third_file (map string_bytes words.now) (option_map (λ word. word.now) result.third) }
    ensures kept { Names kept_file (map string_bytes words.now) (option_map (λ word. word.now) result.kept) }
{
    match job::words(words) {
        Some(job) => job.files(),
        None => Files {
            contract: None,
            script: None,
            third: None,
            kept: None,
        },
    }
}
