//! Who fires in a run, as the options say.

ghost use Rattle.std.specs.Option.{option_map};
ghost use Rattle.nomos_words.specs.FindsOne.{FindsOne};
ghost use Rattle.nomos_words.specs.Options.{AreWorkers, IsPolicy};

use crate::number_words::count_or;
use nomos_machine::policy::Policy;

/// Who fires: one worker, which chooses by a policy, or so many of them, from 2 to 16.
#[derive(Clone, Copy, PartialEq, Eq, Debug)]
pub enum Workers {
    One(Policy),
    Many(u32),
}

// The policy of `--policy`.
fn policy_of(word: Option<&str>) -> Option<Policy>
    ensures { FindsOne (IsPolicy (option_map (λ word. word.now) word.entry)) result }
{
    match word {
        None | Some("first") => Some(Policy::First),
        Some("round") => Some(Policy::Round),
        Some(_) => None,
    }
}

/// The workers of `--workers` and `--policy`, from their values.
pub(crate) fn workers_of(count: Option<&str>, policy: Option<&str>) -> Option<Workers>
    ensures { FindsOne
        (AreWorkers (option_map (λ word. word.now) count.entry) (option_map (λ word. word.now) policy.entry)) result }
{
    match count_or(count, 1, 16)? {
        1 => Some(Workers::One(policy_of(policy)?)),
        many if policy.is_none() => Some(Workers::Many(many)),
        _ => None,
    }
}
