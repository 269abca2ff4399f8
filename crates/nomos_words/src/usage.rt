//! The line that says which words there are.

ghost use Rattle.std.specs.Prelude.{◌≡◌};
ghost use Rattle.nomos_words.specs.Usage.{usage_line};

/// The usage line, with its line feed: what is printed where the words have none of its forms.
#[tactic(auto, unfolding(crate::specs::Usage::usage_line))]
pub fn usage_line() -> &'static [u8]
    ensures { result.now ≡ usage_line }
{
    b"usage: nomos check FILE | run FILE SCRIPT [--workers N] [--policy first|round] [--steps N] [--journal FILE] \
    | replay FILE SCRIPT JOURNAL | bench SEED BIDDERS | least FILE | pool FILE SCRIPT THREADS \
    | talk FILE SCRIPT NAME PROC TALK | save FILE SCRIPT SNAP | resume FILE SNAP SCRIPT\n"
}
