//! What the words of a call ask for.
ghost use Rattle.std.specs.Prelude.{IfSome};
ghost use Rattle.nomos_legal.specs.Legal.{IsLimit};

use nomos_ir::limits::HIGHEST_LIMIT;
use nomos_printing::number::{read_u32, read_u64};

/// In which order the script is run, as words say.
#[derive(Clone, Copy, Debug)]
pub(crate) enum OrderWord<'a> {
    First,
    Round,
    Seed(u64),
    /// As the journal in this file says.
    Journal(&'a str),
}

/// What is asked for: the tale of the script in the second file on the contract in the first, in this order, and the
/// most firings of a batch, where that is said, from 1 to 10,000,000.
#[derive(Clone, Copy, Debug)]
pub(crate) struct TellCall<'a> {
    pub(crate) contract: &'a str,
    pub(crate) script: &'a str,
    pub(crate) order: OrderWord<'a>,
    pub(crate) steps: Option<u32>,
}

impl<'a> TellCall<'a> {
    /// The file of the journal, if one is read.
    pub(crate) fn journal(&self) -> Option<&'a str> {
        match self.order {
            OrderWord::Journal(file) => Some(file),
            _ => None,
        }
    }
}

// What options say: the order, and the most firings of a batch.
#[derive(Clone, Copy)]
struct Options<'a> {
    order: Option<OrderWord<'a>>,
    steps: Option<u32>,
}

// Whether a word can name a file: it is not empty, and does not begin as an option does.
fn is_file_word(word: &str) -> bool {
    match word.as_bytes() {
        [] => false,
        [first, ..] => *first != b'-',
    }
}

// The order that an option says.
fn order_of<'a>(name: &str, value: &'a str) -> Option<OrderWord<'a>> {
    match (name, value) {
        ("--policy", "first") => Some(OrderWord::First),
        ("--policy", "round") => Some(OrderWord::Round),
        ("--seed", seed) => Some(OrderWord::Seed(read_u64(seed.as_bytes())?)),
        ("--journal", file) if is_file_word(file) => Some(OrderWord::Journal(file)),
        _ => None,
    }
}

// The number that `--steps` says.
fn steps_of(word: &str) -> Option<u32>
    ensures { IfSome result IsLimit }
{
    match read_u32(word.as_bytes()) {
        Some(steps) if 1 <= steps && steps <= HIGHEST_LIMIT => Some(steps),
        _ => None,
    }
}

// The options with one more; nothing, where its name is none or what it says was said before.
fn with_option<'a>(options: Options<'a>, name: &str, value: &'a str) -> Option<Options<'a>>
    requires { IfSome options.steps IsLimit }
    ensures { IfSome result (λ made. IfSome made.steps IsLimit) }
{
    match (name, options.order, options.steps) {
        ("--steps", _, None) => Some(Options {
            steps: Some(steps_of(value)?),
            ..options
        }),
        ("--steps", _, _) => None,
        (_, None, _) => Some(Options {
            order: Some(order_of(name, value)?),
            ..options
        }),
        _ => None,
    }
}

// The options that words are, if they are some.
fn options_of(words: &[String]) -> Option<Options<'_>>
    ensures { IfSome result (λ options. IfSome options.steps IsLimit) }
{
    let mut options = Options {
        order: None,
        steps: None,
    };
    let mut left = words;
    while let [name, value, after @ ..] = left {
        options = with_option(options, name.as_str(), value.as_str())?;
        left = after;
    }
    if left.is_empty() { Some(options) } else { None }
}

/// What the words ask for, which stand behind the program's own name, or nothing where they have another form.
pub(crate) fn call_of(words: &[String]) -> Option<TellCall<'_>>
    ensures { IfSome result (λ call. IfSome call.steps IsLimit) }
{
    let [contract, script, options @ ..] = words else {
        return None;
    };
    if !is_file_word(contract) || !is_file_word(script) {
        return None;
    }
    let options = options_of(options)?;
    Some(TellCall {
        contract,
        script,
        order: options.order.unwrap_or(OrderWord::First),
        steps: options.steps,
    })
}
