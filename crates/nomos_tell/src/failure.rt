//! Why there is no tale, in words and as a status.

use nomos_accept::why::AcceptError;
use nomos_base::ReadError;
use nomos_script::parsing::ScriptError;
use nomos_tale::untold::Untold;
use std::fmt;

/// A text that is read.
#[derive(Clone, Copy, Debug)]
pub(crate) enum Text {
    Contract,
    Script,
    Journal,
}

impl fmt::Display for Text {
    fn fmt<W: fmt::Write>(&self, f: &mut fmt::Formatter<W>) -> fmt::Result {
        match self {
            Text::Contract => write!(f, "contract"),
            Text::Script => write!(f, "script"),
            Text::Journal => write!(f, "journal"),
        }
    }
}

/// Why there is no tale.
#[derive(Clone, Copy, Debug)]
pub(crate) enum Failure {
    OtherWords,
    Unread(Text),
    TooLong(Text),
    ContractRefused,
    ContractUnsolved,
    /// The script is refused at the line of this number.
    ScriptRefused(u32),
    /// The line of this number of the journal does not fit.
    JournalUnfit(u32),
    NoMemory,
    Unwritten,
}

impl Failure {
    /// The status that the program ends with (docs/TEXTS.md, "The tale").
    pub(crate) fn status(self) -> u8 {
        match self {
            Failure::ContractRefused | Failure::TooLong(Text::Contract) => 1,
            Failure::ScriptRefused(_) | Failure::TooLong(Text::Script) => 2,
            Failure::OtherWords => 4,
            Failure::Unread(_) => 5,
            Failure::Unwritten => 6,
            Failure::NoMemory => 7,
            Failure::ContractUnsolved => 8,
            Failure::JournalUnfit(_) | Failure::TooLong(Text::Journal) => 9,
        }
    }
}

impl fmt::Display for Failure {
    fn fmt<W: fmt::Write>(&self, f: &mut fmt::Formatter<W>) -> fmt::Result {
        match *self {
            Failure::OtherWords => write!(
                f,
                "usage: nomos-tell FILE SCRIPT [--policy first | --policy round | --seed N | --journal FILE] \
                 [--steps N]"
            ),
            Failure::Unread(text) => write!(f, "nomos-tell: the {text} could not be read"),
            Failure::TooLong(text) => write!(f, "nomos-tell: the {text} is too long"),
            Failure::ContractRefused => write!(
                f,
                "nomos-tell: the contract is refused, and nomos check says why"
            ),
            Failure::ContractUnsolved => write!(
                f,
                "nomos-tell: it is not known whether the contract is accepted, and nomos check says why"
            ),
            Failure::ScriptRefused(line) => {
                write!(f, "nomos-tell: the script is refused at line {line}")
            }
            Failure::JournalUnfit(line) => {
                write!(f, "nomos-tell: line {line} of the journal does not fit")
            }
            Failure::NoMemory => write!(f, "nomos-tell: memory does not suffice"),
            Failure::Unwritten => write!(f, "nomos-tell: the tale could not be written"),
        }
    }
}

/// Why a text was not read.
pub(crate) fn of_reading(text: Text, error: ReadError) -> Failure {
    match error {
        ReadError::TooLong => Failure::TooLong(text),
        ReadError::ReadFault => Failure::Unread(text),
        ReadError::NoMemory => Failure::NoMemory,
    }
}

impl From<AcceptError> for Failure {
    fn from(error: AcceptError) -> Failure {
        match error {
            AcceptError::Refused(_) => Failure::ContractRefused,
            AcceptError::Unsolved(_) => Failure::ContractUnsolved,
            AcceptError::NoMemory => Failure::NoMemory,
        }
    }
}

impl From<ScriptError> for Failure {
    fn from(error: ScriptError) -> Failure {
        match error {
            ScriptError::TooLong => Failure::TooLong(Text::Script),
            ScriptError::Syntax(line) => Failure::ScriptRefused(line),
            ScriptError::NoMemory => Failure::NoMemory,
        }
    }
}

impl From<Untold> for Failure {
    fn from(why: Untold) -> Failure {
        match why {
            Untold::NoMemory => Failure::NoMemory,
            Untold::Unfit(line) => Failure::JournalUnfit(line),
        }
    }
}
