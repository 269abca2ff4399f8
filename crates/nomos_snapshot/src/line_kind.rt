//! The kinds of a snapshot's lines, which their first words say.

ghost use Rattle.std.specs.Prelude.{◌≡◌};
ghost use Rattle.nomos_snapshot.specs.mirror.LineKinds.{kind_named, kind_word};

/// The kind of a line.
#[derive(Clone, Copy, PartialEq, Eq, Debug)]
pub(crate) enum LineKind {
    Head,
    Unit,
    Next,
    Spent,
    Account,
    Contract,
    Name,
    Process,
    Value,
    List,
    Channel,
    Message,
}

/// The kinds of lines.
const KINDS: [LineKind; 12] = [
    LineKind::Head,
    LineKind::Unit,
    LineKind::Next,
    LineKind::Spent,
    LineKind::Account,
    LineKind::Contract,
    LineKind::Name,
    LineKind::Process,
    LineKind::Value,
    LineKind::List,
    LineKind::Channel,
    LineKind::Message,
];

impl LineKind {
    /// The first word of the kind's lines.
    pub(crate) fn word(self) -> &'static [u8]
        ensures { result.now ≡ kind_word self }
    {
        match self {
            LineKind::Head => b"nomos-ledger",
            LineKind::Unit => b"unit",
            LineKind::Next => b"next",
            LineKind::Spent => b"spent",
            LineKind::Account => b"account",
            LineKind::Contract => b"contract",
            LineKind::Name => b"name",
            LineKind::Process => b"process",
            LineKind::Value => b"value",
            LineKind::List => b"list",
            LineKind::Channel => b"chan",
            LineKind::Message => b"message",
        }
    }
}

/// The first kind with this word.
#[tactic(auto, unfolding(crate::specs::mirror::LineKinds::kind_named))]
pub(crate) fn kind_named(text: &[u8]) -> Option<LineKind>
    ensures { result ≡ kind_named text.now }
{
    KINDS.iter().copied().find(|kind| kind.word() == text)
}
