//! Objects as an indexed state keeps them: plain records. Values, lists and channels stand beside them.
ghost use Rattle.std.specs.Prelude.{◌≡◌, ℕ, Some};
ghost use Rattle.nomos_state.specs.Objects.{kept_of};
ghost use Rattle.nomos_state.specs.Spanning.{HasVariable, Spans};

use crate::purse::Purse;
use crate::span::Span;
use nomos_deeds::sight::{SeenPayload, SeenProcess};
use nomos_ir::ids::CodeId;
use nomos_ir::mode::Mode;

/// A process without its number, its values, its lists and its channels. No part of it stands at more than multiples of
/// four bytes, so that it takes few.
#[derive(Clone, Copy, Debug)]
pub(crate) struct KeptProcess {
    pub(crate) mode: Mode,
    /// Whether it is known that its values stand in ascending order.
    pub(crate) ascends: bool,
    /// How many pairs at the front of its row of lists are used up, and are no lists of it any more.
    pub(crate) gone: u16,
    pub(crate) code: CodeId,
    pub(crate) offers: u32,
    pub(crate) base: Option<u32>,
    pub(crate) payer: u32,
    /// What its lists carry, in Dths, where that is known; and then they are known to stand in ascending order.
    pub(crate) potential: Option<u32>,
    /// Among which variables its channels may stand.
    pub(crate) span: Option<Span>,
    pub(crate) purse: Purse,
}

/// What is kept of a row of lists beside it, as a process keeps it.
#[derive(Clone, Copy, Debug)]
pub(crate) struct KeptLists {
    pub(crate) gone: u16,
    pub(crate) potential: Option<u32>,
}

impl KeptProcess {
    /// What is kept of a process with these plain fields, whose channels stand in this span, whose values are known to
    /// ascend or not, and of whose lists this is kept.
    pub(crate) fn of(
        fields: SeenProcess,
        span: Option<Span>,
        ascends: bool,
        lists: KeptLists,
    ) -> KeptProcess
        ensures { result ≡ kept_of fields span ascends lists }
    {
        KeptProcess {
            mode: fields.mode,
            ascends,
            code: fields.code,
            offers: fields.offers,
            base: fields.base,
            payer: fields.payer,
            span,
            purse: Purse::of(fields.purse),
            gone: lists.gone,
            potential: lists.potential,
        }
    }

    /// What is kept of its lists.
    pub(crate) fn lists(&self) -> KeptLists
        ensures { result ≡ record { gone = self.now.gone; potential = self.now.potential } }
    {
        KeptLists {
            gone: self.gone,
            potential: self.potential,
        }
    }
}

/// A message without its number and the value that it may bring.
#[derive(Clone, Copy, Debug)]
pub(crate) struct KeptMessage {
    pub(crate) to_client: bool,
    pub(crate) from: u32,
    pub(crate) next: Option<u32>,
    pub(crate) brings: SeenPayload,
    pub(crate) purse: Purse,
}

/// A process or a message.
#[derive(Clone, Copy, Debug)]
pub(crate) enum Kept {
    Process(KeptProcess),
    Message(KeptMessage),
}

impl Kept {
    /// Among which variables its channels may stand.
    pub(crate) fn span(&self) -> Option<Span>
        ensures { (v : ℕ) → Spans (Some self.now) v → HasVariable result v }
    {
        match self {
            Kept::Process(p) => p.span,
            Kept::Message(_) => None,
        }
    }
}
