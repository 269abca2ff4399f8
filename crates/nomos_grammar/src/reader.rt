//! The reading of tokens one by one, by the table of the grammar.
ghost use Rattle.std.specs.Prelude.{◌≡◌, OnOk, IfOk, IsTrue};
ghost use Rattle.nomos_grammar.specs.mirror.ReaderStates.{IsReady, is_asked};
ghost use Rattle.nomos_grammar.specs.mirror.Tallies.{counts_of, IsKept, SettlesTo};
ghost use Rattle.nomos_grammar.specs.mirror.TokenReaders.{IsSteady, ReadsOn, EndsWell, HasBegun};

use crate::offence::{GrammarError, Which};
use crate::open_counts::{Counted, NODE_LIMIT};
use crate::part::{Nonterminal, Part, Terminal};
use crate::productions::{push_parts, side_of};
use crate::token_sight::TokenSight;
use nomos_ir::stack::Stack;
use std::alloc::{AllocError, Global};

/// How far a text is read.
#[derive(Drop)]
pub(crate) struct Reader {
    /// What has to follow, the first part on the top.
    pub(crate) parts: Stack<Part>,
    pub(crate) tally: Counted,
    /// The offset of the token just read.
    pub(crate) last: u32,
}

/// Takes the parts up to the terminal that the next token has to fit: marks are counted, and productions replaced by
/// the alternative that this token chooses. None where nothing has to follow.
pub(crate) fn next_terminal(
    parts: &mut Stack<Part>,
    tally: &mut Counted,
    next: Option<Terminal>,
) -> Result<Option<Terminal>, AllocError>
    requires kept { IsKept tally.old }
    requires ready { IsReady parts.old (counts_of tally.old) }
    ensures settles { IfOk result (SettlesTo next parts.old tally.old parts.new tally.new) }
    ensures kept { OnOk result (IsKept tally.new) }
{
    while let Some(part) = parts.pop() {
        match part {
            Part::Terminal(terminal) => return Ok(Some(terminal)),
            Part::Mark(mark) => tally.add(mark)?,
            Part::Nonterminal(n) => push_parts(parts, side_of(n, next))?,
        }
    }
    Ok(None)
}

/// Whether what comes next is what is asked for.
fn fits(asked: Option<Terminal>, next: Option<Terminal>) -> bool
    ensures { result ≡ is_asked asked next }
{
    match (asked, next) {
        (Some(asked), Some(next)) => {
            asked == next || (asked == Terminal::Number && next == Terminal::One)
        }
        _ => false,
    }
}

impl Reader {
    /// The reader of a file.
    pub(crate) fn new(alloc: Global) -> Result<Self, AllocError>
        ensures { IfOk result HasBegun }
    {
        let mut parts = Stack::new(alloc);
        parts.push(Part::Nonterminal(Nonterminal::File))?;
        Ok(Reader {
            parts,
            tally: Counted::new(alloc),
            last: 0,
        })
    }

    /// Reads one token. The error is that of the first rule that it breaks; the reader is of no use after it.
    pub(crate) fn read(&mut self, sight: TokenSight) -> Result<(), GrammarError>
        requires { IsSteady self.old }
        ensures reads { ReadsOn self.old sight self.new result }
        ensures steady { OnOk result (IsSteady self.new) }
    {
        let asked = next_terminal(&mut self.parts, &mut self.tally, sight.terminal)?;
        let may_stand = fits(asked, sight.terminal);
        if may_stand && self.tally.before > NODE_LIMIT {
            return Err(GrammarError::Limit(Which::Nodes, self.last));
        }
        if let Some(which) = sight.passed {
            return Err(GrammarError::Limit(which, sight.at));
        }
        if !may_stand {
            return Err(GrammarError::Syntax(sight.at));
        }
        if let Some(which) = self.tally.passed() {
            return Err(GrammarError::Limit(which, sight.at));
        }
        self.tally.add_token();
        self.last = sight.at;
        Ok(())
    }

    /// Whether the text may end here.
    pub(crate) fn may_end(&mut self) -> Result<bool, AllocError>
        requires { IsSteady self.old }
        ensures { IfOk result (λ ends. EndsWell self.old ends) }
    {
        let asked = next_terminal(&mut self.parts, &mut self.tally, None)?;
        Ok(asked.is_none())
    }
}
