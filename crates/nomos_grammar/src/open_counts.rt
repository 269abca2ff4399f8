//! What counts at a place between the tokens of a text.
ghost use Rattle.std.specs.Prelude.{◌≡◌, OnOk};
ghost use Rattle.nomos_grammar.specs.CountedPlaces.{nothing_counted, after_mark, after_token};
ghost use Rattle.nomos_grammar.specs.mirror.ReaderStates.{HasRoom, passed};
ghost use Rattle.nomos_grammar.specs.mirror.Tallies.{counts_of, IsKept};

use crate::offence::Which;
use crate::part::Mark;
use nomos_ir::stack::Stack;
use std::alloc::{AllocError, Global};

/// The most productions, branches, braced codes and operators that may be open at a token.
pub(crate) const NESTING_LIMIT: u32 = 64;

/// The most nodes of a text.
pub(crate) const NODE_LIMIT: u32 = 10_000;

/// The most stars of a text.
pub(crate) const STAR_LIMIT: u32 = 64;

/// What is open, and what was counted.
#[derive(Drop)]
pub(crate) struct Counted {
    /// The productions `type`, `vtype` and `notx`, branches and braced codes that are open.
    pub(crate) parts: u32,
    /// For each open `term`, the innermost on the top, how many of its infix operators are read.
    pub(crate) terms: Stack<u32>,
    /// How many terms are open, and how many operators are read in them.
    pub(crate) in_terms: u32,
    /// The nodes, the next token among them.
    pub(crate) nodes: u32,
    /// The nodes up to the token just read.
    pub(crate) before: u32,
    /// The stars, the next token among them.
    pub(crate) stars: u32,
}

impl Counted {
    /// Nothing is open, and nothing counted.
    pub(crate) fn new(alloc: Global) -> Self
        ensures counted { counts_of result ≡ nothing_counted }
        ensures kept { IsKept result }
    {
        Counted {
            parts: 0,
            terms: Stack::new(alloc),
            in_terms: 0,
            nodes: 0,
            before: 0,
            stars: 0,
        }
    }

    /// Begins a term.
    fn open_term(&mut self) -> Result<(), AllocError>
        requires kept { IsKept self.old }
        requires room { HasRoom (counts_of self.old) 0 }
        ensures counted { OnOk result (counts_of self.new ≡ after_mark Mark.OpenTerm (counts_of self.old)) }
        ensures kept { OnOk result (IsKept self.new) }
    {
        self.terms.push(0)?;
        self.in_terms += 1;
        Ok(())
    }

    /// Ends the innermost open term, and with it its operators.
    fn close_term(&mut self)
        requires kept { IsKept self.old }
        ensures counted { counts_of self.new ≡ after_mark Mark.CloseTerm (counts_of self.old) }
        ensures kept { IsKept self.new }
    {
        if let Some(operators) = self.terms.pop() {
            self.in_terms = self.in_terms - operators - 1;
        }
    }

    /// Counts an operator in the innermost open term.
    fn add_operator(&mut self) -> Result<(), AllocError>
        requires kept { IsKept self.old }
        requires room { HasRoom (counts_of self.old) 0 }
        ensures counted { OnOk result (counts_of self.new ≡ after_mark Mark.Operator (counts_of self.old)) }
        ensures kept { OnOk result (IsKept self.new) }
    {
        if let Some(operators) = self.terms.pop() {
            self.terms.push(operators + 1)?;
            self.in_terms += 1;
        }
        Ok(())
    }

    /// Counts what the mark says.
    pub(crate) fn add(&mut self, mark: Mark) -> Result<(), AllocError>
        requires kept { IsKept self.old }
        requires room { HasRoom (counts_of self.old) 0 }
        ensures counted { OnOk result (counts_of self.new ≡ after_mark mark (counts_of self.old)) }
        ensures kept { OnOk result (IsKept self.new) }
    {
        match mark {
            Mark::OpenPart => self.parts += 1,
            Mark::ClosePart => self.parts = self.parts.saturating_sub(1),
            Mark::OpenTerm => self.open_term()?,
            Mark::CloseTerm => self.close_term(),
            Mark::Operator => self.add_operator()?,
            Mark::Node => self.nodes += 1,
            Mark::NodeBefore => {
                self.nodes += 1;
                self.before += 1;
            }
            Mark::Star => self.stars += 1,
        }
        Ok(())
    }

    /// The next token is read.
    pub(crate) fn add_token(&mut self)
        requires { IsKept self.old }
        ensures counted { counts_of self.new ≡ after_token (counts_of self.old) }
        ensures kept { IsKept self.new }
    {
        self.before = self.nodes;
    }

    /// The first limit that the next token passes by what counts at it.
    pub(crate) fn passed(&self) -> Option<Which>
        requires kept { IsKept self.now }
        requires room { HasRoom (counts_of self.now) 0 }
        ensures { result ≡ passed (counts_of self.now) }
    {
        if self.parts + self.in_terms > NESTING_LIMIT {
            Some(Which::Nesting)
        } else if self.nodes > NODE_LIMIT {
            Some(Which::Nodes)
        } else if self.stars > STAR_LIMIT {
            Some(Which::Stars)
        } else {
            None
        }
    }
}
