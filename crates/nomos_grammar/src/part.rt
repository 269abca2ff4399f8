//! Of what the right sides of the grammar consist.

use nomos_ir::word::Word;
use nomos_syntax::symbol::Symbol;

/// What the grammar asks of one token.
#[derive(Clone, Copy, PartialEq, Eq, Debug)]
pub enum Terminal {
    /// A name.
    Name,
    /// A number, `1` among them.
    Number,
    /// The number whose text is `1`.
    One,
    /// This reserved word.
    Reserved(Word),
    /// This symbol.
    Symbol(Symbol),
}

/// The productions of the grammar. What may be left out, and what may stand again, has a production of its own.
#[derive(Clone, Copy, PartialEq, Eq, Debug)]
pub enum Nonterminal {
    File,
    CostModel,
    Declarations,
    Declaration,
    DefinitionMode,
    Process,
    FunctionParameters,
    MoreFunctionParameters,
    FunctionParameter,
    Parameters,
    ValueParameters,
    MoreValueParameters,
    ValueParameter,
    ParameterKind,
    AfterParameterList,
    ChannelParameters,
    MoreChannelParameters,
    ChannelParameter,
    OptionalPotential,
    Potential,
    Amount,
    ValueType,
    SessionType,
    ValueArrow,
    AfterAtom,
    Atom,
    Labels,
    MoreLabels,
    LabelledType,
    Channel,
    Arguments,
    ValueArguments,
    MoreValueArguments,
    ChannelArguments,
    MoreChannelArguments,
    Code,
    Step,
    BoundValue,
    AfterList,
    Last,
    BracedCode,
    Branches,
    MoreBranches,
    Branch,
    Term,
    Disjunction,
    MoreDisjuncts,
    Conjunction,
    MoreConjuncts,
    Negation,
    Comparison,
    MoreComparison,
    ListTerm,
    MoreListTerm,
    Sum,
    MoreSummands,
    Product,
    MoreFactors,
    Primary,
    CallArguments,
}

/// What is counted between tokens.
#[derive(Clone, Copy, PartialEq, Eq, Debug)]
pub enum Mark {
    /// A production, a branch or a braced code begins, which counts for nesting.
    OpenPart,
    /// It ends.
    ClosePart,
    /// A term begins, which counts for nesting, and so do the infix operators that are read in it.
    OpenTerm,
    /// It ends, and its operators count no longer.
    CloseTerm,
    /// The token just read was an infix operator: it counts from here on.
    Operator,
    /// The next token is a node.
    Node,
    /// The token just read is a node.
    NodeBefore,
    /// The next token is a star.
    Star,
}

/// A part of a right side.
#[derive(Clone, Copy, PartialEq, Eq, Debug)]
pub enum Part {
    Terminal(Terminal),
    Nonterminal(Nonterminal),
    Mark(Mark),
}
