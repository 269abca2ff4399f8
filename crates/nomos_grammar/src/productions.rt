//! The grammar as the reader knows it: the alternatives of each production, and the tokens that choose among them.
ghost use Rattle.std.specs.Prelude.{◌≡◌, ◌++◌, map, OnOk};
ghost use Rattle.nomos_grammar.specs.mirror.Table.{row_of, rows, takes, chosen};

use crate::part::{Mark, Nonterminal, Part, Terminal};
use nomos_ir::stack::Stack;
use nomos_ir::word::Word;
use nomos_syntax::symbol::Symbol;
use std::alloc::AllocError;

/// An alternative of a production, with the tokens that choose it, if none of the alternatives before it is chosen.
#[derive(Clone, Copy)]
pub(crate) struct Alternative {
    /// Where there are none, whatever comes chooses it.
    pub(crate) begins: &'static [Terminal],
    pub(crate) side: &'static [Part],
}

macro_rules! terminal {
    (any $name:ident) => {
        Terminal::$name
    };
    (word $name:ident) => {
        Terminal::Reserved(Word::$name)
    };
    (sign $name:ident) => {
        Terminal::Symbol(Symbol::$name)
    };
}

macro_rules! part {
    (the $name:ident) => {
        Part::Nonterminal(Nonterminal::$name)
    };
    (mark $name:ident) => {
        Part::Mark(Mark::$name)
    };
    ($kind:ident $name:ident) => {
        Part::Terminal(terminal!($kind $name))
    };
}

macro_rules! alternative {
    ([$($first_kind:ident $first:ident),*] $($kind:ident $name:ident),*) => {
        Alternative {
            begins: &[$(terminal!($first_kind $first)),*],
            side: &[$(part!($kind $name)),*],
        }
    };
}

const FILE: &[Alternative] = &[
    alternative!([word Cost] word Cost, the CostModel, sign Semicolon, the Declarations),
    alternative!([word Type, word Fn, word Proc] the Declaration, the Declarations),
    alternative!([]),
];

const COST_MODEL: &[Alternative] = &[
    alternative!([word Ticks] word Ticks),
    alternative!([word Sends] word Sends),
    alternative!([] word All),
];

const DECLARATIONS: &[Alternative] = &[
    alternative!([word Type, word Fn, word Proc] the Declaration, the Declarations),
    alternative!([]),
];

const DECLARATION: &[Alternative] = &[
    alternative!([word Type]
        mark Node, word Type, the DefinitionMode, any Name, sign Equals, the SessionType, sign Semicolon
    ),
    alternative!([word Fn]
        mark Node, word Fn, any Name, sign OpenParen, the FunctionParameters, sign CloseParen, sign Colon,
        the ValueType, sign Equals, the Term, sign Semicolon
    ),
    alternative!([] mark Node, word Proc, the Process),
];

const DEFINITION_MODE: &[Alternative] = &[
    alternative!([word R] word R),
    alternative!([word S] word S),
    alternative!([] word L),
];

const PROCESS: &[Alternative] = &[
    alternative!([word T]
        word T, any Name, the Parameters, the OptionalPotential, sign Equals, the Code, sign Semicolon
    ),
    alternative!([]
        the DefinitionMode, any Name, the Parameters, the OptionalPotential, sign Colon, the SessionType,
        sign Equals, the Code, sign Semicolon
    ),
];

const FUNCTION_PARAMETERS: &[Alternative] = &[
    alternative!([any Name] the FunctionParameter, the MoreFunctionParameters),
    alternative!([]),
];

const MORE_FUNCTION_PARAMETERS: &[Alternative] = &[
    alternative!([sign Comma] sign Comma, the FunctionParameter, the MoreFunctionParameters),
    alternative!([]),
];

const FUNCTION_PARAMETER: &[Alternative] = &[alternative!([] any Name, sign Colon, the ValueType)];

const PARAMETERS: &[Alternative] = &[
    alternative!([] sign OpenParen, the ValueParameters, sign Semicolon, the ChannelParameters, sign CloseParen),
];

const VALUE_PARAMETERS: &[Alternative] = &[
    alternative!([any Name] the ValueParameter, the MoreValueParameters),
    alternative!([]),
];

const MORE_VALUE_PARAMETERS: &[Alternative] = &[
    alternative!([sign Comma] sign Comma, the ValueParameter, the MoreValueParameters),
    alternative!([]),
];

const VALUE_PARAMETER: &[Alternative] = &[alternative!([] any Name, sign Colon, the ParameterKind)];

const CHANNEL_PARAMETERS: &[Alternative] = &[
    alternative!([any Name] the ChannelParameter, the MoreChannelParameters),
    alternative!([]),
];

const MORE_CHANNEL_PARAMETERS: &[Alternative] = &[
    alternative!([sign Comma] sign Comma, the ChannelParameter, the MoreChannelParameters),
    alternative!([]),
];

const CHANNEL_PARAMETER: &[Alternative] = &[alternative!([] any Name, sign Colon, the SessionType)];

const PARAMETER_KIND: &[Alternative] = &[
    alternative!([word List] mark Node, word List, the AfterParameterList),
    alternative!([word Int] mark OpenPart, mark Node, word Int, mark ClosePart),
    alternative!([] mark OpenPart, mark Node, word Bool, mark ClosePart),
];

const AFTER_PARAMETER_LIST: &[Alternative] = &[
    alternative!([sign OpenBrace] the Potential, the ValueType),
    alternative!([] mark OpenPart, the ValueType, mark ClosePart),
];

const OPTIONAL_POTENTIAL: &[Alternative] = &[
    alternative!([sign OpenBrace] the Potential),
    alternative!([]),
];

const POTENTIAL: &[Alternative] = &[alternative!([] sign OpenBrace, the Amount, sign CloseBrace)];

const AMOUNT: &[Alternative] = &[
    alternative!([sign Star] mark Star, sign Star),
    alternative!([] any Number),
];

const VALUE_TYPE: &[Alternative] = &[
    alternative!([word List] mark OpenPart, mark Node, word List, the ValueType, mark ClosePart),
    alternative!([word Int] mark OpenPart, mark Node, word Int, mark ClosePart),
    alternative!([] mark OpenPart, mark Node, word Bool, mark ClosePart),
];

const SESSION_TYPE: &[Alternative] = &[
    alternative!([word Up] mark OpenPart, mark Node, word Up, the SessionType, mark ClosePart),
    alternative!([word Down] mark OpenPart, mark Node, word Down, the SessionType, mark ClosePart),
    alternative!([sign Bar]
        mark OpenPart, mark Node, sign Bar, the Potential, sign Greater, the SessionType, mark ClosePart
    ),
    alternative!([sign Less]
        mark OpenPart, mark Node, sign Less, the Potential, sign Bar, the SessionType, mark ClosePart
    ),
    alternative!([word List, word Int, word Bool]
        mark OpenPart, the ValueType, the ValueArrow, the SessionType, mark ClosePart
    ),
    alternative!([] mark OpenPart, the Atom, the AfterAtom, mark ClosePart),
];

const VALUE_ARROW: &[Alternative] = &[
    alternative!([sign Wedge] mark Node, sign Wedge),
    alternative!([] mark Node, sign Arrow),
];

const AFTER_ATOM: &[Alternative] = &[
    alternative!([sign Star] mark Node, sign Star, the SessionType),
    alternative!([sign Lollipop] mark Node, sign Lollipop, the SessionType),
    alternative!([]),
];

const ATOM: &[Alternative] = &[
    alternative!([sign OpenParen] sign OpenParen, the SessionType, sign CloseParen),
    alternative!([sign Plus] mark Node, sign Plus, sign OpenBrace, the Labels, sign CloseBrace),
    alternative!([sign Ampersand] mark Node, sign Ampersand, sign OpenBrace, the Labels, sign CloseBrace),
    alternative!([any Name] mark Node, any Name),
    alternative!([] mark Node, any One),
];

const LABELS: &[Alternative] = &[alternative!([] the LabelledType, the MoreLabels)];

const MORE_LABELS: &[Alternative] = &[
    alternative!([sign Bar] sign Bar, the LabelledType, the MoreLabels),
    alternative!([]),
];

const LABELLED_TYPE: &[Alternative] = &[alternative!([] any Name, sign Colon, the SessionType)];

const CHANNEL: &[Alternative] = &[
    alternative!([word SelfWord] word SelfWord),
    alternative!([] any Name),
];

const ARGUMENTS: &[Alternative] = &[
    alternative!([] sign OpenParen, the ValueArguments, sign Semicolon, the ChannelArguments, sign CloseParen),
];

const VALUE_ARGUMENTS: &[Alternative] = &[
    alternative!([word If, word Match, word Not, any Name, word Nil, sign OpenParen, word True, word False,
        word Me, any Number, any One]
        the Term, the MoreValueArguments
    ),
    alternative!([]),
];

const MORE_VALUE_ARGUMENTS: &[Alternative] = &[
    alternative!([sign Comma] sign Comma, the Term, the MoreValueArguments),
    alternative!([]),
];

const CHANNEL_ARGUMENTS: &[Alternative] = &[
    alternative!([any Name] any Name, the MoreChannelArguments),
    alternative!([]),
];

const MORE_CHANNEL_ARGUMENTS: &[Alternative] = &[
    alternative!([sign Comma] sign Comma, any Name, the MoreChannelArguments),
    alternative!([]),
];

const CODE: &[Alternative] = &[
    alternative!([word Fwd, word Call, word If, word Case, word Match, word Close] the Last),
    alternative!([] the Step, sign Semicolon, the Code),
];

const STEP: &[Alternative] = &[
    alternative!([word Send] mark Node, word Send, the Channel, any Name),
    alternative!([word Recv] mark Node, word Recv, the Channel, any Name),
    alternative!([word Put] mark Node, word Put, the Channel, the Term),
    alternative!([word Take] mark Node, word Take, the Channel, any Name),
    alternative!([word Pay] mark Node, word Pay, the Channel, the Potential),
    alternative!([word Get] mark Node, word Get, the Channel, the Potential),
    alternative!([word Work] mark Node, word Work, the Potential),
    alternative!([word Wait] mark Node, word Wait, any Name),
    alternative!([word Accept] mark Node, word Accept),
    alternative!([word Detach] mark Node, word Detach),
    alternative!([word Acquire] mark Node, word Acquire, any Name, word As, any Name),
    alternative!([word Release] mark Node, word Release, any Name, word As, any Name),
    alternative!([word Spawn] mark Node, word Spawn, any Name, sign Equals, any Name, the Arguments),
    alternative!([word Let] mark Node, word Let, any Name, sign Equals, the BoundValue),
    alternative!([word Emit] mark Node, word Emit, the Term),
    alternative!([] mark Node, the Channel, sign Dot, any Name),
];

const BOUND_VALUE: &[Alternative] = &[
    alternative!([word List] word List, the AfterList),
    alternative!([] the Term),
];

const AFTER_LIST: &[Alternative] = &[
    alternative!([sign OpenBrace] mark NodeBefore, the Potential, the ValueType),
    alternative!([] the Term, sign Comma, any Name),
];

const LAST: &[Alternative] = &[
    alternative!([word Fwd] mark Node, word Fwd, any Name),
    alternative!([word Call] mark Node, word Call, any Name, the Arguments),
    alternative!([word If] mark Node, word If, the Term, the BracedCode, word Else, the BracedCode),
    alternative!([word Case] mark Node, word Case, the Channel, sign OpenBrace, the Branches, sign CloseBrace),
    alternative!([word Match]
        mark Node, word Match, any Name, sign OpenBrace, mark OpenPart, word Nil, sign FatArrow, the Code,
        mark ClosePart, sign Bar, mark OpenPart, any Name, sign DoubleColon, any Name, sign FatArrow, the Code,
        mark ClosePart, sign CloseBrace
    ),
    alternative!([] mark Node, word Close),
];

const BRACED_CODE: &[Alternative] = &[
    alternative!([] mark OpenPart, sign OpenBrace, the Code, sign CloseBrace, mark ClosePart),
];

const BRANCHES: &[Alternative] = &[alternative!([] the Branch, the MoreBranches)];

const MORE_BRANCHES: &[Alternative] = &[
    alternative!([sign Bar] sign Bar, the Branch, the MoreBranches),
    alternative!([]),
];

const BRANCH: &[Alternative] = &[
    alternative!([] mark OpenPart, mark Node, any Name, sign FatArrow, the Code, mark ClosePart),
];

const TERM: &[Alternative] = &[
    alternative!([word If]
        mark OpenTerm, mark Node, word If, the Term, word Then, the Term, word Else, the Term, mark CloseTerm
    ),
    alternative!([word Match]
        mark OpenTerm, mark Node, word Match, the Term, sign OpenBrace, word Nil, sign FatArrow, the Term, sign Bar,
        any Name, sign DoubleColon, any Name, sign FatArrow, the Term, sign CloseBrace, mark CloseTerm
    ),
    alternative!([] mark OpenTerm, the Disjunction, mark CloseTerm),
];

const DISJUNCTION: &[Alternative] = &[alternative!([] the Conjunction, the MoreDisjuncts)];

const MORE_DISJUNCTS: &[Alternative] = &[
    alternative!([word Or] mark Node, word Or, mark Operator, the Conjunction, the MoreDisjuncts),
    alternative!([]),
];

const CONJUNCTION: &[Alternative] = &[alternative!([] the Negation, the MoreConjuncts)];

const MORE_CONJUNCTS: &[Alternative] = &[
    alternative!([word And] mark Node, word And, mark Operator, the Negation, the MoreConjuncts),
    alternative!([]),
];

const NEGATION: &[Alternative] = &[
    alternative!([word Not] mark OpenPart, mark Node, word Not, the Negation, mark ClosePart),
    alternative!([] mark OpenPart, the Comparison, mark ClosePart),
];

const COMPARISON: &[Alternative] = &[alternative!([] the ListTerm, the MoreComparison)];

const MORE_COMPARISON: &[Alternative] = &[
    alternative!([sign Less] mark Node, sign Less, mark Operator, the ListTerm),
    alternative!([sign Equals] mark Node, sign Equals, mark Operator, the ListTerm),
    alternative!([]),
];

const LIST_TERM: &[Alternative] = &[alternative!([] the Sum, the MoreListTerm)];

const MORE_LIST_TERM: &[Alternative] = &[
    alternative!([sign DoubleColon] mark Node, sign DoubleColon, mark Operator, the ListTerm),
    alternative!([]),
];

const SUM: &[Alternative] = &[alternative!([] the Product, the MoreSummands)];

const MORE_SUMMANDS: &[Alternative] = &[
    alternative!([sign Plus] mark Node, sign Plus, mark Operator, the Product, the MoreSummands),
    alternative!([sign Minus] mark Node, sign Minus, mark Operator, the Product, the MoreSummands),
    alternative!([]),
];

const PRODUCT: &[Alternative] = &[alternative!([] the Primary, the MoreFactors)];

const MORE_FACTORS: &[Alternative] = &[
    alternative!([sign Star] mark Node, sign Star, mark Operator, the Primary, the MoreFactors),
    alternative!([sign Slash] mark Node, sign Slash, mark Operator, the Primary, the MoreFactors),
    alternative!([sign Percent] mark Node, sign Percent, mark Operator, the Primary, the MoreFactors),
    alternative!([]),
];

const PRIMARY: &[Alternative] = &[
    alternative!([any Name] mark Node, any Name, the CallArguments),
    alternative!([word Nil] mark Node, word Nil, the ValueType),
    alternative!([sign OpenParen] sign OpenParen, the Term, sign CloseParen),
    alternative!([word True] mark Node, word True),
    alternative!([word False] mark Node, word False),
    alternative!([word Me] mark Node, word Me),
    alternative!([] mark Node, any Number),
];

const CALL_ARGUMENTS: &[Alternative] = &[
    alternative!([sign OpenParen] sign OpenParen, the ValueArguments, sign CloseParen),
    alternative!([]),
];

/// The alternatives of a production, in the order in which they are tried.
pub(crate) fn alternatives(n: Nonterminal) -> &'static [Alternative]
    ensures { map row_of result.now ≡ rows n }
{
    match n {
        Nonterminal::File => FILE,
        Nonterminal::CostModel => COST_MODEL,
        Nonterminal::Declarations => DECLARATIONS,
        Nonterminal::Declaration => DECLARATION,
        Nonterminal::DefinitionMode => DEFINITION_MODE,
        Nonterminal::Process => PROCESS,
        Nonterminal::FunctionParameters => FUNCTION_PARAMETERS,
        Nonterminal::MoreFunctionParameters => MORE_FUNCTION_PARAMETERS,
        Nonterminal::FunctionParameter => FUNCTION_PARAMETER,
        Nonterminal::Parameters => PARAMETERS,
        Nonterminal::ValueParameters => VALUE_PARAMETERS,
        Nonterminal::MoreValueParameters => MORE_VALUE_PARAMETERS,
        Nonterminal::ValueParameter => VALUE_PARAMETER,
        Nonterminal::ChannelParameters => CHANNEL_PARAMETERS,
        Nonterminal::MoreChannelParameters => MORE_CHANNEL_PARAMETERS,
        Nonterminal::ChannelParameter => CHANNEL_PARAMETER,
        Nonterminal::ParameterKind => PARAMETER_KIND,
        Nonterminal::AfterParameterList => AFTER_PARAMETER_LIST,
        Nonterminal::OptionalPotential => OPTIONAL_POTENTIAL,
        Nonterminal::Potential => POTENTIAL,
        Nonterminal::Amount => AMOUNT,
        Nonterminal::ValueType => VALUE_TYPE,
        Nonterminal::SessionType => SESSION_TYPE,
        Nonterminal::ValueArrow => VALUE_ARROW,
        Nonterminal::AfterAtom => AFTER_ATOM,
        Nonterminal::Atom => ATOM,
        Nonterminal::Labels => LABELS,
        Nonterminal::MoreLabels => MORE_LABELS,
        Nonterminal::LabelledType => LABELLED_TYPE,
        Nonterminal::Channel => CHANNEL,
        Nonterminal::Arguments => ARGUMENTS,
        Nonterminal::ValueArguments => VALUE_ARGUMENTS,
        Nonterminal::MoreValueArguments => MORE_VALUE_ARGUMENTS,
        Nonterminal::ChannelArguments => CHANNEL_ARGUMENTS,
        Nonterminal::MoreChannelArguments => MORE_CHANNEL_ARGUMENTS,
        Nonterminal::Code => CODE,
        Nonterminal::Step => STEP,
        Nonterminal::BoundValue => BOUND_VALUE,
        Nonterminal::AfterList => AFTER_LIST,
        Nonterminal::Last => LAST,
        Nonterminal::BracedCode => BRACED_CODE,
        Nonterminal::Branches => BRANCHES,
        Nonterminal::MoreBranches => MORE_BRANCHES,
        Nonterminal::Branch => BRANCH,
        Nonterminal::Term => TERM,
        Nonterminal::Disjunction => DISJUNCTION,
        Nonterminal::MoreDisjuncts => MORE_DISJUNCTS,
        Nonterminal::Conjunction => CONJUNCTION,
        Nonterminal::MoreConjuncts => MORE_CONJUNCTS,
        Nonterminal::Negation => NEGATION,
        Nonterminal::Comparison => COMPARISON,
        Nonterminal::MoreComparison => MORE_COMPARISON,
        Nonterminal::ListTerm => LIST_TERM,
        Nonterminal::MoreListTerm => MORE_LIST_TERM,
        Nonterminal::Sum => SUM,
        Nonterminal::MoreSummands => MORE_SUMMANDS,
        Nonterminal::Product => PRODUCT,
        Nonterminal::MoreFactors => MORE_FACTORS,
        Nonterminal::Primary => PRIMARY,
        Nonterminal::CallArguments => CALL_ARGUMENTS,
    }
}

/// Whether the alternative that begins so is chosen where this comes next.
fn is_chosen(begins: &[Terminal], next: Option<Terminal>) -> bool
    ensures { result ≡ takes begins.now next }
{
    match next {
        Some(terminal) => begins.is_empty() || begins.contains(&terminal),
        None => begins.is_empty(),
    }
}

/// The alternative of the production that is taken where this comes next.
pub(crate) fn side_of(n: Nonterminal, next: Option<Terminal>) -> &'static [Part]
    ensures { result.now ≡ chosen n next }
{
    for alternative in alternatives(n) {
        if is_chosen(alternative.begins, next) {
            return alternative.side;
        }
    }
    &[]
}

/// Puts parts on the top, the first one topmost.
pub(crate) fn push_parts(stack: &mut Stack<Part>, parts: &[Part]) -> Result<(), AllocError>
    ensures { OnOk result (stack.new ≡ parts.now ++ stack.old) }
{
    let mut left = parts.len();
    while left > 0 {
        left -= 1;
        stack.push(parts[left])?;
    }
    Ok(())
}
