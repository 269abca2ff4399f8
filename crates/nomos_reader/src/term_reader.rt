//! How terms are read. What is read derives from the grammar, so that nothing but memory can be wanting.
ghost use Rattle.std.specs.Prelude.{◌≡◌, IfOk, [], length, map};
ghost use Rattle.nomos_reader.specs.mirror.Front.{front_kind, read_until};
ghost use Rattle.nomos_reader.specs.mirror.Terms.{comparison_in, is_cons, is_not, operand_of, operator_in, read_chain, read_comparison, read_conses, read_if, read_list_term, read_match, read_named, read_negation, read_nil, read_nots, read_number, read_parenthesized, read_primary, read_term, term_of_tokens, with_heads, with_nots};
ghost use Rattle.nomos_reader.specs.mirror.TermPieces.{head_tree};
ghost use Rattle.nomos_surface.specs.TermView.{term_tree};
ghost use Rattle.nomos_surface.specs.Tree.{binary, negation};

use crate::chain::Chain;
use crate::tokens::Tokens;
use crate::value_type_reader::read_value_type;
use nomos_ir::word::Word;
use nomos_surface::terms::{Operator, SurfaceTerm};
use nomos_syntax::symbol::Symbol;
use nomos_syntax::token::TokenKind;
use std::alloc::{AllocError, Global};

/// Reads a number.
fn read_number(tokens: &mut Tokens<'_>) -> SurfaceTerm
    ensures { (term_tree result, tokens.new) ≡ read_number tokens.old }
{
    let value = tokens.number();
    SurfaceTerm::Number {
        at: tokens.skip(),
        value,
    }
}

/// Reads `nil` and a type of values.
#[tactic(auto, unfolding(crate::specs::mirror::Terms::read_nil))]
fn read_nil(tokens: &mut Tokens<'_>) -> Result<SurfaceTerm, AllocError>
    ensures { IfOk result (λ t. (term_tree t, tokens.new) ≡ read_nil tokens.old) }
{
    let at = tokens.skip();
    let element = read_value_type(tokens)?;
    Ok(SurfaceTerm::Nil { at, element })
}

/// The operator of a chain that such a token is.
fn operator_in(chain: Chain, kind: Option<TokenKind>) -> Option<Operator>
    ensures { result ≡ operator_in chain kind }
{
    match (chain, kind) {
        (Chain::Disjunction, Some(TokenKind::Reserved(Word::Or))) => Some(Operator::Or),
        (Chain::Conjunction, Some(TokenKind::Reserved(Word::And))) => Some(Operator::And),
        (Chain::Sum, Some(TokenKind::Symbol(Symbol::Plus))) => Some(Operator::Add),
        (Chain::Sum, Some(TokenKind::Symbol(Symbol::Minus))) => Some(Operator::Sub),
        (Chain::Product, Some(TokenKind::Symbol(Symbol::Star))) => Some(Operator::Mul),
        (Chain::Product, Some(TokenKind::Symbol(Symbol::Slash))) => Some(Operator::Div),
        (Chain::Product, Some(TokenKind::Symbol(Symbol::Percent))) => Some(Operator::Rem),
        _ => None,
    }
}

/// The comparison that such a token is.
fn comparison_in(kind: Option<TokenKind>) -> Option<Operator>
    ensures { result ≡ comparison_in kind }
{
    match kind {
        Some(TokenKind::Symbol(Symbol::Less)) => Some(Operator::Less),
        Some(TokenKind::Symbol(Symbol::Equals)) => Some(Operator::Equal),
        _ => None,
    }
}

/// Whether `::` is next.
fn at_cons(tokens: &Tokens<'_>) -> bool
    ensures { result ≡ is_cons (front_kind tokens.now) }
{
    matches!(tokens.kind(), Some(TokenKind::Symbol(Symbol::DoubleColon)))
}

/// Whether `not` is next.
fn at_not(tokens: &Tokens<'_>) -> bool
    ensures { result ≡ is_not (front_kind tokens.now) }
{
    matches!(tokens.kind(), Some(TokenKind::Reserved(Word::Not)))
}

/// Reads the offsets of words `not`.
fn read_nots(tokens: &mut Tokens<'_>) -> Result<Vec<u32>, AllocError>
    ensures { IfOk result (λ nots. (nots.items, tokens.new) ≡ read_nots [] tokens.old) }
{
    let mut nots = Vec::new(tokens.alloc());
    while at_not(tokens) {
        nots.push(tokens.skip())?;
    }
    Ok(nots)
}

/// The opposite of a term.
fn negated(alloc: Global, at: u32, term: SurfaceTerm) -> Result<SurfaceTerm, AllocError>
    ensures { IfOk result (λ t. term_tree t ≡ negation at (term_tree term)) }
{
    Ok(SurfaceTerm::Not {
        at,
        inner: Box::new(alloc, term)?,
    })
}

/// A term with words `not` at these offsets before it.
fn with_nots(alloc: Global, nots: Vec<u32>, term: SurfaceTerm) -> Result<SurfaceTerm, AllocError>
    ensures { IfOk result (λ t. term_tree t ≡ with_nots nots.items (term_tree term)) }
{
    let mut nots = nots;
    let mut term = term;
    while let Some(at) = nots.pop() {
        term = negated(alloc, at, term)?;
    }
    Ok(term)
}

/// Two terms with an operator between them.
fn binary(
    alloc: Global,
    operator: Operator,
    at: u32,
    left: SurfaceTerm,
    right: SurfaceTerm,
) -> Result<SurfaceTerm, AllocError>
    ensures { IfOk result (λ t. term_tree t ≡ binary operator at (term_tree left) (term_tree right)) }
{
    Ok(SurfaceTerm::Binary {
        operator,
        at,
        left: Box::new(alloc, left)?,
        right: Box::new(alloc, right)?,
    })
}

/// A term with others before it, each with the offset of the `::` behind it.
fn with_heads(
    alloc: Global,
    heads: Vec<(SurfaceTerm, u32)>,
    last: SurfaceTerm,
) -> Result<SurfaceTerm, AllocError>
    ensures { IfOk result (λ t. term_tree t ≡ with_heads (map head_tree heads.items) (term_tree last)) }
{
    let mut heads = heads;
    let mut term = last;
    while let Some((head, at)) = heads.pop() {
        term = binary(alloc, Operator::Cons, at, head, term)?;
    }
    Ok(term)
}

/// Reads a term in which no more than so many are open.
#[cycle(reading_terms)]
#[tactic(auto, using(crate::proofs::ChainLemmas::closed_term, crate::proofs::ChainLemmas::open_term))]
pub(crate) fn read_term(room: usize, tokens: &mut Tokens<'_>) -> Result<SurfaceTerm, AllocError>
    ensures { IfOk result (λ t. (term_tree t, tokens.new) ≡ read_term room tokens.old) }
{
    if room == 0 {
        return Ok(read_number(tokens));
    }
    read_open_term(room - 1, tokens)
}

/// Reads a term inside which no more than so many are open.
#[cycle(reading_terms)]
#[tactic(auto, unfolding(crate::specs::mirror::Terms::term_from))]
fn read_open_term(room: usize, tokens: &mut Tokens<'_>) -> Result<SurfaceTerm, AllocError>
    ensures { IfOk result (λ t. (term_tree t, tokens.new) ≡ term_of_tokens (read_term room) tokens.old) }
{
    match tokens.kind() {
        Some(TokenKind::Reserved(Word::If)) => read_if(room, tokens),
        Some(TokenKind::Reserved(Word::Match)) => read_match(room, tokens),
        _ => read_chain(room, Chain::Disjunction, tokens),
    }
}

/// Reads `if`, a term, `then`, a term, `else` and a term.
#[cycle(reading_terms)]
#[tactic(auto, unfolding(crate::specs::mirror::Terms::read_if))]
fn read_if(room: usize, tokens: &mut Tokens<'_>) -> Result<SurfaceTerm, AllocError>
    ensures { IfOk result (λ t. (term_tree t, tokens.new) ≡ read_if (read_term room) tokens.old) }
{
    let alloc = tokens.alloc();
    let at = tokens.skip();
    let test = Box::new(alloc, read_term(room, tokens)?)?;
    tokens.skip();
    let holds = Box::new(alloc, read_term(room, tokens)?)?;
    tokens.skip();
    let fails = Box::new(alloc, read_term(room, tokens)?)?;
    Ok(SurfaceTerm::If {
        at,
        test,
        holds,
        fails,
    })
}

/// Reads `match`, a term, `{ nil =>`, a term, `| NAME :: NAME =>`, a term and `}`.
#[cycle(reading_terms)]
#[tactic(auto, unfolding(crate::specs::mirror::Terms::read_match))]
fn read_match(room: usize, tokens: &mut Tokens<'_>) -> Result<SurfaceTerm, AllocError>
    ensures { IfOk result (λ t. (term_tree t, tokens.new) ≡ read_match (read_term room) tokens.old) }
{
    let alloc = tokens.alloc();
    let at = tokens.skip();
    let matched = Box::new(alloc, read_term(room, tokens)?)?;
    tokens.skip();
    tokens.skip();
    tokens.skip();
    let empty = Box::new(alloc, read_term(room, tokens)?)?;
    tokens.skip();
    let head = tokens.name()?;
    tokens.skip();
    let tail = tokens.name()?;
    tokens.skip();
    let more = Box::new(alloc, read_term(room, tokens)?)?;
    tokens.skip();
    Ok(SurfaceTerm::Match {
        at,
        matched,
        empty,
        head,
        tail,
        more,
    })
}

/// Reads what stands between the operators of a chain.
#[cycle(reading_terms)]
fn read_operand(
    room: usize,
    chain: Chain,
    tokens: &mut Tokens<'_>,
) -> Result<SurfaceTerm, AllocError>
    ensures { IfOk result (λ t. (term_tree t, tokens.new) ≡ operand_of (read_term room) chain tokens.old) }
{
    match chain {
        Chain::Disjunction => read_chain(room, Chain::Conjunction, tokens),
        Chain::Conjunction => read_negation(room, tokens),
        Chain::Sum => read_chain(room, Chain::Product, tokens),
        Chain::Product => read_primary(room, tokens),
    }
}

/// Reads terms with the operators of a chain between them.
#[cycle(reading_terms)]
fn read_chain(room: usize, chain: Chain, tokens: &mut Tokens<'_>) -> Result<SurfaceTerm, AllocError>
    ensures { IfOk result (λ t. (term_tree t, tokens.new)
        ≡ read_chain (operand_of (read_term room) chain) chain tokens.old) }
{
    let mut left = read_operand(room, chain, tokens)?;
    for _ in 0..tokens.len() {
        let Some(operator) = operator_in(chain, tokens.kind()) else {
            return Ok(left);
        };
        let at = tokens.skip();
        let right = read_operand(room, chain, tokens)?;
        left = binary(tokens.alloc(), operator, at, left, right)?;
    }
    Ok(left)
}

/// Reads a comparison, with the words `not` before it.
#[cycle(reading_terms)]
#[tactic(auto, unfolding(crate::specs::mirror::Terms::read_negation))]
fn read_negation(room: usize, tokens: &mut Tokens<'_>) -> Result<SurfaceTerm, AllocError>
    ensures { IfOk result (λ t. (term_tree t, tokens.new) ≡ read_negation (read_term room) tokens.old) }
{
    let nots = read_nots(tokens)?;
    let term = read_comparison(room, tokens)?;
    with_nots(tokens.alloc(), nots, term)
}

/// Reads one term or two with a comparison between them.
#[cycle(reading_terms)]
#[tactic(auto, unfolding(crate::specs::mirror::Terms::read_comparison, crate::specs::mirror::Terms::compared_from))]
fn read_comparison(room: usize, tokens: &mut Tokens<'_>) -> Result<SurfaceTerm, AllocError>
    ensures { IfOk result (λ t. (term_tree t, tokens.new) ≡ read_comparison (read_term room) tokens.old) }
{
    let left = read_list_term(room, tokens)?;
    let Some(operator) = comparison_in(tokens.kind()) else {
        return Ok(left);
    };
    let at = tokens.skip();
    let right = read_list_term(room, tokens)?;
    binary(tokens.alloc(), operator, at, left, right)
}

/// Reads sums with `::` between them.
#[cycle(reading_terms)]
fn read_list_term(room: usize, tokens: &mut Tokens<'_>) -> Result<SurfaceTerm, AllocError>
    ensures { IfOk result (λ t. (term_tree t, tokens.new) ≡ read_list_term (read_term room) tokens.old) }
{
    let mut heads = Vec::new(tokens.alloc());
    for _ in 0..tokens.len() {
        let sum = read_chain(room, Chain::Sum, tokens)?;
        if !at_cons(tokens) {
            return with_heads(tokens.alloc(), heads, sum);
        }
        let at = tokens.skip();
        heads.push((sum, at))?;
    }
    let last = read_number(tokens);
    with_heads(tokens.alloc(), heads, last)
}

/// Reads a term without operators.
#[cycle(reading_terms)]
#[tactic(auto, unfolding(crate::specs::mirror::Terms::primary_from))]
fn read_primary(room: usize, tokens: &mut Tokens<'_>) -> Result<SurfaceTerm, AllocError>
    ensures { IfOk result (λ t. (term_tree t, tokens.new) ≡ read_primary (read_term room) tokens.old) }
{
    match tokens.kind() {
        Some(TokenKind::Name) => read_named(room, tokens),
        Some(TokenKind::Reserved(Word::Nil)) => read_nil(tokens),
        Some(TokenKind::Symbol(Symbol::OpenParen)) => read_parenthesized(room, tokens),
        Some(TokenKind::Reserved(Word::True)) => Ok(SurfaceTerm::Truth {
            at: tokens.skip(),
            value: true,
        }),
        Some(TokenKind::Reserved(Word::False)) => Ok(SurfaceTerm::Truth {
            at: tokens.skip(),
            value: false,
        }),
        Some(TokenKind::Reserved(Word::Me)) => Ok(SurfaceTerm::Me { at: tokens.skip() }),
        _ => Ok(read_number(tokens)),
    }
}

/// Reads a name, or a call.
#[cycle(reading_terms)]
#[tactic(auto, unfolding(crate::specs::mirror::Terms::named_from))]
fn read_named(room: usize, tokens: &mut Tokens<'_>) -> Result<SurfaceTerm, AllocError>
    ensures { IfOk result (λ t. (term_tree t, tokens.new) ≡ read_named (read_term room) tokens.old) }
{
    let name = tokens.name()?;
    if !tokens.at_open_paren() {
        return Ok(SurfaceTerm::Variable { name });
    }
    tokens.skip();
    let arguments = read_arguments(room, tokens)?;
    tokens.skip();
    Ok(SurfaceTerm::Call {
        function: name,
        arguments,
    })
}

/// Reads a term in parentheses.
#[cycle(reading_terms)]
#[tactic(auto, unfolding(crate::specs::mirror::Terms::read_parenthesized))]
fn read_parenthesized(room: usize, tokens: &mut Tokens<'_>) -> Result<SurfaceTerm, AllocError>
    ensures { IfOk result (λ t. (term_tree t, tokens.new) ≡ read_parenthesized (read_term room) tokens.old) }
{
    tokens.skip();
    let inner = Box::new(tokens.alloc(), read_term(room, tokens)?)?;
    tokens.skip();
    Ok(SurfaceTerm::Grouped { inner })
}

/// Reads terms with a `,` between them, which may be none.
#[cycle(reading_terms)]
pub(crate) fn read_arguments(
    room: usize,
    tokens: &mut Tokens<'_>,
) -> Result<Vec<SurfaceTerm>, AllocError>
    ensures { IfOk result (λ ts. (map term_tree ts.items, tokens.new)
        ≡ read_until (read_term room) (length tokens.old) tokens.old) }
{
    let mut terms = Vec::new(tokens.alloc());
    if tokens.at_list_end() {
        return Ok(terms);
    }
    for _ in 0..tokens.len() {
        terms.push(read_term(room, tokens)?)?;
        if !tokens.at_comma() {
            return Ok(terms);
        }
        tokens.skip();
    }
    Ok(terms)
}
