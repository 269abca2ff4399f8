//! How potentials and the types of values are read.
ghost use Rattle.std.specs.Prelude.{◌≡◌, IfOk, []};
ghost use Rattle.nomos_reader.specs.mirror.Front.{is_list, is_open_brace, base_from, front_kind, front_quantity, read_lists, read_optional, read_potential, read_value_type};

use crate::tokens::Tokens;
use nomos_ir::items::Items;
use nomos_ir::kind::Base;
use nomos_ir::word::Word;
use nomos_surface::potential::{Potential, Quantity};
use nomos_surface::value_type::ValueType;
use nomos_syntax::symbol::Symbol;
use nomos_syntax::token::TokenKind;
use std::alloc::AllocError;

/// What the next token is as an amount.
fn quantity(tokens: &Tokens<'_>) -> Quantity
    ensures { result ≡ front_quantity tokens.now }
{
    match tokens.kind() {
        Some(TokenKind::Number) => Quantity::Number(tokens.number()),
        _ => Quantity::Star,
    }
}

/// Reads a potential.
pub(crate) fn read_potential(tokens: &mut Tokens<'_>) -> Potential
    ensures { (result, tokens.new) ≡ read_potential tokens.old }
{
    let at = tokens.skip();
    let quantity = quantity(tokens);
    let quantity_at = tokens.skip();
    tokens.skip();
    Potential {
        at,
        quantity,
        quantity_at,
    }
}

/// Whether a potential begins here.
pub(crate) fn begins_potential(tokens: &Tokens<'_>) -> bool
    ensures { result ≡ is_open_brace (front_kind tokens.now) }
{
    matches!(tokens.kind(), Some(TokenKind::Symbol(Symbol::OpenBrace)))
}

/// Reads a potential, where one stands.
pub(crate) fn read_optional(tokens: &mut Tokens<'_>) -> Option<Potential>
    ensures { (result, tokens.new) ≡ read_optional tokens.old }
{
    if begins_potential(tokens) {
        Some(read_potential(tokens))
    } else {
        None
    }
}

/// Whether the word `list` is next.
pub(crate) fn at_list(tokens: &Tokens<'_>) -> bool
    ensures { result ≡ is_list (front_kind tokens.now) }
{
    matches!(tokens.kind(), Some(TokenKind::Reserved(Word::List)))
}

/// What the next token is as a base type.
fn base(tokens: &Tokens<'_>) -> Base
    ensures { result ≡ base_from (front_kind tokens.now) }
{
    match tokens.kind() {
        Some(TokenKind::Reserved(Word::Bool)) => Base::Bool,
        _ => Base::Int,
    }
}

/// Reads the offsets of words `list`.
fn read_lists(tokens: &mut Tokens<'_>) -> Result<Vec<u32>, AllocError>
    ensures { IfOk result (λ lists. (lists.items, tokens.new) ≡ read_lists [] tokens.old) }
{
    let mut lists = Vec::new(tokens.alloc());
    while at_list(tokens) {
        lists.push(tokens.skip())?;
    }
    Ok(lists)
}

/// Reads the type of a value.
pub(crate) fn read_value_type(tokens: &mut Tokens<'_>) -> Result<ValueType, AllocError>
    ensures { IfOk result (λ t. (t, tokens.new) ≡ read_value_type tokens.old) }
{
    let lists = Items::of_vec(read_lists(tokens)?);
    let base = base(tokens);
    let base_at = tokens.skip();
    Ok(ValueType {
        lists,
        base,
        base_at,
    })
}
