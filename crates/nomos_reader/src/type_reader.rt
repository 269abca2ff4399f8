//! How types are read. What is read derives from the grammar, so that nothing but memory can be wanting.
ghost use Rattle.std.specs.Prelude.{◌≡◌, IfOk, [], length, map};
ghost use Rattle.nomos_reader.specs.mirror.Front.{front_kind, read_parted, is_bar};
ghost use Rattle.nomos_reader.specs.mirror.Types.{carried_from, channel_sender, read_atom, read_branch, read_carrying, read_choice, read_grouped, read_one, read_paying, read_shift, read_type, read_valued, type_of_tokens, value_sender};
ghost use Rattle.nomos_surface.specs.Tree.{going_up, going_down};
ghost use Rattle.nomos_surface.specs.TypeView.{branch_tree, type_tree};

use crate::tokens::Tokens;
use crate::value_type_reader::{read_potential, read_value_type};
use nomos_ir::word::Word;
use nomos_surface::types::{Sender, SurfaceBranch, SurfaceType};
use nomos_syntax::symbol::Symbol;
use nomos_syntax::token::TokenKind;
use std::alloc::AllocError;

/// Reads `1`.
fn read_one(tokens: &mut Tokens<'_>) -> SurfaceType
    ensures { (type_tree result, tokens.new) ≡ read_one tokens.old }
{
    SurfaceType::One { at: tokens.skip() }
}

/// Reads a type in which no more than so many are open.
#[cycle(reading_types)]
#[tactic(auto, using(crate::proofs::RoomLemmas::closed_type, crate::proofs::RoomLemmas::open_type))]
pub(crate) fn read_type(room: usize, tokens: &mut Tokens<'_>) -> Result<SurfaceType, AllocError>
    ensures { IfOk result (λ t. (type_tree t, tokens.new) ≡ read_type room tokens.old) }
{
    if room == 0 {
        return Ok(read_one(tokens));
    }
    read_open_type(room - 1, tokens)
}

/// Reads a type inside which no more than so many are open.
#[cycle(reading_types)]
#[tactic(auto, unfolding(crate::specs::mirror::Types::type_from))]
fn read_open_type(room: usize, tokens: &mut Tokens<'_>) -> Result<SurfaceType, AllocError>
    ensures { IfOk result (λ t. (type_tree t, tokens.new) ≡ type_of_tokens (read_type room) tokens.old) }
{
    match tokens.kind() {
        Some(TokenKind::Reserved(Word::Up)) => read_up(room, tokens),
        Some(TokenKind::Reserved(Word::Down)) => read_down(room, tokens),
        Some(TokenKind::Symbol(Symbol::Bar)) => read_paying(room, Sender::Provider, tokens),
        Some(TokenKind::Symbol(Symbol::Less)) => read_paying(room, Sender::Client, tokens),
        Some(TokenKind::Reserved(Word::Int | Word::Bool | Word::List)) => read_valued(room, tokens),
        _ => read_carrying(room, tokens),
    }
}

/// Reads `up` and a type.
#[cycle(reading_types)]
#[tactic(auto, unfolding(crate::specs::mirror::Types::read_shift))]
fn read_up(room: usize, tokens: &mut Tokens<'_>) -> Result<SurfaceType, AllocError>
    ensures { IfOk result (λ t. (type_tree t, tokens.new) ≡ read_shift going_up (read_type room) tokens.old) }
{
    let at = tokens.skip();
    let goes = Box::new(tokens.alloc(), read_type(room, tokens)?)?;
    Ok(SurfaceType::Up { at, goes })
}

/// Reads `down` and a type.
#[cycle(reading_types)]
#[tactic(auto, unfolding(crate::specs::mirror::Types::read_shift))]
fn read_down(room: usize, tokens: &mut Tokens<'_>) -> Result<SurfaceType, AllocError>
    ensures { IfOk result (λ t. (type_tree t, tokens.new) ≡ read_shift going_down (read_type room) tokens.old) }
{
    let at = tokens.skip();
    let goes = Box::new(tokens.alloc(), read_type(room, tokens)?)?;
    Ok(SurfaceType::Down { at, goes })
}

/// Reads what this side pays, and a type.
#[cycle(reading_types)]
#[tactic(auto, unfolding(crate::specs::mirror::Types::read_paying))]
fn read_paying(
    room: usize,
    sender: Sender,
    tokens: &mut Tokens<'_>,
) -> Result<SurfaceType, AllocError>
    ensures { IfOk result (λ t. (type_tree t, tokens.new) ≡ read_paying sender (read_type room) tokens.old) }
{
    let at = tokens.skip();
    let potential = read_potential(tokens);
    tokens.skip();
    let goes = Box::new(tokens.alloc(), read_type(room, tokens)?)?;
    Ok(SurfaceType::Paying {
        sender,
        at,
        potential,
        goes,
    })
}

/// Which side sends the value, by the symbol behind its type.
fn value_sender(kind: Option<TokenKind>) -> Sender
    ensures { result ≡ value_sender kind }
{
    match kind {
        Some(TokenKind::Symbol(Symbol::Wedge)) => Sender::Provider,
        _ => Sender::Client,
    }
}

/// Reads the type of a value that is sent, and a type.
#[cycle(reading_types)]
#[tactic(auto, unfolding(crate::specs::mirror::Types::read_valued))]
fn read_valued(room: usize, tokens: &mut Tokens<'_>) -> Result<SurfaceType, AllocError>
    ensures { IfOk result (λ t. (type_tree t, tokens.new) ≡ read_valued (read_type room) tokens.old) }
{
    let value = read_value_type(tokens)?;
    let sender = value_sender(tokens.kind());
    let at = tokens.skip();
    let goes = Box::new(tokens.alloc(), read_type(room, tokens)?)?;
    Ok(SurfaceType::Value {
        sender,
        at,
        value,
        goes,
    })
}

/// Which side sends the channel whose type stands before such a symbol.
fn channel_sender(kind: Option<TokenKind>) -> Option<Sender>
    ensures { result ≡ channel_sender kind }
{
    match kind {
        Some(TokenKind::Symbol(Symbol::Star)) => Some(Sender::Provider),
        Some(TokenKind::Symbol(Symbol::Lollipop)) => Some(Sender::Client),
        _ => None,
    }
}

/// Reads an atom, and a type behind it where it is carried.
#[cycle(reading_types)]
#[tactic(auto, unfolding(crate::specs::mirror::Types::read_carrying, crate::specs::mirror::Types::carried_from))]
fn read_carrying(room: usize, tokens: &mut Tokens<'_>) -> Result<SurfaceType, AllocError>
    ensures { IfOk result (λ t. (type_tree t, tokens.new) ≡ read_carrying (read_type room) tokens.old) }
{
    let atom = read_atom(room, tokens)?;
    let Some(sender) = channel_sender(tokens.kind()) else {
        return Ok(atom);
    };
    let at = tokens.skip();
    let carried = Box::new(tokens.alloc(), atom)?;
    let goes = Box::new(tokens.alloc(), read_type(room, tokens)?)?;
    Ok(SurfaceType::Channel {
        sender,
        at,
        carried,
        goes,
    })
}

/// Reads an atom.
#[cycle(reading_types)]
#[tactic(auto, unfolding(crate::specs::mirror::Types::atom_from))]
fn read_atom(room: usize, tokens: &mut Tokens<'_>) -> Result<SurfaceType, AllocError>
    ensures { IfOk result (λ t. (type_tree t, tokens.new) ≡ read_atom (read_type room) tokens.old) }
{
    match tokens.kind() {
        Some(TokenKind::Symbol(Symbol::OpenParen)) => read_grouped(room, tokens),
        Some(TokenKind::Symbol(Symbol::Plus)) => read_choice(room, Sender::Provider, tokens),
        Some(TokenKind::Symbol(Symbol::Ampersand)) => read_choice(room, Sender::Client, tokens),
        Some(TokenKind::Name) => Ok(SurfaceType::Named {
            name: tokens.name()?,
        }),
        _ => Ok(read_one(tokens)),
    }
}

/// Reads a type in parentheses.
#[cycle(reading_types)]
#[tactic(auto, unfolding(crate::specs::mirror::Types::read_grouped))]
fn read_grouped(room: usize, tokens: &mut Tokens<'_>) -> Result<SurfaceType, AllocError>
    ensures { IfOk result (λ t. (type_tree t, tokens.new) ≡ read_grouped (read_type room) tokens.old) }
{
    tokens.skip();
    let inner = Box::new(tokens.alloc(), read_type(room, tokens)?)?;
    tokens.skip();
    Ok(SurfaceType::Grouped { inner })
}

/// Reads a choice of this side.
#[cycle(reading_types)]
#[tactic(auto, unfolding(crate::specs::mirror::Types::read_choice))]
fn read_choice(
    room: usize,
    sender: Sender,
    tokens: &mut Tokens<'_>,
) -> Result<SurfaceType, AllocError>
    ensures { IfOk result (λ t. (type_tree t, tokens.new) ≡ read_choice sender (read_type room) tokens.old) }
{
    let at = tokens.skip();
    tokens.skip();
    let branches = read_branches(room, tokens)?;
    tokens.skip();
    Ok(SurfaceType::Choice {
        sender,
        at,
        branches,
    })
}

/// Reads branches.
#[cycle(reading_types)]
fn read_branches(room: usize, tokens: &mut Tokens<'_>) -> Result<Vec<SurfaceBranch>, AllocError>
    ensures { IfOk result (λ bs. (map branch_tree bs.items, tokens.new) ≡
        read_parted (read_branch (read_type room)) is_bar (length tokens.old) [] tokens.old) }
{
    let mut branches = Vec::new(tokens.alloc());
    for _ in 0..tokens.len() {
        branches.push(read_branch(room, tokens)?)?;
        if !tokens.at_bar() {
            return Ok(branches);
        }
        tokens.skip();
    }
    Ok(branches)
}

/// Reads a label and its type.
#[cycle(reading_types)]
#[tactic(auto, unfolding(crate::specs::mirror::Types::read_branch))]
fn read_branch(room: usize, tokens: &mut Tokens<'_>) -> Result<SurfaceBranch, AllocError>
    ensures { IfOk result (λ b. (branch_tree b, tokens.new) ≡ read_branch (read_type room) tokens.old) }
{
    let label = tokens.name()?;
    tokens.skip();
    let goes = read_type(room, tokens)?;
    Ok(SurfaceBranch { label, goes })
}
