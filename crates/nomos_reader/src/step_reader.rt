//! How steps are read. What is read derives from the grammar, so that nothing but memory can be wanting.
ghost use Rattle.std.specs.Prelude.{◌≡◌, IfOk, [], length, map};
ghost use Rattle.nomos_reader.specs.mirror.Codes.{bound_from, list_from, read_args, read_as, read_chan, read_emit, read_get, read_label, read_let, read_named_step, read_names, read_pay, read_put, read_spawn, read_step, read_values, read_wait, read_work, whole_term};
ghost use Rattle.nomos_reader.specs.mirror.Front.{front_kind, is_list, is_open_brace};
ghost use Rattle.nomos_surface.specs.StepView.{arg_trees, step_tree};
ghost use Rattle.nomos_surface.specs.TermView.{term_tree};
ghost use Rattle.nomos_surface.specs.Tree.{send, recv, taking, acquire, release};

use crate::term_reader::{read_arguments, read_term};
use crate::tokens::Tokens;
use crate::value_type_reader::{at_list, begins_potential, read_potential, read_value_type};
use nomos_ir::word::Word;
use nomos_surface::name_at::{NameAt, NamesAt};
use nomos_surface::steps::{ChanAt, SurfaceArgs, SurfaceStep};
use nomos_surface::terms::{SurfaceTerm, SurfaceTerms};
use nomos_syntax::token::TokenKind;
use std::alloc::AllocError;

/// Reads a term.
pub(crate) fn whole_term(tokens: &mut Tokens<'_>) -> Result<SurfaceTerm, AllocError>
    ensures { IfOk result (λ t. (term_tree t, tokens.new) ≡ whole_term tokens.old) }
{
    read_term(tokens.len(), tokens)
}

/// Reads a channel.
pub(crate) fn read_chan(tokens: &mut Tokens<'_>) -> Result<ChanAt, AllocError>
    ensures { IfOk result (λ x. (x, tokens.new) ≡ read_chan tokens.old) }
{
    match tokens.kind() {
        Some(TokenKind::Reserved(Word::SelfWord)) => Ok(ChanAt::Own { at: tokens.skip() }),
        _ => Ok(ChanAt::Variable {
            name: tokens.name()?,
        }),
    }
}

/// Reads terms with a `,` between them, which may be none.
fn read_values(tokens: &mut Tokens<'_>) -> Result<Vec<SurfaceTerm>, AllocError>
    ensures { IfOk result (λ ts. (map term_tree ts.items, tokens.new) ≡ read_values tokens.old) }
{
    read_arguments(tokens.len(), tokens)
}

/// Reads names with a `,` between them, which may be none.
fn read_names(tokens: &mut Tokens<'_>) -> Result<Vec<NameAt>, AllocError>
    ensures { IfOk result (λ names. (names.items, tokens.new) ≡ read_names tokens.old) }
{
    let mut names = Vec::new(tokens.alloc());
    if tokens.at_list_end() {
        return Ok(names);
    }
    for _ in 0..tokens.len() {
        names.push(tokens.name()?)?;
        if !tokens.at_comma() {
            return Ok(names);
        }
        tokens.skip();
    }
    Ok(names)
}

/// Reads arguments.
#[tactic(auto, unfolding(crate::specs::mirror::Codes::read_args))]
pub(crate) fn read_args(tokens: &mut Tokens<'_>) -> Result<SurfaceArgs, AllocError>
    ensures { IfOk result (λ a. (arg_trees a, tokens.new) ≡ read_args tokens.old) }
{
    tokens.skip();
    let values = SurfaceTerms::of_vec(read_values(tokens)?);
    tokens.skip();
    let channels = NamesAt::of_vec(read_names(tokens)?);
    tokens.skip();
    Ok(SurfaceArgs { values, channels })
}

/// Reads `x.l`.
#[tactic(auto, unfolding(crate::specs::mirror::Codes::read_label))]
fn read_label(tokens: &mut Tokens<'_>) -> Result<SurfaceStep, AllocError>
    ensures { IfOk result (λ s. (step_tree s, tokens.new) ≡ read_label tokens.old) }
{
    let chan = read_chan(tokens)?;
    tokens.skip();
    let label = tokens.name()?;
    Ok(SurfaceStep::Label { chan, label })
}

/// Reads `send`, a channel and a name.
#[tactic(auto, unfolding(crate::specs::mirror::Codes::read_named_step))]
fn read_send(tokens: &mut Tokens<'_>) -> Result<SurfaceStep, AllocError>
    ensures { IfOk result (λ s. (step_tree s, tokens.new) ≡ read_named_step send tokens.old) }
{
    let at = tokens.skip();
    let chan = read_chan(tokens)?;
    let sent = tokens.name()?;
    Ok(SurfaceStep::Send { at, chan, sent })
}

/// Reads `recv`, a channel and a name.
#[tactic(auto, unfolding(crate::specs::mirror::Codes::read_named_step))]
fn read_recv(tokens: &mut Tokens<'_>) -> Result<SurfaceStep, AllocError>
    ensures { IfOk result (λ s. (step_tree s, tokens.new) ≡ read_named_step recv tokens.old) }
{
    let at = tokens.skip();
    let chan = read_chan(tokens)?;
    let bound = tokens.name()?;
    Ok(SurfaceStep::Recv { at, chan, bound })
}

/// Reads `take`, a channel and a name.
#[tactic(auto, unfolding(crate::specs::mirror::Codes::read_named_step))]
fn read_take(tokens: &mut Tokens<'_>) -> Result<SurfaceStep, AllocError>
    ensures { IfOk result (λ s. (step_tree s, tokens.new) ≡ read_named_step taking tokens.old) }
{
    let at = tokens.skip();
    let chan = read_chan(tokens)?;
    let bound = tokens.name()?;
    Ok(SurfaceStep::Take { at, chan, bound })
}

/// Reads `put`, a channel and a term.
#[tactic(auto, unfolding(crate::specs::mirror::Codes::read_put))]
fn read_put(tokens: &mut Tokens<'_>) -> Result<SurfaceStep, AllocError>
    ensures { IfOk result (λ s. (step_tree s, tokens.new) ≡ read_put tokens.old) }
{
    let at = tokens.skip();
    let chan = read_chan(tokens)?;
    let term = whole_term(tokens)?;
    Ok(SurfaceStep::Put { at, chan, term })
}

/// Reads `pay`, a channel and a potential.
#[tactic(auto, unfolding(crate::specs::mirror::Codes::read_pay))]
fn read_pay(tokens: &mut Tokens<'_>) -> Result<SurfaceStep, AllocError>
    ensures { IfOk result (λ s. (step_tree s, tokens.new) ≡ read_pay tokens.old) }
{
    let at = tokens.skip();
    let chan = read_chan(tokens)?;
    let potential = read_potential(tokens);
    Ok(SurfaceStep::Pay {
        at,
        chan,
        potential,
    })
}

/// Reads `get`, a channel and a potential.
#[tactic(auto, unfolding(crate::specs::mirror::Codes::read_get))]
fn read_get(tokens: &mut Tokens<'_>) -> Result<SurfaceStep, AllocError>
    ensures { IfOk result (λ s. (step_tree s, tokens.new) ≡ read_get tokens.old) }
{
    let at = tokens.skip();
    let chan = read_chan(tokens)?;
    let potential = read_potential(tokens);
    Ok(SurfaceStep::Get {
        at,
        chan,
        potential,
    })
}

/// Reads `wait` and a name.
#[tactic(auto, unfolding(crate::specs::mirror::Codes::read_wait))]
fn read_wait(tokens: &mut Tokens<'_>) -> Result<SurfaceStep, AllocError>
    ensures { IfOk result (λ s. (step_tree s, tokens.new) ≡ read_wait tokens.old) }
{
    let at = tokens.skip();
    let chan = tokens.name()?;
    Ok(SurfaceStep::Wait { at, chan })
}

/// Reads `acquire`, a name, `as` and a name.
#[tactic(auto, unfolding(crate::specs::mirror::Codes::read_as))]
fn read_acquire(tokens: &mut Tokens<'_>) -> Result<SurfaceStep, AllocError>
    ensures { IfOk result (λ s. (step_tree s, tokens.new) ≡ read_as acquire tokens.old) }
{
    let at = tokens.skip();
    let shared = tokens.name()?;
    tokens.skip();
    let bound = tokens.name()?;
    Ok(SurfaceStep::Acquire { at, shared, bound })
}

/// Reads `release`, a name, `as` and a name.
#[tactic(auto, unfolding(crate::specs::mirror::Codes::read_as))]
fn read_release(tokens: &mut Tokens<'_>) -> Result<SurfaceStep, AllocError>
    ensures { IfOk result (λ s. (step_tree s, tokens.new) ≡ read_as release tokens.old) }
{
    let at = tokens.skip();
    let held = tokens.name()?;
    tokens.skip();
    let bound = tokens.name()?;
    Ok(SurfaceStep::Release { at, held, bound })
}

/// Reads `spawn`, a name, `=`, a name and arguments.
#[tactic(auto, unfolding(crate::specs::mirror::Codes::read_spawn))]
fn read_spawn(tokens: &mut Tokens<'_>) -> Result<SurfaceStep, AllocError>
    ensures { IfOk result (λ s. (step_tree s, tokens.new) ≡ read_spawn tokens.old) }
{
    let at = tokens.skip();
    let bound = tokens.name()?;
    tokens.skip();
    let process = tokens.name()?;
    let arguments = read_args(tokens)?;
    Ok(SurfaceStep::Spawn {
        at,
        bound,
        process,
        arguments,
    })
}

/// Reads what stands behind `let NAME = list`, of a `let` and a word `list` at these offsets.
#[tactic(auto, unfolding(crate::specs::mirror::Codes::list_from))]
fn read_list(
    at: u32,
    bound: NameAt,
    list_at: u32,
    tokens: &mut Tokens<'_>,
) -> Result<SurfaceStep, AllocError>
    ensures { IfOk result (λ s. (step_tree s, tokens.new)
        ≡ list_from at bound list_at (is_open_brace (front_kind tokens.old)) tokens.old) }
{
    if begins_potential(tokens) {
        let potential = read_potential(tokens);
        let element = read_value_type(tokens)?;
        return Ok(SurfaceStep::Empty {
            at,
            bound,
            list_at,
            potential,
            element,
        });
    }
    let first = whole_term(tokens)?;
    tokens.skip();
    let rest = tokens.name()?;
    Ok(SurfaceStep::Add {
        at,
        bound,
        first,
        rest,
    })
}

/// Reads what stands behind `let NAME =`, of a `let` at an offset.
#[tactic(auto, unfolding(crate::specs::mirror::Codes::bound_from))]
fn read_bound(at: u32, bound: NameAt, tokens: &mut Tokens<'_>) -> Result<SurfaceStep, AllocError>
    ensures { IfOk result (λ s. (step_tree s, tokens.new)
        ≡ bound_from at bound (is_list (front_kind tokens.old)) tokens.old) }
{
    if at_list(tokens) {
        let list_at = tokens.skip();
        return read_list(at, bound, list_at, tokens);
    }
    let term = whole_term(tokens)?;
    Ok(SurfaceStep::Let { at, bound, term })
}

/// Reads `let`, a name, `=` and what is bound.
#[tactic(auto, unfolding(crate::specs::mirror::Codes::read_let))]
fn read_let(tokens: &mut Tokens<'_>) -> Result<SurfaceStep, AllocError>
    ensures { IfOk result (λ s. (step_tree s, tokens.new) ≡ read_let tokens.old) }
{
    let at = tokens.skip();
    let bound = tokens.name()?;
    tokens.skip();
    read_bound(at, bound, tokens)
}

/// Reads `emit` and a term.
#[tactic(auto, unfolding(crate::specs::mirror::Codes::read_emit))]
fn read_emit(tokens: &mut Tokens<'_>) -> Result<SurfaceStep, AllocError>
    ensures { IfOk result (λ s. (step_tree s, tokens.new) ≡ read_emit tokens.old) }
{
    let at = tokens.skip();
    let term = whole_term(tokens)?;
    Ok(SurfaceStep::Emit { at, term })
}

/// Reads `work` and a potential.
#[tactic(auto, unfolding(crate::specs::mirror::Codes::read_work))]
fn read_work(tokens: &mut Tokens<'_>) -> Result<SurfaceStep, AllocError>
    ensures { IfOk result (λ s. (step_tree s, tokens.new) ≡ read_work tokens.old) }
{
    let at = tokens.skip();
    let potential = read_potential(tokens);
    Ok(SurfaceStep::Work { at, potential })
}

/// Reads a step.
#[tactic(auto, unfolding(crate::specs::mirror::Codes::step_from))]
pub(crate) fn read_step(tokens: &mut Tokens<'_>) -> Result<SurfaceStep, AllocError>
    ensures { IfOk result (λ s. (step_tree s, tokens.new) ≡ read_step tokens.old) }
{
    match tokens.kind() {
        Some(TokenKind::Reserved(Word::Send)) => read_send(tokens),
        Some(TokenKind::Reserved(Word::Recv)) => read_recv(tokens),
        Some(TokenKind::Reserved(Word::Put)) => read_put(tokens),
        Some(TokenKind::Reserved(Word::Take)) => read_take(tokens),
        Some(TokenKind::Reserved(Word::Pay)) => read_pay(tokens),
        Some(TokenKind::Reserved(Word::Get)) => read_get(tokens),
        Some(TokenKind::Reserved(Word::Work)) => read_work(tokens),
        Some(TokenKind::Reserved(Word::Wait)) => read_wait(tokens),
        Some(TokenKind::Reserved(Word::Accept)) => Ok(SurfaceStep::Accept { at: tokens.skip() }),
        Some(TokenKind::Reserved(Word::Detach)) => Ok(SurfaceStep::Detach { at: tokens.skip() }),
        Some(TokenKind::Reserved(Word::Acquire)) => read_acquire(tokens),
        Some(TokenKind::Reserved(Word::Release)) => read_release(tokens),
        Some(TokenKind::Reserved(Word::Spawn)) => read_spawn(tokens),
        Some(TokenKind::Reserved(Word::Let)) => read_let(tokens),
        Some(TokenKind::Reserved(Word::Emit)) => read_emit(tokens),
        _ => read_label(tokens),
    }
}
