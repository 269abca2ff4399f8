//! How codes are read. What is read derives from the grammar, so that nothing but memory can be wanting.
ghost use Rattle.std.specs.Prelude.{◌≡◌, IfOk, [], ◌++◌, length, map};
ghost use Rattle.nomos_surface.specs.CodeView.{arm_tree, code_tree, last_tree};
ghost use Rattle.nomos_reader.specs.mirror.Codes.{code_of_tokens, is_last, read_arm, read_braced, read_call, read_case, read_close, read_code, read_code_if, read_code_match, read_fwd, read_last};
ghost use Rattle.nomos_reader.specs.mirror.Front.{front_kind, is_bar, read_parted};
ghost use Rattle.nomos_surface.specs.StepView.{step_tree};
ghost use Rattle.nomos_surface.specs.Tree.{code};

use crate::step_reader::{read_args, read_chan, read_step, whole_term};
use crate::tokens::Tokens;
use nomos_ir::word::Word;
use nomos_surface::codes::{SurfaceArm, SurfaceCode, SurfaceLast};
use nomos_surface::steps::{SurfaceStep, SurfaceSteps};
use nomos_syntax::token::TokenKind;
use std::alloc::AllocError;

/// Whether the last instruction of a code begins here.
fn at_last(tokens: &Tokens<'_>) -> bool
    ensures { result ≡ is_last (front_kind tokens.now) }
{
    matches!(
        tokens.kind(),
        Some(TokenKind::Reserved(
            Word::Close | Word::Fwd | Word::Call | Word::If | Word::Case | Word::Match
        ))
    )
}

/// Reads `close`.
fn read_close(tokens: &mut Tokens<'_>) -> SurfaceLast
    ensures { (last_tree result, tokens.new) ≡ read_close tokens.old }
{
    SurfaceLast::Close { at: tokens.skip() }
}

/// Reads `fwd` and a name.
#[tactic(auto, unfolding(crate::specs::mirror::Codes::read_fwd))]
fn read_fwd(tokens: &mut Tokens<'_>) -> Result<SurfaceLast, AllocError>
    ensures { IfOk result (λ l. (last_tree l, tokens.new) ≡ read_fwd tokens.old) }
{
    let at = tokens.skip();
    let chan = tokens.name()?;
    Ok(SurfaceLast::Fwd { at, chan })
}

/// Reads `call`, a name and arguments.
#[tactic(auto, unfolding(crate::specs::mirror::Codes::read_call))]
fn read_call(tokens: &mut Tokens<'_>) -> Result<SurfaceLast, AllocError>
    ensures { IfOk result (λ l. (last_tree l, tokens.new) ≡ read_call tokens.old) }
{
    let at = tokens.skip();
    let process = tokens.name()?;
    let arguments = read_args(tokens)?;
    Ok(SurfaceLast::Call {
        at,
        process,
        arguments,
    })
}

/// The code of steps and a last instruction.
fn code_of(steps: Vec<SurfaceStep>, last: SurfaceLast) -> SurfaceCode
    ensures { code_tree result ≡ code (map step_tree steps.items) (last_tree last) }
{
    SurfaceCode {
        steps: SurfaceSteps::of_vec(steps),
        last,
    }
}

/// Reads a code in which no more than so many are open.
#[cycle(reading_codes)]
#[tactic(auto, using(crate::proofs::StepLemmas::closed_code, crate::proofs::StepLemmas::open_code))]
pub(crate) fn read_code(room: usize, tokens: &mut Tokens<'_>) -> Result<SurfaceCode, AllocError>
    ensures { IfOk result (λ c. (code_tree c, tokens.new) ≡ read_code room tokens.old) }
{
    if room == 0 {
        let last = read_close(tokens);
        return Ok(code_of(Vec::new(tokens.alloc()), last));
    }
    read_open_code(room - 1, tokens)
}

/// Reads a code inside which no more than so many are open.
#[cycle(reading_codes)]
fn read_open_code(room: usize, tokens: &mut Tokens<'_>) -> Result<SurfaceCode, AllocError>
    ensures { IfOk result (λ c. (code_tree c, tokens.new) ≡ code_of_tokens (read_code room) tokens.old) }
{
    let mut steps = Vec::new(tokens.alloc());
    for _ in 0..tokens.len() {
        if at_last(tokens) {
            let last = read_last(room, tokens)?;
            return Ok(code_of(steps, last));
        }
        steps.push(read_step(tokens)?)?;
        tokens.skip();
    }
    let last = read_close(tokens);
    Ok(code_of(steps, last))
}

/// Reads the last instruction of a code.
#[cycle(reading_codes)]
#[tactic(auto, unfolding(crate::specs::mirror::Codes::last_from))]
fn read_last(room: usize, tokens: &mut Tokens<'_>) -> Result<SurfaceLast, AllocError>
    ensures { IfOk result (λ l. (last_tree l, tokens.new) ≡ read_last (read_code room) tokens.old) }
{
    match tokens.kind() {
        Some(TokenKind::Reserved(Word::Fwd)) => read_fwd(tokens),
        Some(TokenKind::Reserved(Word::Call)) => read_call(tokens),
        Some(TokenKind::Reserved(Word::If)) => read_code_if(room, tokens),
        Some(TokenKind::Reserved(Word::Case)) => read_case(room, tokens),
        Some(TokenKind::Reserved(Word::Match)) => read_code_match(room, tokens),
        _ => Ok(read_close(tokens)),
    }
}

/// Reads `{`, a code and `}`.
#[cycle(reading_codes)]
#[tactic(auto, unfolding(crate::specs::mirror::Codes::read_braced))]
fn read_braced(room: usize, tokens: &mut Tokens<'_>) -> Result<SurfaceCode, AllocError>
    ensures { IfOk result (λ c. (code_tree c, tokens.new) ≡ read_braced (read_code room) tokens.old) }
{
    tokens.skip();
    let code = read_code(room, tokens)?;
    tokens.skip();
    Ok(code)
}

/// Reads `if`, a term, a code, `else` and a code.
#[cycle(reading_codes)]
#[tactic(auto, unfolding(crate::specs::mirror::Codes::read_code_if))]
fn read_code_if(room: usize, tokens: &mut Tokens<'_>) -> Result<SurfaceLast, AllocError>
    ensures { IfOk result (λ l. (last_tree l, tokens.new) ≡ read_code_if (read_code room) tokens.old) }
{
    let at = tokens.skip();
    let test = whole_term(tokens)?;
    let holds = Box::new(tokens.alloc(), read_braced(room, tokens)?)?;
    tokens.skip();
    let fails = Box::new(tokens.alloc(), read_braced(room, tokens)?)?;
    Ok(SurfaceLast::If {
        at,
        test,
        holds,
        fails,
    })
}

/// Reads `case`, a channel and arms.
#[cycle(reading_codes)]
#[tactic(auto, unfolding(crate::specs::mirror::Codes::read_case))]
fn read_case(room: usize, tokens: &mut Tokens<'_>) -> Result<SurfaceLast, AllocError>
    ensures { IfOk result (λ l. (last_tree l, tokens.new) ≡ read_case (read_code room) tokens.old) }
{
    let at = tokens.skip();
    let chan = read_chan(tokens)?;
    tokens.skip();
    let arms = read_arms(room, tokens)?;
    tokens.skip();
    Ok(SurfaceLast::Case { at, chan, arms })
}

/// Reads arms.
#[cycle(reading_codes)]
fn read_arms(room: usize, tokens: &mut Tokens<'_>) -> Result<Vec<SurfaceArm>, AllocError>
    ensures { IfOk result (λ arms. (map arm_tree arms.items, tokens.new) ≡
        read_parted (read_arm (read_code room)) is_bar (length tokens.old) [] tokens.old) }
{
    let mut arms = Vec::new(tokens.alloc());
    for _ in 0..tokens.len() {
        arms.push(read_arm(room, tokens)?)?;
        if !tokens.at_bar() {
            return Ok(arms);
        }
        tokens.skip();
    }
    Ok(arms)
}

/// Reads a label and its code.
#[cycle(reading_codes)]
#[tactic(auto, unfolding(crate::specs::mirror::Codes::read_arm))]
fn read_arm(room: usize, tokens: &mut Tokens<'_>) -> Result<SurfaceArm, AllocError>
    ensures { IfOk result (λ a. (arm_tree a, tokens.new) ≡ read_arm (read_code room) tokens.old) }
{
    let label = tokens.name()?;
    tokens.skip();
    let goes = read_code(room, tokens)?;
    Ok(SurfaceArm { label, goes })
}

/// Reads `match NAME { nil =>`, a code, `| NAME :: NAME =>`, a code and `}`.
#[cycle(reading_codes)]
#[tactic(auto, unfolding(crate::specs::mirror::Codes::read_code_match))]
fn read_code_match(room: usize, tokens: &mut Tokens<'_>) -> Result<SurfaceLast, AllocError>
    ensures { IfOk result (λ l. (last_tree l, tokens.new) ≡ read_code_match (read_code room) tokens.old) }
{
    let at = tokens.skip();
    let matched = tokens.name()?;
    tokens.skip();
    tokens.skip();
    tokens.skip();
    let empty = Box::new(tokens.alloc(), read_code(room, tokens)?)?;
    tokens.skip();
    let head = tokens.name()?;
    tokens.skip();
    let tail = tokens.name()?;
    tokens.skip();
    let more = Box::new(tokens.alloc(), read_code(room, tokens)?)?;
    tokens.skip();
    Ok(SurfaceLast::Match {
        at,
        matched,
        empty,
        head,
        tail,
        more,
    })
}
