//! How declarations and whole texts are read. What is read derives from the grammar, so that nothing but memory can be
//! wanting.
ghost use Rattle.std.specs.Prelude.{◌≡◌, IfOk, [], length, map};
ghost use Rattle.nomos_surface.specs.CodeView.{code_tree};
ghost use Rattle.nomos_surface.specs.FileView.{chan_par_tree, decl_tree, file_tree, par_trees};
ghost use Rattle.nomos_reader.specs.mirror.Files.{begins_list, cost_from, is_cost, list_potential_from, mode_from, model_from, proc_from, read_all_pars, read_body, read_chan_par, read_chan_pars, read_decl, read_decls, read_definition, read_file, read_function, read_par, read_pars, read_process, read_transaction, read_value_par, read_value_pars, whole_code, whole_type};
ghost use Rattle.nomos_reader.specs.mirror.Front.{front_kind, rest_of};
ghost use Rattle.nomos_surface.specs.TypeView.{type_tree};

use crate::code_reader::read_code;
use crate::step_reader::whole_term;
use crate::tokens::Tokens;
use crate::type_reader::read_type;
use crate::value_type_reader::{at_list, read_optional, read_potential, read_value_type};
use nomos_ir::items::Items;
use nomos_ir::word::Word;
use nomos_surface::codes::SurfaceCode;
use nomos_surface::declarations::{
    ListPotential, OfferedMode, ProcessPar, SurfaceChanPar, SurfaceDecl, SurfaceDefinition,
    SurfaceFunction, SurfacePars, SurfaceProcess, SurfaceTransaction, ValuePar,
};
use nomos_surface::surface::{CostLine, CostModel, Surface};
use nomos_surface::types::SurfaceType;
use nomos_syntax::token::TokenKind;
use std::alloc::AllocError;

/// Reads a type.
fn whole_type(tokens: &mut Tokens<'_>) -> Result<SurfaceType, AllocError>
    ensures { IfOk result (λ t. (type_tree t, tokens.new) ≡ whole_type tokens.old) }
{
    read_type(tokens.len(), tokens)
}

/// Reads a code.
fn whole_code(tokens: &mut Tokens<'_>) -> Result<SurfaceCode, AllocError>
    ensures { IfOk result (λ c. (code_tree c, tokens.new) ≡ whole_code tokens.old) }
{
    read_code(tokens.len(), tokens)
}

/// Reads a parameter of a function.
#[tactic(auto, unfolding(crate::specs::mirror::Files::read_value_par))]
fn read_value_par(tokens: &mut Tokens<'_>) -> Result<ValuePar, AllocError>
    ensures { IfOk result (λ p. (p, tokens.new) ≡ read_value_par tokens.old) }
{
    let name = tokens.name()?;
    tokens.skip();
    let value = read_value_type(tokens)?;
    Ok(ValuePar { name, value })
}

/// Whether the potential of a list parameter begins here.
fn begins_list(tokens: &Tokens<'_>) -> bool
    ensures { result ≡ begins_list tokens.now }
{
    at_list(tokens) && tokens.brace_behind()
}

/// Reads `list` and a potential, where a list parameter has them.
fn read_list_potential(tokens: &mut Tokens<'_>) -> Option<ListPotential>
    ensures { (result, tokens.new) ≡ list_potential_from (begins_list tokens.old) tokens.old }
{
    if !begins_list(tokens) {
        return None;
    }
    let list_at = tokens.skip();
    let potential = read_potential(tokens);
    Some(ListPotential { list_at, potential })
}

/// Reads a parameter of a process that is no channel.
#[tactic(auto, unfolding(crate::specs::mirror::Files::read_par))]
fn read_par(tokens: &mut Tokens<'_>) -> Result<ProcessPar, AllocError>
    ensures { IfOk result (λ p. (p, tokens.new) ≡ read_par tokens.old) }
{
    let name = tokens.name()?;
    tokens.skip();
    let list = read_list_potential(tokens);
    let value = read_value_type(tokens)?;
    Ok(ProcessPar { name, list, value })
}

/// Reads a channel parameter.
#[tactic(auto, unfolding(crate::specs::mirror::Files::read_chan_par))]
fn read_chan_par(tokens: &mut Tokens<'_>) -> Result<SurfaceChanPar, AllocError>
    ensures { IfOk result (λ p. (chan_par_tree p, tokens.new) ≡ read_chan_par tokens.old) }
{
    let name = tokens.name()?;
    tokens.skip();
    let goes = whole_type(tokens)?;
    Ok(SurfaceChanPar { name, goes })
}

/// Reads the parameters of a function.
fn read_value_pars(tokens: &mut Tokens<'_>) -> Result<Vec<ValuePar>, AllocError>
    ensures { IfOk result (λ ps. (ps.items, tokens.new) ≡ read_value_pars tokens.old) }
{
    let mut pars = Vec::new(tokens.alloc());
    if tokens.at_list_end() {
        return Ok(pars);
    }
    for _ in 0..tokens.len() {
        pars.push(read_value_par(tokens)?)?;
        if !tokens.at_comma() {
            return Ok(pars);
        }
        tokens.skip();
    }
    Ok(pars)
}

/// Reads the parameters of a process that are no channels.
fn read_pars(tokens: &mut Tokens<'_>) -> Result<Vec<ProcessPar>, AllocError>
    ensures { IfOk result (λ ps. (ps.items, tokens.new) ≡ read_pars tokens.old) }
{
    let mut pars = Vec::new(tokens.alloc());
    if tokens.at_list_end() {
        return Ok(pars);
    }
    for _ in 0..tokens.len() {
        pars.push(read_par(tokens)?)?;
        if !tokens.at_comma() {
            return Ok(pars);
        }
        tokens.skip();
    }
    Ok(pars)
}

/// Reads the channel parameters of a process.
fn read_chan_pars(tokens: &mut Tokens<'_>) -> Result<Vec<SurfaceChanPar>, AllocError>
    ensures { IfOk result (λ ps. (map chan_par_tree ps.items, tokens.new) ≡ read_chan_pars tokens.old) }
{
    let mut pars = Vec::new(tokens.alloc());
    if tokens.at_list_end() {
        return Ok(pars);
    }
    for _ in 0..tokens.len() {
        pars.push(read_chan_par(tokens)?)?;
        if !tokens.at_comma() {
            return Ok(pars);
        }
        tokens.skip();
    }
    Ok(pars)
}

/// Reads the parameters of a process.
#[tactic(auto, unfolding(crate::specs::mirror::Files::read_all_pars))]
fn read_all_pars(tokens: &mut Tokens<'_>) -> Result<SurfacePars, AllocError>
    ensures { IfOk result (λ p. (par_trees p, tokens.new) ≡ read_all_pars tokens.old) }
{
    tokens.skip();
    let values = Items::of_vec(read_pars(tokens)?);
    tokens.skip();
    let channels = Items::of_vec(read_chan_pars(tokens)?);
    tokens.skip();
    Ok(SurfacePars { values, channels })
}

/// The mode that such a token is.
fn mode_from(kind: Option<TokenKind>) -> OfferedMode
    ensures { result ≡ mode_from kind }
{
    match kind {
        Some(TokenKind::Reserved(Word::S)) => OfferedMode::S,
        Some(TokenKind::Reserved(Word::L)) => OfferedMode::L,
        _ => OfferedMode::R,
    }
}

/// Reads `=`, a code and `;`.
#[tactic(auto, unfolding(crate::specs::mirror::Files::read_body))]
fn read_body(tokens: &mut Tokens<'_>) -> Result<SurfaceCode, AllocError>
    ensures { IfOk result (λ c. (code_tree c, tokens.new) ≡ read_body tokens.old) }
{
    tokens.skip();
    let code = whole_code(tokens)?;
    tokens.skip();
    Ok(code)
}

/// Reads a definition.
#[tactic(auto, unfolding(crate::specs::mirror::Files::read_definition))]
fn read_definition(tokens: &mut Tokens<'_>) -> Result<SurfaceDecl, AllocError>
    ensures { IfOk result (λ d. (decl_tree d, tokens.new) ≡ read_definition tokens.old) }
{
    let at = tokens.skip();
    let mode = mode_from(tokens.kind());
    tokens.skip();
    let name = tokens.name()?;
    tokens.skip();
    let body = whole_type(tokens)?;
    tokens.skip();
    Ok(SurfaceDecl::Definition(SurfaceDefinition {
        at,
        mode,
        name,
        body,
    }))
}

/// Reads a function.
#[tactic(auto, unfolding(crate::specs::mirror::Files::read_function))]
fn read_function(tokens: &mut Tokens<'_>) -> Result<SurfaceDecl, AllocError>
    ensures { IfOk result (λ d. (decl_tree d, tokens.new) ≡ read_function tokens.old) }
{
    let at = tokens.skip();
    let name = tokens.name()?;
    tokens.skip();
    let pars = Items::of_vec(read_value_pars(tokens)?);
    tokens.skip();
    tokens.skip();
    let gives = read_value_type(tokens)?;
    tokens.skip();
    let body = whole_term(tokens)?;
    tokens.skip();
    Ok(SurfaceDecl::Function(SurfaceFunction {
        at,
        name,
        pars,
        gives,
        body,
    }))
}

/// Reads what stands behind `proc T`, of a declaration at an offset.
#[tactic(auto, unfolding(crate::specs::mirror::Files::read_transaction))]
fn read_transaction(at: u32, tokens: &mut Tokens<'_>) -> Result<SurfaceDecl, AllocError>
    ensures { IfOk result (λ d. (decl_tree d, tokens.new) ≡ read_transaction at tokens.old) }
{
    let name = tokens.name()?;
    let pars = read_all_pars(tokens)?;
    let potential = read_optional(tokens);
    let code = read_body(tokens)?;
    Ok(SurfaceDecl::Transaction(SurfaceTransaction {
        at,
        name,
        pars,
        potential,
        code,
    }))
}

/// Reads what stands behind `proc` and a mode, of a declaration at an offset.
#[tactic(auto, unfolding(crate::specs::mirror::Files::read_process))]
fn read_process(
    at: u32,
    mode: OfferedMode,
    tokens: &mut Tokens<'_>,
) -> Result<SurfaceDecl, AllocError>
    ensures { IfOk result (λ d. (decl_tree d, tokens.new) ≡ read_process at mode tokens.old) }
{
    let name = tokens.name()?;
    let pars = read_all_pars(tokens)?;
    let potential = read_optional(tokens);
    tokens.skip();
    let offers = whole_type(tokens)?;
    let code = read_body(tokens)?;
    Ok(SurfaceDecl::Process(SurfaceProcess {
        at,
        mode,
        name,
        pars,
        potential,
        offers,
        code,
    }))
}

/// Reads what stands behind `proc`, of a declaration at an offset.
#[tactic(auto, unfolding(crate::specs::mirror::Files::proc_from))]
fn read_proc(at: u32, tokens: &mut Tokens<'_>) -> Result<SurfaceDecl, AllocError>
    ensures { IfOk result (λ d. (decl_tree d, tokens.new) ≡ proc_from at (front_kind tokens.old) tokens.old) }
{
    let kind = tokens.kind();
    tokens.skip();
    match kind {
        Some(TokenKind::Reserved(Word::T)) => read_transaction(at, tokens),
        _ => read_process(at, mode_from(kind), tokens),
    }
}

/// Reads a declaration.
#[tactic(auto, unfolding(crate::specs::mirror::Files::decl_from))]
fn read_decl(tokens: &mut Tokens<'_>) -> Result<SurfaceDecl, AllocError>
    ensures { IfOk result (λ d. (decl_tree d, tokens.new) ≡ read_decl tokens.old) }
{
    match tokens.kind() {
        Some(TokenKind::Reserved(Word::Type)) => read_definition(tokens),
        Some(TokenKind::Reserved(Word::Fn)) => read_function(tokens),
        _ => {
            let at = tokens.skip();
            read_proc(at, tokens)
        }
    }
}

/// Reads declarations, as long as tokens are left.
fn read_decls(tokens: &mut Tokens<'_>) -> Result<Vec<SurfaceDecl>, AllocError>
    ensures { IfOk result (λ ds. map decl_tree ds.items ≡ read_decls (length tokens.old) [] tokens.old) }
{
    let mut decls = Vec::new(tokens.alloc());
    for _ in 0..tokens.len() {
        if tokens.is_empty() {
            return Ok(decls);
        }
        decls.push(read_decl(tokens)?)?;
    }
    Ok(decls)
}

/// The cost model that such a token is.
fn model_from(kind: Option<TokenKind>) -> CostModel
    ensures { result ≡ model_from kind }
{
    match kind {
        Some(TokenKind::Reserved(Word::Sends)) => CostModel::Sends,
        Some(TokenKind::Reserved(Word::All)) => CostModel::All,
        _ => CostModel::Ticks,
    }
}

/// Whether the line of the cost model begins here.
fn at_cost(tokens: &Tokens<'_>) -> bool
    ensures { result ≡ is_cost (front_kind tokens.now) }
{
    matches!(tokens.kind(), Some(TokenKind::Reserved(Word::Cost)))
}

/// Reads the line of the cost model, where it stands.
fn read_cost(tokens: &mut Tokens<'_>) -> Option<CostLine>
    ensures { (result, tokens.new) ≡ cost_from (is_cost (front_kind tokens.old)) tokens.old }
{
    if !at_cost(tokens) {
        return None;
    }
    let at = tokens.skip();
    let model = model_from(tokens.kind());
    tokens.skip();
    tokens.skip();
    Some(CostLine { at, model })
}

/// Reads a text.
#[tactic(auto, unfolding(crate::specs::mirror::Files::read_file))]
pub(crate) fn read_file(tokens: &mut Tokens<'_>) -> Result<Surface, AllocError>
    ensures { IfOk result (λ s. file_tree s ≡ read_file tokens.old) }
{
    let cost = read_cost(tokens);
    let declarations = Items::of_vec(read_decls(tokens)?);
    Ok(Surface { cost, declarations })
}
