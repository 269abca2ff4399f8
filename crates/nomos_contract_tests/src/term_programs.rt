//! Programs of terms, with one function and two instructions.
ghost use Rattle.std.specs.Prelude.{◌≡◌, ◌≤◌, ◌<◌, ◌+◌, ◌∷◌, [], length, nat_lt, IfOk, IfSome, IsTrue};
ghost use Rattle.nomos_contract_tests.specs.TermTable.{IsTermTable, fits_at, function_with, is_one_before, two_instructions};

use nomos_ir::code_node::{CodeNode, CodeNodes};
use nomos_ir::declaration::{FnDecl, FnDecls};
use nomos_ir::ids::{CodeId, TermId, VarId};
use nomos_ir::items::Items;
use nomos_ir::kind::{Base, Kind};
use nomos_ir::lists::ProgramLists;
use nomos_ir::name::Name;
use nomos_ir::program::Program;
use nomos_ir::term_node::TermNode;
use std::alloc::{AllocError, Global};

/// Puts a variable under so many times `not` behind the terms; each of them stands at the offset of its number.
pub(crate) fn negations(alloc: Global, count: u32) -> Result<Vec<TermNode>, AllocError>
    requires { count ≤ 100000 }
    ensures { IfOk result (λ terms. length terms.items ≡ count + 1) }
{
    let mut terms = Vec::new(alloc);
    terms.push(TermNode::Var(0, VarId(3)))?;
    for place in 0..count {
        terms.push(TermNode::Not(place + 1, TermId(place)))?;
    }
    Ok(terms)
}

// Whether these are one term, before the place.
fn is_one(place: usize, values: &[TermId]) -> bool
    ensures { result ≡ is_one_before place values.now }
{
    match values {
        [a] => (a.0 as usize) < place,
        _ => false,
    }
}

// Whether a term stands before the place.
fn before(place: usize, t: TermId) -> bool
    ensures { result ≡ nat_lt t.0 place }
{
    (t.0 as usize) < place
}

// Whether the node may stand at this place.
fn fits(place: usize, node: &TermNode) -> bool
    ensures { result ≡ fits_at place node.now }
{
    match node {
        TermNode::Number(_, _) | TermNode::Var(_, _) => true,
        TermNode::Not(_, a) => before(place, *a),
        TermNode::Add(_, a, b)
        | TermNode::Sub(_, a, b)
        | TermNode::Div(_, a, b)
        | TermNode::Rem(_, a, b)
        | TermNode::Less(_, a, b)
        | TermNode::Cons(_, a, b) => before(place, *a) && before(place, *b),
        TermNode::If(_, a, b, c) | TermNode::Match(_, a, b, _, _, c) => {
            before(place, *a) && (before(place, *b) && before(place, *c))
        }
        TermNode::Call(_, f, values) => f.0 == 0 && is_one(place, values.as_slice()),
        _ => false,
    }
}

// Whether each node may stand where it stands.
fn all_fit(terms: &[TermNode]) -> bool
    ensures { IsTrue result → IsTermTable terms.now }
{
    let mut place = 0;
    while place < terms.len() {
        if !fits(place, &terms[place]) {
            return false;
        }
        place += 1;
    }
    true
}

// The function with this body.
fn function_of(alloc: Global, body: TermId) -> Result<FnDecl, AllocError>
    ensures { IfOk result (λ f. f ≡ function_with body) }
{
    let number = Kind {
        lists: 0,
        base: Base::Int,
    };
    let name = vec![in alloc; b'f']?;
    let pars = vec![in alloc; (VarId(0), number)]?;
    Ok(FnDecl {
        name: Name::of_vec(name),
        at: 0,
        pars: Items::of_vec(pars),
        gives: number,
        body,
    })
}

// That function alone.
fn functions_of(alloc: Global, body: TermId) -> Result<FnDecls, AllocError>
    ensures { IfOk result (λ fns. fns ≡ function_with body ∷ []) }
{
    let function = function_of(alloc, body)?;
    let fns = vec![in alloc; function]?;
    Ok(Items::of_vec(fns))
}

// The two instructions.
fn code_of(alloc: Global, body: TermId) -> Result<CodeNodes, AllocError>
    ensures { IfOk result (λ code. code ≡ two_instructions body) }
{
    let first = CodeNode::Let(0, VarId(9), body, CodeId(0));
    let code = vec![in alloc; CodeNode::Close(0), first]?;
    Ok(Items::of_vec(code))
}

// The program of these terms with functions and instructions.
fn program_with(
    alloc: Global,
    terms: Vec<TermNode>,
    code: CodeNodes,
    fns: FnDecls,
    body: TermId,
) -> Program
    requires table { IsTermTable terms.items }
    requires code { code ≡ two_instructions body }
    requires fns { fns ≡ function_with body ∷ [] }
    requires body { body.0 < length terms.items }
    ensures { result.terms ≡ terms.items }
{
    Program::of_lists(ProgramLists {
        defs: Items::of_vec(Vec::new(alloc)),
        types: Items::of_vec(Vec::new(alloc)),
        terms: Items::of_vec(terms),
        code,
        fns,
        procs: Items::of_vec(Vec::new(alloc)),
        labels: Items::of_vec(Vec::new(alloc)),
    })
}

/// The program of these terms, whose function 0 has this body, and whose instruction 1 is a `let` of it; none where a
/// term does not stand behind its parts.
pub(crate) fn program_of(
    alloc: Global,
    terms: Vec<TermNode>,
    body: u32,
) -> Result<Option<Program>, AllocError>
    ensures { IfOk result (λ program. IfSome program (λ p. p.terms ≡ terms.items)) }
{
    if !all_fit(terms.as_slice()) || body as usize >= terms.len() {
        return Ok(None);
    }
    let fns = functions_of(alloc, TermId(body))?;
    let code = code_of(alloc, TermId(body))?;
    Ok(Some(program_with(alloc, terms, code, fns, TermId(body))))
}
