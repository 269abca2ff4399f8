//! The stars of a program.
ghost use Rattle.std.specs.Prelude.{◌≡◌};
ghost use Rattle.std.specs.List.{flat_map};
ghost use Rattle.nomos_ir.specs.Amounts.{most_star, par_amounts, proc_amounts};
ghost use Rattle.nomos_ir.specs.TypeParts.{type_amounts};
ghost use Rattle.nomos_ir.specs.CodeParts.{code_amounts};

use crate::code_node::CodeNode;
use crate::declaration::{Par, ProcDecl};
use crate::type_node::{TypeAt, TypeNode};

fn star_in_type(node: &TypeNode) -> u16
    ensures { result ≡ most_star (type_amounts node.now) }
{
    match node {
        TypeNode::PotOut(amount, _) | TypeNode::PotIn(amount, _) => amount.star(),
        _ => 0,
    }
}

fn star_in_code(node: &CodeNode) -> u16
    ensures { result ≡ most_star (code_amounts node.now) }
{
    match node {
        CodeNode::Pay(_, _, amount, _)
        | CodeNode::Get(_, _, amount, _)
        | CodeNode::Work(_, amount, _)
        | CodeNode::Empty(_, _, amount, _, _) => { amount.star() }
        _ => 0,
    }
}

/// The greatest star number in type nodes.
pub fn stars_in_types(types: &[TypeAt]) -> u16
    ensures { result ≡ most_star (flat_map (λ t. type_amounts t.node) types.now) }
{
    let mut most = 0u16;
    for at in types {
        most = most.max(star_in_type(&at.node));
    }
    most
}

/// The greatest star number in code nodes.
pub fn stars_in_code(code: &[CodeNode]) -> u16
    ensures { result ≡ most_star (flat_map code_amounts code.now) }
{
    let mut most = 0u16;
    for node in code {
        most = most.max(star_in_code(node));
    }
    most
}

fn star_in_par(par: &Par) -> u16
    ensures { result ≡ most_star (par_amounts par.now) }
{
    match par.amount {
        Some(amount) => amount.star(),
        None => 0,
    }
}

fn star_in_pars(pars: &[Par]) -> u16
    ensures { result ≡ most_star (flat_map par_amounts pars.now) }
{
    let mut most = 0u16;
    for par in pars {
        most = most.max(star_in_par(par));
    }
    most
}

fn star_in_proc(declaration: &ProcDecl) -> u16
    ensures { result ≡ most_star (proc_amounts declaration.now) }
{
    star_in_pars(declaration.values.as_slice()).max(declaration.amount.star())
}

/// The greatest star number in process declarations.
pub fn stars_in_procs(procs: &[ProcDecl]) -> u16
    ensures { result ≡ most_star (flat_map proc_amounts procs.now) }
{
    let mut most = 0u16;
    for declaration in procs {
        most = most.max(star_in_proc(declaration));
    }
    most
}
