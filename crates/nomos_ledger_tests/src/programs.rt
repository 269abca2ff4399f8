//! The small program of the example, made by hand.
ghost use Rattle.std.specs.Prelude.{◌≡◌, IfOk};
ghost use Rattle.nomos_ir.specs.Example.{example};

use nomos_ir::amount::Amount;
use nomos_ir::code_node::CodeNode;
use nomos_ir::declaration::{FnDecl, ProcDecl};
use nomos_ir::ids::{CodeId, DefId, Label, TermId, TypeId, VarId};
use nomos_ir::items::Items;
use nomos_ir::kind::{Base, Kind};
use nomos_ir::lists::ProgramLists;
use nomos_ir::mode::Mode;
use nomos_ir::name::Name;
use nomos_ir::program::Program;
use nomos_ir::term_node::TermNode;
use nomos_ir::type_node::{Branch, Def, TypeAt, TypeNode};
use std::alloc::{AllocError, Global};

fn name(alloc: Global, text: &str) -> Result<Name, AllocError>
    ensures { IfOk result (λ name. name ≡ text.now) }
{
    let bytes = text.as_bytes().to_vec(alloc)?;
    Ok(Name::of_vec(bytes))
}

const NUMBER: Kind = Kind {
    lists: 0,
    base: Base::Int,
};

fn example_types(alloc: Global) -> Result<Items<TypeAt>, AllocError>
    ensures { IfOk result (λ types. types ≡ example.types) }
{
    let branch = Branch {
        label: Label(0),
        goes: TypeId(1),
    };
    let branches = Items::of_vec(vec![in alloc; branch]?);
    let types = vec![in alloc;
        TypeAt {
            node: TypeNode::One,
            at: 11
        },
        TypeAt {
            node: TypeNode::Named(DefId(0)),
            at: 31
        },
        TypeAt {
            node: TypeNode::Plus(branches),
            at: 25
        },
        TypeAt {
            node: TypeNode::Named(DefId(0)),
            at: 73
        },
    ]?;
    Ok(Items::of_vec(types))
}

fn example_defs(alloc: Global) -> Result<Items<Def>, AllocError>
    ensures { IfOk result (λ defs. defs ≡ example.defs) }
{
    let first = Def {
        name: name(alloc, "a")?,
        mode: Mode::R,
        body: TypeId(0),
    };
    let second = Def {
        name: name(alloc, "b")?,
        mode: Mode::R,
        body: TypeId(2),
    };
    let defs = vec![in alloc; first, second]?;
    Ok(Items::of_vec(defs))
}

fn example_fns(alloc: Global) -> Result<Items<FnDecl>, AllocError>
    ensures { IfOk result (λ fns. fns ≡ example.fns) }
{
    let pars = vec![in alloc; (VarId(0), NUMBER)]?;
    let function = FnDecl {
        name: name(alloc, "f")?,
        at: 38,
        pars: Items::of_vec(pars),
        gives: NUMBER,
        body: TermId(0),
    };
    let fns = vec![in alloc; function]?;
    Ok(Items::of_vec(fns))
}

fn example_procs(alloc: Global) -> Result<Items<ProcDecl>, AllocError>
    ensures { IfOk result (λ procs. procs ≡ example.procs) }
{
    let process = ProcDecl {
        name: name(alloc, "p")?,
        mode: Mode::R,
        me: None,
        values: Items::of_vec(Vec::new(alloc)),
        channels: Items::of_vec(Vec::new(alloc)),
        amount: Amount::Star(2),
        offers: TypeId(3),
        first: CodeId(0),
    };
    let procs = vec![in alloc; process]?;
    Ok(Items::of_vec(procs))
}

fn example_lists(alloc: Global) -> Result<ProgramLists, AllocError>
    ensures { IfOk result (λ lists. lists ≡ example) }
{
    let terms = vec![in alloc; TermNode::Var(57, VarId(0))]?;
    let code = vec![in alloc; CodeNode::Close(77)]?;
    let labels = vec![in alloc; name(alloc, "ok")?]?;
    Ok(ProgramLists {
        defs: example_defs(alloc)?,
        types: example_types(alloc)?,
        terms: Items::of_vec(terms),
        code: Items::of_vec(code),
        fns: example_fns(alloc)?,
        procs: example_procs(alloc)?,
        labels: Items::of_vec(labels),
    })
}

/// The program of the example: four types, one instruction, and the label `ok`.
pub(crate) fn example_program(alloc: Global) -> Result<Program, AllocError>
    ensures { IfOk result (λ program. program ≡ example) }
{
    let lists = example_lists(alloc)?;
    Ok(Program::of_lists(lists))
}
