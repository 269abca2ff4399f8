//! Tests: a program made by hand, the names of the forms, and the reserved words.
ghost use Rattle.std.specs.Prelude.{◌≡◌, IfOk};
ghost use Rattle.nomos_ir.specs.Example.{example};

use nomos_ir::amount::Amount;
use nomos_ir::code_form::CodeForm;
use nomos_ir::code_node::CodeNode;
use nomos_ir::declaration::{FnDecl, ProcDecl};
use nomos_ir::ids::{CodeId, DefId, Label, ProcId, TermId, TypeId, VarId};
use nomos_ir::items::Items;
use nomos_ir::kind::{Base, Kind};
use nomos_ir::lists::ProgramLists;
use nomos_ir::mode::Mode;
use nomos_ir::name::Name;
use nomos_ir::program::Program;
use nomos_ir::term_node::TermNode;
use nomos_ir::type_node::{Branch, Def, TypeAt, TypeNode};
use nomos_ir::word::Word;
use std::alloc::{AllocError, Global};
use std::test::Fail;

fn name(alloc: Global, text: &str) -> Result<Name, AllocError>
    ensures { IfOk result (λ name. name ≡ text.now) }
{
    let bytes = text.as_bytes().to_vec(alloc)?;
    Ok(Name::of_vec(bytes))
}

const NUMBER: Kind = Kind {
    lists: 0,
    base: Base::Int,
};

fn example_types(alloc: Global) -> Result<Items<TypeAt>, AllocError>
    ensures { IfOk result (λ types. types ≡ example.types) }
{
    let branch = Branch {
        label: Label(0),
        goes: TypeId(1),
    };
    let branches = Items::of_vec(vec![in alloc; branch]?);
    let types = vec![in alloc;
        TypeAt {
            node: TypeNode::One,
            at: 11
        },
        TypeAt {
            node: TypeNode::Named(DefId(0)),
            at: 31
        },
        TypeAt {
            node: TypeNode::Plus(branches),
            at: 25
        },
        TypeAt {
            node: TypeNode::Named(DefId(0)),
            at: 73
        },
    ]?;
    Ok(Items::of_vec(types))
}

fn example_defs(alloc: Global) -> Result<Items<Def>, AllocError>
    ensures { IfOk result (λ defs. defs ≡ example.defs) }
{
    let first = Def {
        name: name(alloc, "a")?,
        mode: Mode::R,
        body: TypeId(0),
    };
    let second = Def {
        name: name(alloc, "b")?,
        mode: Mode::R,
        body: TypeId(2),
    };
    let defs = vec![in alloc; first, second]?;
    Ok(Items::of_vec(defs))
}

fn example_fns(alloc: Global) -> Result<Items<FnDecl>, AllocError>
    ensures { IfOk result (λ fns. fns ≡ example.fns) }
{
    let pars = vec![in alloc; (VarId(0), NUMBER)]?;
    let function = FnDecl {
        name: name(alloc, "f")?,
        at: 38,
        pars: Items::of_vec(pars),
        gives: NUMBER,
        body: TermId(0),
    };
    let fns = vec![in alloc; function]?;
    Ok(Items::of_vec(fns))
}

fn example_procs(alloc: Global) -> Result<Items<ProcDecl>, AllocError>
    ensures { IfOk result (λ procs. procs ≡ example.procs) }
{
    let process = ProcDecl {
        name: name(alloc, "p")?,
        mode: Mode::R,
        me: None,
        values: Items::of_vec(Vec::new(alloc)),
        channels: Items::of_vec(Vec::new(alloc)),
        amount: Amount::Star(2),
        offers: TypeId(3),
        first: CodeId(0),
    };
    let procs = vec![in alloc; process]?;
    Ok(Items::of_vec(procs))
}

fn example_lists(alloc: Global) -> Result<ProgramLists, AllocError>
    ensures { IfOk result (λ lists. lists ≡ example) }
{
    let terms = vec![in alloc; TermNode::Var(57, VarId(0))]?;
    let code = vec![in alloc; CodeNode::Close(77)]?;
    let labels = vec![in alloc; name(alloc, "ok")?]?;
    Ok(ProgramLists {
        defs: example_defs(alloc)?,
        types: example_types(alloc)?,
        terms: Items::of_vec(terms),
        code: Items::of_vec(code),
        fns: example_fns(alloc)?,
        procs: example_procs(alloc)?,
        labels: Items::of_vec(labels),
    })
}

fn example_program(alloc: Global) -> Result<Program, AllocError>
    ensures { IfOk result (λ program. program ≡ example) }
{
    let lists = example_lists(alloc)?;
    Ok(Program::of_lists(lists))
}

// What the readers give of the example: its stars, two types, a term, an instruction, the name of its process, and the
// numbers of its definitions and functions.
fn example_text(alloc: Global, program: &Program) -> Result<String, AllocError>
    requires { program.now ≡ example }
{
    let (first, last) = (program.node(TypeId(0)), program.node(TypeId(3)));
    let (term, code) = (program.term(TermId(0)), program.code(CodeId(0)));
    let name = &program.proc(ProcId(0)).name;
    let (defs, fns) = (program.lists().defs.len(), program.lists().fns.len());
    format!(in alloc;
        "{} {first:?} {last:?} {term:?} {code:?} {name:?} {defs} {fns}",
        program.stars()
    )
}

// The same, of an example that is made for it.
fn made_text(alloc: Global) -> Result<String, AllocError> {
    match example_program(alloc) {
        Ok(program) => example_text(alloc, &program),
        Err(error) => Err(error),
    }
}

#[test]
fn reads_a_program(rt: HostRuntime) -> Result<(), Fail> {
    let found = made_text(rt.alloc())?;
    assert_eq!(rt;
        found.as_str(),
        "2 One Named(DefId(0)) Var(57, VarId(0)) Close(77) Name { bytes: [112] } 2 1"
    );
    Ok(())
}

#[test]
fn forms_have_names(rt: HostRuntime) {
    let names = [
        (CodeForm::Label, "label"),
        (CodeForm::Case, "case"),
        (CodeForm::Send, "send"),
        (CodeForm::Recv, "recv"),
        (CodeForm::Put, "put"),
        (CodeForm::Take, "take"),
        (CodeForm::Pay, "pay"),
        (CodeForm::Get, "get"),
        (CodeForm::Work, "work"),
        (CodeForm::Wait, "wait"),
        (CodeForm::Accept, "accept"),
        (CodeForm::Detach, "detach"),
        (CodeForm::Acquire, "acquire"),
        (CodeForm::Release, "release"),
        (CodeForm::Spawn, "spawn"),
        (CodeForm::Let, "let"),
        (CodeForm::Emit, "emit"),
        (CodeForm::If, "if"),
        (CodeForm::Close, "close"),
        (CodeForm::Fwd, "fwd"),
        (CodeForm::Call, "call"),
        (CodeForm::Empty, "empty"),
        (CodeForm::Add, "add"),
        (CodeForm::Match, "match"),
    ];
    for (form, name) in names {
        assert_eq!(rt; form.name(), name);
    }
}

#[test]
fn reserved_words_are_found(rt: HostRuntime) {
    let words =
        "cost ticks sends all type fn proc R S L T int bool list true false nil if then else match not and or \
        up down self me send recv put take pay get work wait accept detach acquire release spawn as let emit case \
        close fwd call";
    for text in words.split(' ') {
        let found = Word::of_text(text.as_bytes());
        assert_eq!(rt; found.map(|word| word.text()), Some(text));
    }
    for text in ["selfish", "Self", "", "Call", "cal"] {
        assert_eq!(rt; Word::of_text(text.as_bytes()), None);
    }
}
