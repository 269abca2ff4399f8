//! A program: its lists, with what holds of them.
ghost use Rattle.std.specs.Prelude.{◌≡◌, ◌<◌, length, slice_get};
ghost use Rattle.nomos_ir.specs.Amounts.{star_count};
ghost use Rattle.nomos_ir.specs.Nodes.{type_node};
ghost use Rattle.nomos_ir.specs.Program.{IsProgram};

use crate::code_node::CodeNode;
use crate::declaration::ProcDecl;
use crate::ids::{CodeId, ProcId, TermId, TypeId};
use crate::lists::ProgramLists;
use crate::stars::{stars_in_code, stars_in_procs, stars_in_types};
use crate::term_node::TermNode;
use crate::type_node::TypeNode;
use std::marker::Model;

/// A program, which contracts see as its lists. The lists meet `IsProgram`.
#[derive(Drop, Debug)]
pub struct Program {
    lists: ProgramLists,
}

impl Model for Program {
    ghost use Rattle.nomos_ir.specs.declared.lists.ProgramLists.{ProgramLists};
    ghost use Rattle.nomos_ir.specs.Program.{IsProgram};

    ghost Value = { ProgramLists };

    ghost view = { λ program. program.lists };

    ghost invariant = { λ program. IsProgram program.lists };
}

impl Program {
    /// The program that these lists make.
    pub fn of_lists(lists: ProgramLists) -> Program
        requires { IsProgram lists }
        ensures { result ≡ lists }
    {
        Program { lists }
    }

    /// The lists of the program.
    pub fn lists(&self) -> &ProgramLists
        ensures lists { result.now ≡ self.now }
        ensures program { IsProgram self.now }
    {
        &self.lists
    }

    /// What is known of each program. It does nothing: where it is called, a proof rests on that.
    #[inline(always)]
    pub fn know(&self)
        ensures program { IsProgram self.now }
    {
        let _ = &self.lists;
    }

    /// The type node with this number.
    pub fn node(&self, t: TypeId) -> &TypeNode
        requires { t.0 < length self.now.types }
        ensures { type_node self.now t.0 ≡ Some result.now }
    {
        &self.lists.types.as_slice()[t.0 as usize].node
    }

    /// The term node with this number.
    pub fn term(&self, t: TermId) -> &TermNode
        requires { t.0 < length self.now.terms }
        ensures { slice_get self.now.terms t.0 ≡ Some result.now }
    {
        &self.lists.terms.as_slice()[t.0 as usize]
    }

    /// The code node with this number.
    pub fn code(&self, c: CodeId) -> &CodeNode
        requires { c.0 < length self.now.code }
        ensures { slice_get self.now.code c.0 ≡ Some result.now }
    {
        &self.lists.code.as_slice()[c.0 as usize]
    }

    /// The process declaration with this number.
    pub fn proc(&self, p: ProcId) -> &ProcDecl
        requires { p.0 < length self.now.procs }
        ensures { slice_get self.now.procs p.0 ≡ Some result.now }
    {
        &self.lists.procs.as_slice()[p.0 as usize]
    }

    /// The greatest star number that occurs, 0 where there is none.
    pub fn stars(&self) -> u16
        ensures { result ≡ star_count self.now }
    {
        let in_types = stars_in_types(self.lists.types.as_slice());
        let in_code = stars_in_code(self.lists.code.as_slice());
        let in_procs = stars_in_procs(self.lists.procs.as_slice());
        in_types.max(in_code).max(in_procs)
    }
}
