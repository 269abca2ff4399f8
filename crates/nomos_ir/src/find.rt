//! Terms, functions and code by their numbers, where there are such.
ghost use Rattle.std.specs.Prelude.{◌≡◌, slice_get, option_copied};

use crate::code_node::CodeNode;
use crate::declaration::FnDecl;
use crate::ids::{CodeId, FnId, TermId};
use crate::lists::ProgramLists;
use crate::term_node::TermNode;

/// The term node with this number, if there is one.
pub fn find_term(lists: &ProgramLists, t: TermId) -> Option<&TermNode>
    ensures { option_copied result ≡ slice_get lists.now.terms t.0 }
{
    lists.terms.as_slice().get(t.0 as usize)
}

/// The function with this number, if there is one.
pub fn find_function(lists: &ProgramLists, f: FnId) -> Option<&FnDecl>
    ensures { option_copied result ≡ slice_get lists.now.fns f.0 }
{
    lists.fns.as_slice().get(f.0 as usize)
}

/// The instruction with this number, if there is one.
pub fn find_code(lists: &ProgramLists, c: CodeId) -> Option<&CodeNode>
    ensures { option_copied result ≡ slice_get lists.now.code c.0 }
{
    lists.code.as_slice().get(c.0 as usize)
}
