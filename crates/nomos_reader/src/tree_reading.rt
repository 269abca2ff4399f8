//! From the tokens of a text to its tree.
ghost use Rattle.std.specs.Prelude.{IfOk, map};
ghost use Rattle.nomos_reader.specs.Readable.{AreReadable};
ghost use Rattle.nomos_reader.specs.TreeOf.{IsTreeOf};
ghost use Rattle.nomos_surface.specs.FileView.{file_tree};
ghost use Rattle.nomos_syntax.specs.Spans.{placed_of};

use crate::decl_reader::read_file;
use crate::tokens::Tokens;
use nomos_surface::surface::Surface;
use nomos_syntax::token::Token;
use std::alloc::{AllocError, Global};

/// The tree of a text with these tokens, if they are those of a tree of the grammar. A tree is given for all others as
/// well, of which nothing is said. Only memory can be wanting.
pub fn read_tree(alloc: Global, text: &[u8], tokens: &[Token]) -> Result<Surface, AllocError>
    requires { AreReadable text.now tokens.now }
    ensures { IfOk result (λ surface. IsTreeOf (map (placed_of text.now) tokens.now) (file_tree surface)) }
{
    read_file(&mut Tokens::new(alloc, text, tokens))
}
