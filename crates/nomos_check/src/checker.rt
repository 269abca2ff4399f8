//! What the checks of all processes of a program have in common.
ghost use Rattle.std.specs.Prelude.{IfOk};
ghost use Rattle.nomos_check.specs.Checker.{IsCheckerOf};

use nomos_ir::items::Items;
use nomos_ir::mode::Mode;
use nomos_ir::program::Program;
use nomos_types::mode_table::mode_table;
use std::alloc::{AllocError, Global};

/// What the check of each process of a program asks of the program as a whole, found once: the modes of its types, in
/// order of number, and how many stars it has.
#[derive(Drop)]
pub struct Checker {
    pub(crate) alloc: Global,
    pub modes: Items<Mode>,
    pub stars: u16,
}

impl Checker {
    /// The checker of a program.
    pub fn new(alloc: Global, program: &Program) -> Result<Checker, AllocError>
        ensures { IfOk result (IsCheckerOf program.now) }
    {
        let modes = mode_table(alloc, program)?;
        Ok(Checker {
            alloc,
            modes: Items::of_vec(modes),
            stars: program.stars(),
        })
    }
}
