//! What is found along the code of all declarations.
ghost use Rattle.std.specs.Prelude.{◌≡◌, IfOk, length};
ghost use Rattle.nomos_check.specs.Checker.{IsCheckerOf};
ghost use Rattle.nomos_places.specs.mirror.AlongCode.{IsAlong};

use crate::potentials::{accepted_amounts, note_all};
use nomos_check::checker::Checker;
use nomos_check::checking::{InHand, standings_of};
use nomos_check::standing::Standing;
use nomos_forms::found::Found;
use nomos_ir::ids::ProcId;
use nomos_types::accepted::Accepted;
use std::alloc::{AllocError, Global};

/// What is found along the code of all declarations of a program.
#[derive(Drop)]
pub(crate) struct Along {
    /// What is in hand at the instructions that are wanted.
    pub(crate) standings: Vec<Standing>,
    /// The potentials before instructions, by number, in Dths; 0 where no process can stand.
    pub(crate) potentials: Vec<u128>,
}

/// What is found along the code of all declarations, followed by this checker.
fn follow_all(
    alloc: Global,
    accepted: &Accepted,
    checker: &Checker,
    amounts: &Found,
    wanted: &[bool],
) -> Result<Along, AllocError>
    requires checker { IsCheckerOf accepted.now.program checker.now }
    requires stars { amounts.now.stars ≡ accepted.now.annotations.stars }
    requires unit { amounts.now.unit ≡ accepted.now.annotations.unit }
    requires each { length wanted.now ≡ length accepted.now.program.code }
    ensures { IfOk result (IsAlong accepted.now wanted.now) }
{
    let program = accepted.program();
    let mut standings = Vec::new(alloc);
    let mut potentials = vec![in alloc; 0u128; wanted.len()]?;
    for p in 0..program.lists().procs.len() {
        let InHand {
            standings: more,
            potentials: forms,
        } = standings_of(checker, program, ProcId(p as u32), wanted)?;
        note_all(&mut potentials, amounts, forms.as_slice());
        standings.append(&mut more.into_vec())?;
    }
    Ok(Along {
        standings,
        potentials,
    })
}

/// What is found along the code of all declarations of an accepted program.
pub(crate) fn along_code(
    alloc: Global,
    accepted: &Accepted,
    wanted: &[bool],
) -> Result<Along, AllocError>
    requires { length wanted.now ≡ length accepted.now.program.code }
    ensures { IfOk result (IsAlong accepted.now wanted.now) }
{
    let checker = Checker::new(alloc, accepted.program())?;
    let amounts = accepted_amounts(alloc, accepted)?;
    follow_all(alloc, accepted, &checker, &amounts, wanted)
}
