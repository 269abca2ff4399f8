//! Accepted programs.
ghost use Rattle.std.specs.Prelude.{◌≡◌, ◌<◌, ◌≤◌, length, IfSome, slice_get};
ghost use Rattle.nomos_types.specs.Acceptance.{acceptance, IsAccepted, IsAmountOf};
ghost use Rattle.nomos_types.specs.Amount.{dths};
ghost use Rattle.nomos_types.specs.Typed.{IsTypedProgram};

use nomos_ir::amount::Amount;
use nomos_ir::ids::ProcId;
use nomos_ir::lists::Amounts;
use nomos_ir::program::Program;
use std::marker::Model;

/// A program that is typed under the amounts that were found for its stars. An amount counts Dths: parts
/// of a unit of gas, of which a unit has `unit`.
#[derive(Drop, Debug)]
pub struct Accepted {
    program: Program,
    stars: Amounts,
    unit: u32,
}

impl Model for Accepted {
    ghost use Rattle.nomos_types.specs.Acceptance.{Acceptance, acceptance, IsAccepted};

    ghost Value = { Acceptance };

    ghost view = { λ a. acceptance a.program a.stars a.unit };

    ghost invariant = { λ a. IsAccepted (acceptance a.program a.stars a.unit) };
}

/// The declared potential of a process.
fn declared(program: &Program, p: ProcId) -> Amount
    requires { p.0 < length program.now.procs }
    ensures declared { IfSome (slice_get program.now.procs p.0) (λ d. result ≡ d.amount) }
    ensures amount { IsAmountOf program.now result }
{
    let lists = program.lists();
    lists.procs.as_slice()[p.0 as usize].amount
}

impl Accepted {
    /// The accepted program, under amounts under which it is typed.
    pub fn of_typed(program: Program, stars: Amounts, unit: u32) -> Accepted
        requires { IsAccepted (acceptance program stars unit) }
        ensures { result ≡ acceptance program stars unit }
    {
        Accepted {
            program,
            stars,
            unit,
        }
    }

    /// The program.
    pub fn program(&self) -> &Program
        ensures program { result.now ≡ self.now.program }
        ensures typed { IsTypedProgram self.now.program self.now.annotations }
        ensures accepted { IsAccepted self.now }
    {
        &self.program
    }

    /// What is known of each accepted program. It does nothing: where it is called, a proof rests on that.
    #[inline(always)]
    pub fn know(&self)
        ensures typed { IsTypedProgram self.now.program self.now.annotations }
        ensures accepted { IsAccepted self.now }
    {
        let _ = &self.program;
    }

    /// How many Dths make a unit of gas.
    pub fn unit(&self) -> u32
        ensures { result ≡ self.now.annotations.unit }
    {
        self.unit
    }

    /// An amount, in Dths. A star has to be one of the program's.
    pub fn amount(&self, a: Amount) -> u64
        requires { IsAmountOf self.now.program a }
        ensures { result ≡ dths self.now.annotations a }
    {
        match a {
            Amount::Written(units) => u64::from(units) * u64::from(self.unit),
            Amount::Star(star) => self.stars.as_slice()[star as usize - 1],
        }
    }

    /// The declared potential of a process, in Dths.
    pub fn bound(&self, p: ProcId) -> u64
        requires { p.0 < length self.now.program.procs }
        ensures { IfSome (slice_get self.now.program.procs p.0) (λ d. result ≡ dths self.now.annotations d.amount) }
    {
        self.amount(declared(&self.program, p))
    }
}
