//! A script under way as a work that workers take in turns over a floor.
ghost use Rattle.std.specs.Prelude.{◌≡◌, ◌%◌, ◌^◌, IfOk, IfSome, length};
ghost use Rattle.nomos_types.specs.Acceptance.{Acceptance};
ghost use Rattle.nomos_floor.specs.FloorPass.{AddsAtMostOne};
ghost use Rattle.nomos_workers.specs.Looks.{IsKnown, TurnsOut};
ghost use Rattle.nomos_run.specs.declared.script_course.CourseStop.TheVariants as course_stop;
ghost use Rattle.nomos_run.specs.mirror.Courses.{CourseState, history_of, opening};

use crate::script_course::CourseStop;
use nomos_floor::shared_work::Shared;
use nomos_workers::trade::{KnownOutcome, Seeks, Trade, Turned};
use std::alloc::{AllocError, Global};
use std::marker::Model;

/// What is carried on along a script, whatever it borrows: so no type that goes to threads names a lifetime.
pub(crate) trait CarriedCourse: Drop {
    /// What is asked for, to be evaluated outside the turn.
    type Asked: Drop + Send;

    ghost use Rattle.nomos_run.specs.mirror.Courses.{CourseState, history_of, opening};

    /// What it began with, and its firings so far.
    ghost state: { Self → CourseState };

    /// The program for which this is asked.
    ghost asked_of: { Self.Asked → Acceptance };

    /// How many firings there are so far, modulo 2^64.
    fn firings(&self) -> u64
        ensures { result ≡ length (history_of (state self.now)) % 2 ^ 64 };

    /// What a look by this pass comes to.
    fn look(
        &mut self,
        alloc: Global,
        pass: u32,
        seeks: &Seeks,
    ) -> Result<Turned<Self::Asked, CourseStop>, AllocError>
        requires known { IfSome seeks.now.known (IsKnown (state self.old).accepted) }
        ensures start { opening (state self.new) ≡ opening (state self.old) }
        ensures history { AddsAtMostOne pass (history_of (state self.old)) (history_of (state self.new)) }
        ensures asks { IfOk result (TurnsOut (λ asked. asked_of asked ≡ (state self.new).accepted) (λ _. Unit {0})) };

    /// Evaluates what was asked for.
    fn evaluate(alloc: Global, asked: Self::Asked) -> Result<KnownOutcome, AllocError>
        ensures { IfOk result (IsKnown (asked_of asked)) };
}

/// A script under way as a work that workers take in turns. Contracts see what it began with and its firings so far. It
/// is moved at each firing, and so it is a pointer.
#[derive(Drop)]
pub(crate) struct ScriptShop<C: CarriedCourse> {
    course: Box<C>,
}

impl<C: CarriedCourse> Model for ScriptShop<C> {
    ghost use Rattle.std.specs.Coded.{codes};
    ghost use Rattle.nomos_ir.specs.ValueCode.{value_code};
    ghost use Rattle.nomos_run.specs.mirror.Courses.{CourseState};

    ghost Value = { CourseState };

    ghost coded = { Prim.hlevel (codes, value_code) };

    ghost view = { λ s. C.state s.course.value };
}

impl<C: CarriedCourse> Shared for ScriptShop<C> {
    type Start = ScriptShop<C>;

    type Entry = u32;

    ghost start = { opening };

    ghost history = { history_of };

    fn entries(&self) -> u64 {
        self.course.firings()
    }
}

impl<C: CarriedCourse> Trade for ScriptShop<C> {
    type Asked = C::Asked;

    type Stop = CourseStop;

    ghost program = { λ start. start.accepted };

    ghost asked_of = { C.asked_of };

    ghost stops = { λ opened history stop. Unit {0} };

    ghost wanting = { course_stop.NoMemory };

    fn step(
        &mut self,
        alloc: Global,
        pass: u32,
        seeks: &Seeks,
    ) -> Result<Turned<C::Asked, CourseStop>, AllocError> {
        self.course.look(alloc, pass, seeks)
    }

    fn evaluate(alloc: Global, asked: C::Asked) -> Result<KnownOutcome, AllocError> {
        C::evaluate(alloc, asked)
    }

    fn no_memory() -> CourseStop {
        CourseStop::NoMemory
    }
}

impl<C: CarriedCourse> ScriptShop<C> {
    /// The shop of this script.
    pub(crate) fn of(course: Box<C>) -> ScriptShop<C>
        ensures { result ≡ C.state course.value }
    {
        ScriptShop { course }
    }

    /// The script as it has come to be.
    pub(crate) fn into_course(self) -> C
        ensures { C.state result ≡ self }
    {
        Box::into_inner(self.course)
    }
}
