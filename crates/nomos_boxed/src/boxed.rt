//! Boxed machines.
ghost use Rattle.std.specs.Prelude.{◌≡◌, ◌≤◌, IfOk, IsSome, OnOk};
ghost use Rattle.nomos_boxed.specs.InBox.{marked_in, spare_in, state_in};

use nomos_deeds::undo::Undo;
use std::alloc::{AllocError, Global};

/// A machine that is moved as a pointer, however large it is: a ledger or a batch under way that keeps one is small. As
/// long as nothing has come it takes no memory.
#[derive(Drop, Debug)]
pub struct Boxed<M: Drop> {
    pub(crate) alloc: Global,
    // Whether the empty state is marked, as long as there is no box.
    pub(crate) is_marked: bool,
    pub(crate) machine: Option<Box<M>>,
}

impl<M: Undo + Drop> Boxed<M> {
    // The machine in its box.
    pub(crate) fn holding(alloc: Global, machine: M) -> Result<Boxed<M>, AllocError>
        ensures state { IfOk result (λ b. state_in (λ m. M.state m.value) b.machine ≡ M.state machine) }
        ensures marked { IfOk result (λ b.
            marked_in (λ m. M.marked m.value) b.is_marked b.machine ≡ M.marked machine) }
    {
        let machine = Box::new(alloc, machine)?;
        Ok(Boxed {
            alloc,
            is_marked: false,
            machine: Some(machine),
        })
    }

    // From here on there is a box. Want of memory changes nothing.
    pub(crate) fn fill(&mut self) -> Result<(), AllocError>
        ensures ok { OnOk result (IsSome self.new.machine) }
        ensures state { state_in (λ m. M.state m.value) self.new.machine
            ≡ state_in (λ m. M.state m.value) self.old.machine }
        ensures marked { marked_in (λ m. M.marked m.value) self.new.is_marked self.new.machine
            ≡ marked_in (λ m. M.marked m.value) self.old.is_marked self.old.machine }
        ensures spare { spare_in (λ m. M.spare m.value) self.old.machine
            ≤ spare_in (λ m. M.spare m.value) self.new.machine }
    {
        if self.machine.is_some() {
            return Ok(());
        }
        let mut machine = M::empty(self.alloc);
        if self.is_marked {
            machine.mark();
        }
        self.machine = Some(Box::new(self.alloc, machine)?);
        Ok(())
    }
}
