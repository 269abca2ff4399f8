//! What an object of an indexed state does with names, told by its number.
ghost use Rattle.std.specs.Prelude.{◌≡◌, ◌==◌, ℕ, List, None, Some, cond, option_and_then, true};
ghost use Rattle.std.specs.List.{list_any};
ghost use Rattle.std.specs.Option.{option_map};
ghost use Rattle.nomos_deeds.specs.Readers.{stands_for};
ghost use Rattle.nomos_deeds.specs.SeenObjects.{seen_message, seen_process};
ghost use Rattle.nomos_ir.specs.Bindings.{IsAscending, bound_to};
ghost use Rattle.nomos_machine.specs.Objects.{based, message_of, object_at, process_of, provided, used};
ghost use Rattle.nomos_machine.specs.Sight.{is_offered, is_read_on};
ghost use Rattle.nomos_machine.specs.State.{process_at};
ghost use Rattle.nomos_machine.specs.declared.object.Object.{Object as Thing};
ghost use Rattle.nomos_machine.specs.declared.object.Object.TheVariants as object;
ghost use Rattle.nomos_machine.specs.declared.object.Process.{Process};
ghost use Rattle.nomos_slots.specs.Cells.{Cell};
ghost use Rattle.nomos_state.specs.Objects.{ListRow, ValueRow, message_held, process_held};
ghost use Rattle.nomos_state.specs.NameUses.{DoesAt};

use crate::inside::Inside;
use crate::kept::{Kept, KeptMessage, KeptProcess};
use crate::looking::object_at;
use crate::sought::{
    Sought, is_message_sought, message_uses, seen_message, seen_process, stands_for,
};
use nomos_deeds::sight::{SeenMessage, SeenProcess};
use nomos_ir::ids::VarId;

// Whether a message provides this name.
fn message_provides(m: &KeptMessage, name: u32) -> bool
    ensures { (number : ℕ) (values : ValueRow)
        → result ≡ list_any (λ k. k == name) (provided (object.Message (message_held number values m.now))) }
{
    if m.to_client {
        m.from == name
    } else {
        m.next == Some(name)
    }
}

// Whether a process has this name as base.
fn has_base(p: &KeptProcess, name: u32) -> bool
    ensures { (cells : List Cell) (pid : ℕ) (values : ValueRow) (its_lists : ListRow)
        → result ≡ list_any (λ k. k == name) (based (object.Process (process_held cells pid values its_lists p.now))) }
{
    p.base == Some(name)
}

impl Inside {
    /// The name that a variable of the process has. The channels of a process stand in order.
    pub fn bound(&self, pid: u32, v: VarId) -> Option<u32>
        ensures name { (p : Process) → process_at self.now.state pid ≡ Some p → result ≡ bound_to v.0 p.channels }
        ensures order { (p : Process) → process_at self.now.state pid ≡ Some p → IsAscending p.channels }
    {
        self.contents.channels.get(pid, v.0)
    }

    /// Whether the object of this number provides this name.
    pub fn provides(&self, number: u32, name: u32) -> bool
        ensures { result ≡ true → DoesAt provided self.now.state.objects number name }
    {
        match object_at(&self.contents, number) {
            Some((_, Kept::Process(p))) => p.offers == name,
            Some((_, Kept::Message(m))) => message_provides(&m, name),
            None => false,
        }
    }

    // Whether a variable of a process has this name.
    fn has_name(&self, pid: u32, variable: u32, name: u32) -> bool
        ensures { result ≡ true → (p : Process) → process_at self.now.state pid ≡ Some p
            → bound_to variable p.channels ≡ Some name }
    {
        match self.bound(pid, VarId(variable)) {
            Some(bound) => bound == name,
            None => false,
        }
    }

    /// Whether the object of this number uses this name: a process for this variable.
    pub fn uses(&self, number: u32, variable: u32, name: u32) -> bool
        ensures { result ≡ true → DoesAt used self.now.state.objects number name }
    {
        match object_at(&self.contents, number) {
            Some((_, Kept::Process(_))) => self.has_name(number, variable, name),
            Some((_, Kept::Message(m))) => message_uses(&m, name),
            None => false,
        }
    }

    /// Whether the object of this number has this name as base.
    pub fn bases(&self, number: u32, name: u32) -> bool
        ensures { result ≡ true → DoesAt based self.now.state.objects number name }
    {
        match object_at(&self.contents, number) {
            Some((_, Kept::Process(p))) => has_base(&p, name),
            _ => false,
        }
    }

    /// The message of this number, where it is read on this name and goes this way.
    pub fn message_read(&self, number: u32, to_client: bool, name: u32) -> Option<SeenMessage>
        ensures { (o : Thing) → object_at self.now.state.objects number ≡ Some o
            → result ≡ option_map seen_message
            (option_and_then message_of (cond (is_read_on to_client name o) (Some o) None)) }
    {
        match object_at(&self.contents, number) {
            Some((_, Kept::Message(m))) => {
                if is_message_sought(&m, Sought::Message { to_client, name }) {
                    Some(seen_message(number, &m))
                } else {
                    None
                }
            }
            _ => None,
        }
    }

    /// The process of this number, where it offers this name.
    pub fn process_offering(&self, number: u32, name: u32) -> Option<SeenProcess>
        ensures { (o : Thing) → object_at self.now.state.objects number ≡ Some o
            → result ≡ option_map seen_process
            (option_and_then process_of (cond (is_offered name o) (Some o) None)) }
    {
        match object_at(&self.contents, number) {
            Some((_, Kept::Process(p))) => {
                if p.offers == name {
                    Some(seen_process(number, &p))
                } else {
                    None
                }
            }
            _ => None,
        }
    }

    /// This number, where it is that of a process that stands for this shared name.
    pub fn standing_for(&self, number: u32, shared: u32) -> Option<u32>
        ensures { (o : Thing) → object_at self.now.state.objects number ≡ Some o
            → result ≡ cond (stands_for shared o) (Some number) None }
    {
        match object_at(&self.contents, number) {
            Some((_, Kept::Process(p))) => {
                if stands_for(&p, shared) {
                    Some(number)
                } else {
                    None
                }
            }
            _ => None,
        }
    }

    /// The number that the next object will have, which no object has.
    pub fn free_number(&self) -> u32
        ensures next { result ≡ self.now.state.next_object }
        ensures free { object_at self.now.state.objects result ≡ None }
    {
        self.contents.numbers.next_object
    }
}
