//! Lists that no machine keeps, since each of their elements carries more than 64 bits count.
ghost use Rattle.std.specs.Prelude.{◌≤◌, ◌↔◌, ◌^◌, IsTrue, map};
ghost use Rattle.std.specs.Option.{option_map, option_to_list};
ghost use Rattle.nomos_machine.specs.declared.object.Object.TheVariants as machine_object;
ghost use Rattle.nomos_snapshot.specs.GatheredLines.{ledger_of};
ghost use Rattle.nomos_snapshot.specs.ToldLines.{object_told, process_told, told};
ghost use Rattle.nomos_snapshot.specs.mirror.Loaded.{AreWide, HasWide, IsWideObject};

use crate::gathered::Gathering;
use crate::told_lines::{ToldList, ToldObject, ToldProcess};

// Whether each element of a list carries more than 64 bits count.
fn is_wide(list: &ToldList) -> bool
    ensures { IsTrue result ↔ (2 ^ 64 ≤ list.now.amount) }
{
    list.amount > u128::from(u64::MAX)
}

// Whether a process has such a list.
fn has_wide(process: &ToldProcess) -> bool
    ensures { IsTrue result → HasWide (process_told process.now) }
{
    for entry in process.lists.as_slice() {
        if is_wide(&entry.1) {
            return true;
        }
    }
    false
}

// Whether an object is a process with such a list.
fn is_wide_object(object: &ToldObject) -> bool
    ensures { IsTrue result → IsWideObject object.now }
{
    match object {
        ToldObject::Process(process) => has_wide(process),
        ToldObject::Message(_) => false,
    }
}

// Whether one of the objects is a process with such a list.
fn are_wide(objects: &[ToldObject]) -> bool
    ensures { IsTrue result → AreWide (map object_told objects.now) }
{
    for object in objects {
        if is_wide_object(object) {
            return true;
        }
    }
    false
}

// Whether the process, if there is one, has such a list.
fn is_wide_process(process: &Option<ToldProcess>) -> bool
    ensures { IsTrue result
        → AreWide (map machine_object.Process (option_to_list (option_map process_told process.now))) }
{
    match process {
        Some(process) => has_wide(process),
        None => false,
    }
}

impl Gathering {
    /// Whether a process has such a list. True only where one has; where none has, each list fits a machine.
    pub(crate) fn has_wide_list(&self) -> bool
        ensures { IsTrue result → AreWide (ledger_of (told self.now)).state.objects }
    {
        if are_wide(self.objects.as_slice()) {
            return true;
        }
        is_wide_process(&self.process)
    }
}
