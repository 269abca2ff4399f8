//! What the objects of a state are compared with.
ghost use Rattle.std.specs.Prelude.{◌≡◌, ◌↔◌, IsTrue};
ghost use Rattle.nomos_types.specs.Modes.{HasMode};
ghost use Rattle.nomos_typed.specs.mirror.ComparedWith.{IsTold, IsTypeIn, AreInOrder, IsPlaceOf, FindsType};

use nomos_ir::ids::TypeId;
use nomos_ir::mode::Mode;
use nomos_types::accepted::Accepted;

/// What the objects of a state are compared with: an accepted program, the modes of its types in order of number, and
/// the names of the state in order of number, each with its type.
#[derive(Clone, Copy)]
pub(crate) struct Told<'a> {
    pub(crate) accepted: &'a Accepted,
    pub(crate) modes: &'a [Mode],
    pub(crate) types: &'a [(u32, TypeId)],
}

/// Whether the modes are the same.
pub(crate) fn is_mode(mode: Mode, other: Mode) -> bool
    ensures { IsTrue result ↔ (mode ≡ other) }
{
    mode == other
}

// Where a name stands among names in order, or where it would have to stand.
fn place_of(types: &[(u32, TypeId)], name: u32) -> Result<usize, usize>
    requires { AreInOrder types.now }
    ensures { IsPlaceOf types.now name result }
{
    types.binary_search_by_key(&name, |entry| entry.0)
}

impl Told<'_> {
    /// The mode of a type.
    pub(crate) fn mode_of(&self, t: TypeId) -> Mode
        requires told { IsTold self.now }
        requires in_range { IsTypeIn self.now t }
        ensures { HasMode self.now.accepted.now.program t result }
    {
        self.accepted.program().know();
        self.modes[t.0 as usize]
    }

    /// The type of a name, where it is one of the program's.
    pub(crate) fn type_of(&self, name: u32) -> Option<TypeId>
        requires told { IsTold self.now }
        ensures { FindsType self.now name result }
    {
        let types = self.types;
        let at = match place_of(types, name) {
            Ok(at) => at,
            Err(_) => return None,
        };
        let t = types[at].1;
        if (t.0 as usize) < self.accepted.program().lists().types.len() {
            Some(t)
        } else {
            None
        }
    }
}
