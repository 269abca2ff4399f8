//! The modes of processes and of the types of channels.
ghost use Rattle.std.specs.Prelude.{◌≡◌, ◌<◌, ◌↔◌, ◌⊎◌, IsTrue, length};
ghost use Rattle.nomos_ir.specs.declared.mode.Mode.{Mode};
ghost use Rattle.nomos_types.specs.ModeTable.{AreModesOf};
ghost use Rattle.nomos_types.specs.Modes.{HasMode};

use nomos_ir::ids::TypeId;
use nomos_ir::mode::Mode;
use nomos_ir::program::Program;

/// Whether the modes are the same.
pub(crate) fn is_mode(mode: Mode, other: Mode) -> bool
    ensures { IsTrue result ↔ (mode ≡ other) }
{
    mode == other
}

/// Whether a process of the mode may close.
pub(crate) fn may_close(mode: Mode) -> bool
    ensures { IsTrue result ↔ ((mode ≡ Mode.R) ⊎ (mode ≡ Mode.T)) }
{
    mode == Mode::R || mode == Mode::T
}

/// Whether a process of the mode may acquire a shared contract.
pub(crate) fn may_acquire(mode: Mode) -> bool
    ensures { IsTrue result ↔ ((mode ≡ Mode.L) ⊎ (mode ≡ Mode.T)) }
{
    mode == Mode::L || mode == Mode::T
}

/// The mode of a type, by the table of modes.
pub(crate) fn mode_of(program: &Program, modes: &[Mode], t: TypeId) -> Mode
    requires modes { AreModesOf program.now modes.now }
    requires in_range { t.0 < length program.now.types }
    ensures { HasMode program.now t result }
{
    program.know();
    modes[t.0 as usize]
}

/// Whether a type has the mode, by the table of modes.
pub(crate) fn has_mode(program: &Program, modes: &[Mode], t: TypeId, mode: Mode) -> bool
    requires modes { AreModesOf program.now modes.now }
    requires in_range { t.0 < length program.now.types }
    ensures { IsTrue result ↔ HasMode program.now t mode }
{
    program.know();
    is_mode(mode_of(program, modes, t), mode)
}
