//! What a process may hold and spawn.
ghost use Rattle.std.specs.Prelude.{◌≡◌};
ghost use Rattle.nomos_types.specs.Modes.{may_hold, may_spawn};

use nomos_ir::mode::Mode;

/// Whether a process of the first mode may hold a channel of the second.
pub fn may_hold(holder: Mode, held: Mode) -> bool
    ensures { result ≡ may_hold holder held }
{
    match holder {
        Mode::R => held == Mode::R,
        Mode::S => held == Mode::R || held == Mode::S,
        Mode::L | Mode::T => held != Mode::T,
    }
}

/// Whether a process of the first mode may spawn one of the second.
pub fn may_spawn(parent: Mode, child: Mode) -> bool
    ensures { result ≡ may_spawn parent child }
{
    match child {
        Mode::R => true,
        Mode::S => parent != Mode::R,
        Mode::L | Mode::T => false,
    }
}
