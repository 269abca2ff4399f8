//! In which ways objects have to do with names, and how often each may be.
ghost use Rattle.std.specs.Prelude.{◌≡◌};
ghost use Rattle.nomos_typed.specs.mirror.Ties.{times_at, times_for, is_limited, is_once};

use nomos_ir::mode::Mode;

/// In which way an object has to do with a name.
#[derive(Clone, Copy)]
pub(crate) enum Tie {
    Provides,
    Uses,
    /// It stands for the shared name: what it offers at mode S, or its base at mode L.
    Shares,
    Mentions,
}

/// How often objects may have to do with a name.
#[derive(Clone, Copy)]
pub(crate) enum Often {
    Once,
    Never,
    AnyTimes,
}

/// How often objects may have to do with a name of this mode, in a state with nothing outside.
fn times_at(tie: Tie, mode: Mode) -> Often
    ensures { result ≡ times_at tie mode }
{
    match tie {
        Tie::Provides => match mode {
            Mode::S => Often::AnyTimes,
            _ => Often::Once,
        },
        Tie::Uses => match mode {
            Mode::S => Often::AnyTimes,
            Mode::T => Often::Never,
            _ => Often::Once,
        },
        Tie::Shares => match mode {
            Mode::S => Often::Once,
            _ => Often::AnyTimes,
        },
        Tie::Mentions => Often::AnyTimes,
    }
}

/// The same of a name that may have no mode.
pub(crate) fn times_for(tie: Tie, mode: Option<Mode>) -> Often
    ensures { result ≡ times_for tie mode }
{
    match mode {
        Some(mode) => times_at(tie, mode),
        None => Often::AnyTimes,
    }
}

/// Whether it is a certain number of times.
pub(crate) fn is_limited(often: Often) -> bool
    ensures { result ≡ is_limited often }
{
    match often {
        Often::AnyTimes => false,
        _ => true,
    }
}

/// Whether it is once.
pub(crate) fn is_once(often: Often) -> bool
    ensures { result ≡ is_once often }
{
    match often {
        Often::Once => true,
        _ => false,
    }
}
