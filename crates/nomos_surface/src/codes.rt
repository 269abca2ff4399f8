//! Codes as trees: the steps of each, and its last instruction.
use crate::name_at::NameAt;
use crate::steps::{ChanAt, SurfaceArgs, SurfaceSteps};
use crate::terms::SurfaceTerm;

/// A code: its steps in order of text, and its last instruction.
#[derive(Drop)]
#[cycle(codes)]
pub struct SurfaceCode {
    pub steps: SurfaceSteps,
    pub last: SurfaceLast,
}

/// The last instruction of a code. `at` is the offset of its first token in the text, in bytes.
#[derive(Drop)]
#[cycle(codes)]
pub enum SurfaceLast {
    /// `close`
    Close {
        at: u32,
    },
    /// `fwd x`
    Fwd {
        at: u32,
        chan: NameAt,
    },
    /// `call f(..)`
    Call {
        at: u32,
        process: NameAt,
        arguments: SurfaceArgs,
    },
    /// `if e { holds } else { fails }`
    If {
        at: u32,
        test: SurfaceTerm,
        holds: Box<SurfaceCode>,
        fails: Box<SurfaceCode>,
    },
    /// `case x { .. }`. Of a text it has one arm or more.
    Case {
        at: u32,
        chan: ChanAt,
        arms: Vec<SurfaceArm>,
    },
    /// `match w { nil => empty | head :: tail => more }`
    Match {
        at: u32,
        matched: NameAt,
        empty: Box<SurfaceCode>,
        head: NameAt,
        tail: NameAt,
        more: Box<SurfaceCode>,
    },
}

/// A branch of a `case`: its label, and the code with which it goes on.
#[derive(Drop)]
#[cycle(codes)]
pub struct SurfaceArm {
    pub label: NameAt,
    pub goes: SurfaceCode,
}
