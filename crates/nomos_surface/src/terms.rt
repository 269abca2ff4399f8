//! Terms as trees.
use crate::name_at::NameAt;
use crate::value_type::ValueType;
use nomos_ir::items::Items;

/// The operators that stand between two terms.
#[derive(Clone, Copy, PartialEq, Eq, Debug)]
pub enum Operator {
    Or,
    And,
    Less,
    Equal,
    Cons,
    Add,
    Sub,
    Mul,
    Div,
    Rem,
}

/// A term. Offsets are in bytes: that of an operator, or else that of the term's first token.
#[derive(Drop)]
pub enum SurfaceTerm {
    Number {
        at: u32,
        value: u32,
    },
    Truth {
        at: u32,
        value: bool,
    },
    /// `me`
    Me {
        at: u32,
    },
    Variable {
        name: NameAt,
    },
    /// `f(..)`
    Call {
        function: NameAt,
        arguments: Vec<SurfaceTerm>,
    },
    /// `nil t`
    Nil {
        at: u32,
        element: ValueType,
    },
    Binary {
        operator: Operator,
        at: u32,
        left: Box<SurfaceTerm>,
        right: Box<SurfaceTerm>,
    },
    Not {
        at: u32,
        inner: Box<SurfaceTerm>,
    },
    /// `if test then holds else fails`
    If {
        at: u32,
        test: Box<SurfaceTerm>,
        holds: Box<SurfaceTerm>,
        fails: Box<SurfaceTerm>,
    },
    /// `match list { nil => empty | head :: tail => more }`
    Match {
        at: u32,
        matched: Box<SurfaceTerm>,
        empty: Box<SurfaceTerm>,
        head: NameAt,
        tail: NameAt,
        more: Box<SurfaceTerm>,
    },
    /// `(e)`
    Grouped {
        inner: Box<SurfaceTerm>,
    },
}

/// Terms in order of text.
pub type SurfaceTerms = Items<SurfaceTerm>;
