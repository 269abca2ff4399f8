//! The forms of instructions.
ghost use Rattle.std.specs.Prelude.{◌≡◌};
ghost use Rattle.nomos_ir.specs.CodeForm.{form_name};

/// The form of an instruction, without its parts.
#[derive(Clone, Copy, PartialEq, Eq, Debug)]
pub enum CodeForm {
    Label,
    Case,
    Send,
    Recv,
    Put,
    Take,
    Pay,
    Get,
    Work,
    Wait,
    Accept,
    Detach,
    Acquire,
    Release,
    Spawn,
    Let,
    Emit,
    If,
    Close,
    Fwd,
    Call,
    Empty,
    Add,
    Match,
}

impl CodeForm {
    /// The name of the form, as refusals print it.
    pub fn name(self) -> &'static str
        ensures { result.now ≡ form_name self }
    {
        match self {
            CodeForm::Label => "label",
            CodeForm::Case => "case",
            CodeForm::Send => "send",
            CodeForm::Recv => "recv",
            CodeForm::Put => "put",
            CodeForm::Take => "take",
            CodeForm::Pay => "pay",
            CodeForm::Get => "get",
            CodeForm::Work => "work",
            CodeForm::Wait => "wait",
            CodeForm::Accept => "accept",
            CodeForm::Detach => "detach",
            CodeForm::Acquire => "acquire",
            CodeForm::Release => "release",
            CodeForm::Spawn => "spawn",
            CodeForm::Let => "let",
            CodeForm::Emit => "emit",
            CodeForm::If => "if",
            CodeForm::Close => "close",
            CodeForm::Fwd => "fwd",
            CodeForm::Call => "call",
            CodeForm::Empty => "empty",
            CodeForm::Add => "add",
            CodeForm::Match => "match",
        }
    }
}
