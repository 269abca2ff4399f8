//! The names of instructions in the lines of firings.

ghost use Rattle.std.specs.Prelude.{◌≡◌};
ghost use Rattle.nomos_ir.specs.CodeForm.{form_name};
ghost use Rattle.nomos_printing.specs.ReadAs.{ReadsAs};
ghost use Rattle.nomos_journal.specs.Line.{IsGasless};
ghost use Rattle.nomos_journal.specs.mirror.Forms.{form_named};

use nomos_ir::code_form::CodeForm;

/// The forms of instructions.
const FORMS: [CodeForm; 24] = [
    CodeForm::Label,
    CodeForm::Case,
    CodeForm::Send,
    CodeForm::Recv,
    CodeForm::Put,
    CodeForm::Take,
    CodeForm::Pay,
    CodeForm::Get,
    CodeForm::Work,
    CodeForm::Wait,
    CodeForm::Accept,
    CodeForm::Detach,
    CodeForm::Acquire,
    CodeForm::Release,
    CodeForm::Spawn,
    CodeForm::Let,
    CodeForm::Emit,
    CodeForm::If,
    CodeForm::Close,
    CodeForm::Fwd,
    CodeForm::Call,
    CodeForm::Empty,
    CodeForm::Add,
    CodeForm::Match,
];

// The first form with this name.
#[tactic(auto, unfolding(crate::specs::mirror::Forms::form_named))]
fn form_named(text: &[u8]) -> Option<CodeForm>
    ensures { result ≡ form_named text.now }
{
    FORMS
        .iter()
        .copied()
        .find(|form| form.name().as_bytes() == text)
}

/// The form whose name a text is, other than that of `work`, whose firings say their gas.
pub(crate) fn read_gasless(text: &[u8]) -> Option<CodeForm>
    ensures { ReadsAs IsGasless form_name text.now result }
{
    match form_named(text)? {
        CodeForm::Work => None,
        form => Some(form),
    }
}
