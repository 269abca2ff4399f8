//! Faults as text.

ghost use Rattle.std.specs.Prelude.{◌≡◌, ◌++◌, OnOk};
ghost use Rattle.nomos_printing.specs.Cause.{fault_text};
ghost use Rattle.nomos_printing.specs.ReadAs.{ReadsAs};
ghost use Rattle.nomos_printing.specs.mirror.FaultNaming.{fault_named};

use nomos_ir::fault::Fault;
use std::alloc::AllocError;

/// The faults of terms.
const FAULTS: [Fault; 5] = [
    Fault::Overflow,
    Fault::DivideByZero,
    Fault::TermSteps,
    Fault::ListLength,
    Fault::Depth,
];

// The name of a fault.
fn fault_name(fault: Fault) -> &'static [u8]
    ensures { result.now ≡ fault_text fault }
{
    match fault {
        Fault::Overflow => b"Overflow",
        Fault::DivideByZero => b"DivideByZero",
        Fault::TermSteps => b"TermSteps",
        Fault::ListLength => b"ListLength",
        Fault::Depth => b"Depth",
    }
}

/// Appends the name of a fault.
pub fn push_fault(text: &mut Vec<u8>, fault: Fault) -> Result<(), AllocError>
    ensures { OnOk result (text.new.items ≡ text.old.items ++ fault_text fault) }
{
    text.extend_from_slice(fault_name(fault))?;
    Ok(())
}

// The first fault with this name.
#[tactic(auto, unfolding(crate::specs::mirror::FaultNaming::fault_named))]
fn fault_named(text: &[u8]) -> Option<Fault>
    ensures { result ≡ fault_named text.now }
{
    FAULTS
        .iter()
        .copied()
        .find(|fault| fault_name(*fault) == text)
}

/// The fault whose name a text is, if it is one.
pub fn read_fault(text: &[u8]) -> Option<Fault>
    ensures { ReadsAs (λ f. Unit {0}) fault_text text.now result }
{
    fault_named(text)
}
