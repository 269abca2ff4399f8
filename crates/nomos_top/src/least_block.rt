//! The lines that are printed of least bounds.

ghost use Rattle.std.specs.Prelude.{◌≡◌, ◌++◌, IfOk, OnOk};
ghost use Rattle.nomos_report.specs.Block.{accepted_block};
ghost use Rattle.nomos_top.specs.LeastBlock.{least_line, proof_lines, least_block};

use crate::refusal_lines::push_weights;
use nomos_base::push_gas;
use nomos_least::least::LeastBounds;
use nomos_printing::number::push_number;
use nomos_report::block::push_block;
use nomos_simplex::solved::Proof;
use nomos_types::accepted::Accepted;
use std::alloc::{AllocError, Global};

/// The block of an accepted program.
pub(crate) fn accepted_block(alloc: Global, accepted: &Accepted) -> Result<Vec<u8>, AllocError>
    ensures { IfOk result (λ text. text.items ≡ accepted_block accepted.now) }
{
    let mut text = Vec::new(alloc);
    push_block(&mut text, accepted)?;
    Ok(text)
}

/// The block of the accepted program, what its transactions declare in all, and the proof that this is the least.
pub(crate) fn least_block(alloc: Global, bounds: &LeastBounds) -> Result<Vec<u8>, AllocError>
    ensures { IfOk result (λ text. text.items ≡ least_block bounds.now) }
{
    let mut text = accepted_block(alloc, &bounds.accepted)?;
    push_least(&mut text, bounds.proof.total, bounds.accepted.unit())?;
    push_proof(&mut text, &bounds.proof)?;
    Ok(text)
}

// Appends the line of what the transactions declare in all, in Dths.
fn push_least(text: &mut Vec<u8>, total: u64, unit: u32) -> Result<(), AllocError>
    ensures { OnOk result (text.new.items ≡ text.old.items ++ least_line total unit) }
{
    text.extend_from_slice(b"least ")?;
    push_gas(text, u128::from(total), unit)?;
    text.push(b'\n')?;
    Ok(())
}

// Appends the scale of a proof, and its weights.
fn push_proof(text: &mut Vec<u8>, proof: &Proof) -> Result<(), AllocError>
    ensures { OnOk result (text.new.items ≡ text.old.items ++ proof_lines proof.now) }
{
    text.extend_from_slice(b"scale ")?;
    push_number(text, proof.scale)?;
    text.push(b'\n')?;
    push_weights(text, proof.weights.as_slice())
}
