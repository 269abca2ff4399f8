//! The lines that are printed of an accepted program.

ghost use Rattle.std.specs.Prelude.{◌≡◌, ◌-◌, ◌≤◌, ◌++◌, OnOk, Some, slice_get, slice_index};
ghost use Rattle.std.specs.List.{flat_map};
ghost use Rattle.nomos_ir.specs.Amounts.{star_count};
ghost use Rattle.nomos_report.specs.Block.{has_bound, bound_text, bound_lines, unit_line, star_line, star_lines, accepted_block};

use nomos_base::push_gas;
use nomos_ir::amount::Amount;
use nomos_ir::declaration::ProcDecl;
use nomos_ir::ids::ProcId;
use nomos_ir::mode::Mode;
use nomos_printing::number::push_number;
use nomos_types::accepted::Accepted;
use std::alloc::AllocError;

/// Appends what is printed of an accepted program: `accepted`, the unit, the amounts of the stars, and the bounds of
/// contracts and transactions, in Dths (docs/TEXTS.md, "Words and statuses").
pub fn push_block(text: &mut Vec<u8>, accepted: &Accepted) -> Result<(), AllocError>
    ensures { OnOk result (text.new.items ≡ text.old.items ++ accepted_block accepted.now) }
{
    text.extend_from_slice(b"accepted\n")?;
    push_unit(text, accepted.unit())?;
    push_stars(text, accepted)?;
    push_bounds(text, accepted)
}

// Appends the line of the unit.
fn push_unit(text: &mut Vec<u8>, unit: u32) -> Result<(), AllocError>
    ensures { OnOk result (text.new.items ≡ text.old.items ++ unit_line unit) }
{
    text.extend_from_slice(b"unit ")?;
    push_gas(text, 1, unit)?;
    text.push(b'\n')?;
    Ok(())
}

// Appends the amounts of the stars, in order of their numbers.
fn push_stars(text: &mut Vec<u8>, accepted: &Accepted) -> Result<(), AllocError>
    ensures { OnOk result (text.new.items ≡ text.old.items
        ++ star_lines accepted.now.annotations.unit 1 accepted.now.annotations.stars) }
{
    for star in 0..accepted.program().stars() {
        push_star(text, accepted, star + 1)?;
    }
    Ok(())
}

// Appends the line of a star.
fn push_star(text: &mut Vec<u8>, accepted: &Accepted, star: u16) -> Result<(), AllocError>
    requires first { 1 ≤ star }
    requires within { star ≤ star_count accepted.now.program }
    ensures { OnOk result (text.new.items ≡ text.old.items
        ++ star_line accepted.now.annotations.unit star (slice_index accepted.now.annotations.stars (star - 1))) }
{
    let amount = accepted.amount(Amount::Star(star));
    text.extend_from_slice(b"star ")?;
    push_number(text, u64::from(star))?;
    text.extend_from_slice(b" = ")?;
    push_gas(text, u128::from(amount), accepted.unit())?;
    text.push(b'\n')?;
    Ok(())
}

// Appends the lines of the bounds, in order of text.
fn push_bounds(text: &mut Vec<u8>, accepted: &Accepted) -> Result<(), AllocError>
    ensures { OnOk result (text.new.items ≡ text.old.items
        ++ flat_map (bound_lines accepted.now.annotations) accepted.now.program.procs) }
{
    for (p, declaration) in accepted
        .program()
        .lists()
        .procs
        .as_slice()
        .iter()
        .enumerate()
    {
        push_bound_of(text, accepted, ProcId(p as u32), declaration)?;
    }
    Ok(())
}

// Appends the line of the bound of a declaration, where one is printed.
fn push_bound_of(
    text: &mut Vec<u8>,
    accepted: &Accepted,
    p: ProcId,
    declaration: &ProcDecl,
) -> Result<(), AllocError>
    requires { slice_get accepted.now.program.procs p.0 ≡ Some declaration.now }
    ensures { OnOk result (text.new.items ≡ text.old.items ++ bound_lines accepted.now.annotations declaration.now) }
{
    if !has_bound(declaration.mode) {
        return Ok(());
    }
    let bound = accepted.bound(p);
    push_bound(text, declaration.name.as_bytes(), bound, accepted.unit())
}

// Whether the bound of a declaration of this mode is printed.
fn has_bound(mode: Mode) -> bool
    ensures { result ≡ has_bound mode }
{
    matches!(mode, Mode::S | Mode::T)
}

// Appends the line of a bound.
fn push_bound(text: &mut Vec<u8>, name: &[u8], dths: u64, unit: u32) -> Result<(), AllocError>
    ensures { OnOk result (text.new.items ≡ text.old.items ++ bound_text name.now dths unit) }
{
    text.extend_from_slice(b"bound ")?;
    text.extend_from_slice(name)?;
    text.extend_from_slice(b" = ")?;
    push_gas(text, u128::from(dths), unit)?;
    text.push(b'\n')?;
    Ok(())
}
