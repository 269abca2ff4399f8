//! The lines that are printed of a text that is not accepted.

ghost use Rattle.std.specs.Prelude.{◌≡◌, ◌++◌, codes, decimal, IfOk, OnOk};
ghost use Rattle.std.specs.Fmt.{signed_decimal};
ghost use Rattle.std.specs.List.{flat_map};
ghost use Rattle.nomos_ir.specs.CodeForm.{form_name};
ghost use Rattle.nomos_report.specs.ReportLines.{line};
ghost use Rattle.nomos_top.specs.Refusal.{which_text, at_offset, why_text, row_text, of_text, weight_line, verdict_lines, certificate, refusal, stop_text, unsolved_line};

use itoa::Buffer;
use nomos_accept::why::Why;
use nomos_forms::row::Row;
use nomos_forms::verdict::{Of, Verdict, Weight};
use nomos_grammar::offence::Which;
use nomos_ir::code_form::CodeForm;
use nomos_printing::number::push_number;
use nomos_simplex::solved::Stop;
use std::alloc::{AllocError, Global};

/// The lines of a refusal: its cause, and the weights that show it where it has some.
pub(crate) fn refusal(alloc: Global, why: &Why) -> Result<Vec<u8>, AllocError>
    ensures { IfOk result (λ text. text.items ≡ refusal why.now) }
{
    let mut text = Vec::from_slice(alloc, b"refused ")?;
    push_why(&mut text, why)?;
    text.push(b'\n')?;
    push_certificate(&mut text, why)?;
    Ok(text)
}

/// The line that says why a run of the solver stopped.
pub(crate) fn unsolved_line(alloc: Global, stop: Stop) -> Result<Vec<u8>, AllocError>
    ensures { IfOk result (λ text. text.items ≡ unsolved_line stop) }
{
    let mut text = Vec::from_slice(alloc, b"unsolved ")?;
    push_stop(&mut text, stop)?;
    text.push(b'\n')?;
    Ok(text)
}

// Appends why a run of the solver stopped.
fn push_stop(text: &mut Vec<u8>, stop: Stop) -> Result<(), AllocError>
    ensures { OnOk result (text.new.items ≡ text.old.items ++ stop_text stop) }
{
    match stop {
        Stop::Pivots => push_word(text, b"Pivots 2000"),
        Stop::Large(pivots) => {
            text.extend_from_slice(b"Large ")?;
            push_number(text, u64::from(pivots))
        }
    }
}

// Appends the cause of a refusal, with its numbers.
fn push_why(text: &mut Vec<u8>, why: &Why) -> Result<(), AllocError>
    ensures { OnOk result (text.new.items ≡ text.old.items ++ why_text why.now) }
{
    match why {
        Why::TooLong => push_word(text, b"TooLong"),
        Why::NotAscii(at) => push_at(text, b"NotAscii", *at),
        Why::Syntax(at) => push_at(text, b"Syntax", *at),
        Why::Limit(which, at) => push_limit(text, *which, *at),
        Why::Name(at) => push_at(text, b"Name", *at),
        Why::Cost(at) => push_at(text, b"Cost", *at),
        Why::Contractive(at) => push_at(text, b"Contractive", *at),
        Why::Mode(at) => push_at(text, b"Mode", *at),
        Why::NotSync(at, _) => push_at(text, b"NotSync", *at),
        Why::TermType(at) => push_at(text, b"TermType", *at),
        Why::ProcType(at, form) => push_stuck(text, *at, *form),
        Why::NoPotential(_) => push_word(text, b"NoPotential"),
    }
}

// Appends a word.
fn push_word(text: &mut Vec<u8>, word: &[u8]) -> Result<(), AllocError>
    ensures { OnOk result (text.new.items ≡ text.old.items ++ word.now) }
{
    text.extend_from_slice(word)?;
    Ok(())
}

// Appends a cause and the offset at which it is.
fn push_at(text: &mut Vec<u8>, cause: &[u8], at: u32) -> Result<(), AllocError>
    ensures { OnOk result (text.new.items ≡ text.old.items ++ at_offset cause.now at) }
{
    text.extend_from_slice(cause)?;
    text.push(b' ')?;
    push_number(text, u64::from(at))
}

// Appends the limit that is passed, and where.
fn push_limit(text: &mut Vec<u8>, which: Which, at: u32) -> Result<(), AllocError>
    ensures { OnOk result (text.new.items ≡ text.old.items
        ++ at_offset (codes "Limit " ++ which_text which) at) }
{
    text.extend_from_slice(b"Limit ")?;
    push_at(text, limit_name(which), at)
}

// The name of a limit.
fn limit_name(which: Which) -> &'static [u8]
    ensures { result.now ≡ which_text which }
{
    match which {
        Which::Name => b"Name",
        Which::Number => b"Number",
        Which::Nesting => b"Nesting",
        Which::Nodes => b"Nodes",
        Which::Stars => b"Stars",
    }
}

// Appends where an instruction is stuck, and its form.
fn push_stuck(text: &mut Vec<u8>, at: u32, form: CodeForm) -> Result<(), AllocError>
    ensures { OnOk result (text.new.items ≡ text.old.items
        ++ (at_offset (codes "ProcType") at ++ codes " " ++ form_name form)) }
{
    push_at(text, b"ProcType", at)?;
    text.push(b' ')?;
    text.extend_from_slice(form.name().as_bytes())?;
    Ok(())
}

// Appends the weights that show a refusal, where it has some.
fn push_certificate(text: &mut Vec<u8>, why: &Why) -> Result<(), AllocError>
    ensures { OnOk result (text.new.items ≡ text.old.items ++ certificate why.now) }
{
    match why {
        Why::NoPotential(verdict) => push_verdict(text, verdict),
        _ => Ok(()),
    }
}

// Appends the weights of a verdict, and what they give.
fn push_verdict(text: &mut Vec<u8>, verdict: &Verdict) -> Result<(), AllocError>
    ensures { OnOk result (text.new.items ≡ text.old.items ++ verdict_lines verdict.now) }
{
    push_weights(text, verdict.weights.as_slice())?;
    push_gives(text, verdict.gives)
}

// Appends what weights add up to.
fn push_gives(text: &mut Vec<u8>, gives: u128) -> Result<(), AllocError>
    ensures { OnOk result (text.new.items ≡ text.old.items ++ line (codes "gives 0 >= " ++ decimal gives)) }
{
    text.extend_from_slice(b"gives 0 >= ")?;
    let mut buffer = Buffer::new();
    text.extend_from_slice(buffer.format(gives).as_bytes())?;
    text.push(b'\n')?;
    Ok(())
}

/// Appends the lines of weights.
pub(crate) fn push_weights(text: &mut Vec<u8>, weights: &[Weight]) -> Result<(), AllocError>
    ensures { OnOk result (text.new.items ≡ text.old.items ++ flat_map weight_line weights.now) }
{
    for weight in weights {
        push_weight(text, weight)?;
    }
    Ok(())
}

// Appends the line of a weight.
fn push_weight(text: &mut Vec<u8>, weight: &Weight) -> Result<(), AllocError>
    ensures { OnOk result (text.new.items ≡ text.old.items ++ weight_line weight.now) }
{
    text.extend_from_slice(b"times ")?;
    push_number(text, weight.times)?;
    text.push(b' ')?;
    push_of(text, &weight.of)?;
    text.push(b'\n')?;
    Ok(())
}

// Appends what is weighted: a star's bound, or a row.
fn push_of(text: &mut Vec<u8>, of: &Of) -> Result<(), AllocError>
    ensures { OnOk result (text.new.items ≡ text.old.items ++ of_text of.now) }
{
    match of {
        Of::Star(star) => {
            text.extend_from_slice(b"star ")?;
            push_number(text, u64::from(*star))
        }
        Of::Row(row) => {
            text.extend_from_slice(b"row ")?;
            push_row(text, row)
        }
    }
}

// Appends a row.
fn push_row(text: &mut Vec<u8>, row: &Row) -> Result<(), AllocError>
    ensures { OnOk result (text.new.items ≡ text.old.items ++ row_text row.now) }
{
    push_coefs(text, row.coefs.as_slice())?;
    text.extend_from_slice(b">= ")?;
    push_signed(text, row.least)
}

// Appends coefficients, each with a space behind it.
fn push_coefs(text: &mut Vec<u8>, coefs: &[i64]) -> Result<(), AllocError>
    ensures { OnOk result (text.new.items ≡ text.old.items
        ++ flat_map (λ c. signed_decimal c ++ codes " ") coefs.now) }
{
    for coef in coefs {
        push_signed(text, *coef)?;
        text.push(b' ')?;
    }
    Ok(())
}

// Appends a number that may be negative.
fn push_signed(text: &mut Vec<u8>, n: i64) -> Result<(), AllocError>
    ensures { OnOk result (text.new.items ≡ text.old.items ++ signed_decimal n) }
{
    let mut buffer = Buffer::new();
    text.extend_from_slice(buffer.format(n).as_bytes())?;
    Ok(())
}
