//! The summary that `bench` prints.

ghost use Rattle.std.specs.Prelude.{◌≡◌, ◌++◌, codes, OnOk};
ghost use Rattle.std.specs.Option.{option_map};
ghost use Rattle.nomos_base.specs.Gas.{gas_text};
ghost use Rattle.nomos_words.specs.Summary.{best_line, counted_line, summary_text};

use crate::counted::push_counted;
use nomos_base::push_gas;
use nomos_ir::value::Value;
use nomos_printing::value_texts::push_value;
use std::alloc::AllocError;

/// What is told of a load: from which seed and for how many bidders it was made, how many entries the journal has, the
/// firings of the batches that were committed, and the gas spent, in Dths, of which a unit has so many.
#[derive(Clone, Copy, PartialEq, Eq, Debug)]
pub struct Figures {
    pub seed: u64,
    pub bidders: u32,
    pub entries: u64,
    pub firings: u64,
    pub spent: u128,
    pub unit: u32,
}

/// Appends the lines of a load, and the best bid, if there is one (docs/TEXTS.md, "The load of `bench`"). Where memory
/// runs out, a part of them may stand there.
pub fn push_summary(
    text: &mut Vec<u8>,
    figures: &Figures,
    best: Option<&Value>,
) -> Result<(), AllocError>
    ensures { OnOk result (text.new.items
        ≡ text.old.items ++ summary_text figures.now (option_map (λ value. value.now) best.entry)) }
{
    push_counted(text, b"bench ", figures.seed)?;
    push_counted_line(text, b" ", u64::from(figures.bidders))?;
    push_counted_line(text, b"entries ", figures.entries)?;
    push_counted_line(text, b"firings ", figures.firings)?;
    push_spent(text, figures.spent, figures.unit)?;
    push_best(text, best)
}

// Appends a line of a word and a number.
fn push_counted_line(text: &mut Vec<u8>, word: &[u8], count: u64) -> Result<(), AllocError>
    ensures { OnOk result (text.new.items ≡ text.old.items ++ counted_line word.now count) }
{
    push_counted(text, word, count)?;
    text.push(b'\n')?;
    Ok(())
}

// Appends the line of the gas spent.
fn push_spent(text: &mut Vec<u8>, dths: u128, unit: u32) -> Result<(), AllocError>
    ensures { OnOk result (text.new.items ≡ text.old.items ++ (codes "spent " ++ gas_text dths unit ++ codes "\n")) }
{
    text.extend_from_slice(b"spent ")?;
    push_gas(text, dths, unit)?;
    text.push(b'\n')?;
    Ok(())
}

// Appends the line of the best bid, if there is one.
fn push_best(text: &mut Vec<u8>, best: Option<&Value>) -> Result<(), AllocError>
    ensures { OnOk result (text.new.items ≡ text.old.items ++ best_line (option_map (λ value. value.now) best.entry)) }
{
    if let Some(value) = best {
        text.extend_from_slice(b"best ")?;
        push_value(text, value)?;
        text.push(b'\n')?;
    }
    Ok(())
}
