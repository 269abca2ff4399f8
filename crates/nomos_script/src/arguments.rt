//! The arguments of a line: values and names in parentheses.
ghost use Rattle.std.specs.Prelude.{◌≡◌, ◌≢◌, ◌∷◌, ◌++◌, [], ℕ, List, All, IfOk, OnOk, IsErrOf, codes, if◌then◌else◌};
ghost use Rattle.nomos_ir.specs.Value.{Value};
ghost use Rattle.nomos_script.specs.Form.{print_more_names};
ghost use Rattle.nomos_script.specs.ScriptNames.{IsScriptName};
ghost use Rattle.nomos_script.specs.ScriptScan.{Token as Lexeme, word, mark};
ghost use Rattle.nomos_script.specs.mirror.ReaderSeen.{AreNames, AreMoreNames, AreArguments};

use crate::growing::put;
use crate::name::{ScriptName, ScriptNames, is_script_name};
use crate::stop::LineStop;
use crate::tokens::{Token, Tokens};
use crate::value_reader::read_values;
use nomos_ir::items::Items;
use nomos_ir::value::Values;
use std::alloc::{AllocError, Global};

/// The arguments of a line.
#[derive(Drop)]
pub(crate) struct LineArguments {
    pub(crate) values: Values,
    pub(crate) names: ScriptNames,
}

// Puts a name of its own at the end.
fn push_name(alloc: Global, names: &mut Vec<ScriptName>, text: &[u8]) -> Result<(), AllocError>
    requires { IsScriptName text.now }
    ensures { OnOk result (names.new.items ≡ names.old.items ++ text.now ∷ []) }
{
    put(names, 2, ScriptName::copied(alloc, text)?)
}

// Takes a comma, or the `)` behind names. Whether it is a comma.
fn takes_comma(tokens: &mut Tokens<'_>) -> Result<bool, LineStop>
    ensures read { IfOk result (λ comma. tokens.old ≡ mark (if comma then codes "," else codes ")") ∷ tokens.new) }
    ensures none { IsErrOf result LineStop.NoForm → (rest : List Lexeme)
        → (tokens.old ≢ mark (codes ",") ∷ rest) × (tokens.old ≢ mark (codes ")") ∷ rest) }
{
    if tokens.takes_close(b',') {
        return Ok(true);
    }
    match tokens.next() {
        Some(Token::Mark(b',')) => Ok(true),
        Some(Token::Mark(b')')) => Ok(false),
        _ => Err(LineStop::NoForm),
    }
}

// Takes a comma with the name behind it, for as long as one is next, and the `)` behind them.
fn read_more_names(
    alloc: Global,
    tokens: &mut Tokens<'_>,
    names: &mut Vec<ScriptName>,
) -> Result<(), LineStop>
    ensures read { OnOk result (AreMoreNames tokens.old (mark (codes ")") ∷ tokens.new) names.old.items
        names.new.items) }
    ensures none { IsErrOf result LineStop.NoForm → (more : List (List ℕ)) (rest : List Lexeme) → All IsScriptName more
        → tokens.old ≢ print_more_names more (mark (codes ")") ∷ rest) }
{
    'names: while takes_comma(tokens)? {
        push_name(alloc, names, tokens.name()?)?;
    }
    Ok(())
}

// Takes names with commas between them, and the `)` behind them.
fn read_names(alloc: Global, tokens: &mut Tokens<'_>) -> Result<ScriptNames, LineStop>
    ensures read { IfOk result (λ names. AreNames tokens.old names tokens.new) }
    ensures none { IsErrOf result LineStop.NoForm → (names : List (List ℕ)) (rest : List Lexeme)
        → ¬ AreNames tokens.old names rest }
{
    let mut names = Vec::new(alloc);
    if tokens.takes_close(b')') {
        return Ok(Items::of_vec(names));
    }
    match tokens.next() {
        Some(Token::Mark(b')')) => {}
        Some(Token::Word(text)) if is_script_name(text) => {
            push_name(alloc, &mut names, text)?;
            read_more_names(alloc, tokens, &mut names)?;
        }
        _ => return Err(LineStop::NoForm),
    }
    Ok(Items::of_vec(names))
}

/// Takes the arguments, which have to be the last of the line.
pub(crate) fn read_arguments(
    alloc: Global,
    tokens: &mut Tokens<'_>,
) -> Result<LineArguments, LineStop>
    ensures read { IfOk result (λ a. AreArguments tokens.old a.values a.names) }
    ensures none { IsErrOf result LineStop.NoForm → (values : List Value) (names : List (List ℕ))
        → ¬ AreArguments tokens.old values names }
{
    tokens.expect(b'(')?;
    let values = read_values(alloc, tokens)?;
    let names = read_names(alloc, tokens)?;
    tokens.end()?;
    Ok(LineArguments { values, names })
}
