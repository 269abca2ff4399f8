//! What a line of a script says.
ghost use Rattle.std.specs.Prelude.{◌≡◌, ◌≢◌, ◌∷◌, [], IfOk, IsErrOf, codes};
ghost use Rattle.nomos_script.specs.Form.{Form, Invocation, IsValidInvocation, TokensReadAs, HasForm, print_invocation};
ghost use Rattle.nomos_script.specs.ScriptScan.{word, tokens_of};
ghost use Rattle.nomos_script.specs.mirror.ReaderSeen.{SaysLine, Starts};

use crate::arguments::read_arguments;
use crate::item::Start;
use crate::name::ScriptName;
use crate::stop::LineStop;
use crate::tokens::{Token, Tokens};
use std::alloc::Global;

/// What a line says.
#[derive(Drop)]
pub(crate) enum Line {
    Blank,
    Deposit { name: ScriptName, units: u64 },
    Start(Start),
    Begin,
    End,
    Show,
}

// Reads what stands behind the word `deposit`.
fn read_deposit(alloc: Global, number: u32, tokens: &mut Tokens<'_>) -> Result<Line, LineStop>
    ensures read { IfOk result (λ line. SaysLine number (word (codes "deposit") ∷ tokens.old) line) }
    ensures none { IsErrOf result LineStop.NoForm → (form : Form)
        → ¬ TokensReadAs (word (codes "deposit") ∷ tokens.old) form }
{
    let name = tokens.name()?;
    let units = tokens.units()?;
    tokens.end()?;
    Ok(Line::Deposit {
        name: ScriptName::copied(alloc, name)?,
        units,
    })
}

// Reads what is started, and by whom, up to the end of the line.
fn read_start(
    alloc: Global,
    number: u32,
    contract: Option<ScriptName>,
    tokens: &mut Tokens<'_>,
) -> Result<Start, LineStop>
    ensures read { IfOk result (λ start. Starts tokens.old number contract start) }
    ensures none { IsErrOf result LineStop.NoForm → (i : Invocation) → IsValidInvocation i
        → tokens.old ≢ print_invocation i }
{
    let sender = tokens.name()?;
    let proc = tokens.name()?;
    let arguments = read_arguments(alloc, tokens)?;
    Ok(Start {
        line: number,
        sender: ScriptName::copied(alloc, sender)?,
        proc: ScriptName::copied(alloc, proc)?,
        values: arguments.values,
        names: arguments.names,
        contract,
    })
}

// Reads what stands behind the word `exec`.
fn read_exec(alloc: Global, number: u32, tokens: &mut Tokens<'_>) -> Result<Line, LineStop>
    ensures read { IfOk result (λ line. SaysLine number (word (codes "exec") ∷ tokens.old) line) }
    ensures none { IsErrOf result LineStop.NoForm → (form : Form)
        → ¬ TokensReadAs (word (codes "exec") ∷ tokens.old) form }
{
    Ok(Line::Start(read_start(alloc, number, None, tokens)?))
}

// Reads what stands behind the word `let`.
fn read_create(alloc: Global, number: u32, tokens: &mut Tokens<'_>) -> Result<Line, LineStop>
    ensures read { IfOk result (λ line. SaysLine number (word (codes "let") ∷ tokens.old) line) }
    ensures none { IsErrOf result LineStop.NoForm → (form : Form)
        → ¬ TokensReadAs (word (codes "let") ∷ tokens.old) form }
{
    let contract = tokens.name()?;
    tokens.expect(b'=')?;
    tokens.word(b"new")?;
    let contract = ScriptName::copied(alloc, contract)?;
    Ok(Line::Start(read_start(alloc, number, Some(contract), tokens)?))
}

// Reads nothing behind the word of a line that says this.
fn read_end(tokens: &mut Tokens<'_>, line: Line) -> Result<Line, LineStop>
    ensures read { IfOk result (λ said. (tokens.old ≡ []) × (said ≡ line)) }
    ensures none { IsErrOf result LineStop.NoForm → tokens.old ≢ [] }
{
    tokens.end()?;
    Ok(line)
}

// Reads what stands behind the first word of a line.
fn read_behind(
    alloc: Global,
    number: u32,
    first: &[u8],
    tokens: &mut Tokens<'_>,
) -> Result<Line, LineStop>
    ensures read { IfOk result (λ said. SaysLine number (word first.now ∷ tokens.old) said) }
    ensures none { IsErrOf result LineStop.NoForm → (form : Form) → ¬ TokensReadAs (word first.now ∷ tokens.old) form }
{
    if first == b"deposit".as_slice() {
        read_deposit(alloc, number, tokens)
    } else if first == b"let".as_slice() {
        read_create(alloc, number, tokens)
    } else if first == b"exec".as_slice() {
        read_exec(alloc, number, tokens)
    } else if first == b"begin".as_slice() {
        read_end(tokens, Line::Begin)
    } else if first == b"end".as_slice() {
        read_end(tokens, Line::End)
    } else if first == b"show".as_slice() {
        read_end(tokens, Line::Show)
    } else {
        Err(LineStop::NoForm)
    }
}

/// What the line with this number says.
pub(crate) fn read_line(alloc: Global, number: u32, line: &[u8]) -> Result<Line, LineStop>
    ensures read { IfOk result (λ said. SaysLine number (tokens_of line.now) said) }
    ensures none { IsErrOf result LineStop.NoForm → ¬ HasForm line.now }
{
    let mut tokens = Tokens::new(line);
    match tokens.next() {
        None => Ok(Line::Blank),
        Some(Token::Word(first)) => read_behind(alloc, number, first, &mut tokens),
        Some(_) => Err(LineStop::NoForm),
    }
}
