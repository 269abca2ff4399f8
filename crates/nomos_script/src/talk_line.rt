//! What a line of a talk says.
ghost use Rattle.std.specs.Prelude.{◌≡◌, ◌≢◌, ◌∷◌, [], IfOk, IsErrOf, codes};
ghost use Rattle.nomos_script.specs.ScriptScan.{tokens_of, word};
ghost use Rattle.nomos_script.specs.TalkForm.{TalkForm, TalkTokensReadAs, HasTalkForm};
ghost use Rattle.nomos_script.specs.mirror.TalkSaying.{SaysTalkLine};

use crate::name::ScriptName;
use crate::stop::LineStop;
use crate::tokens::{Token, Tokens};
use crate::value_reader::read_single_value;
use nomos_ir::items::Items;
use nomos_ir::value::Value;
use std::alloc::Global;

/// What a line of a talk says: that a label or a value is said, that what the type of the channel asks for is paid, or
/// that the party listens.
#[derive(Drop, Debug)]
pub enum TalkLine {
    Label(ScriptName),
    Value(Value),
    Pay,
    Hear,
}

/// The lines of a talk that say something, in order of text, each with its number, counted from 1.
pub type TalkLines = Items<(u32, TalkLine)>;

// Reads what stands behind the word `label`.
fn read_label(alloc: Global, tokens: &mut Tokens<'_>) -> Result<Option<TalkLine>, LineStop>
    ensures read { IfOk result (λ said. SaysTalkLine (word (codes "label") ∷ tokens.old) said) }
    ensures none { IsErrOf result LineStop.NoForm → (form : TalkForm)
        → ¬ TalkTokensReadAs (word (codes "label") ∷ tokens.old) form }
{
    let name = tokens.name()?;
    tokens.end()?;
    Ok(Some(TalkLine::Label(ScriptName::copied(alloc, name)?)))
}

// Reads what stands behind the word `value`.
fn read_value(alloc: Global, tokens: &mut Tokens<'_>) -> Result<Option<TalkLine>, LineStop>
    ensures read { IfOk result (λ said. SaysTalkLine (word (codes "value") ∷ tokens.old) said) }
    ensures none { IsErrOf result LineStop.NoForm → (form : TalkForm)
        → ¬ TalkTokensReadAs (word (codes "value") ∷ tokens.old) form }
{
    Ok(Some(TalkLine::Value(read_single_value(alloc, tokens)?)))
}

// Reads nothing behind the word of a line that says this.
fn read_no_more(tokens: &mut Tokens<'_>, said: TalkLine) -> Result<Option<TalkLine>, LineStop>
    ensures read { IfOk result (λ found. (tokens.old ≡ []) × (found ≡ Some said)) }
    ensures none { IsErrOf result LineStop.NoForm → tokens.old ≢ [] }
{
    tokens.end()?;
    Ok(Some(said))
}

// Reads what stands behind the first word of a line.
fn read_behind(
    alloc: Global,
    first: &[u8],
    tokens: &mut Tokens<'_>,
) -> Result<Option<TalkLine>, LineStop>
    ensures read { IfOk result (λ said. SaysTalkLine (word first.now ∷ tokens.old) said) }
    ensures none { IsErrOf result LineStop.NoForm → (form : TalkForm)
        → ¬ TalkTokensReadAs (word first.now ∷ tokens.old) form }
{
    if first == b"label".as_slice() {
        read_label(alloc, tokens)
    } else if first == b"value".as_slice() {
        read_value(alloc, tokens)
    } else if first == b"pay".as_slice() {
        read_no_more(tokens, TalkLine::Pay)
    } else if first == b"hear".as_slice() {
        read_no_more(tokens, TalkLine::Hear)
    } else {
        Err(LineStop::NoForm)
    }
}

/// What a line of a talk says, if it says something.
pub(crate) fn read_talk_line(alloc: Global, line: &[u8]) -> Result<Option<TalkLine>, LineStop>
    ensures read { IfOk result (λ said. SaysTalkLine (tokens_of line.now) said) }
    ensures none { IsErrOf result LineStop.NoForm → ¬ HasTalkForm line.now }
{
    let mut tokens = Tokens::new(line);
    match tokens.next() {
        None => Ok(None),
        Some(Token::Word(first)) => read_behind(alloc, first, &mut tokens),
        Some(_) => Err(LineStop::NoForm),
    }
}
