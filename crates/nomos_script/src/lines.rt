//! The lines of a text, one by one.
ghost use Rattle.std.specs.Prelude.{◌≡◌, ◌+◌, ◌<◌, ◌≤◌, ◌∷◌, length};
ghost use Rattle.std.specs.List.{prefix_len};
ghost use Rattle.nomos_script.specs.Lines.{is_line_byte, lines_of};
ghost use Rattle.nomos_script.specs.mirror.ReaderSeen.{without_return};

use crate::bytes::is_line_byte;

/// How many bytes stand before the line feed.
fn line_length(text: &[u8]) -> usize
    ensures value { result ≡ prefix_len is_line_byte text.now }
    ensures within { result ≤ length text.now }
{
    text.iter().take_while(|byte| is_line_byte(**byte)).count()
}

/// A line that ended with a line feed, without the carriage return at its end.
fn without_return(line: &[u8]) -> &[u8]
    ensures { result.now ≡ without_return line.now }
{
    match line {
        [front @ .., last] => { if *last == b'\r' { front } else { line } }
        [] => line,
    }
}

/// The first line of a text that is not empty, and what comes after its line feed.
pub(crate) fn split_line(text: &[u8]) -> (&[u8], &[u8])
    requires { 0 < length text.now }
    ensures lines { lines_of text.now ≡ result.0.now ∷ lines_of result.1.now }
    ensures shorter { length result.1.now < length text.now }
{
    let length = line_length(text);
    if length == text.len() {
        return (text, &[]);
    }
    (without_return(&text[..length]), &text[length + 1..])
}
