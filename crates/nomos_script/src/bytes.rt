//! The classes of bytes.
ghost use Rattle.std.specs.Prelude.{◌≡◌};
ghost use Rattle.nomos_script.specs.ScriptScan.{is_blank};
ghost use Rattle.nomos_script.specs.Lines.{is_line_byte};

/// Whether the byte may stand between the tokens of a line.
pub(crate) fn is_blank(byte: u8) -> bool
    ensures { result ≡ is_blank byte }
{
    byte == b' ' || byte == b'\t'
}

/// Whether the byte goes on with a line.
pub(crate) fn is_line_byte(byte: u8) -> bool
    ensures { result ≡ is_line_byte byte }
{
    byte != b'\n'
}
