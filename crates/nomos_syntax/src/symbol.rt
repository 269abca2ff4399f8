//! The symbols of a contract text.

/// A symbol, of one byte or of two.
#[derive(Clone, Copy, PartialEq, Eq, Debug)]
pub enum Symbol {
    /// `(`
    OpenParen,
    /// `)`
    CloseParen,
    /// `{`
    OpenBrace,
    /// `}`
    CloseBrace,
    /// `,`
    Comma,
    /// `;`
    Semicolon,
    /// `:`
    Colon,
    /// `.`
    Dot,
    /// `=`
    Equals,
    /// `+`
    Plus,
    /// `-`
    Minus,
    /// `*`
    Star,
    /// `/`
    Slash,
    /// `%`
    Percent,
    /// `<`
    Less,
    /// `>`
    Greater,
    /// `|`
    Bar,
    /// `&`
    Ampersand,
    /// `->`
    Arrow,
    /// `=>`
    FatArrow,
    /// `::`
    DoubleColon,
    /// `/\`
    Wedge,
    /// `-o`, where no letter, digit or `_` follows
    Lollipop,
}
