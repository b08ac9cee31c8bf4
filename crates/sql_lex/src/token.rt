//! Tokens.
use lint_base::{Span, Str};
use lint_tables::Op;

/// A sign.
#[derive(Clone, Copy, Debug, PartialEq, Eq)]
pub enum Sign {
    Open,
    Close,
    Comma,
    Dot,
    Semicolon,
    Star,
    Plus,
    Minus,
    Compare(Op),
}

/// What a token is.
#[derive(Debug, Drop)]
pub enum Kind {
    /// A name: of a word in upper case, or, quoted, as it stands between its quotes.
    Name { text: Str, quoted: bool },
    /// A reserved word, by its place in the list.
    Reserved(u16),
    /// A text, as it stands between its quotes.
    Text(Str),
    /// A number without a sign.
    Number(i64),
    Sign(Sign),
}

/// A token and its place in the file.
#[derive(Debug, Drop)]
pub struct Token {
    pub kind: Kind,
    pub span: Span,
}
