//! Names and terms.
use lint_base::{Span, Str};

/// A name, with its place.
#[derive(Debug, Drop)]
pub struct NameTree {
    pub text: Str,
    pub span: Span,
}

/// A column or a literal.
#[derive(Debug, Drop)]
pub enum TermTree {
    /// `[table .] name [+ n]`. `plus` is 0 where nothing is added. The place runs from the first
    /// to the last token, what is added included.
    Column {
        table: Option<NameTree>,
        name: NameTree,
        plus: i64,
        span: Span,
    },
    Number {
        value: i64,
        span: Span,
    },
    Text {
        text: Str,
        span: Span,
    },
    Null {
        span: Span,
    },
}
