//! Places in a text, and why a text is refused.
use std::alloc::{AllocError, AllocFailed};

/// A part of a file, by byte offsets in the whole file: from the first byte to behind the last.
#[derive(Clone, Copy, Debug, PartialEq, Eq)]
pub struct Span {
    pub from: u32,
    pub to: u32,
}

/// Memory ran out.
#[derive(Clone, Copy, Debug, PartialEq, Eq)]
pub struct NoMemory;

/// A call of a shelf or of a sink failed. Its count of faults has risen.
#[derive(Clone, Copy, Debug, PartialEq, Eq)]
pub struct Failed;

/// Why a text is refused, by the number and the name that reports print.
#[derive(Clone, Copy, Debug, PartialEq, Eq)]
pub enum Fault {
    /// 1: a byte that begins no token, a quoted token that is no UTF-8, or a delimited name of no
    /// characters.
    BadByte,
    /// 2: a quote that is not closed.
    OpenQuote,
    /// 3: a number above 9223372036854775807.
    BigNumber,
    /// 11: a query has too many tokens.
    Long,
    /// 12: too many parentheses are open.
    Deep,
    /// 13: the tokens are no statement.
    Syntax,
    /// 21: no table has the name.
    UnknownTable,
    /// 22: no column has the name.
    UnknownColumn,
    /// 23: more than one column has the name.
    AmbiguousColumn,
    /// 24: the name is taken.
    DuplicateName,
    /// 25: the kinds of the values do not go together.
    TypeMismatch,
    /// 26: the columns that a foreign key refers to are no key.
    NotAKey,
    /// 27: there are too many of a kind.
    TooMany,
    /// 28: a subquery has not one column.
    OneColumnNeeded,
    /// 29: a length is out of its range.
    BadLength,
}

/// A fault and its place. `count` is 0 but for `Long` and `TooMany`.
#[derive(Clone, Copy, Debug, PartialEq, Eq)]
pub struct Refusal {
    pub fault: Fault,
    pub span: Span,
    pub count: u32,
}

/// Why a text was not read.
#[derive(Clone, Copy, Debug, PartialEq, Eq)]
pub enum TextStop {
    Refused(Refusal),
    NoMemory,
}

impl From<AllocError> for NoMemory {
    fn from(_error: AllocError) -> NoMemory {
        NoMemory
    }
}

impl<T: Drop> From<AllocFailed<T>> for NoMemory {
    fn from(_error: AllocFailed<T>) -> NoMemory {
        NoMemory
    }
}

impl From<AllocError> for TextStop {
    ghost use Rattle.std.specs.Prelude.{◌≡◌};
    ghost use Rattle.lint_base.specs.declared.place.TextStop.TheVariants as stop;

    ghost from_gives = { λ _ e. e ≡ stop.NoMemory };

    fn from(_error: AllocError) -> TextStop {
        TextStop::NoMemory
    }
}

impl From<NoMemory> for TextStop {
    ghost use Rattle.std.specs.Prelude.{◌≡◌};
    ghost use Rattle.lint_base.specs.declared.place.TextStop.TheVariants as stop;

    ghost from_gives = { λ _ e. e ≡ stop.NoMemory };

    fn from(_error: NoMemory) -> TextStop {
        TextStop::NoMemory
    }
}

impl<T: Drop> From<AllocFailed<T>> for TextStop {
    ghost use Rattle.std.specs.Prelude.{◌≡◌};
    ghost use Rattle.lint_base.specs.declared.place.TextStop.TheVariants as stop;

    ghost from_gives = { λ _ e. e ≡ stop.NoMemory };

    fn from(_error: AllocFailed<T>) -> TextStop {
        TextStop::NoMemory
    }
}
