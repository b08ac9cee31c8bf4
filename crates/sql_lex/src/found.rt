//! What a text begins with.
ghost use Rattle.std.specs.Prelude.{◌≡◌};
ghost use Rattle.sql_lex.specs.inner.Lexing.{bad_byte};

use crate::token::Kind;
use lint_base::Fault;

/// A token's kind, or a fault, and how many bytes it has.
#[derive(Drop)]
pub(crate) enum Found {
    Lexeme { kind: Kind, len: usize },
    Flaw { fault: Fault, len: usize },
}

pub(crate) fn bad_byte() -> Found
    ensures { result ≡ bad_byte }
{
    Found::Flaw {
        fault: Fault::BadByte,
        len: 1,
    }
}
