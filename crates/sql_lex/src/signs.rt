//! Signs.
ghost use Rattle.std.specs.Prelude.{◌≡◌};
ghost use Rattle.sql_lex.specs.inner.Lexing.{sign_found, less_found, greater_found, not_found, sign_at};

use crate::found::{Found, bad_byte};
use crate::token::{Kind, Sign};
use lint_tables::Op;

fn sign(sign: Sign, len: usize) -> Found
    ensures { result ≡ sign_found sign len }
{
    Found::Lexeme {
        kind: Kind::Sign(sign),
        len,
    }
}

/// The sign at the front of the text.
pub(crate) fn first_sign(text: &[u8]) -> Found
    ensures { result ≡ sign_at text.now }
{
    match text {
        [b'(', ..] => sign(Sign::Open, 1),
        [b')', ..] => sign(Sign::Close, 1),
        [b',', ..] => sign(Sign::Comma, 1),
        [b'.', ..] => sign(Sign::Dot, 1),
        [b';', ..] => sign(Sign::Semicolon, 1),
        [b'*', ..] => sign(Sign::Star, 1),
        [b'+', ..] => sign(Sign::Plus, 1),
        [b'-', ..] => sign(Sign::Minus, 1),
        [b'=', ..] => sign(Sign::Compare(Op::Eq), 1),
        [b'<', rest @ ..] => after_less(rest),
        [b'>', rest @ ..] => after_greater(rest),
        [b'!', rest @ ..] => after_not(rest),
        _ => bad_byte(),
    }
}

fn after_less(rest: &[u8]) -> Found
    ensures { result ≡ less_found rest.now }
{
    match rest {
        [b'=', ..] => sign(Sign::Compare(Op::Le), 2),
        [b'>', ..] => sign(Sign::Compare(Op::Ne), 2),
        _ => sign(Sign::Compare(Op::Lt), 1),
    }
}

fn after_greater(rest: &[u8]) -> Found
    ensures { result ≡ greater_found rest.now }
{
    match rest {
        [b'=', ..] => sign(Sign::Compare(Op::Ge), 2),
        _ => sign(Sign::Compare(Op::Gt), 1),
    }
}

fn after_not(rest: &[u8]) -> Found
    ensures { result ≡ not_found rest.now }
{
    match rest {
        [b'=', ..] => sign(Sign::Compare(Op::Ne), 2),
        _ => bad_byte(),
    }
}
