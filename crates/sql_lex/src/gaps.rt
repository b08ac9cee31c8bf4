//! What stands between tokens.
ghost use Rattle.std.specs.Prelude.{◌≡◌, ◌≤◌, length, true, false};
ghost use Rattle.sql_lex.specs.inner.Lexing.{after_gap};

use crate::bytes::is_white;
use memchr::memchr;

/// What is left behind the end of a comment's line.
fn after_line(text: &[u8]) -> &[u8]
    ensures rest { after_gap false result.now ≡ after_gap true text.now }
    ensures within { length result.now ≤ length text.now }
{
    match memchr(b'\n', text) {
        Some(at) => &text[at + 1..],
        None => &[],
    }
}

/// What is left behind white space and comments.
pub(crate) fn after_gap(text: &[u8]) -> &[u8]
    ensures rest { result.now ≡ after_gap false text.now }
    ensures within { length result.now ≤ length text.now }
{
    let mut rest = text;
    loop {
        match rest {
            [b'-', b'-', comment @ ..] => rest = after_line(comment),
            [b, behind @ ..] if is_white(*b) => rest = behind,
            _ => return rest,
        }
    }
}
