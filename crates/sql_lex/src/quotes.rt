//! Quoted tokens.
ghost use Rattle.std.specs.Prelude.{◌≡◌, ◌<◌, ◌^◌, length, true, false, None, IfOk, IfSome, MatchOption, option_map};
ghost use Rattle.sql_lex.specs.inner.Lexing.{with_front, unquoted, closed_found, quoted_found};

use crate::found::{Found, bad_byte};
use crate::token::Kind;
use lint_base::{Fault, NoMemory, Str};
use memchr::memchr;
use std::alloc::Global;

/// What stands before the first such mark, and what behind it.
fn split_at_mark(mark: u8, text: &[u8]) -> Option<(&[u8], &[u8])>
    ensures parts { MatchOption result (unquoted mark false text.now ≡ None)
        (λ x. unquoted mark false text.now ≡ with_front x.0.now (unquoted mark true x.1.now)) }
    ensures within { IfSome result (λ x. length x.1.now < length text.now) }
{
    match memchr(mark, text) {
        Some(place) => Some((&text[..place], &text[place + 1..])),
        None => None,
    }
}

/// What a quote holds, with two of its marks read as one, and what stands behind it. `None` where
/// it is not closed.
fn unquoted(alloc: Global, mark: u8, text: &[u8]) -> Result<Option<(Vec<u8>, &[u8])>, NoMemory>
    ensures held { IfOk result (λ found. option_map (λ x. (x.0.items, x.1.now)) found
        ≡ unquoted mark false text.now) }
    ensures within { IfOk result (λ found. IfSome found (λ x. length x.1.now < length text.now)) }
{
    let mut bytes = Vec::new(alloc);
    let mut rest = text;
    while let Some((piece, behind)) = split_at_mark(mark, rest) {
        bytes.extend_from_slice(piece)?;
        match behind {
            [next, more @ ..] if *next == mark => {
                bytes.push(mark)?;
                rest = more;
            }
            _ => return Ok(Some((bytes, behind))),
        }
    }
    Ok(None)
}

/// The token of a quote, of which this text stands after the opening mark.
pub(crate) fn first_quoted(alloc: Global, mark: u8, rest: &[u8]) -> Result<Found, NoMemory>
    requires { length rest.now < 2 ^ 32 }
    ensures { IfOk result (λ found. found ≡ quoted_found mark rest.now) }
{
    let Some((bytes, behind)) = unquoted(alloc, mark, rest)? else {
        return Ok(Found::Flaw {
            fault: Fault::OpenQuote,
            len: 1,
        });
    };
    closed(alloc, mark, bytes.as_slice(), rest.len() - behind.len() + 1)
}

/// The token of a quote that is closed.
fn closed(alloc: Global, mark: u8, bytes: &[u8], len: usize) -> Result<Found, NoMemory>
    ensures { IfOk result (λ found. found ≡ closed_found mark bytes.now len) }
{
    let Ok(inner) = str::from_utf8(bytes) else {
        return Ok(bad_byte());
    };
    if mark == b'\'' {
        let text = Str::from_str(alloc, inner)?;
        Ok(Found::Lexeme {
            kind: Kind::Text(text),
            len,
        })
    } else if bytes.is_empty() {
        Ok(bad_byte())
    } else {
        let text = Str::from_str(alloc, inner)?;
        Ok(Found::Lexeme {
            kind: Kind::Name { text, quoted: true },
            len,
        })
    }
}
