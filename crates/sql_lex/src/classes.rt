//! What stands at the front of a query file's rest: a comment, a quote, or one byte.
ghost use Rattle.std.specs.Prelude.{ℕ, ◌≡◌, ◌+◌, ◌-◌, ◌≤◌, ◌<◌, true, false, List, Option, Some, length, drop, slice_index};
ghost use Rattle.std.specs.List.{list_all};
ghost use Rattle.lint_base.specs.declared.place.Span.{Span};
ghost use Rattle.sql_lex.specs.Bytes.{is_white, is_quote};
ghost use Rattle.sql_lex.specs.Classes.{Nothing, Comment, Quote, classes};
ghost use Rattle.sql_lex.specs.inner.Runs.{to_come, after_run};
ghost use Rattle.sql_lex.specs.inner.Seen.{class_seen};

use crate::bytes::is_white;
use memchr::memchr;

/// What a run of bytes is to the parts between semicolons.
#[derive(Clone, Copy)]
pub(crate) enum Class {
    Blank,
    Solid,
    Separator,
}

/// Bytes that are read at once: how many, and what they are.
#[derive(Clone, Copy)]
pub(crate) struct Run {
    pub(crate) class: Class,
    pub(crate) len: usize,
}

/// How many bytes a comment has behind its dashes, with the end of its line.
fn comment_len(text: &[u8]) -> usize
    ensures to_come { (solid : Option Span) (at : ℕ) → to_come solid at (classes Comment text.now)
        ≡ to_come solid (at + result) (classes Nothing (drop result text.now)) }
    ensures within { result ≤ length text.now }
{
    match memchr(b'\n', text) {
        Some(at) => at + 1,
        None => text.len(),
    }
}

/// How many bytes the text has without the white space at its end.
fn dark_len(text: &[u8]) -> usize
    ensures white { list_all is_white (drop result text.now) ≡ true }
    ensures dark { 0 < result → is_white (slice_index text.now (result - 1)) ≡ false }
    ensures within { result ≤ length text.now }
{
    let mut dark = text;
    loop {
        match dark {
            [before @ .., last] if is_white(*last) => dark = before,
            _ => return dark.len(),
        }
    }
}

/// How many bytes a quote has behind its opening mark: up to the next such mark or, where none
/// comes, without the white space at the end of the text.
fn quote_len(mark: u8, text: &[u8]) -> usize
    requires { is_quote mark ≡ true }
    ensures to_come { (from at : ℕ) → to_come (Some (record { from = from; to = at })) at
        (classes (Quote mark) text.now)
        ≡ to_come (Some (record { from = from; to = at + result })) (at + result)
        (classes Nothing (drop result text.now)) }
    ensures within { result ≤ length text.now }
{
    match memchr(mark, text) {
        Some(at) => at + 1,
        None => dark_len(text),
    }
}

/// The run at the front of the text, which begins outside quotes and comments.
pub(crate) fn first_run(text: &[u8]) -> Run
    requires { 0 < length text.now }
    ensures to_come { (solid : Option Span) (at : ℕ) → to_come solid at (classes Nothing text.now)
        ≡ after_run (class_seen result.class) result.len solid at (drop result.len text.now) }
    ensures some { 0 < result.len }
    ensures within { result.len ≤ length text.now }
{
    match text {
        [b'-', b'-', comment @ ..] => Run {
            class: Class::Blank,
            len: 2 + comment_len(comment),
        },
        [b';', ..] => Run {
            class: Class::Separator,
            len: 1,
        },
        [mark @ (b'\'' | b'"'), quote @ ..] => Run {
            class: Class::Solid,
            len: 1 + quote_len(*mark, quote),
        },
        [b, ..] if is_white(*b) => Run {
            class: Class::Blank,
            len: 1,
        },
        _ => Run {
            class: Class::Solid,
            len: 1,
        },
    }
}
