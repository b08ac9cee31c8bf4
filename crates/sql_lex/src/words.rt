//! Words and numbers.
ghost use Rattle.std.specs.Prelude.{◌≡◌, ◌∷◌, [], ◌≤◌, not, length, map, take, position, IfOk};
ghost use Rattle.lint_tables.specs.Words.{upper};
ghost use Rattle.sql_lex.specs.Bytes.{is_digit, goes_on_word, decimal_value};
ghost use Rattle.sql_lex.specs.inner.Lexing.{front_len, word_found, within_limit, number_found};

use crate::bytes::{goes_on_word, is_digit, upper};
use crate::found::Found;
use crate::token::Kind;
use lint_base::{Fault, NoMemory, Str};
use lint_tables::RESERVED;
use std::alloc::Global;

fn word_end(text: &[u8]) -> Option<usize>
    ensures { result ≡ position (λ b. not (goes_on_word b)) text.now }
{
    text.iter().position(|b| !goes_on_word(*b))
}

fn digits_end(text: &[u8]) -> Option<usize>
    ensures { result ≡ position (λ b. not (is_digit b)) text.now }
{
    text.iter().position(|b| !is_digit(*b))
}

#[tactic(auto, using(crate::proofs::LexFront::word_rules))]
fn word_len(text: &[u8]) -> usize
    ensures count { result ≡ front_len goes_on_word text.now }
    ensures within { result ≤ length text.now }
{
    word_end(text).unwrap_or(text.len())
}

#[tactic(auto, using(crate::proofs::LexFront::word_rules))]
fn digits_len(text: &[u8]) -> usize
    ensures count { result ≡ front_len is_digit text.now }
    ensures within { result ≤ length text.now }
{
    digits_end(text).unwrap_or(text.len())
}

fn upper_case(alloc: Global, word: &[u8]) -> Result<Str, NoMemory>
    ensures { IfOk result (λ s. s ≡ map upper word.now) }
{
    let mut text = String::new(alloc);
    for b in word {
        text.push(char::from(upper(*b)))?;
    }
    Str::from_str(alloc, text.as_str())
}

/// The word at the front of the text.
pub(crate) fn first_word(alloc: Global, text: &[u8]) -> Result<Found, NoMemory>
    ensures { IfOk result (λ found. found ≡ word_found
        (take (front_len goes_on_word text.now) text.now)) }
{
    let word = &text[..word_len(text)];
    let kind = match RESERVED.find(word) {
        Some(place) => Kind::Reserved(place as u16),
        None => Kind::Name {
            text: upper_case(alloc, word)?,
            quoted: false,
        },
    };
    Ok(Found::Lexeme {
        kind,
        len: word.len(),
    })
}

/// The number with a digit more.
fn more(value: u64, digit: u8) -> Option<u64>
    ensures { result ≡ within_limit (decimal_value value (digit ∷ [])) }
{
    let next = value
        .checked_mul(10)?
        .checked_add(u64::from(digit.saturating_sub(b'0')))?;
    (next <= 9_223_372_036_854_775_807).then_some(next)
}

/// The number that the digits spell, if it is at most 9223372036854775807.
fn number_of(digits: &[u8]) -> Option<u64>
    ensures { result ≡ within_limit (decimal_value 0 digits.now) }
{
    let mut value = 0u64;
    for b in digits {
        let Some(next) = more(value, *b) else {
            return None;
        };
        value = next;
    }
    Some(value)
}

/// The number at the front of the text.
pub(crate) fn first_number(text: &[u8]) -> Found
    ensures { result ≡ number_found (take (front_len is_digit text.now) text.now) }
{
    let digits = &text[..digits_len(text)];
    match number_of(digits) {
        Some(value) => Found::Lexeme {
            kind: Kind::Number(value as i64),
            len: digits.len(),
        },
        None => Found::Flaw {
            fault: Fault::BigNumber,
            len: digits.len(),
        },
    }
}
