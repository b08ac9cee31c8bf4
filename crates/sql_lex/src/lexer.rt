//! The lexer: the tokens of a part of a text.
ghost use Rattle.std.specs.Prelude.{◌≡◌, ◌<◌, ◌≤◌, ◌^◌, length, slice_range, IfOk, IfErr};
ghost use Rattle.sql_lex.specs.inner.Lexing.{first_found};
ghost use Rattle.sql_lex.specs.Refused.{IsRefused};
ghost use Rattle.sql_lex.specs.Tokens.{Spells};

use crate::bytes::{is_digit, is_letter};
use crate::found::Found;
use crate::gaps::after_gap;
use crate::quotes::first_quoted;
use crate::signs::first_sign;
use crate::token::Token;
use crate::words::{first_number, first_word};
use lint_base::{NoMemory, Refusal, Span, TextStop};
use std::alloc::Global;

/// The token at the front of the text, or the fault in its place.
#[tactic(auto, unfolding(crate::specs::inner::Lexing::first_found))]
fn first_found(alloc: Global, text: &[u8]) -> Result<Found, NoMemory>
    requires { length text.now < 2 ^ 32 }
    ensures { IfOk result (λ found. found ≡ first_found text.now) }
{
    match text {
        [b, ..] if is_letter(*b) => first_word(alloc, text),
        [b, ..] if is_digit(*b) => Ok(first_number(text)),
        [mark @ (b'\'' | b'"'), rest @ ..] => first_quoted(alloc, *mark, rest),
        _ => Ok(first_sign(text)),
    }
}

/// The tokens of a part of a text, in order, each with its place in the whole text, by byte
/// offsets. Where the part has a lexical fault, the first from the left refuses it:
///
/// - `BadByte` at a byte that begins no token, or at the opening quote of a closed quoted token
///   that is no UTF-8 or a delimited name of no characters: one byte;
/// - `OpenQuote` at an opening quote that nothing closes before the part ends: one byte;
/// - `BigNumber` at a number above 9223372036854775807: its digits.
///
/// `NoMemory` comes where memory runs out.
pub fn lex(alloc: Global, text: &[u8], part: Span) -> Result<Vec<Token>, TextStop>
    requires order { part.from ≤ part.to }
    requires within { part.to ≤ length text.now }
    requires short { length text.now < 2 ^ 32 }
    ensures tokens { IfOk result (λ tokens. Spells part.from
        (slice_range text.now part.from part.to) tokens.items) }
    ensures few { IfOk result (λ tokens. length tokens.items ≤ length text.now) }
    ensures refused { IfErr result (λ stop. IsRefused part.from
        (slice_range text.now part.from part.to) stop) }
{
    let mut tokens = Vec::new(alloc);
    let mut rest = &text[part.from as usize..part.to as usize];
    loop {
        let inner = after_gap(rest);
        if inner.is_empty() {
            return Ok(tokens);
        }
        let from = part.to - inner.len() as u32;
        match first_found(alloc, inner)? {
            Found::Lexeme { kind, len } => {
                let to = from + len as u32;
                tokens.push(Token {
                    kind,
                    span: Span { from, to },
                })?;
                rest = &inner[len..];
            }
            Found::Flaw { fault, len } => {
                let to = from + len as u32;
                return Err(TextStop::Refused(Refusal {
                    fault,
                    span: Span { from, to },
                    count: 0,
                }));
            }
        }
    }
}
