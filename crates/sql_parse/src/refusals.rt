//! Why tokens are refused, and where.
ghost use Rattle.std.specs.Prelude.{◌≡◌, ◌<◌, ◌≤◌, ◌^◌, length, IfSome, IsNone};
ghost use Rattle.lint_base.specs.declared.place.Fault.TheVariants as fault;
ghost use Rattle.sql_parse.specs.Refusals.{open_after, too_deep, IsNoQuery};
ghost use Rattle.sql_parse.specs.inner.readers.Stopped.{stopped_at};

use crate::front::end_of;
use lint_base::{Fault, Refusal, Span};
use sql_lex::{Kind, Sign, Token};

/// So many tokens a query may have.
const MOST_TOKENS: usize = 4096;

/// So many parentheses may be open.
const MOST_OPEN: usize = 32;

/// How many parentheses are open behind a token, by how many are before it.
fn open_after(opened: usize, kind: &Kind) -> usize
    requires { opened ≤ 32 }
    ensures { result ≡ open_after opened kind.now }
{
    match kind {
        Kind::Sign(Sign::Open) => opened + 1,
        Kind::Sign(Sign::Close) => opened.saturating_sub(1),
        _ => opened,
    }
}

/// The place of the first token behind which too many parentheses are open.
#[tactic(auto, unfolding(crate::specs::Refusals::deep_from))]
pub(crate) fn too_deep(tokens: &[Token]) -> Option<Span>
    ensures { result ≡ too_deep tokens.now }
{
    let mut opened = 0;
    for token in tokens {
        opened = open_after(opened, &token.kind);
        if opened > MOST_OPEN {
            return Some(token.span);
        }
    }
    None
}

/// The refusal of a query of too many tokens.
pub(crate) fn too_long(tokens: &[Token]) -> Option<Refusal>
    requires { length tokens.now < 2 ^ 32 }
    ensures long { IfSome result (λ refusal. IsNoQuery tokens.now refusal) }
    ensures few { IsNone result → length tokens.now ≤ 4096 }
{
    let token = tokens.get(MOST_TOKENS)?;
    Some(Refusal {
        fault: Fault::Long,
        span: token.span,
        count: tokens.len() as u32,
    })
}

/// The refusal of parentheses that are too deep.
pub(crate) fn deep_at(span: Span) -> Refusal
    ensures { result ≡ record { fault = fault.Deep; span = span; count = 0 } }
{
    Refusal {
        fault: Fault::Deep,
        span,
        count: 0,
    }
}

/// The place of the first of the last `left` tokens, or the empty one behind the last token.
fn place_of(tokens: &[Token], left: usize) -> Span
    ensures { result ≡ stopped_at tokens.now left }
{
    match tokens.get(tokens.len().saturating_sub(left)) {
        Some(token) => token.span,
        None => {
            let end = end_of(0, tokens);
            Span { from: end, to: end }
        }
    }
}

/// The refusal of tokens whose reading stopped before the last `left` of them.
pub(crate) fn syntax_at(tokens: &[Token], left: usize) -> Refusal
    ensures { result ≡ record {
      fault = fault.Syntax;
      span = stopped_at tokens.now left;
      count = 0;
    } }
{
    Refusal {
        fault: Fault::Syntax,
        span: place_of(tokens, left),
        count: 0,
    }
}
