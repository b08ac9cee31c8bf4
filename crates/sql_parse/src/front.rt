//! Reading from the front of a list of tokens.
ghost use Rattle.std.specs.Prelude.{◌≡◌};
ghost use Rattle.sql_parse.specs.grammar.Words.{span_of, end_of};
ghost use Rattle.sql_parse.specs.inner.readers.Tokens.{at_head, place_before};
ghost use Rattle.sql_parse.specs.inner.readers.Gives.{is_mark, GivesToken, GivesMaybe};

use lint_base::{NoMemory, Span};
use sql_lex::{Kind, Sign, Token};
use std::alloc::AllocError;

/// Why tokens were not read.
#[derive(Debug, Drop)]
pub(crate) enum ParseStop {
    /// The tokens are not of the form; so many were left where the reading stopped.
    Syntax(usize),
    NoMemory,
}

impl From<NoMemory> for ParseStop {
    ghost use Rattle.std.specs.Prelude.{◌≡◌};
    ghost use Rattle.sql_parse.specs.declared.front.ParseStop.TheVariants as stop;

    ghost from_gives = { λ _ e. e ≡ stop.NoMemory };

    fn from(_error: NoMemory) -> ParseStop {
        ParseStop::NoMemory
    }
}

impl From<AllocError> for ParseStop {
    ghost use Rattle.std.specs.Prelude.{◌≡◌};
    ghost use Rattle.sql_parse.specs.declared.front.ParseStop.TheVariants as stop;

    ghost from_gives = { λ _ e. e ≡ stop.NoMemory };

    fn from(_error: AllocError) -> ParseStop {
        ParseStop::NoMemory
    }
}

/// What stands at the front of tokens.
#[derive(Clone, Copy)]
pub(crate) enum Mark {
    /// A reserved word, by its place in the list.
    Word(u16),
    Open,
    Close,
    Comma,
    Dot,
    Star,
    Semicolon,
    /// + or -
    Plus,
    /// Any name.
    Name,
}

/// How far a condition may go on: without subqueries where `flat`, and to this depth.
#[derive(Clone, Copy)]
pub(crate) struct Nesting {
    pub flat: bool,
    pub depth: usize,
}

/// Whether `mark` names tokens of this kind.
#[tactic(auto, unfolding(crate::specs::inner::readers::Tokens::is_word, crate::specs::inner::readers::Tokens::is_open, crate::specs::inner::readers::Tokens::is_close, crate::specs::inner::readers::Tokens::is_comma, crate::specs::inner::readers::Tokens::is_dot, crate::specs::inner::readers::Tokens::is_star, crate::specs::inner::readers::Tokens::is_semicolon, crate::specs::inner::readers::Tokens::is_plus, crate::specs::inner::readers::Tokens::is_name))]
pub(crate) fn is(kind: &Kind, mark: Mark) -> bool
    ensures { result ≡ is_mark mark kind.now }
{
    match mark {
        Mark::Word(place) => matches!(kind, Kind::Reserved(own) if *own == place),
        Mark::Open => matches!(kind, Kind::Sign(Sign::Open)),
        Mark::Close => matches!(kind, Kind::Sign(Sign::Close)),
        Mark::Comma => matches!(kind, Kind::Sign(Sign::Comma)),
        Mark::Dot => matches!(kind, Kind::Sign(Sign::Dot)),
        Mark::Star => matches!(kind, Kind::Sign(Sign::Star)),
        Mark::Semicolon => matches!(kind, Kind::Sign(Sign::Semicolon)),
        Mark::Plus => matches!(kind, Kind::Sign(Sign::Plus | Sign::Minus)),
        Mark::Name => matches!(kind, Kind::Name { .. }),
    }
}

/// Whether the first token is so.
#[tactic(auto, unfolding(crate::specs::inner::readers::Tokens::at_head))]
pub(crate) fn at(tokens: &[Token], mark: Mark) -> bool
    ensures { result ≡ at_head (is_mark mark) tokens.now }
{
    match tokens.first() {
        Some(token) => is(&token.kind, mark),
        None => false,
    }
}

/// A first token that is so, and those after it.
#[tactic(auto, unfolding(crate::specs::inner::readers::Tokens::at_head, crate::specs::inner::readers::Tokens::expect))]
pub(crate) fn next(tokens: &[Token], mark: Mark) -> Option<(&Token, &[Token])>
    ensures { GivesMaybe (is_mark mark) tokens.now result }
{
    match tokens.split_first() {
        Some((token, rest)) if is(&token.kind, mark) => Some((token, rest)),
        _ => None,
    }
}

/// The same, where nothing else can be.
#[tactic(auto, unfolding(crate::specs::inner::readers::Tokens::at_head, crate::specs::inner::readers::Tokens::expect))]
pub(crate) fn expect(tokens: &[Token], mark: Mark) -> Result<(&Token, &[Token]), ParseStop>
    ensures { GivesToken (is_mark mark) tokens.now result }
{
    match tokens.split_first() {
        Some((token, rest)) if is(&token.kind, mark) => Ok((token, rest)),
        _ => Err(ParseStop::Syntax(tokens.len())),
    }
}

/// Where the last of the tokens ends.
#[tactic(auto, using(crate::proofs::Ends::end_rules))]
pub(crate) fn end_of(from: u32, tokens: &[Token]) -> u32
    ensures { result ≡ end_of from tokens.now }
{
    match tokens.split_last() {
        Some((last, _)) => last.span.to,
        None => from,
    }
}

/// From the first token to the last.
pub(crate) fn span_of(tokens: &[Token]) -> Span
    ensures { result ≡ span_of tokens.now }
{
    match tokens.split_first() {
        Some((first, others)) => Span {
            from: first.span.from,
            to: end_of(first.span.to, others),
        },
        None => Span { from: 0, to: 0 },
    }
}

/// The place of the tokens before the rest.
#[tactic(auto, unfolding(crate::specs::inner::readers::Tokens::place_before))]
pub(crate) fn place_before(tokens: &[Token], rest: &[Token]) -> Span
    ensures { result ≡ place_before tokens.now rest.now }
{
    let count = tokens.len().saturating_sub(rest.len());
    span_of(&tokens[..count])
}
