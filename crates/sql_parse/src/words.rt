//! Words that are not reserved, as KEY and INTEGER: names that are recognised in their place.
ghost use Rattle.std.specs.Prelude.{◌≡◌};
ghost use Rattle.std.specs.Str.{bytes_eq, chars};
ghost use Rattle.sql_parse.specs.inner.readers.Tokens.{is_called};
ghost use Rattle.sql_parse.specs.inner.readers.Gives.{GivesToken, GivesMaybe};

use crate::front::ParseStop;
use lint_base::Str;
use sql_lex::{Kind, Token};

fn is_text(text: &Str, word: &str) -> bool
    ensures { result ≡ bytes_eq text.now (chars word.now) }
{
    text.as_str() == word
}

/// Whether it is this word, without quotes.
#[tactic(auto, unfolding(crate::specs::inner::readers::Tokens::is_called))]
pub(crate) fn is_called(kind: &Kind, word: &str) -> bool
    ensures { result ≡ is_called (chars word.now) kind.now }
{
    match kind {
        Kind::Name { text, quoted } => !*quoted && is_text(text, word),
        _ => false,
    }
}

/// A first token that is this word, and those after it.
#[tactic(auto, unfolding(crate::specs::inner::readers::Tokens::at_head, crate::specs::inner::readers::Tokens::expect))]
pub(crate) fn next_called<'a>(tokens: &'a [Token], word: &str) -> Option<(&'a Token, &'a [Token])>
    ensures { GivesMaybe (is_called (chars word.now)) tokens.now result }
{
    match tokens.split_first() {
        Some((token, rest)) if is_called(&token.kind, word) => Some((token, rest)),
        _ => None,
    }
}

/// The same, where nothing else can be.
#[tactic(auto, unfolding(crate::specs::inner::readers::Tokens::expect))]
pub(crate) fn expect_called<'a>(
    tokens: &'a [Token],
    word: &str,
) -> Result<(&'a Token, &'a [Token]), ParseStop>
    ensures { GivesToken (is_called (chars word.now)) tokens.now result }
{
    match tokens.split_first() {
        Some((token, rest)) if is_called(&token.kind, word) => Ok((token, rest)),
        _ => Err(ParseStop::Syntax(tokens.len())),
    }
}
