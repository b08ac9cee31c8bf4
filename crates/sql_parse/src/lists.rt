//! Parts with a mark between them.
ghost use Rattle.std.specs.Prelude.{◌≡◌, ◌<◌, List, length, IfOk};
ghost use Rattle.std.specs.Borrow.{Bor};
ghost use Rattle.sql_lex.specs.declared.token.Token.{Token as Tokens};
ghost use Rattle.sql_parse.specs.inner.readers.Tokens.{Read, read_separated};
ghost use Rattle.sql_parse.specs.inner.readers.Gives.{Gives, is_mark};
ghost use Rattle.sql_parse.specs.inner.readers.Separated.{Shorter, TakesTokens, AlwaysGives};

use crate::front::{Mark, ParseStop, next};
use lint_base::Items;
use sql_lex::Token;
use std::alloc::Global;

/// A part, and more of them as long as the mark comes after one.
#[tactic(auto, using(crate::proofs::Separated::separated_rules))]
pub(crate) fn separated<'a, T: Drop, F: Fn(&'a [Token]) -> Result<(T, &'a [Token]), ParseStop>>(
    alloc: Global,
    tokens: &'a [Token],
    mark: Mark,
    part: F,
) -> Result<(Items<T>, &'a [Token]), ParseStop>
    requires callable { F.IsAlwaysCallable part }
    requires shorter { TakesTokens (F.post part) }
    ensures { (read : List Tokens → Read T) → Shorter read → AlwaysGives (F.post part) read →
        Gives (read_separated (is_mark mark) read tokens.now) result }
{
    let (first, mut rest) = part(tokens)?;
    let mut parts = Items::new(alloc);
    parts.push(first)?;
    while let Some((_, after)) = next(rest, mark) {
        let (other, after) = part(after)?;
        parts.push(other)?;
        rest = after;
    }
    Ok((parts, rest))
}
