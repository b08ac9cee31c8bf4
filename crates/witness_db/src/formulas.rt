//! Where the two rows of a needless join's entry stand in its counter sentence.
ghost use Rattle.std.specs.Prelude.{◌≡◌, ◌<◌, ◌+◌, ◌++◌, ◌∷◌, ◌^◌, [], ℕ, List, length, map, sum, MatchOption};
ghost use Rattle.sort_formula.specs.declared.formula.Formula.{Formula as Tree};
ghost use Rattle.sort_formula.specs.declared.formula.Formula.TheVariants as f;
ghost use Rattle.sort_formula.specs.Nodes.{nodes};
ghost use Rattle.sort_formula.specs.Translation.{exist_rows};

use sort_formula::{Formula, Sentence};

/// What stands inside so many quantifiers.
fn body_of(sentence: &Formula, count: usize) -> &Formula
    ensures { (tables : List ℕ) (body : Tree) → sentence.now ≡ exist_rows tables body
        → length tables ≡ count → result.now ≡ body }
{
    let mut formula = sentence;
    for _ in 0..count {
        match formula {
            Formula::Exists { body, .. } => formula = body.get(),
            _ => return formula,
        }
    }
    formula
}

/// The last part of an And or an Or.
fn last_part(formula: &Formula) -> Option<&Formula>
    ensures and { (parts : List Tree) (part : Tree) → formula.now ≡ f.And (parts ++ part ∷ [])
        → MatchOption result ⊥ (λ found. found.now ≡ part) }
    ensures or { (parts : List Tree) (part : Tree) → formula.now ≡ f.Or (parts ++ part ∷ [])
        → MatchOption result ⊥ (λ found. found.now ≡ part) }
{
    match formula {
        Formula::And(parts) | Formula::Or(parts) => parts.as_slice().last(),
        _ => None,
    }
}

/// The number of the node of the last way of the last part of what stands inside so many
/// quantifiers. Nothing stands behind that way.
pub(crate) fn last_way(sentence: &Sentence, count: usize) -> usize
    requires { nodes sentence.now < 2 ^ 32 }
    ensures number { (tables : List ℕ) (others ways : List Tree) (way : Tree)
        → sentence.now
        ≡ exist_rows tables (f.And (others ++ f.Or (ways ++ way ∷ []) ∷ []))
        → length tables ≡ count
        → result ≡ count + 2 + sum (map nodes others) + sum (map nodes ways) }
    ensures low { result < 2 ^ 32 }
{
    let body = body_of(sentence.formula(), count);
    let Some(part) = last_part(body) else {
        return 0;
    };
    match last_part(part) {
        Some(way) => {
            let all = sentence.nodes();
            let own = way.nodes();
            all.saturating_sub(own) as usize
        }
        None => 0,
    }
}
