//! Sentences.
ghost use Rattle.std.specs.Prelude.{◌≡◌, true};
ghost use Rattle.sort_formula.specs.Axioms.{plain};
ghost use Rattle.sort_formula.specs.Sentences.{is_sentence};
ghost use Rattle.constraint_axioms.specs.Spoken.{spoken};

use crate::axiom::Axiom;
use sort_formula::{Formula, Sentence};

pub(crate) fn sentence_of(formula: Formula) -> Sentence
    requires { is_sentence formula ≡ true }
    ensures { result ≡ formula }
{
    match Sentence::new(formula) {
        Some(sentence) => sentence,
        None => unreachable!(),
    }
}

/// An axiom that states no foreign key.
pub(crate) fn plain(formula: Formula) -> Axiom
    requires { is_sentence formula ≡ true }
    ensures { spoken result ≡ plain formula }
{
    Axiom {
        sentence: sentence_of(formula),
        key: None,
    }
}
