//! Facts that two texts are the same or are not, and the answer to a list of them.
ghost use Rattle.std.specs.Prelude.{◌≡◌, ℕ, List, Option};
ghost use Rattle.text_classes.specs.declared.facts.TextFact.{TextFact};
ghost use Rattle.text_classes.specs.Texts.{Satisfies};
ghost use Rattle.text_classes.specs.Paths.{IsPath};

use lint_base::{Items, Str};

/// A variable, by its number, or a text.
#[derive(Debug, Drop)]
pub enum TextEnd {
    Var(u32),
    Text(Str),
}

/// The two texts are the same, or are not.
#[derive(Debug, Drop)]
pub struct TextFact {
    pub left: TextEnd,
    pub right: TextEnd,
    pub equal: bool,
}

/// The answer to a list of facts.
#[derive(Debug, Drop)]
pub enum Classed {
    /// The class of each variable, and the text of each class. All facts hold of these texts.
    Labels {
        labels: Items<u32>,
        texts: Items<Str>,
    },
    /// The numbers of equal facts that lead from the left side of the unequal fact `last` to its
    /// right side, or from a text to another.
    Path {
        last: Option<u32>,
        facts: Items<u32>,
    },
}

/// Where there is a path, no texts of the variables satisfy the facts.
pub fn path_excludes_texts()
    ensures { (facts : List TextFact) (last : Option ℕ) (path : List ℕ) (texts : ℕ → List ℕ) →
        IsPath facts last path → Satisfies texts facts → ⊥ }
{}
