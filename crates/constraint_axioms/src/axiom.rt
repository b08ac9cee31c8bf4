//! A constraint of a schema as a sentence.
use lint_core::KeyName;
use sort_formula::Sentence;

/// A sentence that holds in each database that meets the schema, and the foreign key that it
/// states, if it states one.
#[derive(Drop)]
pub struct Axiom {
    pub sentence: Sentence,
    pub key: Option<KeyName>,
}
