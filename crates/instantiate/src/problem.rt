//! Problems.
use ground_theory::{Clause, Frame};
use lint_base::Items;
use sort_formula::Sentence;
use sorted_skolem::{Order, Rows};

/// Sentences, their row terms and their ground list. `numbers` has the number of each sentence
/// among the facts with which a certificate starts, and behind these how many facts those are.
#[derive(Drop)]
pub struct Problem {
    pub sentences: Items<Sentence>,
    pub numbers: Items<u32>,
    pub order: Order,
    pub rows: Rows,
    pub clauses: Items<Clause>,
    pub frame: Frame,
}
