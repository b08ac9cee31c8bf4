//! What the answers to the questions of a query promise, in the words of the program's purpose. The
//! functions do nothing: their contracts are laws about the definitions in `specs/`.
//!
//! `right_answers_keep_their_word`: of right answers each `always` means of the query's answer what
//! `AlwaysMeans` says, in every database that meets the schema, and the checker's definition accepts
//! its certificate; each `not always` has databases that meet the schema, in which the question
//! fails; and a question that is put gets one of the two where the tables of whose rows its sentences
//! ask have an order, no limit is passed, and the cases are not more than the budget.
//!
//! `questions_of_the_class_are_decided`: such a question, alone or among all of a query, is
//! answered by a verdict, or has more counted cases than the budget; and `budgets_suffice`: it has
//! not where the budget is at least the number of its counted cases, which of g clauses is at most
//! g + 1 times the product of their numbers of ways.
//!
//! The layer above uses the first law. Of `specs/` a reader must believe `Headline` and
//! `Completeness`.
#![tactic(auto)]

mod completeness;
mod laws;

pub use completeness::{budgets_suffice, questions_of_the_class_are_decided};
pub use laws::right_answers_keep_their_word;
