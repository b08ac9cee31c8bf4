//! The checker of certificates: whether steps refute the counter sentence of a question. It
//! stands on no solver.
//!
//! The layer above may use `check`, of a question and a certificate, and `check_sentence`, of a
//! sentence and steps; each also over axioms of the schema that were made before. Which steps are
//! accepted, and which one is the first wrong one, is `Certificate` of `sort_formula`, with
//! `Facts`, `Rings` and `Chains`; the sentence of a question is `Counters` there. What accepted
//! steps show are the laws `accepted_sentence_fails` of `truth_laws` and
//! `question_holds_where_the_sentence_fails` of `counter_laws`. No file of `specs/` here needs to
//! be believed.
//!
//! Of wrong bodies the contracts let through only those that answer `NoMemory` though there is
//! memory, since no clause can say when memory ends: the runs of `worked_runs` show that
//! certificates are checked.
#![tactic(auto)]

mod chains;
mod checking;
mod closing;
mod facts;
mod nulls;
mod opening;
mod paths;
mod question;
mod rings;
mod run;

pub use checking::{check_sentence, check_sentence_with_axioms};
pub use question::{check, check_with_axioms};
