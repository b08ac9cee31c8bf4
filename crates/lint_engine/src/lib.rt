//! The engine: what is answered of the questions of a query, with a certificate of what holds
//! always, and with a database where it does not.
//!
//! `ask` judges one question, over the databases in which the scalar subqueries asked of before
//! give at most one row: it makes the counter sentence and the axioms (`sentences`), their order,
//! row terms and ground list (`problem`), and searches its cases (`asking`). A closed tree gives
//! the certificate, the first full case the database. `ask_all` judges all questions of a query in
//! their order (`asking_all`): a question is blocked or moot exactly where the answers before it
//! say so (`earlier`), a constant column is asked of with its value in E1's database (`values`).
//!
//! `ask_sentence` judges an Or of sentences in place of a question (`settling`, `parts`): whether a
//! part of it can hold in a database that meets the schema.
//!
//! The layer above may use these calls, and cite the laws. Of `specs/` a reader must believe
//! `JudgedBy` (which sentences, rows and clauses a question is judged by), `Limits` (how much is
//! judged), `Asking` (which answers to one question are right), `Earlier` (what earlier answers
//! decide of a later question), `AskingAll` (which answers to all questions are right) and
//! `Settled` (which answers to an Or of sentences are right).
//! `specs/inner` is cited by private clauses alone.
//!
//! Of wrong bodies the contracts let through only those that answer `NoMemory` though there is
//! memory, since no clause can say when memory ends.
#![tactic(auto)]

mod asking;
mod asking_all;
mod earlier;
mod laws;
mod parts;
mod problem;
mod sentences;
mod settling;
mod values;

pub use asking::ask;
pub use asking_all::ask_all;
pub use laws::{
    accepted_questions_hold, causes_are_exact, constant_columns_have_a_value,
    databases_of_the_schema_fit, earlier_questions_hold, loose_points_refute, right_answers_go_on,
    worked_earlier_answers,
};
pub use settling::{Settled, ask_sentence};
