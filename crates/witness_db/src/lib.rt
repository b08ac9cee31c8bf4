//! The database that a full case of a problem makes, with the points at which a question fails
//! there, and what holds in it.
//!
//! `rows_placed` makes the database, with the place of each row term. `build` makes it of a problem
//! whose first sentence is the counter sentence of a question, with points that refute the
//! question. These are the places of the row terms that the sentence's leading Exists ask for: its
//! nodes 0, 1 and so on, which stand under no Forall. For a needless join the body asks for two
//! rows of the entry more; `formulas` finds the node of the first of them, and where that has no
//! row, no row of the entry fits.
//!
//! The laws: every sentence of the problem holds in that database
//! (`full_case_satisfies_sentences`), and so does, at the places of its row terms, each formula
//! whose clause is taken (`taken_clauses_hold`). Its values are of the schema's domains
//! (`databases_are_of_domains`), so where the schema's axioms are among the sentences it meets the
//! schema (`full_case_meets_schema`). Where the first sentence is an Or, one of its parts is chosen,
//! and it holds at the rows for which its leading Exists ask (`chosen_part_holds`). The layer above
//! may use the two calls, and cite the laws.
//!
//! `insert_text` is that of `insert_lines`.
//!
//! Of full cases a reader must believe `Keys`, `Ground` and `Cases` in the specs of `instantiate`
//! (what a problem is, and which database a full case of one makes), and for the formulas whose
//! clauses are taken also `Hanging` there (what stands at a clause); `Choices` and `Cases` in
//! `case_split`; `Assignments` and `Judgeable` in `ground_theory`; `Preorder`, `Graph` and `Terms`
//! in `sorted_skolem`; `Holds`, `Placed` and `Sentences` in `sort_formula`. For what is said of the
//! schema also `Meets` and `DatabaseFits` in `lint_core` and `Axioms` in `sort_formula`. Of the
//! parts of an Or `specs/Parts`. Of points `specs/Leading` with `Plain` in `instantiate` (whose they
//! are), `Counters`, `CounterPoints` and `Loose` in `sort_formula`, and `Asked` and `Question` in
//! `lint_core`. `specs/inner` is cited by private clauses alone.
#![tactic(auto)]

mod building;
mod formulas;
mod laws;
mod placing;
mod points;
mod rows;

pub use building::build;
pub use insert_lines::insert_text;
pub use laws::{
    chosen_part_holds, databases_are_of_domains, full_case_meets_schema,
    full_case_satisfies_sentences, taken_clauses_hold,
};
pub use rows::{Placed, rows_placed};
