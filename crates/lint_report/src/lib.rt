//! The report of a run as text, and the lines of a check.
//!
//! The layer above uses `report_text`, the report of a whole run, `query_text`, the part of one
//! query, and `checks_text`, the lines of a check; `is_finding`, which answers are findings; and
//! `push_refusal`, which adds a refusal to a text. Each writes exactly what `specs/` says, of
//! every run: what an answer names and is not there has no text. `docs/REPORT.md` shows it.
//!
//! A reader must believe `specs/Text`, with `RefusalText`, `StepText`, `QuestionPlaces` and
//! `Finding` beside it, and `InsertText` and `InsertOrder` in `insert_lines`; `worked_texts` has
//! texts of each verdict and each question that are known by hand. `specs/inner` is cited by
//! private functions alone.
//!
//! Of wrong bodies the contracts let through those that answer `NoMemory` though there is memory,
//! since no clause can say when memory ends: the runs of `worked_runs` show that there are texts, but
//! of `query_text`, which no run calls.
#![tactic(auto)]

mod answers;
mod checks;
mod findings;
mod laws;
mod listing;
mod points;
mod pushing;
mod queries;
mod questions;
mod refusals;
mod steps;

pub use checks::checks_text;
pub use findings::is_finding;
pub use laws::{worked_checks, worked_codes, worked_places, worked_texts, worked_verdicts};
pub use queries::{query_text, report_text};
pub use refusals::push_refusal;
