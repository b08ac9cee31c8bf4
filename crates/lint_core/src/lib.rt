//! What sqllint speaks about: schemas, queries, databases, questions and their answers, and the
//! definitions of what they mean.
//!
//! The layer above may use every public item. Of `specs/` a reader must believe `Schema` and
//! `Fits` with `Levels` (which schemas and queries there are), `Domain`, `Database`, `Meets`,
//! `Truth`, `Comparison`, `Evaluation`, `Condition` and `QueryAnswer` (what SQL means), `Asked`
//! with `Parts`, `Conjuncts`, `Predicates`, `Subqueries` and `Naming` (which questions are asked),
//! `Points`, `Forms` and `Question` (when they fail), `DatabaseFits` (which databases a call
//! takes), `PlainWord` (which names stand in a query without quotes). What they say in the
//! subject's own words, and by small examples, stands in the crates `meaning_laws` and
//! `worked_laws`.
//!
//! Of wrong bodies the contracts let through only copies that answer `NoMemory` though there is
//! memory, since no clause can say when memory ends: the cases of `worked_meaning` show that
//! copies are made.
#![tactic(auto)]

mod asked;
mod certificate;
mod condition;
mod copies;
mod counts;
mod database;
mod database_fits;
mod fits;
mod naming;
mod query;
mod run;
mod schema;
mod scope;

pub use certificate::{Cert, SameEdge, Step, SumEdge, TextEdge};
pub use condition::{Block, Cond, Entry, Term};
pub use database::{Binding, Counter, Database, KeyName, Points, Row, Truth, Value, Violation};
pub use query::{Item, Query, Question};
pub use run::{Answer, CheckRun, Checked, QueryResult, QueryRun, Run};
pub use schema::{Column, Domain, ForeignKey, Key, Kind, Schema, Table, Unit};
pub use scope::{Levels, Scope, number_at};
