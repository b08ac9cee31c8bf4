//! What the trees of a schema and of a query bind to, or the first rule that they break: names are
//! resolved to numbers, `*` and BETWEEN are written out, and the kinds of what is compared are
//! checked.
//!
//! The layer above may use `bind_schema` and `bind_query`. Of `specs/` a reader must believe
//! `Names` and `Terms` (what a name means, ISO/IEC 9075:1992, 6.4), `Conditions`, `Selects` and
//! `Queries` (what a query binds to, and in which order its parts are looked at), `Columns`,
//! `Keys` and `Schemas` (the same of a schema), and `Shape` (what the grammar gives to every
//! tree). `Bound` says what a call answers: the bound form, or the refusal of the first rule that
//! is broken, unless memory ran out.
//!
//! Of wrong bodies the contracts let through only those that answer `NoMemory` though there is
//! memory, since no clause can say when memory ends: the cases of `worked_reading` show that
//! trees are bound.
#![tactic(auto)]

mod bound;
mod columns;
mod conditions;
mod foreign;
mod keys;
mod levels;
mod lists;
mod names;
mod outlines;
mod predicates;
mod queries;
mod schemas;
mod selects;
mod terms;

pub use queries::bind_query;
pub use schemas::bind_schema;
