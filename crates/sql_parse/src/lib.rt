//! The parsers: from the tokens of a schema or of a query to the tree that they have.
//!
//! The layer above may use `parse_schema` and `parse_query`. Of `specs/` a reader must believe the
//! grammar, `specs/grammar`, and `Refusals` (which tokens are read, and why others are refused).
//! `specs/inner/readers` only retells the code: `proofs/` shows that what it reads is in the
//! grammar (`Sound`), and that what is in the grammar is read (`Complete`).
//!
//! The next token always decides, and no token is read twice: a parser is linear in its tokens.
//! The place of a Syntax refusal is that of the token at which the parser stopped; no clause says
//! yet which one it is.
//!
//! Of wrong bodies the contracts let through only those that answer `NoMemory` though there is
//! memory, also private ones that take none, since no clause can say when memory ends: the cases
//! of `worked_reading` show that texts are read.
#![tactic(auto)]

mod front;
mod items;
mod lists;
mod orders;
mod predicates;
mod queries;
mod refusals;
mod reserved;
mod schemas;
mod selects;
mod tables;
mod terms;
mod words;

pub use queries::parse_query;
pub use schemas::parse_schema;
