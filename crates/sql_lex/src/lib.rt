//! From the bytes of a query file to its pieces, and from a piece to its tokens.
//!
//! The layer above may use every public item. Of `specs/` a reader must believe `Classes`,
//! `Pieces` and `Rest` (how a file falls into pieces, and which are still to come), `Within`
//! (where they lie), `Bytes`, `Gaps` and `Tokens` (how a piece is spelled), `Faults` and `Refused`
//! (which refusal comes first). `specs/inner` only retells the code.
//!
//! Of wrong bodies the contracts let through only those that answer `NoMemory` though there is
//! memory, since no clause can say when memory ends, and private ones that answer of an empty
//! text, or of the byte 0, at once what the real one answers there: the cases of
//! `worked_reading` show that texts are read.
#![tactic(auto)]

mod bytes;
mod classes;
mod found;
mod gaps;
mod lexer;
mod pieces;
mod quotes;
mod signs;
mod split;
mod token;
mod words;

pub use lexer::lex;
pub use pieces::Pieces;
pub use split::split_queries;
pub use token::{Kind, Sign, Token};
