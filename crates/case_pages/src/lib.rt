//! Pages of worked cases: each line of a page asks something of a text and says, by hand, what
//! comes. A program whose pages ask words of its own gives what answers to them (`Answering`), and
//! shows how many lines of each page came as they say, and each line that did not (`show_page`).
//! What several of them name in a text is read and written here: questions, values, databases and
//! atoms.
//!
//! The programs on it (`worked_reading`, `worked_meaning` and their like) stand beside `sqllint`,
//! over the same crates, and are no part of it. They may use every public item. Nobody has to
//! believe this crate: what it promises is that it is safe and ends. `pages` tells how a line is
//! read.
#![tactic(auto)]

mod asking;
mod atoms;
mod pages;
mod showing;
mod texts;
mod values;

pub use asking::{named, push_question, question};
pub use atoms::push_atom;
pub use pages::{Answering, Page};
pub use showing::show_page;
pub use texts::{TEXT_LIMIT, said, shown_stop};
pub use values::{database, value};
