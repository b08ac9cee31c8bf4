//! The words of the command line: what they ask for, or that they are refused.
//!
//! The layer above uses `command_of` with what it answers. Two forms are accepted:
//!
//! - `[--budget N] [--certs] SCHEMA QUERIES` judges the queries, each question within the budget
//!   N, which is 200,000 where none is given, and writes the report or, with `--certs`, the file
//!   of the certificates;
//! - `--check CERTS SCHEMA QUERIES` checks the certificates of a file, with no other option.
//!
//! Options may stand anywhere before a word `--`, behind which every word is a file. An option and
//! its value are two words, or one with `=` between them. A lone `-` is a file, and any other word
//! that begins with `-` is an option; a value never begins with `-`. N is 1 to 10 digits that spell
//! a number from 1 to 1,000,000, and CERTS is not empty. An option that is not known or is given
//! twice is refused, and so are other than two files.
//!
//! Of `specs/` a reader must believe `Wanted`, `Said` and `CommandLine`, the grammar: that the
//! words are read by it is the law `words_are_read_by_the_grammar`, and `worked_words` has lines
//! that are known by hand. `WantedOf` is the reading as a function, and `inner` is cited by private
//! functions alone.
#![tactic(auto)]

mod given;
mod laws;
mod parts;
mod reading;
mod wanted;

pub use laws::{budgets_are_small, words_are_read_by_the_grammar, worked_words};
pub use reading::command_of;
pub use wanted::{Command, DEFAULT_BUDGET, Form, Task};
