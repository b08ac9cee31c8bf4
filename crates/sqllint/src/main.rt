//! The program `sqllint`: it gives a run the words, the system's files and standard output, and
//! ends with its status.
//!
//! The run is `lint_run::run`, whose clauses hold at every shelf and every sink, so at these.
//! `host` is the edge: which bytes a file gave and a writer took is said by what std says of a
//! reader and of a writer. Of `specs/` a reader must believe `Edge`. What a file on the disk holds
//! and what a terminal shows no clause says.
//!
//! Wrong bodies that the contracts let through: a `main` that ends with a second status in place
//! of the run's, or gives a run other words; a shelf that opens another file than the one at the
//! path, or reads bytes away as it opens it; and calls of both that fail though the system's do
//! not. The stored run and the tests show that these do none of it.
#![tactic(auto)]

mod host;
mod taken;
#[cfg(test)]
mod tests;

use host::{HostShelf, StdSink};
use lint_run::run;
use std::env;
use std::io::{self, ErrorKind};
use std::process::ExitCode;

/// The status where the system does not give the program its words.
const NO_WORDS: u8 = 8;

/// The status where there is no memory for the words.
const NO_MEMORY: u8 = 5;

fn main(rt: HostRuntime) -> ExitCode {
    let mut words = Vec::new(rt.alloc());
    match env::args(&rt) {
        Ok(args) => {
            for word in args.skip(1) {
                if words.push(word).is_err() {
                    return ExitCode::from(NO_MEMORY);
                }
            }
        }
        Err(error) => {
            return ExitCode::from(if error.kind() == ErrorKind::OutOfMemory {
                NO_MEMORY
            } else {
                NO_WORDS
            });
        }
    }
    let mut shelf = HostShelf::new(&rt);
    let mut out = StdSink::new(io::writer(&rt));
    let outcome = run(rt.alloc(), words.as_slice(), &mut shelf, &mut out);
    ExitCode::from(outcome.status)
}
