//! Worked cases of meaning, as data: pages of conditions with their truths and their formulas, of
//! databases with their violations, and of queries with the questions that are asked of them, what
//! refutes these, and their counter sentences, each with what comes by hand. The program prints how
//! many lines of each page came as they say, and each line that did not.
//!
//! It stands beside `sqllint`, over the same crates, and is no part of it; nothing stands on it,
//! and nobody has to believe it. What it calls is proved where it stands; a case shows that the
//! proved definitions say what was meant. How a line is read is told in `case_pages`, and what its
//! words ask in `answers`.
#![tactic(auto)]

mod answers;
mod bindings;
mod counters;
mod formulas;
mod meaning;
mod notation;
mod placing;
mod questions;

use answers::Meaning;
use case_pages::show_page;
use std::{env, io};

fn main(rt: HostRuntime) -> io::Result<()> {
    let mut answering = Meaning;
    for path in env::args(&rt)?.skip(1) {
        show_page(&rt, &mut answering, path.as_str())?;
    }
    Ok(())
}
