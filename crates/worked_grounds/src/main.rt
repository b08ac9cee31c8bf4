//! Worked cases of grounding, as data: pages of questions with the order of their tables, their
//! row terms and their ground lists, or the cycle or the count that stands in the way, and of rows
//! with their INSERT statements, each with what comes by hand. The program prints how many lines of
//! each page came as they say, and each line that did not.
//!
//! It stands beside `sqllint`, over the same crates, and is no part of it; nothing stands on it,
//! and nobody has to believe it. What it calls is proved where it stands; a case shows that the
//! proved definitions say what was meant. How a line is read is told in `case_pages`, and what its
//! words ask in `answers`.
#![tactic(auto)]

mod answers;
mod inserts;
mod problems;
mod shown;

use answers::Grounds;
use case_pages::show_page;
use std::{env, io};

fn main(rt: HostRuntime) -> io::Result<()> {
    for path in env::args(&rt)?.skip(1) {
        let mut answering = Grounds::new();
        show_page(&rt, &mut answering, path.as_str())?;
    }
    Ok(())
}
