//! Worked cases of whole runs, as data: pages of words and files, each with the status and the
//! whole text that come, or with the verdict on each question of a query, by hand. The program
//! prints how many lines of each page came as they say, and each line that did not.
//!
//! It stands beside `sqllint`, over the same crates, and is no part of it; nothing stands on it,
//! and nobody has to believe it. What it calls is proved where it stands; a case shows that the
//! proved definitions say what was meant. How a line is read is told in `case_pages`, and what its
//! words ask in `answers`.
#![tactic(auto)]

mod answers;
mod reports;
mod setting;

use answers::Runs;
use case_pages::show_page;
use std::{env, io};

fn main(rt: HostRuntime) -> io::Result<()> {
    for path in env::args(&rt)?.skip(1) {
        let mut answering = Runs::new(rt.alloc());
        show_page(&rt, &mut answering, path.as_str())?;
    }
    Ok(())
}
