//! What a program prints of a page.
use crate::pages::{Answering, judged};
use std::fs;
use std::io::{self, ErrorKind};
use std::rt::Files;

/// Prints each line of the page at this path that came otherwise than it says, with what came, and
/// then how many lines came as they say. A fault of the file or of what is printed to is handed
/// on; `OutOfMemory` where there is no memory for the page or its answers.
pub fn show_page<R: Files + Print + AllocGlobal, A: Answering>(
    rt: &R,
    answering: &mut A,
    path: &str,
) -> io::Result<()> {
    let text = fs::read_to_string(rt, path)?;
    let Ok(found) = judged(rt.alloc(), answering, text.as_str()) else {
        return Err(io::Error::from(ErrorKind::OutOfMemory));
    };
    print!(rt; "{}", found.wrong.as_str())?;
    println!(rt; "{path}: {} lines as they say", found.right)?;
    Ok(())
}
