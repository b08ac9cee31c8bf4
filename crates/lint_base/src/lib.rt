//! What every other crate stands on: places in a text, refusals, lists and texts as contracts see
//! them, and the two edges of the program, a shelf that files are read from and a sink that text
//! is written to, each with one in memory that fails where it is told to.
//!
//! The layer above may use every public item. Of `specs/` a reader must believe nothing to follow
//! `Items` and `Str`: an `Items` is the list of its items and a `Str` the list of its characters.
//! `Counts` says when a count of faults has risen, `Shelf` and `Sink` what a read gives and a
//! write adds, `Trace` what follows from what was asked and given, and `Memory` what the shelf and
//! the sink in memory hold.
//!
//! A `Trace` holds only what its owner wrote into it; nothing proves that a file gave it.
//!
//! Of `proofs/`, crates above may cite `Lists`: lemmas on lists and tests.
//!
//! Wrong bodies that the contracts let through: those that answer that memory ran out though there
//! is some, since no clause can say when memory ends (the runs of the program show that lists,
//! texts and files are made); a `read_file` that asks the shelf once more after the end of the
//! file, or for pieces of fewer than 4,096 bytes; and a `write_text` that writes once more after a
//! fault.
#![tactic(auto)]

mod items;
mod memory;
mod place;
mod read;
mod shelf;
mod sink;
mod stops;
mod text;
mod trace;

pub use items::Items;
pub use memory::{MemFile, MemShelf, MemSink};
pub use place::{Failed, Fault, NoMemory, Refusal, Span, TextStop};
pub use read::read_file;
pub use shelf::Shelf;
pub use sink::{Sink, write_text};
pub use stops::{ReadStop, WriteStop};
pub use text::Str;
pub use trace::Trace;
