//! The edge: the system's files as a shelf, and a writer of the system's as a sink. What a file
//! gave and what a writer took is said by the bytes that a reader of std's has left and a writer
//! of std's holds, where those are known: at any reader and any writer, so also at those in
//! memory. Of a real file and of a terminal they are not known. The shelf tells no files, since no
//! clause of std's says what an open gives.
ghost use Rattle.std.specs.Prelude.{◌≡◌, ◌<◌, ◌≤◌, ◌+◌, [], ◌++◌, length, take, Some, None, if◌then◌else◌, is_ok, IfSome, IsSome, IfOk, OnOk, MatchOption, MatchResult};
ghost use Rattle.std.specs.Io.KnownBytes.{Keeps, Appends, WriteAppends};
ghost use Rattle.lint_base.specs.Counts.{Rose};
ghost use Rattle.lint_base.specs.Shelf.{Gives, IsThere, file_at};
ghost use Rattle.sqllint.specs.Edge.{Took, TookFromOpen, IsUntold};

use crate::taken::Taken;
use lint_base::{Failed, Shelf, Sink, Trace};
use std::fs;
use std::io::{ErrorKind, Read, Write};
use std::rt::Files;

/// The system's files.
#[derive(Drop)]
pub struct HostShelf<'a, R: Files> {
    rt: &'a R,
    pub file: Option<R::File>,
    pub open_faults: u64,
    pub read_faults: u64,
    pub trace: Trace,
}

impl<'a, R: Files> HostShelf<'a, R> {
    /// No file is open, nothing was asked, and nothing failed.
    pub fn new(rt: &'a R) -> HostShelf<'a, R>
        ensures file { result.file ≡ None }
        ensures open_faults { result.open_faults ≡ 0 }
        ensures read_faults { result.read_faults ≡ 0 }
        ensures moments { result.trace.moments ≡ [] }
    {
        HostShelf {
            rt,
            file: None,
            open_faults: 0,
            read_faults: 0,
            trace: Trace::new(),
        }
    }
}

impl<R: Files> Shelf for HostShelf<'_, R> {
    ghost use Rattle.std.specs.Prelude.{None};
    ghost use Rattle.lint_base.specs.Trace.{opened_path, failed_path, given};

    ghost files = { λ _. None };

    ghost left = { λ _. None };

    ghost given = { λ s. given s.trace.moments };

    ghost failed_path = { λ s. failed_path s.trace.moments };

    ghost opened_path = { λ s. opened_path s.trace.moments };

    ghost open_faults = { λ s. s.open_faults };

    ghost read_faults = { λ s. s.read_faults };

    // The clauses of `Shelf`, and the last one.
    fn open_file(&mut self, path: &str) -> Result<(), Failed>
        ensures open_faults { MatchResult result
            (λ _. self.new.open_faults ≡ self.old.open_faults)
            (λ _. Rose self.old.open_faults self.new.open_faults) }
        ensures later { self.old.open_faults ≤ self.new.open_faults }
        ensures read_faults { self.new.read_faults ≡ self.old.read_faults }
        ensures opened_path { opened_path self.new.trace.moments
            ≡ (if is_ok result then Some path.now else opened_path self.old.trace.moments) }
        ensures failed_path { failed_path self.new.trace.moments
            ≡ (if is_ok result then failed_path self.old.trace.moments else Some path.now) }
        ensures given { given self.new.trace.moments
            ≡ (if is_ok result then 0 else given self.old.trace.moments) }
        ensures left { IsUntold (if is_ok result then file_at None path.now else None) }
        ensures there { OnOk result (IsThere None path.now) }
        ensures kept { MatchResult result (λ _. IsSome self.new.file) (λ _. self.new.file ≡ None) }
    {
        self.file = None;
        match fs::open(self.rt, path) {
            Ok(file) => {
                self.file = Some(file);
                self.trace.opened(path);
                Ok(())
            }
            Err(_) => {
                self.open_faults = self.open_faults.saturating_add(1);
                self.trace.refused(path);
                Err(Failed)
            }
        }
    }

    // The clauses of `Shelf`, and the last one.
    fn read(&mut self, into: &mut [u8]) -> Result<usize, Failed>
        ensures open_faults { self.new.open_faults ≡ self.old.open_faults }
        ensures read_faults { MatchResult result
            (λ _. self.new.read_faults ≡ self.old.read_faults)
            (λ _. Rose self.old.read_faults self.new.read_faults) }
        ensures later { self.old.read_faults ≤ self.new.read_faults }
        ensures within { IfOk result (λ n. n ≤ length into.new) }
        ensures opened_path { opened_path self.new.trace.moments
            ≡ opened_path self.old.trace.moments }
        ensures failed_path { failed_path self.new.trace.moments
            ≡ failed_path self.old.trace.moments }
        ensures given { MatchResult result
            (λ n. given self.new.trace.moments ≡ given self.old.trace.moments + n)
            (λ _. given self.new.trace.moments ≡ given self.old.trace.moments) }
        ensures left { MatchResult result (λ n. Gives None n into.new None) (λ _. IsUntold None) }
        ensures bytes { MatchResult result
            (λ n. TookFromOpen R.File.remaining self.old.file self.new.file n into.new)
            (λ _. self.new.file ≡ None) }
    {
        let given = match &mut self.file {
            Some(file) => read_once(file, into),
            None => Some(0),
        };
        match given {
            Some(count) => {
                self.trace.gave(count);
                Ok(count)
            }
            None => {
                self.file = None;
                self.read_faults = self.read_faults.saturating_add(1);
                Err(Failed)
            }
        }
    }
}

/// One read that no signal interrupts, or `None` where it fails.
#[tactic(auto, using(crate::proofs::Known::keeps_same, crate::proofs::Known::keeps_keeps, crate::proofs::Known::keeps_consumes))]
pub(crate) fn read_once<F: Read>(file: &mut F, into: &mut [u8]) -> Option<usize>
    ensures within { IfSome result (λ count. count ≤ length into.new) }
    ensures bytes { MatchOption result (Keeps (F.remaining file.old) (F.remaining file.new))
        (λ count. Took (F.remaining file.old) (F.remaining file.new) count into.new) }
{
    for _ in 0..u64::MAX {
        match file.read(into) {
            Ok(count) => return Some(count),
            Err(error) => {
                if error.kind() != ErrorKind::Interrupted {
                    return None;
                }
            }
        }
    }
    None
}

/// A writer of the system's, as standard output. Its contents are the bytes that the writer took.
#[derive(Drop)]
pub struct StdSink<W: Write + Drop> {
    pub writer: W,
    pub faults: u64,
    pub taken: Taken,
}

impl<W: Write + Drop> StdSink<W> {
    /// Nothing was written, and nothing failed.
    pub fn new(writer: W) -> StdSink<W>
        ensures writer { result.writer ≡ writer }
        ensures faults { result.faults ≡ 0 }
        ensures taken { result.taken.bytes ≡ [] }
    {
        StdSink {
            writer,
            faults: 0,
            taken: Taken::new(),
        }
    }
}

impl<W: Write + Drop> Sink for StdSink<W> {
    ghost use Rattle.std.specs.Prelude.{Some};

    ghost contents = { λ s. Some s.taken.bytes };

    ghost faults = { λ s. s.faults };

    // The clauses of `Sink`, and the last one.
    fn write(&mut self, bytes: &[u8]) -> Result<usize, Failed>
        ensures faults { MatchResult result
            (λ _. self.new.faults ≡ self.old.faults)
            (λ _. Rose self.old.faults self.new.faults) }
        ensures later { self.old.faults ≤ self.new.faults }
        ensures within { IfOk result (λ n. n ≤ length bytes.now) }
        ensures some { IfOk result (λ n. 0 < length bytes.now → 0 < n) }
        ensures taken { MatchResult result
            (λ n. self.new.taken.bytes ≡ self.old.taken.bytes ++ take n bytes.now)
            (λ _. self.new.taken.bytes ≡ self.old.taken.bytes) }
        ensures bytes { WriteAppends (W.contents self.old.writer) (W.contents self.new.writer)
            result bytes.now }
    {
        match write_once(&mut self.writer, bytes) {
            Some(count) => {
                self.taken.note(&bytes[..count]);
                Ok(count)
            }
            None => {
                self.faults = self.faults.saturating_add(1);
                Err(Failed)
            }
        }
    }
}

/// One write that no signal interrupts, or `None` where it fails or takes nothing of some bytes.
#[tactic(auto, using(crate::proofs::Known::keeps_same, crate::proofs::Known::keeps_keeps, crate::proofs::Known::keeps_appends))]
fn write_once<W: Write>(writer: &mut W, bytes: &[u8]) -> Option<usize>
    ensures within { IfSome result (λ count. count ≤ length bytes.now) }
    ensures some { IfSome result (λ count. 0 < length bytes.now → 0 < count) }
    ensures bytes { MatchOption result (Keeps (W.contents writer.old) (W.contents writer.new))
        (λ count. Appends (W.contents writer.old) (W.contents writer.new) (take count bytes.now)) }
{
    for _ in 0..u64::MAX {
        match writer.write(bytes) {
            Ok(count) => {
                if count == 0 && !bytes.is_empty() {
                    return None;
                }
                return Some(count);
            }
            Err(error) => {
                if error.kind() != ErrorKind::Interrupted {
                    return None;
                }
            }
        }
    }
    None
}
