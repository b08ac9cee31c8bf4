//! A shelf and a sink in memory, which fail where they are told to.
ghost use Rattle.std.specs.Prelude.{◌≡◌, ◌⊎◌, ◌↔◌, ℕ, ◌+◌, ◌<◌, ◌≤◌, [], ◌∷◌, ◌++◌, take, drop, Some, None, if◌then◌else◌, is_ok, length, min, Contains, IsTrue, IsErr, IfOk, IfSome, OnOk, MatchResult, option_map, MatchOption, position, unwrap_or, encode_utf8_all};
ghost use Rattle.std.specs.Str.{bytes_eq};
ghost use Rattle.lint_base.specs.Counts.{one_more};
ghost use Rattle.lint_base.specs.Shelf.{Gives};
ghost use Rattle.lint_base.specs.Trace.{Opened, Refused, Gave, opened_path, failed_path, given};
ghost use Rattle.lint_base.specs.Memory.{held_at, bytes_at, IsCallLater, room, IsWriteLater};

use crate::items::Items;
use crate::place::{Failed, NoMemory};
use crate::shelf::Shelf;
use crate::sink::Sink;
use crate::text::Str;
use crate::trace::Trace;
use std::alloc::Global;
use std::marker::Model;

/// The bytes that a `MemSink` has room for: 16 MiB.
const ROOM: usize = 16_777_216;

/// A file in memory.
#[derive(Debug, Drop)]
pub struct MemFile {
    pub path: Str,
    pub bytes: Items<u8>,
}

/// A place in an open file: its index, and how many of its bytes were given.
#[derive(Clone, Copy)]
struct Place {
    file: usize,
    given: usize,
}

/// Files in memory, read in pieces.
#[derive(Drop)]
pub struct MemShelf {
    files: Items<MemFile>,
    piece: u32,
    fails: Items<u32>,
    calls: u64,
    open_faults: u64,
    read_faults: u64,
    place: Option<Place>,
    trace: Trace,
}

impl Model for MemShelf {
    ghost use Rattle.std.specs.Prelude.{◌<◌, ◌≤◌, length, drop, option_map, IfSome};
    ghost use Rattle.lint_base.specs.Memory.{MemoryShelf, bytes_at};

    ghost Value = { MemoryShelf };

    ghost view = { λ s. record {
      files = s.files;
      piece = s.piece;
      fails = s.fails;
      calls = s.calls;
      open_faults = s.open_faults;
      read_faults = s.read_faults;
      left = option_map (λ place. drop place.given (bytes_at s.files place.file)) s.place;
      moments = s.trace.moments;
    } };

    ghost invariant = { λ s. (0 < s.piece)
        × IfSome s.place (λ place. (place.file < length s.files)
        × (place.given ≤ length (bytes_at s.files place.file))) };
}

impl MemShelf {
    /// A shelf of these files, of which a path opens the first that has it. A read gives at most
    /// `piece` bytes. `fails` are the numbers of the calls that fail, opens and reads counted
    /// together from 1. It takes no memory.
    pub fn new(files: Items<MemFile>, piece: u32, fails: Items<u32>) -> MemShelf
        requires { 0 < piece }
        ensures { result ≡ record {
          files = files;
          piece = piece;
          fails = fails;
          calls = 0;
          open_faults = 0;
          read_faults = 0;
          left = None;
          moments = [];
        } }
    {
        MemShelf {
            files,
            piece,
            fails,
            calls: 0,
            open_faults: 0,
            read_faults: 0,
            place: None,
            trace: Trace::new(),
        }
    }
}

impl Shelf for MemShelf {
    ghost use Rattle.std.specs.Prelude.{Some};
    ghost use Rattle.lint_base.specs.Memory.{held_at};
    ghost use Rattle.lint_base.specs.Trace as trace;

    ghost files = { λ s. Some (held_at s.files) };

    ghost left = { λ s. s.left };

    ghost given = { λ s. trace.given s.moments };

    ghost failed_path = { λ s. trace.failed_path s.moments };

    ghost opened_path = { λ s. trace.opened_path s.moments };

    ghost open_faults = { λ s. s.open_faults };

    ghost read_faults = { λ s. s.read_faults };

    /// Opens a file. It fails exactly where this call's number is listed or no file has the path.
    fn open_file(&mut self, path: &str) -> Result<(), Failed>
        ensures call { IsCallLater self.old self.new }
        ensures fails { IsErr result ↔ (Contains self.old.fails self.new.calls
            ⊎ (held_at self.old.files path.now ≡ None)) }
        ensures open_faults { self.new.open_faults ≡ (if is_ok result then self.old.open_faults
            else one_more self.old.open_faults) }
        ensures later { self.old.open_faults ≤ self.new.open_faults }
        ensures read_faults { self.new.read_faults ≡ self.old.read_faults }
        ensures moments { self.new.moments
            ≡ (if is_ok result then Opened path.now else Refused path.now)
            ∷ self.old.moments }
        ensures left { self.new.left
            ≡ (if is_ok result then held_at self.old.files path.now else None) }
    {
        let fails = count_call(&mut self.calls, self.fails.as_slice());
        match start_of(self.files.as_slice(), path) {
            Some(start) if !fails => {
                self.place = Some(start);
                self.trace.opened(path);
                Ok(())
            }
            _ => {
                self.place = None;
                self.open_faults = self.open_faults.saturating_add(1);
                self.trace.refused(path);
                Err(Failed)
            }
        }
    }

    /// Puts as many bytes at the front of the slice as the piece, the slice and what is left of
    /// the open file allow. It fails exactly where this call's number is listed.
    fn read(&mut self, into: &mut [u8]) -> Result<usize, Failed>
        ensures call { IsCallLater self.old self.new }
        ensures fails { IsErr result ↔ Contains self.old.fails self.new.calls }
        ensures count { IfOk result (λ n. n
            ≡ min self.old.piece (min (length into.new) (length (unwrap_or self.old.left [])))) }
        ensures left { MatchResult result
            (λ n. Gives self.old.left n into.new self.new.left)
            (λ _. self.new.left ≡ None) }
        ensures open_faults { self.new.open_faults ≡ self.old.open_faults }
        ensures read_faults { self.new.read_faults ≡ (if is_ok result then self.old.read_faults
            else one_more self.old.read_faults) }
        ensures later { self.old.read_faults ≤ self.new.read_faults }
        ensures moments { MatchResult result
            (λ n. self.new.moments ≡ Gave n ∷ self.old.moments)
            (λ _. self.new.moments ≡ self.old.moments) }
    {
        if count_call(&mut self.calls, self.fails.as_slice()) {
            self.place = None;
            self.read_faults = self.read_faults.saturating_add(1);
            return Err(Failed);
        }
        let count = match &mut self.place {
            Some(place) => give(self.files.as_slice(), place, self.piece, into),
            None => 0,
        };
        self.trace.gave(count);
        Ok(count)
    }
}

/// What was written, in memory, taken in pieces.
#[derive(Drop)]
pub struct MemSink {
    written: Vec<u8>,
    piece: u32,
    fails: Items<u32>,
    writes: u64,
    faults: u64,
}

impl Model for MemSink {
    ghost use Rattle.std.specs.Prelude.{◌<◌, ◌≤◌, vec_len, vec_capacity};
    ghost use Rattle.lint_base.specs.Memory.{MemorySink, room};

    ghost Value = { MemorySink };

    ghost view = { λ s. record {
      contents = s.written.items;
      piece = s.piece;
      fails = s.fails;
      writes = s.writes;
      faults = s.faults;
    } };

    ghost invariant = { λ s. (0 < s.piece) × (vec_len s.written ≤ room) × (room ≤ vec_capacity s.written) };
}

impl MemSink {
    /// A sink that holds nothing. It takes its room of 16 MiB (16,777,216 bytes) now, and no
    /// memory later. A write takes at most `piece` bytes. `fails` are the numbers of the writes
    /// that fail, counted from 1. `NoMemory` comes where there is no such room.
    pub fn new(alloc: Global, piece: u32, fails: Items<u32>) -> Result<MemSink, NoMemory>
        requires { 0 < piece }
        ensures { IfOk result (λ sink. sink ≡ record {
          contents = [];
          piece = piece;
          fails = fails;
          writes = 0;
          faults = 0;
        }) }
    {
        Ok(MemSink {
            written: Vec::with_capacity(alloc, ROOM)?,
            piece,
            fails,
            writes: 0,
            faults: 0,
        })
    }

    /// What was written.
    pub fn written(&self) -> &[u8]
        ensures { result.now ≡ self.now.contents }
    {
        self.written.as_slice()
    }
}

impl Sink for MemSink {
    ghost use Rattle.std.specs.Prelude.{Some};

    ghost contents = { λ s. Some s.contents };

    ghost faults = { λ s. s.faults };

    /// Takes as many bytes as the piece and the slice allow. It fails exactly where this write's
    /// number is listed or the bytes don't fit the room.
    fn write(&mut self, bytes: &[u8]) -> Result<usize, Failed>
        ensures call { IsWriteLater self.old self.new }
        ensures fails { IsErr result ↔ (Contains self.old.fails self.new.writes
            ⊎ (room < length self.old.contents + min self.old.piece (length bytes.now))) }
        ensures count { IfOk result (λ n. n ≡ min self.old.piece (length bytes.now)) }
        ensures some { IfOk result (λ n. 0 < length bytes.now → 0 < n) }
        ensures faults { self.new.faults
            ≡ (if is_ok result then self.old.faults else one_more self.old.faults) }
        ensures later { self.old.faults ≤ self.new.faults }
        ensures contents { MatchResult result
            (λ n. self.new.contents ≡ self.old.contents ++ take n bytes.now)
            (λ _. self.new.contents ≡ self.old.contents) }
    {
        let count = bytes.len().min(self.piece as usize);
        let fails = count_call(&mut self.writes, self.fails.as_slice());
        if fails || count > ROOM - self.written.len() {
            self.faults = self.faults.saturating_add(1);
            return Err(Failed);
        }
        self.written.extend_from_slice(&bytes[..count]).unwrap();
        Ok(count)
    }
}

/// Counts a call, and answers whether its number is listed.
fn count_call(calls: &mut u64, fails: &[u32]) -> bool
    ensures count { calls.new ≡ one_more calls.old }
    ensures listed { IsTrue result ↔ Contains fails.now calls.new }
{
    *calls = calls.saturating_add(1);
    let call = *calls;
    fails.iter().any(|number| u64::from(*number) == call)
}

fn has_path(file: &MemFile, path: &str) -> bool
    ensures { result ≡ bytes_eq (encode_utf8_all file.now.path) path.now }
{
    file.path.as_str() == path
}

/// The index of the first file that has the path.
fn index_of(files: &[MemFile], path: &str) -> Option<usize>
    ensures { result ≡ position (λ file. bytes_eq (encode_utf8_all file.path) path.now) files.now }
{
    files.iter().position(|file| has_path(file, path))
}

/// The start of the first file that has the path.
fn start_of(files: &[MemFile], path: &str) -> Option<Place>
    ensures { MatchOption result (held_at files.now path.now ≡ None)
        (λ place. (place.file < length files.now)
        × (place.given ≡ 0)
        × (held_at files.now path.now ≡ Some (bytes_at files.now place.file))) }
{
    let file = index_of(files, path)?;
    Some(Place { file, given: 0 })
}

/// Puts the next bytes at the place at the front of the slice.
fn give(files: &[MemFile], place: &mut Place, piece: u32, into: &mut [u8]) -> usize
    requires file { place.old.file < length files.now }
    requires given { place.old.given ≤ length (bytes_at files.now place.old.file) }
    requires piece { 0 < piece }
    ensures file { place.new.file ≡ place.old.file }
    ensures given { place.new.given ≤ length (bytes_at files.now place.new.file) }
    ensures count { result
        ≡ min piece (min (length into.new)
        (length (drop place.old.given (bytes_at files.now place.old.file)))) }
    ensures gives { Gives
        (Some (drop place.old.given (bytes_at files.now place.old.file))) result into.new
        (Some (drop place.new.given (bytes_at files.now place.new.file))) }
{
    let rest = &files[place.file].bytes.as_slice()[place.given..];
    let count = rest.len().min(into.len()).min(piece as usize);
    into[..count].copy_from_slice(&rest[..count]);
    place.given += count;
    count
}
