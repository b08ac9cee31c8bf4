//! A run of the program, over any shelf and any sink.
ghost use Rattle.std.specs.Prelude.{◌≡◌, ◌≤◌, ℕ, List, [], Option, Some, None, length, map, option_map, string_bytes, IfOk, OnOk, OnErr};
ghost use Rattle.command_words.specs.Said.{said};
ghost use Rattle.command_words.specs.Wanted.{Wanted};
ghost use Rattle.command_words.specs.WantedOf.{wanted_of};
ghost use Rattle.lint_run.specs.KeepsItsWord.{KeepsItsWord};
ghost use Rattle.lint_run.specs.Status.{status_of};
ghost use Rattle.lint_run.specs.Stops.{is_no_memory, Told, told, IsUnbegun, HasCauseFor, HasCause};
ghost use Rattle.lint_run.specs.Written.{sunk, EndsRight};

use crate::judging::{checks_for, queries_at, schema_at};
use crate::kept::runs_keep_their_word;
use crate::outcome::{Outcome, Stop};
use crate::status::status;
use crate::texts::run_text;
use command_words::{Command, command_of};
use lint_base::{Items, Shelf, Sink, WriteStop, write_text};
use lint_core::{Run, Schema};
use std::alloc::Global;

/// What the files came to, before anything is written.
#[derive(Drop)]
struct Judged {
    stop: Option<Stop>,
    run: Run,
}

fn no_schema(alloc: Global) -> Schema
    ensures { result ≡ [] }
{
    match Schema::new(Items::new(alloc)) {
        Some(schema) => schema,
        None => unreachable!(),
    }
}

/// A run that holds a schema alone, and its stop.
fn stopped(alloc: Global, schema: Schema, stop: Stop) -> Judged
    ensures stop { result.stop ≡ Some stop }
    ensures schema { result.run.schema ≡ schema }
    ensures queries { result.run.queries ≡ [] }
    ensures checks { result.run.checks ≡ [] }
{
    Judged {
        stop: Some(stop),
        run: Run {
            schema,
            queries: Items::new(alloc),
            checks: Items::new(alloc),
        },
    }
}

fn judge_files<H: Shelf>(alloc: Global, shelf: &mut H, command: Command) -> Judged
    ensures files { H.files shelf.new ≡ H.files shelf.old }
    ensures cause { HasCauseFor (H.files shelf.old) (said command.entry)
        (told H.open_faults H.read_faults H.failed_path H.opened_path H.given shelf.old)
        (told H.open_faults H.read_faults H.failed_path H.opened_path H.given shelf.new) result.run result.stop }
{
    let schema = match schema_at(alloc, shelf, command.schema) {
        Ok(schema) => schema,
        Err(stop) => return stopped(alloc, no_schema(alloc), stop),
    };
    let queries = match queries_at(alloc, shelf, command.queries, &schema, command.task) {
        Ok(queries) => queries,
        Err(stop) => return stopped(alloc, schema, stop),
    };
    match checks_for(alloc, shelf, command.task, &schema, queries.as_slice()) {
        Ok(checks) => Judged {
            stop: None,
            run: Run {
                schema,
                queries,
                checks,
            },
        },
        Err(stop) => stopped(alloc, schema, stop),
    }
}

fn judge_words<H: Shelf>(alloc: Global, shelf: &mut H, command: Option<Command>) -> Judged
    ensures files { H.files shelf.new ≡ H.files shelf.old }
    ensures cause { HasCause (H.files shelf.old) (option_map said command.entry)
        (told H.open_faults H.read_faults H.failed_path H.opened_path H.given shelf.old)
        (told H.open_faults H.read_faults H.failed_path H.opened_path H.given shelf.new) result.run result.stop }
{
    match command {
        Some(command) => judge_files(alloc, shelf, command),
        None => stopped(alloc, no_schema(alloc), Stop::WordsRefused),
    }
}

fn ended(stop: Option<Stop>, run: Run) -> Outcome
    ensures stop { result.stop ≡ stop }
    ensures run { result.run ≡ run }
    ensures status { result.status ≡ status_of stop run }
{
    Outcome {
        status: status(stop, &run),
        stop,
        run,
    }
}

fn wants_memory(stop: Option<Stop>) -> bool
    ensures { result ≡ is_no_memory stop }
{
    matches!(stop, Some(Stop::NoMemory))
}

/// Writes the text of what was judged.
fn written<K: Sink>(alloc: Global, command: Option<Command>, judged: Judged, out: &mut K) -> Outcome
    ensures ends { (files : Option (List ℕ → Option (List ℕ))) (before now : Told) →
        HasCause files (option_map said command.entry) before now judged.run judged.stop →
        EndsRight files (option_map said command.entry) before now (sunk K.faults K.contents out.old) (sunk K.faults K.contents out.new) result.run result.stop }
    ensures status { result.status ≡ status_of result.stop result.run }
{
    let Judged { stop, run } = judged;
    if wants_memory(stop) {
        return ended(stop, run);
    }
    let Ok(text) = run_text(alloc, command, stop, &run) else {
        return ended(Some(Stop::NoMemory), run);
    };
    match write_text(out, text.as_slice()) {
        Ok(()) => ended(stop, run),
        Err(WriteStop::WriteFault) => ended(Some(Stop::WriteFault), run),
    }
}

/// Reads the files that the words name, judges the queries or checks the certificates, and writes
/// the report, the certificates or the lines of the check, or the line of what ended the run early.
///
/// The words are those of `command_words`: `[--budget N] [--certs] SCHEMA QUERIES` or
/// `--check CERTS SCHEMA QUERIES`.
///
/// The stops, and when each comes:
/// - `WordsRefused`: exactly where the words are no command; nothing is read;
/// - `OpenFault`, `ReadFault`: only where the shelf's count of that fault rose, at the file that the
///   stop names;
/// - `TooLong`: exactly where the shelf gave more than 1,048,576 bytes of the schema or the
///   queries, or more than 16,777,216 of the certificates;
/// - `SchemaRefused`: exactly where the schema file's bytes, tokens or names break a rule of the
///   language;
/// - `CertsRefused`: exactly where the file of certificates is no JSON, or has not the form of one;
/// - `WriteFault`: only where the sink's count rose; it replaces the stop whose line was being
///   written;
/// - `NoMemory`: where memory ran out.
pub fn run<H: Shelf, K: Sink>(
    alloc: Global,
    words: &[String],
    shelf: &mut H,
    out: &mut K,
) -> Outcome
    ensures files { H.files shelf.new ≡ H.files shelf.old }
    // Without a stop each file was read to its end, the run is right for them, and its text was
    // written whole; a stop has its cause, and its line was written whole.
    ensures ends { EndsRight (H.files shelf.old) (wanted_of (map string_bytes words.now))
        (told H.open_faults H.read_faults H.failed_path H.opened_path H.given shelf.old)
        (told H.open_faults H.read_faults H.failed_path H.opened_path H.given shelf.new)
        (sunk K.faults K.contents out.old)
        (sunk K.faults K.contents out.new) result.run result.stop }
    // With a stop or without, each answer keeps its word: an `always` holds in every database that
    // meets the schema, and the checker accepts its certificate; a `not always` has databases that
    // meet the schema, in which the question fails; and a question that is decidable gets one of
    // the two. So does each line that says a certificate is accepted.
    ensures word { KeepsItsWord (wanted_of (map string_bytes words.now)) result.run }
    ensures status { result.status ≡ status_of result.stop result.run }
{
    let command = command_of(words);
    let judged = judge_words(alloc, shelf, command);
    let outcome = written(alloc, command, judged, out);
    // its clause says that these tables are a schema
    let _tables = outcome.run.schema.tables();
    runs_keep_their_word();
    outcome
}
