//! From the files to what is answered of the queries, or to what their certificates come to.
ghost use Rattle.std.specs.Prelude.{◌≡◌, ◌<◌, ◌≤◌, ◌^◌, ℕ, List, [], ◌∷◌, Some, length, true, IfOk, OnOk, IfErr, MatchResult};
ghost use Rattle.cert_checks.specs.Named.{AreRead};
ghost use Rattle.command_words.specs.Said.{asked_by};
ghost use Rattle.lint_core.specs.Fits.{query_fits};
ghost use Rattle.sql_lex.specs.Within.{IsWithin};
ghost use Rattle.lint_run.specs.RightRun.{AreAnswers, IsRightResult, AreRightQueries};
ghost use Rattle.lint_run.specs.inner.Judging.{stop_of, AreChecksFor, AreChecksOf, IsAnsweredRun, StopsBehind};
ghost use Rattle.lint_run.specs.Stops.{StopsAtSchema, StopsAtQueries, StopsAtCerts, told, IsSchemaRead, AreQueriesRead, AreCertsRead};

use crate::outcome::{Stop, Which};
use cert_checks::check_all;
use cert_format::{CertFault, read_certs};
use command_words::Task;
use error_reductions::questions;
use lint_base::{Items, NoMemory, ReadStop, Shelf, Span, TextStop, read_file};
use lint_core::{Answer, Cert, CheckRun, Query, QueryResult, QueryRun, Schema};
use lint_engine::ask_all;
use sql_lex::split_queries;
use sql_reading::{read_query, read_schema};
use std::alloc::Global;

/// The most bytes that a file of schema or queries may have.
pub const TEXT_LIMIT: u32 = 1_048_576;

/// The most bytes that a file of certificates may have.
pub const CERTS_LIMIT: u32 = 16_777_216;

/// The answers to the questions of a query, where it is to be judged.
fn answers_of(
    alloc: Global,
    schema: &Schema,
    query: &Query,
    number: u32,
    task: Task,
) -> Result<Items<Answer>, NoMemory>
    requires fits { query_fits schema.now query.now ≡ true }
    ensures { IfOk result (AreAnswers (asked_by task.entry) schema.now number query.now) }
{
    match task {
        Task::Judge { budget, .. } => ask_all(alloc, schema, query, number, budget),
        Task::Check { .. } => Ok(Items::new(alloc)),
    }
}

/// The questions of a query, and what is answered of them.
fn answered(
    alloc: Global,
    schema: &Schema,
    query: Query,
    number: u32,
    task: Task,
) -> Result<QueryResult, NoMemory>
    requires fits { query_fits schema.now query ≡ true }
    ensures { IfOk result (λ r. IsAnsweredRun (asked_by task.entry) schema.now number query r) }
{
    let questions = questions(alloc, schema, &query)?;
    let answers = answers_of(alloc, schema, &query, number, task)?;
    Ok(QueryResult::Answered {
        query,
        questions,
        answers,
    })
}

/// What becomes of a piece, whatever stands in the others.
fn result_of(
    alloc: Global,
    schema: &Schema,
    text: &[u8],
    piece: Span,
    number: u32,
    task: Task,
) -> Result<QueryResult, NoMemory>
    requires short { length text.now ≤ 1048576 }
    requires within { IsWithin (length text.now) piece }
    ensures { IfOk result (λ r. IsRightResult (asked_by task.entry) schema.now number text.now
        (record { span = piece; result = r }) r) }
{
    match read_query(alloc, schema, text, piece) {
        Ok(query) => answered(alloc, schema, query, number, task),
        Err(TextStop::Refused(refusal)) => Ok(QueryResult::Refused(refusal)),
        Err(TextStop::NoMemory) => Err(NoMemory),
    }
}

/// The entry of a piece.
fn entry(
    alloc: Global,
    schema: &Schema,
    text: &[u8],
    piece: Span,
    number: u32,
    task: Task,
) -> Result<QueryRun, NoMemory>
    requires short { length text.now ≤ 1048576 }
    requires within { IsWithin (length text.now) piece }
    ensures span { IfOk result (λ q. q.span ≡ piece) }
    ensures right { IfOk result
        (λ q. IsRightResult (asked_by task.entry) schema.now number text.now q q.result) }
{
    let result = result_of(alloc, schema, text, piece, number, task)?;
    Ok(QueryRun {
        span: piece,
        result,
    })
}

/// What becomes of the queries of a file, piece by piece.
fn runs_of(
    alloc: Global,
    schema: &Schema,
    text: &[u8],
    task: Task,
) -> Result<Items<QueryRun>, NoMemory>
    requires { length text.now ≤ 1048576 }
    ensures { IfOk result
        (λ queries. AreRightQueries (asked_by task.entry) schema.now text.now queries) }
{
    let mut runs = Items::new(alloc);
    let mut number = 1;
    for piece in split_queries(text) {
        let run = entry(alloc, schema, text, piece, number, task)?;
        runs.push(run)?;
        number += 1;
    }
    Ok(runs)
}

/// Why a file was not read, as a stop.
fn stop_at(stop: ReadStop, which: Which) -> Stop
    ensures { result ≡ stop_of stop which }
{
    match stop {
        ReadStop::OpenFault => Stop::OpenFault(which),
        ReadStop::ReadFault => Stop::ReadFault(which),
        ReadStop::TooLong => Stop::TooLong(which),
        ReadStop::NoMemory => Stop::NoMemory,
    }
}

/// Reads the schema.
pub fn schema_at<H: Shelf>(alloc: Global, shelf: &mut H, path: &str) -> Result<Schema, Stop>
    ensures files { H.files shelf.new ≡ H.files shelf.old }
    ensures read { IfOk result (λ schema. IsSchemaRead (H.files shelf.old) path.now
        (told H.open_faults H.read_faults H.failed_path H.opened_path H.given shelf.old)
        (told H.open_faults H.read_faults H.failed_path H.opened_path H.given shelf.new) schema) }
    ensures stop { IfErr result (λ stop. StopsAtSchema (H.files shelf.old) path.now
        (told H.open_faults H.read_faults H.failed_path H.opened_path H.given shelf.old)
        (told H.open_faults H.read_faults H.failed_path H.opened_path H.given shelf.new) stop) }
{
    match read_file(alloc, shelf, path, TEXT_LIMIT) {
        Ok(text) => match read_schema(alloc, text.as_slice()) {
            Ok(schema) => Ok(schema),
            Err(TextStop::Refused(refusal)) => Err(Stop::SchemaRefused(refusal)),
            Err(TextStop::NoMemory) => Err(Stop::NoMemory),
        },
        Err(stop) => Err(stop_at(stop, Which::Schema)),
    }
}

/// Reads the queries and, where this is asked for, judges them.
pub fn queries_at<H: Shelf>(
    alloc: Global,
    shelf: &mut H,
    path: &str,
    schema: &Schema,
    task: Task,
) -> Result<Items<QueryRun>, Stop>
    ensures files { H.files shelf.new ≡ H.files shelf.old }
    ensures read { IfOk result (λ queries. AreQueriesRead (H.files shelf.old) path.now
        (told H.open_faults H.read_faults H.failed_path H.opened_path H.given shelf.old)
        (told H.open_faults H.read_faults H.failed_path H.opened_path H.given shelf.new)
        (asked_by task.entry) schema.now queries) }
    ensures stop { IfErr result (λ stop. StopsAtQueries (H.files shelf.old) path.now
        (told H.open_faults H.read_faults H.failed_path H.opened_path H.given shelf.old)
        (told H.open_faults H.read_faults H.failed_path H.opened_path H.given shelf.new) stop) }
{
    match read_file(alloc, shelf, path, TEXT_LIMIT) {
        Ok(text) => match runs_of(alloc, schema, text.as_slice(), task) {
            Ok(queries) => Ok(queries),
            Err(NoMemory) => Err(Stop::NoMemory),
        },
        Err(stop) => Err(stop_at(stop, Which::Queries)),
    }
}

/// Reads the certificates.
fn certs_at<H: Shelf>(alloc: Global, shelf: &mut H, path: &str) -> Result<Vec<Cert>, Stop>
    ensures files { H.files shelf.new ≡ H.files shelf.old }
    ensures read { IfOk result (λ certs. AreCertsRead (H.files shelf.old) path.now
        (told H.open_faults H.read_faults H.failed_path H.opened_path H.given shelf.old)
        (told H.open_faults H.read_faults H.failed_path H.opened_path H.given shelf.new)
        certs.items) }
    ensures opened { IfOk result (λ certs. StopsAtCerts (H.files shelf.old) path.now
        (told H.open_faults H.read_faults H.failed_path H.opened_path H.given shelf.old)
        (told H.open_faults H.read_faults H.failed_path H.opened_path H.given shelf.new)
        Stop.NoMemory) }
    ensures stop { IfErr result (λ stop. StopsAtCerts (H.files shelf.old) path.now
        (told H.open_faults H.read_faults H.failed_path H.opened_path H.given shelf.old)
        (told H.open_faults H.read_faults H.failed_path H.opened_path H.given shelf.new) stop) }
{
    match read_file(alloc, shelf, path, CERTS_LIMIT) {
        Ok(text) => match read_certs(alloc, text.as_slice()) {
            Ok(certs) => Ok(certs),
            Err(CertFault::NotJson) => Err(Stop::CertsRefused(CertFault::NotJson)),
            Err(CertFault::BadShape { at }) => Err(Stop::CertsRefused(CertFault::BadShape { at })),
            Err(CertFault::NoMemory) => Err(Stop::NoMemory),
        },
        Err(stop) => Err(stop_at(stop, Which::Certs)),
    }
}

/// Reads the certificates and checks them.
fn checks_at<H: Shelf>(
    alloc: Global,
    shelf: &mut H,
    path: &str,
    schema: &Schema,
    queries: &[QueryRun],
) -> Result<Items<CheckRun>, Stop>
    requires read { AreRead schema.now queries.now }
    ensures files { H.files shelf.new ≡ H.files shelf.old }
    ensures read { IfOk result (λ lines. AreChecksOf (H.files shelf.old)
        (told H.open_faults H.read_faults H.failed_path H.opened_path H.given shelf.old)
        (told H.open_faults H.read_faults H.failed_path H.opened_path H.given shelf.new)
        path.now schema.now queries.now lines) }
    ensures stop { IfErr result (λ stop. StopsAtCerts (H.files shelf.old) path.now
        (told H.open_faults H.read_faults H.failed_path H.opened_path H.given shelf.old)
        (told H.open_faults H.read_faults H.failed_path H.opened_path H.given shelf.new) stop) }
{
    match certs_at(alloc, shelf, path) {
        Ok(certs) => match check_all(alloc, schema, queries, certs.as_slice()) {
            Ok(lines) => Ok(lines),
            Err(NoMemory) => Err(Stop::NoMemory),
        },
        Err(stop) => Err(stop),
    }
}

/// The lines of a check, where one is asked for.
pub fn checks_for<H: Shelf>(
    alloc: Global,
    shelf: &mut H,
    task: Task,
    schema: &Schema,
    queries: &[QueryRun],
) -> Result<Items<CheckRun>, Stop>
    requires read { AreRead schema.now queries.now }
    ensures files { H.files shelf.new ≡ H.files shelf.old }
    ensures read { IfOk result (λ lines. AreChecksFor (H.files shelf.old)
        (told H.open_faults H.read_faults H.failed_path H.opened_path H.given shelf.old)
        (told H.open_faults H.read_faults H.failed_path H.opened_path H.given shelf.new)
        (asked_by task.entry) schema.now queries.now lines) }
    ensures stop { IfErr result (λ stop. StopsBehind (H.files shelf.old)
        (told H.open_faults H.read_faults H.failed_path H.opened_path H.given shelf.old)
        (told H.open_faults H.read_faults H.failed_path H.opened_path H.given shelf.new)
        (asked_by task.entry) stop) }
{
    match task {
        Task::Judge { .. } => Ok(Items::new(alloc)),
        Task::Check { certs } => checks_at(alloc, shelf, certs, schema, queries),
    }
}
