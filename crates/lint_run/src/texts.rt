//! What a run writes, as `specs/Text.antt` says it.
ghost use Rattle.std.specs.Prelude.{◌≡◌, ◌++◌, true, map, IfOk, OnOk, option_map};
ghost use Rattle.std.specs.List.{flat_map, list_all};
ghost use Rattle.cert_format.specs.CertFile.{file_text, ReadsAs};
ghost use Rattle.cert_format.specs.Fitting.{is_numbered};
ghost use Rattle.command_words.specs.Said.{asked_by, said};
ghost use Rattle.lint_run.specs.ReadBack.{ReadBackBy, IsReadBack};
ghost use Rattle.lint_run.specs.Text.{asked_text, cert_of, certs_of, result_certs, run_text};

use crate::outcome::Stop;
use crate::stop_lines::stop_text;
use cert_format::certs_json;
use command_words::{Command, Form, Task};
use lint_base::NoMemory;
use lint_core::{Answer, Cert, QueryResult, QueryRun, Run};
use lint_report::{checks_text, report_text};
use std::alloc::Global;

fn push_certs<'a>(out: &mut Vec<&'a Cert>, answers: &'a [Answer]) -> Result<(), NoMemory>
    ensures { OnOk result (map (λ c. c.now) out.new.items
        ≡ map (λ c. c.now) out.old.items ++ flat_map cert_of answers.now) }
{
    for answer in answers {
        if let Answer::Always(cert) = answer {
            out.push(cert)?;
        }
    }
    Ok(())
}

fn push_result_certs<'a>(
    out: &mut Vec<&'a Cert>,
    result_of: &'a QueryResult,
) -> Result<(), NoMemory>
    ensures { OnOk result (map (λ c. c.now) out.new.items
        ≡ map (λ c. c.now) out.old.items ++ result_certs result_of.now) }
{
    match result_of {
        QueryResult::Refused(_) => Ok(()),
        QueryResult::Answered { answers, .. } => push_certs(out, answers.as_slice()),
    }
}

/// The certificates of the answers `always`.
fn certs_of(alloc: Global, queries: &[QueryRun]) -> Result<Vec<&Cert>, NoMemory>
    ensures { IfOk result (λ certs. map (λ c. c.now) certs.items ≡ certs_of queries.now) }
{
    let mut certs = Vec::new(alloc);
    for query in queries {
        push_result_certs(&mut certs, &query.result)?;
    }
    Ok(certs)
}

fn certs_text(alloc: Global, queries: &[QueryRun]) -> Result<Vec<u8>, NoMemory>
    ensures text { IfOk result (λ bytes. bytes.items ≡ file_text (certs_of queries.now)) }
    ensures reads { IfOk result (λ _. list_all is_numbered (certs_of queries.now) ≡ true
        → ReadsAs (file_text (certs_of queries.now)) (certs_of queries.now)) }
{
    let certs = certs_of(alloc, queries)?;
    certs_json(alloc, certs.as_slice())
}

fn asked_text(alloc: Global, task: Task, run: &Run) -> Result<Vec<u8>, NoMemory>
    ensures text { IfOk result (λ bytes. bytes.items ≡ asked_text (asked_by task.entry) run.now) }
    ensures reads { IfOk result (λ _. list_all is_numbered (certs_of run.now.queries) ≡ true
        → ReadBackBy (asked_by task.entry) run.now) }
{
    match task {
        Task::Judge {
            form: Form::Text,
            ..
        } => report_text(alloc, run),
        Task::Judge {
            form: Form::Certs,
            ..
        } => certs_text(alloc, run.queries.as_slice()),
        Task::Check { .. } => checks_text(alloc, run.checks.as_slice()),
    }
}

/// The text of a run: of its stop, or what its words ask for.
pub fn run_text(
    alloc: Global,
    command: Option<Command>,
    stop: Option<Stop>,
    run: &Run,
) -> Result<Vec<u8>, NoMemory>
    ensures text { IfOk result
        (λ bytes. bytes.items ≡ run_text (option_map said command.entry) stop run.now) }
    ensures reads { IfOk result (λ _. list_all is_numbered (certs_of run.now.queries) ≡ true
        → IsReadBack (option_map said command.entry) stop run.now) }
{
    match (stop, command) {
        (Some(stop), _) => stop_text(alloc, stop),
        (None, Some(command)) => asked_text(alloc, command.task, run),
        (None, None) => Ok(Vec::new(alloc)),
    }
}
