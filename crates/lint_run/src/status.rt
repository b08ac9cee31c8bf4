//! The number that the program ends with, as `specs/Status.antt` says it.
ghost use Rattle.std.specs.Prelude.{◌≡◌, not};
ghost use Rattle.std.specs.List.{list_any};
ghost use Rattle.lint_report.specs.Finding.{is_finding};
ghost use Rattle.lint_run.specs.Status.{any_finding, has_finding, is_accepted, is_left_open, is_open, run_status, status_of};

use crate::outcome::Stop;
use lint_core::{Answer, CheckRun, Checked, QueryResult, QueryRun, Question, Run};
use lint_report::is_finding;

fn pair_finds(question: &Question, answer: &Answer) -> bool
    ensures { result ≡ is_finding question.now answer.now }
{
    is_finding(*question, answer)
}

fn any_finds(questions: &[Question], answers: &[Answer]) -> bool
    ensures { result ≡ any_finding questions.now answers.now }
{
    questions.iter().zip(answers).any(|(q, a)| pair_finds(q, a))
}

fn result_finds(result_of: &QueryResult) -> bool
    ensures { result ≡ has_finding result_of.now }
{
    match result_of {
        QueryResult::Refused(_) => false,
        QueryResult::Answered {
            questions,
            answers,
            ..
        } => any_finds(questions.as_slice(), answers.as_slice()),
    }
}

fn is_open(answer: &Answer) -> bool
    ensures { result ≡ is_open answer.now }
{
    match answer {
        Answer::Always(_) | Answer::NotAlways(_) | Answer::Moot => false,
        Answer::Blocked { .. }
        | Answer::CyclicKeys { .. }
        | Answer::CyclicNesting { .. }
        | Answer::Large { .. }
        | Answer::Spent { .. } => true,
    }
}

fn any_open(answers: &[Answer]) -> bool
    ensures { result ≡ list_any is_open answers.now }
{
    answers.iter().any(is_open)
}

fn result_left_open(result_of: &QueryResult) -> bool
    ensures { result ≡ is_left_open result_of.now }
{
    match result_of {
        QueryResult::Refused(_) => true,
        QueryResult::Answered { answers, .. } => any_open(answers.as_slice()),
    }
}

fn any_result_finds(queries: &[QueryRun]) -> bool
    ensures { result ≡ list_any (λ q. has_finding q.result) queries.now }
{
    queries.iter().any(|q| result_finds(&q.result))
}

fn any_result_left_open(queries: &[QueryRun]) -> bool
    ensures { result ≡ list_any (λ q. is_left_open q.result) queries.now }
{
    queries.iter().any(|q| result_left_open(&q.result))
}

fn is_unaccepted(check: &CheckRun) -> bool
    ensures { result ≡ not (is_accepted check.now.checked) }
{
    !matches!(check.checked, Checked::Accepted)
}

fn any_unaccepted(checks: &[CheckRun]) -> bool
    ensures { result ≡ list_any (λ c. not (is_accepted c.checked)) checks.now }
{
    checks.iter().any(is_unaccepted)
}

fn run_status(run: &Run) -> u8
    ensures { result ≡ run_status run.now }
{
    if any_result_finds(run.queries.as_slice()) {
        1
    } else if any_unaccepted(run.checks.as_slice()) {
        7
    } else if any_result_left_open(run.queries.as_slice()) {
        6
    } else {
        0
    }
}

/// The status of a run that ends so.
pub fn status(stop: Option<Stop>, run: &Run) -> u8
    ensures { result ≡ status_of stop run.now }
{
    match stop {
        None => run_status(run),
        Some(Stop::WordsRefused | Stop::SchemaRefused(_)) => 2,
        Some(Stop::CertsRefused(_) | Stop::TooLong(_)) => 2,
        Some(Stop::OpenFault(_) | Stop::ReadFault(_)) => 3,
        Some(Stop::WriteFault) => 4,
        Some(Stop::NoMemory) => 5,
    }
}
