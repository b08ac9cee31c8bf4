//! Which answers are findings.
ghost use Rattle.std.specs.Prelude.{◌≡◌};
ghost use Rattle.lint_report.specs.Finding.{is_always, is_not_always, is_finding};

use lint_core::{Answer, Question};

fn is_always(answer: &Answer) -> bool
    ensures { result ≡ is_always answer.now }
{
    matches!(answer, Answer::Always(_))
}

fn is_not_always(answer: &Answer) -> bool
    ensures { result ≡ is_not_always answer.now }
{
    matches!(answer, Answer::NotAlways(_))
}

/// Whether the answer to the question is a finding: of E1 to E8 where the question holds always, of
/// E9 and E10 where it does not.
pub fn is_finding(question: Question, answer: &Answer) -> bool
    ensures { result ≡ is_finding question answer.now }
{
    match question {
        Question::OneRow { .. } | Question::NullInNotIn { .. } => is_not_always(answer),
        _ => is_always(answer),
    }
}
