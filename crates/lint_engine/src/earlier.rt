//! What the answers to earlier questions decide of a later one.
ghost use Rattle.std.specs.Prelude.{◌≡◌, ◌<◌, ◌-◌, ◌^◌, ℕ, length, MatchOption, None, Some};
ghost use Rattle.lint_engine.specs.Earlier.{answered, blocker, counter_in, empty_counter, first_number, is_always, is_constant, is_empty, is_moot, is_one_row, is_settled};
ghost use Rattle.lint_engine.specs.inner.Sought.{is_sought};

use lint_core::{Answer, Counter, Question};

/// What is looked for among earlier questions and their answers.
#[derive(Clone, Copy)]
enum Sought {
    /// An E9 that is not Always.
    OpenOneRow,
    /// An E1 that is not judged to an end.
    OpenEmpty,
    /// An E1 that is Always.
    AlwaysEmpty,
}

fn is_one_row(question: &Question) -> bool
    ensures { result ≡ is_one_row question.now }
{
    matches!(question, Question::OneRow { .. })
}

fn is_empty(question: &Question) -> bool
    ensures { result ≡ is_empty question.now }
{
    matches!(question, Question::Empty)
}

fn is_constant(question: &Question) -> bool
    ensures { result ≡ is_constant question.now }
{
    matches!(question, Question::Constant { .. })
}

fn is_always(answer: &Answer) -> bool
    ensures { result ≡ is_always answer.now }
{
    matches!(answer, Answer::Always(_))
}

fn is_settled(answer: &Answer) -> bool
    ensures { result ≡ is_settled answer.now }
{
    matches!(
        answer,
        Answer::Always(_) | Answer::NotAlways(_) | Answer::Blocked { .. }
    )
}

impl Sought {
    fn is(self, question: &Question, answer: &Answer) -> bool
        ensures { (number : ℕ) → result ≡ is_sought self
            (record { number = number; question = question.now; answer = answer.now }) }
    {
        match self {
            Sought::OpenOneRow => is_one_row(question) && !is_always(answer),
            Sought::OpenEmpty => is_empty(question) && !is_settled(answer),
            Sought::AlwaysEmpty => is_empty(question) && is_always(answer),
        }
    }
}

/// The number of the first of the questions that is sought, by its answer.
fn first_number(sought: Sought, asked: &[Question], answers: &[Answer]) -> Option<u32>
    requires as_many { length asked.now ≡ length answers.now }
    requires few { length answers.now < 2 ^ 32 - 1 }
    ensures { result ≡ first_number (is_sought sought) (answered 1 asked.now answers.now) }
{
    for place in 0..answers.len() {
        if sought.is(&asked[place], &answers[place]) {
            return Some(place as u32 + 1);
        }
    }
    None
}

/// The number of the question that blocks this one, if one does: the first E9 that is not Always,
/// or of a constant column an E1 that was not judged to an end.
pub(crate) fn blocker(question: &Question, asked: &[Question], answers: &[Answer]) -> Option<u32>
    requires as_many { length asked.now ≡ length answers.now }
    requires few { length answers.now < 2 ^ 32 - 1 }
    ensures { result ≡ blocker (answered 1 asked.now answers.now) question.now }
{
    let first = first_number(Sought::OpenOneRow, asked, answers);
    if first.is_none() && is_constant(question) {
        first_number(Sought::OpenEmpty, asked, answers)
    } else {
        first
    }
}

/// Whether E1 is Always, so that the question is not worth asking.
pub(crate) fn is_moot(question: &Question, asked: &[Question], answers: &[Answer]) -> bool
    requires as_many { length asked.now ≡ length answers.now }
    requires few { length answers.now < 2 ^ 32 - 1 }
    ensures { result ≡ is_moot (answered 1 asked.now answers.now) question.now }
{
    if is_one_row(question) || is_empty(question) {
        return false;
    }
    first_number(Sought::AlwaysEmpty, asked, answers).is_some()
}

fn counter_in(answer: &Answer) -> Option<&Counter>
    ensures { MatchOption result (counter_in answer.now ≡ None)
        (λ counter. counter_in answer.now ≡ Some counter.now) }
{
    match answer {
        Answer::NotAlways(counters) => counters.as_slice().first(),
        _ => None,
    }
}

/// The database of E1, if it was answered with one.
pub(crate) fn empty_counter<'a>(asked: &[Question], answers: &'a [Answer]) -> Option<&'a Counter>
    requires { length asked.now ≡ length answers.now }
    ensures { MatchOption result (empty_counter (answered 1 asked.now answers.now) ≡ None)
        (λ counter. empty_counter (answered 1 asked.now answers.now) ≡ Some counter.now) }
{
    for place in 0..answers.len() {
        if is_empty(&asked[place]) {
            return counter_in(&answers[place]);
        }
    }
    None
}
