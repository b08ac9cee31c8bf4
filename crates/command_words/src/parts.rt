//! The parts of a command line, word by word.
ghost use Rattle.std.specs.Prelude.{◌≡◌, option_map, codes};
ghost use Rattle.command_words.specs.CommandLine.{budget, check, begins_with_dash};
ghost use Rattle.command_words.specs.WantedOf.{is_option, is_waiting, ends, read_value, behind, read_attached, read_part, read_word};
ghost use Rattle.command_words.specs.inner.Views.{part_view, read_view, text_view};

/// A part of a command line, with its value.
#[derive(Clone, Copy)]
pub(crate) enum Part<'a> {
    File(&'a str),
    Budget(&'a str),
    Check(&'a str),
    Certs,
}

/// What the next word is read as: a part, the value of an option, or, behind `--`, a file.
#[derive(Clone, Copy)]
pub(crate) enum Expected {
    Part,
    BudgetValue,
    CheckValue,
    File,
}

/// What a word says: the part that it ends, if any, and what comes behind it.
#[derive(Clone, Copy)]
pub(crate) struct Reading<'a> {
    pub(crate) part: Option<Part<'a>>,
    pub(crate) then: Expected,
}

fn begins_with_dash(word: &str) -> bool
    ensures { result ≡ begins_with_dash word.now }
{
    word.as_bytes().first() == Some(&b'-')
}

fn is_option(word: &str) -> bool
    ensures { result ≡ is_option word.now }
{
    begins_with_dash(word) && word != "-"
}

fn ended(part: Part<'_>) -> Reading<'_>
    ensures { read_view result ≡ ends (part_view part.entry) }
{
    Reading {
        part: Some(part),
        then: Expected::Part,
    }
}

fn awaited<'a>(then: Expected) -> Reading<'a>
    ensures { read_view result ≡ record { part = None; then_comes = then } }
{
    Reading { part: None, then }
}

fn budget_value(value: &str) -> Option<Reading<'_>>
    ensures { option_map read_view result ≡ read_value budget value.now }
{
    if begins_with_dash(value) {
        None
    } else {
        Some(ended(Part::Budget(value)))
    }
}

fn check_value(value: &str) -> Option<Reading<'_>>
    ensures { option_map read_view result ≡ read_value check value.now }
{
    if begins_with_dash(value) {
        None
    } else {
        Some(ended(Part::Check(value)))
    }
}

fn behind<'a>(word: &'a str, front: &str) -> Option<&'a str>
    ensures { option_map text_view result ≡ behind front.now word.now }
{
    word.strip_prefix(front)
}

/// Reads a word that may have the value of an option behind `=`.
fn read_attached(word: &str) -> Option<Reading<'_>>
    ensures { option_map read_view result ≡ read_attached
        (behind (codes "--budget=") word.now) (behind (codes "--check=") word.now) word.now }
{
    if let Some(value) = behind(word, "--budget=") {
        budget_value(value)
    } else if let Some(value) = behind(word, "--check=") {
        check_value(value)
    } else if is_option(word) {
        None
    } else {
        Some(ended(Part::File(word)))
    }
}

/// Reads a word at which a part begins.
fn read_part(word: &str) -> Option<Reading<'_>>
    ensures { option_map read_view result ≡ read_part word.now }
{
    match word {
        "--" => Some(awaited(Expected::File)),
        "--certs" => Some(ended(Part::Certs)),
        "--budget" => Some(awaited(Expected::BudgetValue)),
        "--check" => Some(awaited(Expected::CheckValue)),
        _ => read_attached(word),
    }
}

/// Reads a word as what is expected there.
pub(crate) fn read_word(expected: Expected, word: &str) -> Option<Reading<'_>>
    ensures { option_map read_view result ≡ read_word expected word.now }
{
    match expected {
        Expected::Part => read_part(word),
        Expected::BudgetValue => budget_value(word),
        Expected::CheckValue => check_value(word),
        Expected::File => Some(Reading {
            part: Some(Part::File(word)),
            then: Expected::File,
        }),
    }
}

/// Whether an option waits for its value.
pub(crate) fn is_waiting(expected: Expected) -> bool
    ensures { result ≡ is_waiting expected }
{
    matches!(expected, Expected::BudgetValue | Expected::CheckValue)
}
