//! What the parts of a command line give.
ghost use Rattle.std.specs.Prelude.{◌≡◌, [], Option, option_map, Some};
ghost use Rattle.std.specs.Char.{is_ascii_digit};
ghost use Rattle.std.specs.List.{list_all};
ghost use Rattle.command_words.specs.CommandLine.{file, budget, check, certs};
ghost use Rattle.command_words.specs.Said.{asked_by, said};
ghost use Rattle.command_words.specs.WantedOf.{is_numeral, within_limits, number_of, budget_of, judging, checking, asked_of};
ghost use Rattle.command_words.specs.inner.Views.{part_view};
ghost use Rattle.command_words.specs.inner.Held.{texts, held, Takes, finished};

use crate::parts::Part;
use crate::wanted::{Command, DEFAULT_BUDGET, Form, LARGEST_BUDGET, Task};

/// The files that were named.
#[derive(Clone, Copy)]
pub(crate) enum Files<'a> {
    Neither,
    Schema(&'a str),
    Both { schema: &'a str, queries: &'a str },
}

/// What the parts so far gave.
#[derive(Clone, Copy)]
pub(crate) struct Given<'a> {
    pub(crate) files: Files<'a>,
    pub(crate) budget: Option<&'a str>,
    pub(crate) check: Option<&'a str>,
    pub(crate) form: Option<Form>,
}

fn all_digits(value: &[u8]) -> bool
    ensures { result ≡ list_all is_ascii_digit value.now }
{
    value.iter().all(|b| b.is_ascii_digit())
}

fn is_numeral(value: &str) -> bool
    ensures { result ≡ is_numeral value.now }
{
    !value.is_empty() && value.len() <= 10 && all_digits(value.as_bytes())
}

fn within_limits(number: u64) -> Option<u64>
    ensures { result ≡ within_limits number }
{
    if number > 0 && number <= LARGEST_BUDGET {
        Some(number)
    } else {
        None
    }
}

fn number_of(value: &str) -> Option<u64>
    ensures { result ≡ number_of value.now }
{
    if !is_numeral(value) {
        return None;
    }
    match value.parse::<u64>() {
        Ok(number) => within_limits(number),
        Err(_) => None,
    }
}

fn budget_of(given: Option<&str>) -> Option<u64>
    ensures { result ≡ budget_of (texts given.entry) }
{
    match given {
        None => Some(DEFAULT_BUDGET),
        Some(value) => number_of(value),
    }
}

fn judging<'a>(budget: Option<u64>, form: Form) -> Option<Task<'a>>
    ensures { option_map asked_by result ≡ judging budget (Some form) }
{
    match budget {
        Some(budget) => Some(Task::Judge { budget, form }),
        None => None,
    }
}

fn checking(certs: &str) -> Option<Task<'_>>
    ensures { option_map asked_by result ≡ checking certs.now }
{
    if certs.is_empty() {
        None
    } else {
        Some(Task::Check { certs })
    }
}

impl<'a> Given<'a> {
    /// No part was read.
    pub(crate) fn nothing() -> Self
        ensures { held result ≡ record { files = []; budgets = []; forms = []; checks = [] } }
    {
        Given {
            files: Files::Neither,
            budget: None,
            check: None,
            form: None,
        }
    }

    fn with_file(self, path: &'a str) -> Option<Self>
        ensures { Takes (held self.entry) (file path.now) (option_map held result) }
    {
        let files = match self.files {
            Files::Neither => Files::Schema(path),
            Files::Schema(schema) => Files::Both {
                schema,
                queries: path,
            },
            Files::Both { .. } => return None,
        };
        Some(Given { files, ..self })
    }

    fn with_budget(self, value: &'a str) -> Option<Self>
        ensures { Takes (held self.entry) (budget value.now) (option_map held result) }
    {
        match self.budget {
            None => Some(Given {
                budget: Some(value),
                ..self
            }),
            Some(_) => None,
        }
    }

    fn with_check(self, value: &'a str) -> Option<Self>
        ensures { Takes (held self.entry) (check value.now) (option_map held result) }
    {
        match self.check {
            None => Some(Given {
                check: Some(value),
                ..self
            }),
            Some(_) => None,
        }
    }

    fn with_certs(self) -> Option<Self>
        ensures { Takes (held self.entry) certs (option_map held result) }
    {
        match self.form {
            None => Some(Given {
                form: Some(Form::Certs),
                ..self
            }),
            Some(_) => None,
        }
    }

    /// With a part more, unless it is one too many.
    pub(crate) fn with(self, part: Part<'a>) -> Option<Self>
        ensures { Takes (held self.entry) (part_view part.entry) (option_map held result) }
    {
        match part {
            Part::File(path) => self.with_file(path),
            Part::Budget(value) => self.with_budget(value),
            Part::Check(value) => self.with_check(value),
            Part::Certs => self.with_certs(),
        }
    }

    fn task(self) -> Option<Task<'a>>
        ensures { option_map asked_by result ≡ asked_of (held self.entry).budgets
            (held self.entry).forms (held self.entry).checks }
    {
        match (self.check, self.budget, self.form) {
            (None, budget, form) => judging(budget_of(budget), form.unwrap_or(Form::Text)),
            (Some(certs), None, None) => checking(certs),
            _ => None,
        }
    }

    /// The command that the parts give.
    pub(crate) fn command(self) -> Option<Command<'a>>
        ensures { option_map said result ≡ finished (held self.entry) (Some []) }
    {
        let Files::Both { schema, queries } = self.files else {
            return None;
        };
        let task = self.task()?;
        Some(Command {
            task,
            schema,
            queries,
        })
    }
}
