//! The reading of a whole command line.
ghost use Rattle.std.specs.Prelude.{◌≡◌, map, string_bytes, option_map, IfSome};
ghost use Rattle.command_words.specs.Said.{asked_by, said};
ghost use Rattle.command_words.specs.Wanted.{KeepsLimits};
ghost use Rattle.command_words.specs.WantedOf.{wanted_of};
ghost use Rattle.command_words.specs.inner.Held.{Reads, held};
ghost use Rattle.command_words.specs.inner.Progress.{progress, IsStart, Advances, EndsWith, ended};
ghost use Rattle.command_words.specs.inner.Views.{read_view};

use crate::given::Given;
use crate::parts::{Expected, Reading, is_waiting, read_word};
use crate::wanted::Command;

fn with_reading<'a>(given: Given<'a>, reading: Reading<'a>) -> Option<Given<'a>>
    ensures { Reads (held given.entry) (read_view reading.entry).part (option_map held result) }
{
    match reading.part {
        None => Some(given),
        Some(part) => given.with(part),
    }
}

/// The parts so far, and what the next word is read as.
#[derive(Clone, Copy)]
struct Progress<'a> {
    given: Given<'a>,
    expected: Expected,
}

impl<'a> Progress<'a> {
    fn start() -> Self
        ensures { IsStart result }
    {
        Progress {
            given: Given::nothing(),
            expected: Expected::Part,
        }
    }

    fn with_word(self, word: &'a str) -> Option<Self>
        ensures { Advances (progress self.entry) word.now (option_map progress result) }
    {
        let reading = read_word(self.expected, word)?;
        let given = with_reading(self.given, reading)?;
        Some(Progress {
            given,
            expected: reading.then,
        })
    }

    fn with_words(self, words: &'a [String]) -> Option<Self>
        ensures { EndsWith (progress self.entry) (map string_bytes words.now)
            (option_map progress result) }
    {
        let mut progress = self;
        for word in words {
            progress = progress.with_word(word.as_str())?;
        }
        Some(progress)
    }

    fn command(self) -> Option<Command<'a>>
        ensures { option_map said result ≡ ended (progress self.entry) }
    {
        if is_waiting(self.expected) {
            None
        } else {
            self.given.command()
        }
    }
}

/// What the words ask for; none where they are refused.
pub fn command_of(words: &[String]) -> Option<Command<'_>>
    // What the command says is what the words ask for, and none is answered where they are refused.
    ensures says { option_map said result ≡ wanted_of (map string_bytes words.now) }
    ensures limits { IfSome result (λ command. KeepsLimits (asked_by command.task)) }
{
    Progress::start().with_words(words)?.command()
}
