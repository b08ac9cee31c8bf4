//! What a run promises. The function calls other laws and does nothing else: its contract is the
//! law.
ghost use Rattle.std.specs.Prelude.{◌≡◌, ℕ, true, List, Option};
ghost use Rattle.command_words.specs.Wanted.{Wanted};
ghost use Rattle.lint_core.specs.declared.run.Run.{Run as SomeRun};
ghost use Rattle.lint_core.specs.Schema.{is_schema};
ghost use Rattle.lint_run.specs.KeepsItsWord.{KeepsItsWord};
ghost use Rattle.lint_run.specs.Stops.{Told};
ghost use Rattle.lint_run.specs.Written.{Sunk, EndsRight};
ghost use Rattle.lint_run.specs.declared.outcome.Stop.{Stop};

use cert_checks::accepted_lines_hold;
use verdict_laws::right_answers_keep_their_word;

/// A run that ends right keeps its word.
pub fn runs_keep_their_word()
    ensures { (files : Option (List ℕ → Option (List ℕ))) (wanted : Option Wanted)
        (before now : Told) (old new : Sunk) (run : SomeRun) (stop : Option Stop)
        → is_schema run.schema ≡ true
        → EndsRight files wanted before now old new run stop → KeepsItsWord wanted run }
{
    accepted_lines_hold();
    right_answers_keep_their_word();
}
