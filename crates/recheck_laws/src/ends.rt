//! That a run which nothing hinders comes to its end. The function calls other laws and does
//! nothing else: its contract is the law.
ghost use Rattle.std.specs.Prelude.{ℕ, List, Option, Some};
ghost use Rattle.command_words.specs.Wanted.{Wanted};
ghost use Rattle.lint_core.specs.declared.run.Run.{Run};
ghost use Rattle.lint_run.specs.Stops.{Told};
ghost use Rattle.lint_run.specs.Written.{Sunk, EndsRight};
ghost use Rattle.lint_run.specs.declared.outcome.Stop.{Stop};
ghost use Rattle.recheck_laws.specs.Unhindered.{AreInOrder, IsNoStop, NoneRose};

use cert_format::files_have_one_reading;
use reading_laws::every_schema_text_has_one_reading;

/// A run that ends right has no stop, or memory ran out, where its words are a command, the files
/// that they name are there and keep their limits, the schema's declares a schema, that of
/// certificates is one, and no fault was counted. Without a stop each question of the files has its
/// answer or its line, and the whole text was written.
pub fn unhindered_runs_come_to_their_end()
    ensures { (held : List ℕ → Option (List ℕ)) (wanted : Wanted) (before now : Told)
        (old new : Sunk) (run : Run) (stop : Option Stop)
        → EndsRight (Some held) (Some wanted) before now old new run stop
        → AreInOrder held wanted → NoneRose before now old new → IsNoStop stop }
{
    every_schema_text_has_one_reading();
    files_have_one_reading();
}
