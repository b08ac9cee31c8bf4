//! A law of what a run writes. The function does nothing: its contract is the law.
ghost use Rattle.std.specs.Prelude.{Option};
ghost use Rattle.command_words.specs.Wanted.{Wanted};
ghost use Rattle.lint_core.specs.declared.run.Run.{Run as SomeRun};
ghost use Rattle.lint_run.specs.Worked.{BadShapeText, NoJsonText, SchemaRefusedText};

/// The lines of a refused schema and of refused certificates are those that are known by hand. The
/// texts of other runs are those of `lint_report` and of `cert_format`.
pub fn worked_texts()
    ensures schema { (wanted : Option Wanted) (run : SomeRun) → SchemaRefusedText wanted run }
    ensures not_json { (wanted : Option Wanted) (run : SomeRun) → NoJsonText wanted run }
    ensures bad_shape { (wanted : Option Wanted) (run : SomeRun) → BadShapeText wanted run }
{}
