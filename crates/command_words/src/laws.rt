//! Laws of the definitions. Each function does nothing: its contract is the law.
ghost use Rattle.std.specs.Prelude.{◌≡◌, ◌↔◌, ℕ, List, Some};
ghost use Rattle.command_words.specs.CommandLine.{Says};
ghost use Rattle.command_words.specs.Wanted.{KeepsLimits, Wanted};
ghost use Rattle.command_words.specs.WantedOf.{wanted_of};
ghost use Rattle.command_words.specs.Worked.{AcceptedLines, RefusedLines};

/// Words ask for something exactly where they are a command line of the grammar that says so.
pub fn words_are_read_by_the_grammar()
    ensures { (words : List (List ℕ)) (wanted : Wanted)
        → (wanted_of words ≡ Some wanted) ↔ Says words wanted }
{}

/// A budget that words ask for is from 1 to 1,000,000.
pub fn budgets_are_small()
    ensures { (words : List (List ℕ)) (wanted : Wanted)
        → wanted_of words ≡ Some wanted → KeepsLimits wanted.asked }
{}

/// Lines that are known by hand are accepted and refused as they should be.
pub fn worked_words()
    ensures accepted { AcceptedLines }
    ensures refused { RefusedLines }
{}
