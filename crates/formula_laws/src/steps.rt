//! How the steps of a certificate run. The functions do nothing: each contract is a law about the
//! definitions of `sort_formula`.
ghost use Rattle.std.specs.Prelude.{◌≡◌, ℕ, ◌+◌, ◌≤◌, true, false, not, [], ◌∷◌, ◌++◌, length, take, List, slice_get, Option, Some, is_some, option_and_then};
ghost use Rattle.std.specs.Option.{option_map_or};
ghost use Rattle.lint_core.specs.declared.certificate.Step.{Step};
ghost use Rattle.lint_core.specs.declared.database.Database.{Database};
ghost use Rattle.lint_core.specs.declared.schema.Table.{Table};
ghost use Rattle.lint_core.specs.Database.{Place};
ghost use Rattle.lint_core.specs.Meets.{is_of_domains};
ghost use Rattle.sort_formula.specs.declared.formula.Formula.{Formula};
ghost use Rattle.sort_formula.specs.Certificate.{children, branches_after, are_closed, accepts, goes_wrong, first_wrong, wrong_step};
ghost use Rattle.sort_formula.specs.Facts.{Branch};
ghost use Rattle.sort_formula.specs.Realized.{Realized};

/// Steps are accepted, or close all of any branches, exactly where no step is wrong, missing or
/// left over. Where there is one, the steps before the first are right in their turn, and what is
/// next goes wrong at the branches that these leave. The number is counted from that of the first
/// step, and no other number says so.
pub fn wrong_steps_are_numbered()
    ensures accepted { (schema : List Table) (sentence : Formula) (steps : List Step)
        → accepts schema sentence steps ≡ not (is_some (wrong_step schema sentence steps)) }
    ensures closing { (number : ℕ) (schema : List Table) (steps : List Step)
        → (branches : List Branch)
        → option_map_or are_closed (branches_after schema steps branches) false
        ≡ not (is_some (first_wrong number schema steps branches)) }
    ensures cause { (number : ℕ) (schema : List Table) (steps : List Step)
        → (branches : List Branch) (n : ℕ) → first_wrong number schema steps branches ≡ Some n
        → (before : ℕ) × (n ≡ number + before) × (before ≤ length steps)
        × (bs : List Branch) × (branches_after schema (take before steps) branches ≡ Some bs)
        × (goes_wrong schema (slice_get steps before) bs ≡ true) }
    ensures no_other { (number : ℕ) (schema : List Table) (steps : List Step)
        → (branches : List Branch) (before : ℕ) → before ≤ length steps
        → (bs : List Branch) → branches_after schema (take before steps) branches ≡ Some bs
        → goes_wrong schema (slice_get steps before) bs ≡ true
        → first_wrong number schema steps branches ≡ Some (number + before) }
{}

/// Steps behind others act on the branches that these leave. Branches that wait behind the first
/// ones stay as they are. So steps may stand before any others, and those that close a branch
/// leave what waits behind it.
pub fn steps_compose()
    ensures appended { (schema : List Table) (xs ys : List Step) (bs : List Branch)
        → branches_after schema (xs ++ ys) bs
        ≡ option_and_then (branches_after schema ys) (branches_after schema xs bs) }
    ensures waiting { (schema : List Table) (xs : List Step) (bs cs ds : List Branch)
        → branches_after schema xs bs ≡ Some cs
        → branches_after schema xs (bs ++ ds) ≡ Some (cs ++ ds) }
    ensures before_others { (schema : List Table) (xs ys : List Step) (bs cs ds : List Branch)
        → branches_after schema xs bs ≡ Some cs
        → branches_after schema (xs ++ ys) (bs ++ ds) ≡ branches_after schema ys (cs ++ ds) }
    ensures closing { (schema : List Table) (xs ys : List Step) (b : Branch) (ds : List Branch)
        → branches_after schema xs (b ∷ []) ≡ Some []
        → branches_after schema (xs ++ ys) (b ∷ ds) ≡ branches_after schema ys ds }
{}

/// Where places of a database of the domains realize a branch, a right step has a child that is
/// realized by the same places, or by these and one more. So no step closes the branch.
pub fn realized_branches_stay_open()
    ensures some_child { (schema : List Table) (db : Database) → is_of_domains schema db ≡ true
        → (branch : Branch) (places : List Place) → Realized db branch places
        → (step : Step) (bs : List Branch) → children schema branch step ≡ Some bs
        → (i : ℕ) × (child : Branch) × (slice_get bs i ≡ Some child)
        × (more : List Place) × (length more ≤ 1) × Realized db child (places ++ more) }
    ensures not_closed { (schema : List Table) (db : Database) → is_of_domains schema db ≡ true
        → (branch : Branch) (places : List Place) → Realized db branch places
        → (step : Step) → children schema branch step ≡ Some [] → ⊥ }
{}
