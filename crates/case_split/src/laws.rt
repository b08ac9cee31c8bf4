//! What closed trees say of full cases, how choices are ordered, which cases are counted, and what
//! a full case has. The functions do nothing: each contract is a law about the definitions in
//! `specs/`.
ghost use Rattle.std.specs.Prelude.{◌≡◌, ◌<◌, true, false, List, [], length};
ghost use Rattle.std.specs.List.{list_all};
ghost use Rattle.ground_theory.specs.declared.literal.Clause.{Clause};
ghost use Rattle.ground_theory.specs.declared.literal.Frame.{Frame};
ghost use Rattle.ground_theory.specs.declared.literal.Guard.{Guard};
ghost use Rattle.ground_theory.specs.Forward.{are_forward};
ghost use Rattle.case_split.specs.declared.tree.CaseTree.{CaseTree};
ghost use Rattle.case_split.specs.Cases.{IsCase, IsCounted, IsFullCase, NoFullCase, NoFullCaseBefore};
ghost use Rattle.case_split.specs.Choices.{Choices, is_chosen, stands_before};
ghost use Rattle.case_split.specs.Trails.{IsTrail};
ghost use Rattle.case_split.specs.Trees.{is_closed};

/// Where each guard names an earlier clause, a tree that is closed under some choices excludes
/// every full case that has them all. So a tree that is closed under none leaves no full case.
pub fn closed_trees_exclude()
    ensures under_choices { (clauses : List Clause) (frame : Frame) → are_forward clauses ≡ true
        → (tree : CaseTree) (guards : List Guard) → is_closed clauses frame tree guards ≡ true
        → (full : Choices) → IsFullCase clauses frame full
        → list_all (is_chosen full) guards ≡ true → ⊥ }
    ensures under_none { (clauses : List Clause) (frame : Frame) → are_forward clauses ≡ true
        → (tree : CaseTree) → is_closed clauses frame tree [] ≡ true
        → NoFullCase clauses frame }
{}

/// Nothing stands before itself, what stands before a second and this before a third stands
/// before the third, and of two that differ one stands before the other.
pub fn choices_are_ordered()
    ensures never_itself { (xs : Choices) → stands_before xs xs ≡ false }
    ensures in_turn { (xs ys zs : Choices) → stands_before xs ys ≡ true
        → stands_before ys zs ≡ true → stands_before xs zs ≡ true }
    ensures neither { (xs ys : Choices) → stands_before xs ys ≡ false
        → stands_before ys xs ≡ false → xs ≡ ys }
{}

/// A case that is not full, and before which no full case stands, is counted; and so is each case
/// before a counted one.
pub fn cases_are_counted()
    ensures none_before { (clauses : List Clause) (frame : Frame) (now : Choices)
        → IsCase clauses frame now → length now < length clauses
        → NoFullCaseBefore clauses frame now → IsCounted clauses frame now }
    ensures earlier { (clauses : List Clause) (frame : Frame) (now before : Choices)
        → IsCounted clauses frame now → IsCase clauses frame before
        → stands_before before now ≡ true → IsCounted clauses frame before }
{}

/// A full case that has the decided ways has all that follow from them.
pub fn full_cases_have_trails()
    ensures { (clauses : List Clause) (frame : Frame) (full : Choices)
        → IsFullCase clauses frame full → (decided trail : List Guard)
        → list_all (is_chosen full) decided ≡ true → IsTrail clauses decided [] trail
        → list_all (is_chosen full) trail ≡ true }
{}
