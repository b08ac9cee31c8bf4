//! The row terms and the ground list of a small example, which the check computes.
ghost use Rattle.std.specs.Prelude.{◌≡◌, [], ◌∷◌};
ghost use Rattle.sorted_skolem.specs.Preorder.{outlines_of};
ghost use Rattle.sorted_skolem.specs.Terms.{row_terms};
ghost use Rattle.instantiate.specs.Examples.{eight_clauses, two_sentences, two_terms};
ghost use Rattle.instantiate.specs.Ground.{clauses_of};

/// Two sentences have two row terms and eight clauses.
pub fn worked_ground_list()
    ensures terms { row_terms (outlines_of two_sentences) (0 ∷ 1 ∷ []) ≡ two_terms }
    ensures clauses { clauses_of (outlines_of two_sentences) (0 ∷ 1 ∷ []) two_terms
        ≡ eight_clauses }
{}
