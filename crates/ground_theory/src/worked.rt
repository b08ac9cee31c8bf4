//! Leaves by small examples. The function does nothing: its contract is facts about the
//! definitions in `specs/`.
ghost use Rattle.std.specs.Prelude.{◌≡◌, true, false, [], ◌∷◌, None};
ghost use Rattle.lint_core.specs.declared.certificate.Step.TheVariants as step;
ghost use Rattle.lint_core.specs.declared.certificate.SumEdge.TheVariants.{Fact, Low, High, Same, Back};
ghost use Rattle.lint_core.specs.declared.certificate.TextEdge.TheVariants as edge;
ghost use Rattle.ground_theory.specs.Edges.{sum_edges};
ghost use Rattle.ground_theory.specs.Fitting.{all_fit};
ghost use Rattle.ground_theory.specs.Leaves.{is_right_leaf};
ghost use Rattle.ground_theory.specs.SumLeaf.{sum_leaf};
ghost use Rattle.ground_theory.specs.TextEdges.{text_edges};
ghost use Rattle.ground_theory.specs.TextLeaf.{text_leaf};
ghost use Rattle.ground_theory.specs.Examples.{numbers, low, high, loop, texts, two_texts, two_facts};

/// A ring from the cell of row term 0 on is turned to begin at zero, with the Low at the row that
/// the Le names; with the Low at the other row it is not right. The High stands at the row that
/// the Le names too. A ring without zero stays as it is. A chain of texts may begin at the right
/// side of its first fact.
pub fn worked_leaves()
    ensures low_fits { all_fit numbers low ≡ true }
    ensures low_edges { sum_edges numbers low
        ≡ Same 0 0 ∷ Back 0 0 ∷ Fact 1 ∷ Low 1 0 ∷ High 1 0 ∷ [] }
    ensures low_leaf { sum_leaf numbers low (Low 0 0 ∷ Same 0 0 ∷ Fact 1 ∷ []) (1 ∷ 2 ∷ 0 ∷ [])
        ≡ step.Sum (Low 1 0 ∷ Fact 1 ∷ []) }
    ensures low_right { is_right_leaf numbers low (step.Sum (Low 1 0 ∷ Fact 1 ∷ [])) ≡ true }
    ensures low_elsewhere { is_right_leaf numbers low (step.Sum (Low 0 0 ∷ Same 0 0 ∷ Fact 1 ∷ []))
        ≡ false }
    ensures high_leaf { sum_leaf numbers high (Fact 0 ∷ Back 1 0 ∷ High 2 0 ∷ []) (2 ∷ 0 ∷ 1 ∷ [])
        ≡ step.Sum (Fact 0 ∷ High 1 0 ∷ []) }
    ensures high_right { is_right_leaf numbers high (step.Sum (Fact 0 ∷ High 1 0 ∷ [])) ≡ true }
    ensures loop_leaf { sum_leaf numbers loop (Fact 0 ∷ Back 1 0 ∷ []) (0 ∷ 1 ∷ [])
        ≡ step.Sum (Fact 0 ∷ Back 1 0 ∷ []) }
    ensures text_edges { text_edges texts two_texts
        ≡ edge.Fact 0 ∷ edge.Same 1 0 ∷ edge.Fact 2 ∷ [] }
    ensures text_leaf { text_leaf (text_edges texts two_texts) two_facts None (0 ∷ 1 ∷ 2 ∷ [])
        ≡ step.Text None (edge.FactBack 0 ∷ edge.Same 1 0 ∷ edge.FactBack 2 ∷ []) }
    ensures text_right { is_right_leaf texts two_texts
        (step.Text None (edge.FactBack 0 ∷ edge.Same 1 0 ∷ edge.FactBack 2 ∷ [])) ≡ true }
{}
