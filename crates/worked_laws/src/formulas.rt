//! The translations, sentences and accepted steps by small examples. The functions do nothing:
//! each contract is facts about the definitions in `specs/`.
ghost use Rattle.std.specs.Prelude.{◌≡◌, pos, neg_ℤ, true, false, List, [], ◌∷◌, ◌++◌, take, Some, None};
ghost use Rattle.lint_tables.specs.declared.op.Op.TheVariants.{Ne};
ghost use Rattle.lint_core.specs.declared.condition.Cond.TheVariants.{Compare};
ghost use Rattle.worked_laws.specs.Examples.{nowhere, number, the_column, plain, unique, select_distinct, above_the_row, rows};
ghost use Rattle.lint_core.specs.declared.database.Points.TheVariants.{Two, Without};
ghost use Rattle.lint_core.specs.declared.database.Value.TheVariants.{Null};
ghost use Rattle.lint_core.specs.declared.query.Question.TheVariants.{OneRow, NeedlessDistinct, NeedlessJoin};
ghost use Rattle.sort_formula.specs.declared.formula.Formula.TheVariants.{Atom as Fact, And, Or, Exists, Forall};
ghost use Rattle.sort_formula.specs.declared.formula.Atom.TheVariants.{Le, IsNull, Same, Other};
ghost use Rattle.sort_formula.specs.declared.formula.Side.TheVariants.{Cell, Zero};
ghost use Rattle.sort_formula.specs.Axioms.{axioms};
ghost use Rattle.sort_formula.specs.Certificate.{accepts, wrong_step};
ghost use Rattle.sort_formula.specs.CounterPoints.{points_of};
ghost use Rattle.sort_formula.specs.Counters.{counter, counter_sentence};
ghost use Rattle.worked_laws.specs.FormulaExamples.{two_rows_agree, refuted_by_key, texts, is_both, refuted_by_texts, at_most, mixed, middle};
ghost use Rattle.sort_formula.specs.Negated.{negated};
ghost use Rattle.sort_formula.specs.Placed.{placed};
ghost use Rattle.sort_formula.specs.Sentences.{is_sentence, formula_fits};
ghost use Rattle.lint_core.specs.declared.scope.Scope.{Scope};
ghost use Rattle.sort_formula.specs.Translation.{is_true_formula};

/// That a column differs from 5 says that it is at most 4 or at least 6; a key says of any two
/// rows that they are one, or one has a NULL, or the columns differ. DISTINCT is needed where two
/// rows are not distinct: both NULL, or equal.
pub fn worked_formulas()
    ensures differs { let scope : Scope = record {
      levels = (0 ∷ []) ∷ [];
      tables = (0 ∷ [])
          ∷ [];
      depth = 1;
    } in
        is_true_formula plain (Compare Ne the_column (number 5) nowhere) scope
        ≡ Or (Fact (Le (Cell 0 0) Zero (pos 4)) ∷ Fact (Le Zero (Cell 0 0) (neg_ℤ (pos 6))) ∷ []) }
    ensures key { axioms unique ≡ record {
      sentence = Forall 0 (Forall 0 (Or (Fact (Same 0 1) ∷ Fact (IsNull 0 0) ∷ Fact (IsNull 1 0)
          ∷ Fact (Le (Cell 0 0) (Cell 1 0) (neg_ℤ (pos 1)))
          ∷ Fact (Le (Cell 1 0) (Cell 0 0) (neg_ℤ (pos 1))) ∷ [])));
      key = None;
    } ∷ [] }
    ensures no_constraint { axioms plain ≡ [] }
    ensures needless_distinct { counter_sentence plain select_distinct NeedlessDistinct Null
        ≡ Exists 0 (Exists 0 (And (And [] ∷ And [] ∷ Or (Fact (Other 0 1) ∷ [])
        ∷ Or (And (Fact (IsNull 0 0) ∷ Fact (IsNull 1 0) ∷ [])
        ∷ And (Fact (Le (Cell 0 0) (Cell 1 0) (pos 0)) ∷ Fact (Le (Cell 1 0) (Cell 0 0) (pos 0))
        ∷ []) ∷ []) ∷ []))) }
{}

/// A counter sentence is a lead and a body, and the places of the leading rows make points. Of a
/// scalar subquery in a query there are two rows of its entry beside one of the query's; of
/// DISTINCT two rows of each entry; of a needless join one row of each other entry, and none or
/// two of the one in the middle.
pub fn worked_counters()
    ensures two_rows_inside { counter plain above_the_row (OneRow 0) Null
        ≡ record {
          lead = 0 ∷ 0 ∷ 0
              ∷ [];
          body = And (And [] ∷ And [] ∷ Or (Fact (Other 1 2) ∷ []) ∷ []);
        } }
    ensures two_inside { points_of above_the_row (OneRow 0) (5 ∷ 6 ∷ 7 ∷ []) None
        ≡ Two (rows ((5 ∷ []) ∷ (6 ∷ []) ∷ [])) (rows ((5 ∷ []) ∷ (7 ∷ []) ∷ [])) }
    ensures two_of_the_entry { (counter plain select_distinct NeedlessDistinct Null).lead ≡ 0 ∷ 0
        ∷ [] }
    ensures two_apart { points_of select_distinct NeedlessDistinct (3 ∷ 4 ∷ []) None
        ≡ Two (rows ((3 ∷ []) ∷ [])) (rows ((4 ∷ []) ∷ [])) }
    ensures none_or_two { counter plain middle (NeedlessJoin 1) Null
        ≡ record {
          lead = 0 ∷ 2 ∷ [];
          body = And (And [] ∷ Or (Forall 1 (Or []) ∷ Exists 1 (Exists 1 (And (And []
              ∷ And [] ∷ Fact (Other 2 3) ∷ []))) ∷ []) ∷ []);
        } }
    ensures none_fits { points_of middle (NeedlessJoin 1) (4 ∷ 6 ∷ []) None
        ≡ Without (rows ((4 ∷ 6 ∷ []) ∷ [])) }
    ensures two_fit { points_of middle (NeedlessJoin 1) (4 ∷ 6 ∷ []) (Some (8, 9))
        ≡ Two (rows ((4 ∷ 8 ∷ 6 ∷ []) ∷ [])) (rows ((4 ∷ 9 ∷ 6 ∷ []) ∷ [])) }
{}

/// Steps that name the right facts are accepted; not so where one names another fact, where some
/// are left out, or where the two texts that a chain joins are the same.
pub fn worked_steps()
    ensures key { accepts unique two_rows_agree (refuted_by_key 9) ≡ true }
    ensures misnamed { accepts unique two_rows_agree (refuted_by_key 8) ≡ false }
    ensures left_out { accepts unique two_rows_agree [] ≡ false }
    ensures two_texts { accepts texts (is_both 97 98) refuted_by_texts ≡ true }
    ensures one_text { accepts texts (is_both 97 97) refuted_by_texts ≡ false }
{}

/// Accepted steps have no number of a first wrong one. A step that names another fact has its own;
/// a missing one that behind the last, be there no step or two; one left over that of the first.
pub fn worked_wrong_steps()
    ensures accepted { wrong_step unique two_rows_agree (refuted_by_key 9) ≡ None }
    ensures misnamed { wrong_step unique two_rows_agree (refuted_by_key 8) ≡ Some 7 }
    ensures no_step { wrong_step unique two_rows_agree [] ≡ Some 1 }
    ensures last_missing { wrong_step texts (is_both 97 98) (take 2 refuted_by_texts) ≡ Some 3 }
    ensures left_over { wrong_step texts (is_both 97 98) (refuted_by_texts ++ refuted_by_texts)
        ≡ Some 4 }
    ensures one_text { wrong_step texts (is_both 97 97) refuted_by_texts ≡ Some 3 }
{}

/// A comparison fails where its cell is NULL or where the opposite one holds, up to the ends of
/// i128. In another place the two variables of `Same` are those that they are renamed to.
pub fn worked_rewritings()
    ensures greatest { negated (at_most 0 (pos 170141183460469231731687303715884105727))
        ≡ Or (Fact (IsNull 0 0)
        ∷ Fact (Le Zero (Cell 0 0) (neg_ℤ (pos 170141183460469231731687303715884105728))) ∷ []) }
    ensures least { negated (at_most 0 (neg_ℤ (pos 170141183460469231731687303715884105728)))
        ≡ Or (Fact (IsNull 0 0)
        ∷ Fact (Le Zero (Cell 0 0) (pos 170141183460469231731687303715884105727)) ∷ []) }
    ensures renamed { placed (2 ∷ 0 ∷ []) 3 (Fact (Same 0 1)) ≡ Fact (Same 2 0) }
{}

/// Bounds of a sentence lie within plus and minus 2^66, and `Same` joins rows of one table. A
/// sentence fits a schema where its tables exist and `Le` compares numbers.
pub fn worked_sentences()
    ensures greatest { is_sentence (Exists 0 (at_most 0 (pos 73786976294838206464))) ≡ true }
    ensures above { is_sentence (Exists 0 (at_most 0 (pos 73786976294838206465))) ≡ false }
    ensures least { is_sentence (Exists 0 (at_most 0 (neg_ℤ (pos 73786976294838206464)))) ≡ true }
    ensures below { is_sentence (Exists 0 (at_most 0 (neg_ℤ (pos 73786976294838206465)))) ≡ false }
    ensures one_table { is_sentence (Exists 0 (Exists 0 (Fact (Same 0 1)))) ≡ true }
    ensures two_tables { is_sentence (Exists 0 (Exists 1 (Fact (Same 0 1)))) ≡ false }
    ensures numbers { formula_fits mixed (Exists 0 (at_most 0 (pos 3))) [] ≡ true }
    ensures texts { formula_fits mixed (Exists 0 (at_most 1 (pos 3))) [] ≡ false }
    ensures no_table { formula_fits mixed (Exists 1 (at_most 0 (pos 3))) [] ≡ false }
{}
