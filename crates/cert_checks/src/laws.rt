//! What accepted certificates of a file say. The functions call other laws or do nothing: each
//! contract is a law, or facts about the definitions in `specs/`.
ghost use Rattle.std.specs.Prelude.{◌≡◌, ℕ, true, List, [], ◌∷◌, None, Some, nat_eq, nat_le};
ghost use Rattle.lint_core.specs.declared.query.Query.{Query as SomeQuery};
ghost use Rattle.lint_core.specs.declared.query.Question.TheVariants.{OneRow, Empty};
ghost use Rattle.lint_core.specs.declared.run.Checked.TheVariants as checked;
ghost use Rattle.lint_core.specs.declared.certificate.Cert.{Cert};
ghost use Rattle.lint_core.specs.declared.run.QueryRun.{QueryRun};
ghost use Rattle.lint_core.specs.declared.schema.Table.{Table};
ghost use Rattle.lint_core.specs.Schema.{is_schema};
ghost use Rattle.cert_checks.specs.Checks.{checked_by, first_lacking};
ghost use Rattle.cert_checks.specs.Named.{AreRead, question_at};
ghost use Rattle.cert_checks.specs.AcceptedLines.{AreProvedLines};

use answer_laws::always_means;
use counter_laws::question_holds_where_the_sentence_fails;
use formula_laws::wrong_steps_are_numbered;
use truth_laws::accepted_sentence_fails;

/// Each certificate whose line says accepted names a question of a read query, and in every
/// database that meets the schema that question holds and means what `AlwaysMeans` says, with the
/// value that the certificate names.
pub fn accepted_lines_hold()
    ensures { (schema : List Table) → is_schema schema ≡ true
        → (queries : List QueryRun) → AreRead schema queries
        → (certs : List Cert) → AreProvedLines schema queries certs }
{
    accepted_sentence_fails();
    wrong_steps_are_numbered();
    question_holds_where_the_sentence_fails();
    always_means();
}

/// Of two E9 and E1 the first E9 without a certificate is found, whatever else has one; E1 is never
/// missed. Wrong steps are told before what lacks. Question 1 is the first, and there is no
/// question 0.
pub fn worked_checks()
    ensures first { first_lacking (nat_eq 2) 1 (OneRow 0 ∷ OneRow 1 ∷ Empty ∷ []) ≡ Some 1 }
    ensures second { first_lacking (nat_eq 1) 1 (OneRow 0 ∷ OneRow 1 ∷ Empty ∷ []) ≡ Some 2 }
    ensures no_e1 { first_lacking (λ n. nat_le n 2) 1 (OneRow 0 ∷ OneRow 1 ∷ Empty ∷ []) ≡ None }
    ensures wrong { checked_by (Some 5) (Some 1) ≡ checked.Refused 5 }
    ensures needs { checked_by None (Some 1) ≡ checked.Needs 1 }
    ensures question_1 { (query : SomeQuery)
        → question_at (record { query = query; asked = OneRow 0 ∷ Empty ∷ [] }) 1
        ≡ Some (record { query = query; before = []; question = OneRow 0 }) }
    ensures question_2 { (query : SomeQuery)
        → question_at (record { query = query; asked = OneRow 0 ∷ Empty ∷ [] }) 2
        ≡ Some (record { query = query; before = OneRow 0 ∷ []; question = Empty }) }
    ensures question_0 { (query : SomeQuery)
        → question_at (record { query = query; asked = OneRow 0 ∷ Empty ∷ [] }) 0 ≡ None }
{}
