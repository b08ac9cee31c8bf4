//! That the counter sentences of the questions asked of a query that fits do so too, and are
//! sentences. The functions call other laws and do nothing else: each contract is a law about the
//! definitions in `specs/`.
ghost use Rattle.std.specs.Prelude.{◌≡◌, ◌^◌, true, List, []};
ghost use Rattle.lint_core.specs.declared.condition.Cond.{Cond as Condition};
ghost use Rattle.lint_core.specs.declared.database.Value.{Value};
ghost use Rattle.lint_core.specs.declared.query.Query.{Query};
ghost use Rattle.lint_core.specs.declared.query.Question.{Question};
ghost use Rattle.lint_core.specs.declared.schema.Table.{Table};
ghost use Rattle.lint_core.specs.declared.scope.Scope.{Scope};
ghost use Rattle.lint_core.specs.Asked.{is_asked, main_condition};
ghost use Rattle.lint_core.specs.Fits.{query_fits};
ghost use Rattle.sort_formula.specs.Bounds.{is_within};
ghost use Rattle.sort_formula.specs.Counters.{counter_sentence};
ghost use Rattle.sort_formula.specs.Sentences.{formula_fits, is_sentence};
ghost use Rattle.sort_formula.specs.Translation.{is_true_formula, is_false_formula};
ghost use Rattle.counter_forms.specs.SmallNumbers.{has_small_numbers, value_is_small};

use question_truths::parts_of_queries_fit;

/// The counter sentence of a question that is asked of a query that fits the schema fits it too:
/// its tables and columns exist, and it compares cells of one kind.
pub fn asked_sentences_fit()
    ensures { (schema : List Table) (query : Query) (question : Question) (given : Value)
        → query_fits schema query ≡ true → is_asked schema query question ≡ true
        → formula_fits schema (counter_sentence schema query question given) [] ≡ true }
{
    parts_of_queries_fit();
}

/// Where the numbers of a condition have 64 bits, the bounds of its formulas lie within plus or
/// minus 2^64; and so do those of each counter sentence of a query with such numbers, for E3 with
/// such a value.
pub fn small_numbers_give_small_bounds()
    ensures says_true { (schema : List Table) (cond : Condition) (scope : Scope)
        → has_small_numbers cond ≡ true
        → is_within (2 ^ 64) (is_true_formula schema cond scope) ≡ true }
    ensures says_false { (schema : List Table) (cond : Condition) (scope : Scope)
        → has_small_numbers cond ≡ true
        → is_within (2 ^ 64) (is_false_formula schema cond scope) ≡ true }
    ensures counter { (schema : List Table) (query : Query) (question : Question) (given : Value)
        → has_small_numbers (main_condition query) ≡ true → value_is_small given ≡ true
        → is_within (2 ^ 64) (counter_sentence schema query question given) ≡ true }
{}

/// The counter sentence of a question that is asked of a query that fits is a sentence where its
/// bounds lie within plus or minus 2^66 (`moderate`): each variable is bound, and Same and Other
/// join variables of one table. So it is where the query's numbers have 64 bits, for E3 with such
/// a value (`small`).
pub fn asked_sentences_are_sentences()
    ensures moderate { (schema : List Table) (query : Query) (question : Question) (given : Value)
        → query_fits schema query ≡ true → is_asked schema query question ≡ true
        → is_within (2 ^ 66) (counter_sentence schema query question given) ≡ true
        → is_sentence (counter_sentence schema query question given) ≡ true }
    ensures small { (schema : List Table) (query : Query) (question : Question) (given : Value)
        → query_fits schema query ≡ true → is_asked schema query question ≡ true
        → has_small_numbers (main_condition query) ≡ true → value_is_small given ≡ true
        → is_sentence (counter_sentence schema query question given) ≡ true }
{
    parts_of_queries_fit();
}
