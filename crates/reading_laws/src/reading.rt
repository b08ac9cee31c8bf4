//! Laws of reading: a text is one thing, or refused for one cause. The functions do nothing: each
//! contract is a law.
ghost use Rattle.std.specs.Prelude.{ℕ, ◌≡◌, ◌⊎◌, List};
ghost use Rattle.lint_base.specs.declared.place.Span.{Span};
ghost use Rattle.lint_base.specs.declared.place.Refusal.{Refusal};
ghost use Rattle.lint_core.specs.declared.schema.Table.{Table};
ghost use Rattle.lint_core.specs.declared.query.Query.{Query};
ghost use Rattle.sql_reading.specs.TextReading.{ReadsSchema, RefusesSchema, ReadsQuery, RefusesQuery};
ghost use Rattle.reading_laws.specs.SameRefusal.{SameRefusal};

/// Every text declares one schema, or is refused for one cause, and not both. Two refusals of a
/// text are the same but for the place of a Syntax refusal: the definitions do not say yet at
/// which token it is.
pub fn every_schema_text_has_one_reading()
    ensures some { (text : List ℕ) → ((schema : List Table) × ReadsSchema text schema)
        ⊎ ((refusal : Refusal) × RefusesSchema text refusal) }
    ensures one { (text : List ℕ) (schema other : List Table) → ReadsSchema text schema →
        ReadsSchema text other → schema ≡ other }
    ensures apart { (text : List ℕ) (schema : List Table) (refusal : Refusal) →
        ReadsSchema text schema → RefusesSchema text refusal → ⊥ }
    ensures one_refusal { (text : List ℕ) (refusal other : Refusal) → RefusesSchema text refusal →
        RefusesSchema text other → SameRefusal refusal other }
{}

/// Every piece of a text is one query, or refused for one cause, and not both, whatever the
/// schema. Two refusals of a piece are the same but for the place of a Syntax refusal: the
/// definitions do not say yet at which token it is.
pub fn every_query_text_has_one_reading()
    ensures some { (tables : List Table) (text : List ℕ) (piece : Span) →
        ((query : Query) × ReadsQuery tables text piece query)
        ⊎ ((refusal : Refusal) × RefusesQuery tables text piece refusal) }
    ensures one { (tables : List Table) (text : List ℕ) (piece : Span) (query other : Query) →
        ReadsQuery tables text piece query → ReadsQuery tables text piece other → query ≡ other }
    ensures apart { (tables : List Table) (text : List ℕ) (piece : Span) (query : Query)
        (refusal : Refusal) → ReadsQuery tables text piece query →
        RefusesQuery tables text piece refusal → ⊥ }
    ensures one_refusal { (tables : List Table) (text : List ℕ) (piece : Span)
        (refusal other : Refusal) → RefusesQuery tables text piece refusal →
        RefusesQuery tables text piece other → SameRefusal refusal other }
{}
