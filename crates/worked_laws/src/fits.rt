//! Which schemas there are, and what fits one, by small examples: lists of what is accepted and of
//! what is not. The functions do nothing: their contracts are facts about the definitions in
//! `specs/`.
ghost use Rattle.std.specs.Prelude.{◌≡◌, pos, true, false, [], ◌∷◌, map};
ghost use Rattle.std.specs.List.{list_all, list_any, flat_map};
ghost use Rattle.lint_tables.specs.declared.op.Op.TheVariants.{Eq, Ne, Lt, Le, Gt, Ge};
ghost use Rattle.lint_core.specs.declared.condition.Cond.TheVariants.{True};
ghost use Rattle.lint_core.specs.declared.condition.Term.TheVariants.{Cell, Null};
ghost use Rattle.lint_core.specs.declared.schema.Domain.TheVariants.{Text};
ghost use Rattle.lint_core.specs.DatabaseFits.{database_fits};
ghost use Rattle.lint_core.specs.Fits.{query_fits};
ghost use Rattle.worked_laws.specs.FitExamples.{number_and_text, cell, the_number, the_text, inner_number, inner_text, five, word, is_null, with_scalar, not_in, exists, two_levels_in, trues, query_where, selection, tables_of_widths, rows_of_widths};
ghost use Rattle.lint_core.specs.Schema.{is_schema};
ghost use Rattle.worked_laws.specs.SchemaExamples.{numbers, with_domain, with_sizes, with_key, with_foreign, with_check, comparison, each_form};

/// Schemas by their domains, sizes, keys and foreign keys.
pub fn worked_schemas()
    ensures known_domains { list_all is_schema (map with_domain (
        numbers 32768 32767 ∷ numbers 2147483648 2147483647
        ∷ numbers 9223372036854775808 9223372036854775807
        ∷ Text 1 ∷ Text 65535 ∷ [])) ≡ true }
    ensures other_domains { list_any is_schema (map with_domain (
        numbers 32768 32766 ∷ numbers 32767 32767 ∷ numbers 0 65535 ∷ numbers 32768 2147483647
        ∷ Text 0 ∷ Text 65536 ∷ [])) ≡ false }

    // how many tables, columns, keys, CHECKs and foreign keys
    ensures sizes { list_all is_schema (map with_sizes (
        (1, 0, 0, 0, 0) ∷ (200, 1, 1, 1, 1) ∷ (1, 64, 1, 1, 1)
        ∷ (1, 1, 1000, 1, 1) ∷ (1, 1, 1, 1000, 1) ∷ (1, 1, 1, 1, 1000) ∷ [])) ≡ true }
    ensures too_many { list_any is_schema (map with_sizes (
        (201, 1, 1, 1, 1) ∷ (1, 65, 1, 1, 1)
        ∷ (1, 1, 1001, 1, 1) ∷ (1, 1, 1, 1001, 1) ∷ (1, 1, 1, 1, 1001) ∷ [])) ≡ false }

    ensures keys { list_all is_schema (map with_key ((2 ∷ []) ∷ (0 ∷ 1 ∷ []) ∷ [])) ≡ true }
    ensures keys_of_no_column { list_any is_schema (map with_key ((3 ∷ []) ∷ (1 ∷ 3 ∷ []) ∷ []))
        ≡ false }

    // columns of the second table, the number of a table, and columns there; a SMALLINT may stand
    // beside an INTEGER,
    // and the columns of a key in either order
    ensures foreign_keys { list_all is_schema (map with_foreign (
        (2 ∷ [], 0, 0 ∷ []) ∷ (0 ∷ [], 0, 0 ∷ []) ∷ (2 ∷ [], 1, 0 ∷ [])
        ∷ (0 ∷ 1 ∷ [], 0, 1 ∷ 2 ∷ []) ∷ (1 ∷ 0 ∷ [], 0, 2 ∷ 1 ∷ []) ∷ [])) ≡ true }
    ensures to_other_kinds { list_any is_schema (map with_foreign (
        (1 ∷ [], 0, 0 ∷ []) ∷ (1 ∷ 0 ∷ [], 0, 1 ∷ 2 ∷ []) ∷ [])) ≡ false }
    ensures to_nothing { list_any is_schema (map with_foreign (
        (3 ∷ [], 0, 0 ∷ []) ∷ (2 ∷ [], 0, 4 ∷ []) ∷ (2 ∷ [], 2, 0 ∷ []) ∷ [])) ≡ false }
    // to a part of a key, and to lists that repeat a column
    ensures to_no_key { list_any is_schema (map with_foreign (
        (0 ∷ [], 0, 1 ∷ []) ∷ (0 ∷ 0 ∷ [], 0, 1 ∷ 1 ∷ []) ∷ (0 ∷ 1 ∷ 0 ∷ [], 0, 1 ∷ 2 ∷ 1 ∷ [])
        ∷ [])) ≡ false }
    ensures not_as_many { list_any is_schema (map with_foreign (
        (0 ∷ 1 ∷ [], 0, 1 ∷ []) ∷ (0 ∷ [], 0, 1 ∷ 2 ∷ []) ∷ [])) ≡ false }
{}

/// CHECKs of a table of a number and a text, alone and as parts of others. A CHECK speaks of one
/// row of its table.
pub fn worked_checks()
    ensures fitting { list_all is_schema (map with_check (flat_map each_form (map comparison (
        (Cell 0 0 0 (pos 1), Lt, five) ∷ [])))) ≡ true }
    ensures of_no_column { list_any is_schema (map with_check (flat_map each_form (map comparison (
        (cell 0 1 0, Lt, five) ∷ (cell 1 0 0, Lt, five) ∷ (cell 0 0 2, Lt, five) ∷ [])))) ≡ false }
    ensures texts_in_order { list_any is_schema
        (map with_check (flat_map each_form (map comparison (
        (the_text, Lt, word) ∷ [])))) ≡ false }
    ensures with_subquery { list_any is_schema (map with_check (each_form (exists True))) ≡ false }
    ensures most_conditions { is_schema (with_check (trues 65535)) ≡ true }
    ensures too_many_conditions { is_schema (with_check (trues 65536)) ≡ false }
{}

/// Queries over two rows of a table of a number and a text: what they compare, select and order
/// by.
pub fn worked_fitting()
    ensures of_one_kind { list_all (query_fits number_and_text) (map query_where (map comparison (
        (Cell 0 1 0 (pos 7), Lt, five) ∷ (the_text, Eq, word) ∷ (the_text, Ne, the_text) ∷ [])))
        ≡ true }
    ensures of_no_column { list_any (query_fits number_and_text) (map query_where (map comparison (
        (cell 1 0 0, Eq, five) ∷ (cell 0 2 0, Eq, five) ∷ (cell 0 0 2, Eq, five)
        ∷ (five, Eq, cell 0 0 2) ∷ []))) ≡ false }
    ensures texts_in_order { list_any (query_fits number_and_text)
        (map query_where (map comparison (
        (the_text, Lt, word) ∷ (word, Ge, the_text) ∷ []))) ≡ false }
    ensures numbers_with_texts { list_any (query_fits number_and_text)
        (map query_where (map comparison (
        (the_number, Eq, word) ∷ (the_text, Ne, five) ∷ []))) ≡ false }
    ensures with_null { list_all (query_fits number_and_text) (map query_where (map comparison (
        (the_number, Lt, Null) ∷ (Null, Eq, the_text) ∷ (Null, Ge, Null) ∷ []))) ≡ true }
    ensures texts_in_order_with_null { list_any (query_fits number_and_text)
        (map query_where (map comparison (
        (Null, Gt, the_text) ∷ (the_text, Le, Null) ∷ []))) ≡ false }
    ensures added_to_a_text { list_any (query_fits number_and_text)
        (map query_where (map comparison (
        (Cell 0 0 1 (pos 1), Eq, the_text) ∷ []))) ≡ false }

    // IS NULL, alone and as a part of others
    ensures is_null_of { list_all (query_fits number_and_text)
        (map query_where (flat_map each_form (map is_null (
        Cell 0 0 0 (pos 1) ∷ the_text ∷ Null ∷ word ∷ [])))) ≡ true }
    ensures is_null_of_nothing { list_any (query_fits number_and_text)
        (map query_where (flat_map each_form (map is_null (
        Cell 0 0 1 (pos 1) ∷ cell 0 0 2 ∷ [])))) ≡ false }

    // the item, how many times, the key, the number of the table, how many times
    ensures selections { list_all (query_fits number_and_text) (map selection (
        (the_text, 256, the_number, 0, 16) ∷ (word, 1, the_number, 0, 1)
        ∷ (the_number, 1, five, 0, 1) ∷ [])) ≡ true }
    ensures too_many { list_any (query_fits number_and_text) (map selection (
        (the_text, 257, the_number, 0, 16) ∷ (the_text, 1, the_number, 0, 17) ∷ [])) ≡ false }
    ensures of_no_table { list_any (query_fits number_and_text) (map selection (
        (the_text, 1, the_number, 1, 1) ∷ (cell 0 1 0, 1, the_number, 0, 1)
        ∷ (the_number, 1, cell 0 0 2, 0, 1) ∷ [])) ≡ false }
    ensures added { list_any (query_fits number_and_text) (map selection (
        (Cell 0 0 0 (pos 1), 1, the_number, 0, 1) ∷ (the_number, 1, Cell 0 0 0 (pos 1), 0, 1)
        ∷ [])) ≡ false }

    // the condition and its parts count, those of subqueries too
    ensures most_conditions { list_all (query_fits number_and_text) (map query_where (
        trues 65535 ∷ exists (trues 65534) ∷ [])) ≡ true }
    ensures too_many_conditions { list_any (query_fits number_and_text) (map query_where (
        trues 65536 ∷ exists (trues 65535) ∷ [])) ≡ false }
{}

/// Subqueries in such queries.
pub fn worked_subqueries()
    // left, operator, item, table, and what the filter compares with 5
    ensures of_one_kind { list_all (query_fits number_and_text) (map query_where (map with_scalar (
        (the_number, Lt, inner_number, 0, the_number)
        ∷ (the_number, Lt, the_number, 0, inner_number)
        ∷ (the_text, Eq, inner_text, 0, inner_number) ∷ (the_number, Eq, Null, 0, inner_number)
        ∷ []))) ≡ true }
    ensures of_other_kinds { list_any (query_fits number_and_text)
        (map query_where (map with_scalar (
        (the_text, Lt, inner_text, 0, inner_number) ∷ (the_number, Eq, inner_text, 0, inner_number)
        ∷ (the_number, Eq, inner_number, 0, inner_text) ∷ []))) ≡ false }
    ensures of_nothing { list_any (query_fits number_and_text) (map query_where (map with_scalar (
        (inner_number, Eq, inner_number, 0, inner_number)
        ∷ (the_number, Eq, cell 1 1 0, 0, inner_number)
        ∷ (the_number, Eq, cell 2 0 0, 0, inner_number) ∷ (the_number, Eq, five, 1, five)
        ∷ (the_number, Eq, inner_number, 0, cell 1 0 2) ∷ []))) ≡ false }
    ensures added { list_any (query_fits number_and_text) (map query_where (map with_scalar (
        (the_number, Eq, Cell 1 0 0 (pos 1), 0, inner_number) ∷ []))) ≡ false }

    // the item that a text is compared with, and what the filter compares with a number
    ensures in_texts { query_fits number_and_text (query_where (not_in (inner_text, inner_number)))
        ≡ true }
    ensures in_others { list_any (query_fits number_and_text) (map query_where (map not_in (
        (inner_number, inner_number) ∷ (inner_text, inner_text) ∷ (inner_text, cell 1 1 0) ∷ [])))
        ≡ false }

    // what the inner of two EXISTS compares with a number of the outer one
    ensures of_the_inner { query_fits number_and_text (query_where (two_levels_in (cell 2 0 0)))
        ≡ true }
    ensures of_others { list_any (query_fits number_and_text) (map query_where (map two_levels_in (
        cell 2 1 0 ∷ inner_text ∷ []))) ≡ false }
{}

/// Databases of tables of three and of six columns: how many values their rows have.
pub fn worked_databases()
    ensures fitting { database_fits (tables_of_widths (3 ∷ 6 ∷ [])) (rows_of_widths (3 ∷ 6 ∷ []))
        ≡ true }
    ensures other { list_any (database_fits (tables_of_widths (3 ∷ 6 ∷ []))) (map rows_of_widths (
        (3 ∷ 5 ∷ []) ∷ (4 ∷ 6 ∷ []) ∷ (3 ∷ []) ∷ (3 ∷ 6 ∷ 0 ∷ []) ∷ [])) ≡ false }
{}
