//! Laws of the grammar of SQL. The functions do nothing: each contract is a law.
ghost use Rattle.std.specs.Prelude.{◌≡◌, List, [], ◌∷◌, map, codes};
ghost use Rattle.sql_tree.specs.declared.select.CondTree.{CondTree};
ghost use Rattle.lint_tables.specs.Words.{place_of, reserved};
ghost use Rattle.sql_parse.specs.grammar.Words.{ALL, AND, AS, BETWEEN, BY, CHECK, CONSTRAINT, CREATE, CROSS, DISTINCT, EXISTS, FOREIGN, FROM, IN, INNER, IS, JOIN, NOT, NULL, ON, OR, ORDER, PRIMARY, REFERENCES, SELECT, TABLE, UNIQUE, WHERE};
ghost use Rattle.sql_parse.specs.grammar.Selects.{SpellsCond, Disjunction};
ghost use Rattle.sql_parse.specs.grammar.Queries.{SpellsQuery};
ghost use Rattle.sql_parse.specs.grammar.Tables.{SpellsCreate};
ghost use Rattle.sql_parse.specs.grammar.Schemas.{SpellsSchema};
ghost use Rattle.reading_laws.specs.Examples as example;

/// Each reserved word of the grammar has the place of its text in the list of the reserved words.
pub fn grammar_words_are_reserved()
    ensures a_to_c { map (place_of reserved) (codes "ALL" ∷ codes "AND" ∷ codes "AS" ∷
        codes "BETWEEN" ∷ codes "BY" ∷ codes "CHECK" ∷ codes "CONSTRAINT" ∷ codes "CREATE" ∷
        codes "CROSS" ∷ [])
        ≡ map Some (ALL ∷ AND ∷ AS ∷ BETWEEN ∷ BY ∷ CHECK ∷ CONSTRAINT ∷ CREATE ∷ CROSS ∷ []) }
    ensures d_to_n { map (place_of reserved) (codes "DISTINCT" ∷ codes "EXISTS" ∷
        codes "FOREIGN" ∷ codes "FROM" ∷ codes "IN" ∷ codes "INNER" ∷ codes "IS" ∷ codes "JOIN" ∷
        codes "NOT" ∷ codes "NULL" ∷ [])
        ≡ map Some
        (DISTINCT ∷ EXISTS ∷ FOREIGN ∷ FROM ∷ IN ∷ INNER ∷ IS ∷ JOIN ∷ NOT ∷ NULL ∷ []) }
    ensures o_to_w { map (place_of reserved) (codes "ON" ∷ codes "OR" ∷ codes "ORDER" ∷
        codes "PRIMARY" ∷ codes "REFERENCES" ∷ codes "SELECT" ∷ codes "TABLE" ∷ codes "UNIQUE" ∷
        codes "WHERE" ∷ [])
        ≡ map Some
        (ON ∷ OR ∷ ORDER ∷ PRIMARY ∷ REFERENCES ∷ SELECT ∷ TABLE ∷ UNIQUE ∷ WHERE ∷ []) }
{}

/// What some texts spell: AND binds before OR and NOT before both; parentheses leave nothing; NOT
/// does not stand before NOT; the rest is said above each example.
pub fn grammar_examples()
    ensures or { SpellsCond Disjunction example.or_tree example.or_tokens }
    ensures equation { SpellsCond Disjunction example.equation_tree example.equation_tokens }
    ensures parenthesized { SpellsCond Disjunction example.equation_tree
        example.parenthesized_tokens }
    ensures not_in { SpellsCond Disjunction example.not_in_tree example.not_in_tokens }
    ensures sum { SpellsCond Disjunction example.sum_tree example.sum_tokens }
    ensures exists { SpellsCond Disjunction example.exists_tree example.exists_tokens }
    ensures scalar { SpellsCond Disjunction example.scalar_tree example.scalar_tokens }
    ensures not_not { (tree : CondTree) → SpellsCond Disjunction tree example.not_not_tokens → ⊥ }
    ensures query { SpellsQuery example.query_tree example.query_tokens }
    ensures table { SpellsCreate example.table_tree example.table_tokens }
    ensures schema { SpellsSchema example.schema_trees example.schema_tokens }
{}
