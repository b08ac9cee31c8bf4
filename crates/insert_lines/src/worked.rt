//! The INSERT statements of small databases, which the check computes.
ghost use Rattle.std.specs.Prelude.{◌≡◌, ◌++◌, [], ◌∷◌, codes};
ghost use Rattle.insert_lines.specs.Examples.{three_tables, going_round, own_key, some_rows};
ghost use Rattle.insert_lines.specs.InsertOrder.{insert_order};
ghost use Rattle.insert_lines.specs.InsertText.{insert_text};

/// The rows of a table stand behind those that they may refer to, and under keys that go round, or
/// a key to the own table, in schema order. Names that are no plain words and texts are quoted.
pub fn worked_inserts()
    ensures order { insert_order three_tables ≡ 2 ∷ 1 ∷ 0 ∷ [] }
    ensures round { insert_order going_round ≡ 0 ∷ 1 ∷ 2 ∷ [] }
    ensures own { insert_order own_key ≡ 0 ∷ 1 ∷ [] }
    ensures text { insert_text three_tables some_rows
        ≡ codes "INSERT INTO \"SELECT\" VALUES (NULL);\n"
        ++ codes "INSERT INTO EMP VALUES (7, NULL);\nINSERT INTO EMP VALUES ('it''s', 0);\n" }
{}
