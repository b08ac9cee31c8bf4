//! Texts that are known by hand, which the check computes. The functions do nothing: their
//! contracts are the laws.
ghost use Rattle.std.specs.Prelude.{◌≡◌, ◌++◌, [], ◌∷◌, Some, codes};
ghost use Rattle.insert_lines.specs.Examples.{three_tables, going_round};
ghost use Rattle.lint_core.specs.declared.database.Points.TheVariants.{One, Two, Without};
ghost use Rattle.lint_core.specs.declared.query.Question.TheVariants as asked;
ghost use Rattle.lint_core.specs.declared.run.Answer.TheVariants as answer;
ghost use Rattle.lint_report.specs.QuestionPlaces.{question_place};
ghost use Rattle.lint_report.specs.Text.{answer_text, checks_text};
ghost use Rattle.lint_report.specs.Worked.{AlwaysText, NotAlwaysText, RefusedText, LongText, StepsText, AskedText, five, inner_rows, counter_at, dept_key, three_checks, from_to, placed};

/// The reports of runs that are known by hand, and the text of the steps of every kind.
pub fn worked_texts()
    ensures always { AlwaysText }
    ensures not_always { NotAlwaysText }
    ensures refused { RefusedText }
    ensures long { LongText }
    ensures steps { StepsText }
{}

/// The code of each question, with its number and its place.
pub fn worked_codes()
    ensures one_row { AskedText (asked.OneRow 0) (codes "  3 E9 at 7..11: ") }
    ensures empty { AskedText asked.Empty (codes "  3 E1 at 7..11: ") }
    ensures distinct { AskedText asked.NeedlessDistinct (codes "  3 E2 at 7..11: ") }
    ensures constant { AskedText (asked.Constant 1) (codes "  3 E3 at 7..11: ") }
    ensures duplicate { AskedText (asked.Duplicate 0 1) (codes "  3 E4 at 7..11: ") }
    ensures join { AskedText (asked.NeedlessJoin 0) (codes "  3 E5 at 7..11: ") }
    ensures implied { AskedText (asked.Implied 2) (codes "  3 E6 at 7..11: ") }
    ensures impossible { AskedText (asked.Impossible 2) (codes "  3 E7 at 7..11: ") }
    ensures same_row { AskedText (asked.SameRow 0 1) (codes "  3 E8 at 7..11: ") }
    ensures null_in_not_in { AskedText (asked.NullInNotIn 0) (codes "  3 E10 at 7..11: ") }
{}

/// Where the questions of a query stand that has two entries, two items, DISTINCT, a scalar
/// subquery, and a NOT IN subquery with a predicate inside.
pub fn worked_places()
    ensures one_row { question_place placed (asked.OneRow 0) ≡ Some (from_to 45 62) }
    ensures empty { question_place placed asked.Empty ≡ Some (from_to 0 109) }
    ensures distinct { question_place placed asked.NeedlessDistinct ≡ Some (from_to 7 15) }
    ensures constant { question_place placed (asked.Constant 0) ≡ Some (from_to 16 17) }
    ensures duplicate { question_place placed (asked.Duplicate 0 1) ≡ Some (from_to 19 20) }
    ensures join { question_place placed (asked.NeedlessJoin 0) ≡ Some (from_to 26 29) }
    ensures implied { question_place placed (asked.Implied 0) ≡ Some (from_to 41 62) }
    ensures implied_inside { question_place placed (asked.Implied 2) ≡ Some (from_to 99 108) }
    ensures impossible { question_place placed (asked.Impossible 1) ≡ Some (from_to 67 109) }
    ensures same_row { question_place placed (asked.SameRow 0 1) ≡ Some (from_to 31 34) }
    ensures null_in_not_in { question_place placed (asked.NullInNotIn 0) ≡ Some (from_to 67 109) }
{}

/// Each verdict, with what shows it.
pub fn worked_verdicts()
    ensures constant { answer_text three_tables (asked.Constant 0) (answer.Always five)
        ≡ codes "always 5 (finding)\n    proof []\n" }
    ensures one_row { answer_text three_tables (asked.OneRow 0) (answer.Always five)
        ≡ codes "always\n    proof []\n" }
    ensures two_rows { answer_text three_tables (asked.OneRow 0)
        (answer.NotAlways (counter_at (Two inner_rows inner_rows) ∷ []))
        ≡ codes "not always (finding)\n    database\n"
        ++ codes "    INSERT INTO \"SELECT\" VALUES (NULL);\n"
        ++ codes "    INSERT INTO EMP VALUES (7, NULL);\n"
        ++ codes "    INSERT INTO EMP VALUES ('it''s', 0);\n"
        ++ codes "    at 1/2,3 and 1/2,3\n" }
    ensures no_row { answer_text [] (asked.NeedlessJoin 0)
        (answer.NotAlways (counter_at (Without (record { levels = [] ∷ [] })) ∷ []))
        ≡ codes "not always\n    database\n    at - with no row\n" }
    ensures moot { answer_text three_tables asked.Empty answer.Moot ≡ codes "moot\n" }
    ensures blocked { answer_text three_tables asked.Empty (answer.Blocked 2)
        ≡ codes "blocked by 2\n" }
    ensures nesting { answer_text three_tables asked.Empty
        (answer.CyclicNesting (0 ∷ 1 ∷ []))
        ≡ codes "cyclic nesting EMP, \"dept\"\n" }
    ensures keys { answer_text going_round asked.Empty
        (answer.CyclicKeys (0 ∷ 1 ∷ []) (counter_at (One inner_rows)) dept_key)
        ≡ codes "cyclic keys EMP, \"dept\" key \"dept\" 1\n    database\n"
        ++ codes "    INSERT INTO EMP VALUES (7, NULL);\n"
        ++ codes "    INSERT INTO EMP VALUES ('it''s', 0);\n"
        ++ codes "    INSERT INTO \"SELECT\" VALUES (NULL);\n    at 1/2,3\n" }
    ensures large { answer_text three_tables asked.Empty (answer.Large 513 0)
        ≡ codes "large rows 513 nodes 0\n" }
    ensures spent { answer_text three_tables asked.Empty (answer.Spent 100001)
        ≡ codes "spent 100001\n" }
{}

/// The lines of a check.
pub fn worked_checks()
    ensures { checks_text three_checks
        ≡ codes "cert 1 query 1 question 2: accepted\n"
        ++ codes "cert 2 query 1 question 5: refused at step 3\n"
        ++ codes "cert 3 query 12 question 7: needs question 6\n" }
{}
