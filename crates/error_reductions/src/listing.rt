//! The questions of a query, in order.
ghost use Rattle.std.specs.Prelude.{◌≡◌, ◌∷◌, ◌++◌, [], map, true, IfOk, OnOk};
ghost use Rattle.std.specs.List.{filter};
ghost use Rattle.lint_core.specs.Asked.{each_two, is_asked, questions};
ghost use Rattle.lint_core.specs.Database.{below};
ghost use Rattle.lint_core.specs.Fits.{query_fits};
ghost use Rattle.error_reductions.specs.inner.Numbered.{question_of, question_of_two};

use crate::counting::count;
use lint_base::{Items, NoMemory};
use lint_core::{Query, Question, Schema};
use std::alloc::Global;

/// The questions that are asked of a number.
#[derive(Clone, Copy)]
enum Numbered {
    OneRow,
    Constant,
    NeedlessJoin,
    Implied,
    Impossible,
    NullInNotIn,
}

/// The questions that are asked of two numbers.
#[derive(Clone, Copy)]
enum Paired {
    Duplicate,
    SameRow,
}

impl Numbered {
    fn question(self, number: u32) -> Question
        ensures { result ≡ question_of self number }
    {
        match self {
            Numbered::OneRow => Question::OneRow { sub: number },
            Numbered::Constant => Question::Constant { item: number },
            Numbered::NeedlessJoin => Question::NeedlessJoin { entry: number },
            Numbered::Implied => Question::Implied { predicate: number },
            Numbered::Impossible => Question::Impossible { predicate: number },
            Numbered::NullInNotIn => Question::NullInNotIn { sub: number },
        }
    }
}

impl Paired {
    fn question(self, number: u32, other: u32) -> Question
        ensures { result ≡ question_of_two self number other }
    {
        match self {
            Paired::Duplicate => Question::Duplicate {
                item: number,
                other,
            },
            Paired::SameRow => Question::SameRow {
                entry: number,
                other,
            },
        }
    }
}

/// Adds the questions of the numbers below the count.
fn add_each(asked: &mut Items<Question>, kind: Numbered, count: u32) -> Result<(), NoMemory>
    ensures { OnOk result (asked.new ≡ asked.old ++ map (question_of kind) (below count)) }
{
    for number in 0..count {
        asked.push(kind.question(number))?;
    }
    Ok(())
}

/// Adds the question, if it is asked.
fn ask(
    asked: &mut Items<Question>,
    schema: &Schema,
    query: &Query,
    question: Question,
) -> Result<(), NoMemory>
    ensures { OnOk result
        (asked.new ≡ asked.old ++ filter (is_asked schema.now query.now) (question ∷ [])) }
{
    if question.fits(schema, query) {
        asked.push(question)?;
    }
    Ok(())
}

/// Adds those questions of the numbers below the count that are asked.
fn ask_each(
    asked: &mut Items<Question>,
    schema: &Schema,
    query: &Query,
    kind: Numbered,
    count: u32,
) -> Result<(), NoMemory>
    ensures { OnOk result (asked.new ≡ asked.old
        ++ filter (is_asked schema.now query.now) (map (question_of kind) (below count))) }
{
    for number in 0..count {
        ask(asked, schema, query, kind.question(number))?;
    }
    Ok(())
}

/// Adds those questions of a first number, and of each below the count, that are asked.
fn ask_pairs_with(
    asked: &mut Items<Question>,
    schema: &Schema,
    query: &Query,
    kind: Paired,
    first: u32,
    count: u32,
) -> Result<(), NoMemory>
    ensures { OnOk result (asked.new ≡ asked.old
        ++ filter (is_asked schema.now query.now) (map (question_of_two kind first) (below count))) }
{
    for other in 0..count {
        ask(asked, schema, query, kind.question(first, other))?;
    }
    Ok(())
}

/// Adds those questions of two numbers below the count that are asked.
fn ask_each_two(
    asked: &mut Items<Question>,
    schema: &Schema,
    query: &Query,
    kind: Paired,
    count: u32,
) -> Result<(), NoMemory>
    ensures { OnOk result (asked.new ≡ asked.old
        ++ filter (is_asked schema.now query.now) (each_two (question_of_two kind) count)) }
{
    for number in 0..count {
        ask_pairs_with(asked, schema, query, kind, number, count)?;
    }
    Ok(())
}

/// The questions asked of the query, in order: E9 of each scalar subquery, E1, E2, E3 of each
/// item, E4 of each two, E5 of each main entry, E6 and then E7 of each predicate, E8 of each two
/// main entries, and E10 of each NOT IN subquery, where each of these is asked. `NoMemory` where
/// there is no memory for them.
pub fn questions(alloc: Global, schema: &Schema, query: &Query) -> Result<Items<Question>, NoMemory>
    requires fits { query_fits schema.now query.now ≡ true }
    ensures { IfOk result (λ list. list ≡ questions schema.now query.now) }
{
    let counts = count(&query.block.cond);
    let items = query.items.as_slice().len() as u32;
    let entries = query.block.entries.as_slice().len() as u32;
    let mut asked = Items::new(alloc);
    add_each(&mut asked, Numbered::OneRow, counts.scalars)?;
    ask(&mut asked, schema, query, Question::Empty)?;
    ask(&mut asked, schema, query, Question::NeedlessDistinct)?;
    ask_each(&mut asked, schema, query, Numbered::Constant, items)?;
    ask_each_two(&mut asked, schema, query, Paired::Duplicate, items)?;
    ask_each(&mut asked, schema, query, Numbered::NeedlessJoin, entries)?;
    add_each(&mut asked, Numbered::Implied, counts.predicates)?;
    add_each(&mut asked, Numbered::Impossible, counts.predicates)?;
    ask_each_two(&mut asked, schema, query, Paired::SameRow, entries)?;
    add_each(&mut asked, Numbered::NullInNotIn, counts.not_ins)?;
    Ok(asked)
}
