//! Whether points refute a question.
ghost use Rattle.std.specs.Prelude.{◌≡◌};
ghost use Rattle.lint_core.specs.declared.database.Value.{Value};
ghost use Rattle.lint_core.specs.declared.query.Question.TheVariants.{OneRow, Empty, NeedlessDistinct, Constant, Duplicate, NeedlessJoin, Implied, Impossible, SameRow, NullInNotIn};
ghost use Rattle.lint_core.specs.Fits.{main_tables};
ghost use Rattle.lint_core.specs.Question.{outcome};
ghost use Rattle.sql_meaning.specs.inner.Plan.{at_one, at_two, at_replaced, at_rest, at_inner_one, at_inner_two};
ghost use Rattle.sql_meaning.specs.Answered.{subquery_of};
ghost use Rattle.sql_meaning.specs.Replacing.{constant};
ghost use Rattle.sql_meaning.specs.Stops.{Gives};

use crate::clauses::{
    Main, are_not_distinct, are_same_items, are_true_at, is_true_at, item_value, main_tables,
    naming, not_naming, seen, value_at,
};
use crate::conjunction::conjuncts;
use crate::points::{
    differ_in_entry, differ_in_last_level, is_binding, is_binding_without, is_same_binding,
    is_same_row,
};
use crate::replacing::replaced;
use crate::stop::TruthStop;
use crate::subqueries::{Subquery, not_in_subquery, scalar_subquery};
use lint_core::{Binding, Database, Points, Query, Question, Schema, Value};
use std::alloc::Global;

impl Main<'_> {
    /// At a binding at which WHERE is true, with a fact.
    fn at_one(&self, fact: bool, one: &Binding) -> Result<bool, TruthStop>
        requires { self.now.tables.now ≡ main_tables self.now.query.now }
        ensures { Gives (at_one self.now.database.now self.now.query.now fact one.now) result }
    {
        if !is_binding(self.database, self.tables, one.levels.as_slice()) {
            return Ok(false);
        }
        let cond = &self.query.block.cond;
        let here = is_true_at(self.alloc, self.database, cond, self.tables, one)?;
        Ok(here && fact)
    }

    /// At two bindings at which WHERE is true, which differ as the question asks, with a fact.
    fn at_two(
        &self,
        differ: bool,
        fact: bool,
        one: &Binding,
        two: &Binding,
    ) -> Result<bool, TruthStop>
        requires { self.now.tables.now ≡ main_tables self.now.query.now }
        ensures { Gives
            (at_two self.now.database.now self.now.query.now differ fact one.now two.now)
            result }
    {
        let is_first = is_binding(self.database, self.tables, one.levels.as_slice());
        let is_second = is_binding(self.database, self.tables, two.levels.as_slice());
        if !(is_first && is_second && differ) {
            return Ok(false);
        }
        let cond = &self.query.block.cond;
        let both = are_true_at(self.alloc, self.database, cond, self.tables, one, two)?;
        Ok(both && fact)
    }

    /// At a binding at which WHERE is true, but not with the predicate replaced, or the other way
    /// round.
    fn at_replaced(&self, by: bool, predicate: u32, one: &Binding) -> Result<bool, TruthStop>
        requires { self.now.tables.now ≡ main_tables self.now.query.now }
        ensures { Gives (at_replaced self.now.database.now self.now.query.now
            (constant by) predicate one.now) result }
    {
        if !is_binding(self.database, self.tables, one.levels.as_slice()) {
            return Ok(false);
        }
        let cond = &self.query.block.cond;
        match replaced(self.alloc, cond, predicate, by) {
            Ok(other) => {
                let here = is_true_at(self.alloc, self.database, cond, self.tables, one)?;
                let there = is_true_at(self.alloc, self.database, &other, self.tables, one)?;
                Ok(here != there)
            }
            Err(_) => Err(TruthStop::NoMemory),
        }
    }

    /// At rows of the other entries, for which no row of the entry fits.
    fn at_rest(&self, entry: u32, one: &Binding) -> Result<bool, TruthStop>
        requires { self.now.tables.now ≡ main_tables self.now.query.now }
        ensures { Gives (at_rest self.now.database.now self.now.query.now entry one.now) result }
    {
        let Some(tables) = self.tables.first() else {
            return Ok(false);
        };
        if !is_binding_without(
            self.database,
            tables.as_slice(),
            entry,
            one.levels.as_slice(),
        ) {
            return Ok(false);
        }
        let all = conjuncts(self.alloc, &self.query.block.cond)?;
        let with = naming(self.alloc, all.as_slice(), entry)?;
        let without = not_naming(self.alloc, all.as_slice(), entry)?;
        let others_fit = self.are_true_with(entry, one, 0, without.as_slice())?;
        let none_fits = self.none_fits(entry, one, with.as_slice())?;
        Ok(others_fit && none_fits)
    }

    /// At two bindings of a subquery at which its condition is true.
    fn at_inner_two(&self, sub: &Subquery, one: &Binding, two: &Binding) -> Result<bool, TruthStop>
        ensures { Gives (at_inner_two self.now.database.now self.now.query.now
            (subquery_of sub.now) one.now two.now) result }
    {
        let tables = sub.tables.as_slice();
        let is_first = is_binding(self.database, tables, one.levels.as_slice());
        let is_second = is_binding(self.database, tables, two.levels.as_slice());
        let differ = differ_in_last_level(one.levels.as_slice(), two.levels.as_slice());
        if !(is_first && is_second && differ) {
            return Ok(false);
        }
        are_true_at(self.alloc, self.database, &sub.block.cond, tables, one, two)
    }

    /// At a binding of a subquery at which its condition is true, with a fact.
    fn at_inner_one(&self, sub: &Subquery, fact: bool, one: &Binding) -> Result<bool, TruthStop>
        ensures { Gives (at_inner_one self.now.database.now self.now.query.now
            (subquery_of sub.now) fact one.now) result }
    {
        let tables = sub.tables.as_slice();
        if !is_binding(self.database, tables, one.levels.as_slice()) {
            return Ok(false);
        }
        let here = is_true_at(self.alloc, self.database, &sub.block.cond, tables, one)?;
        Ok(here && fact)
    }
}

/// One method for each question: whether the points refute it.
impl Main<'_> {
    fn fails_one_row(&self, sub: u32, points: &Points) -> Result<bool, TruthStop>
        requires { self.now.tables.now ≡ main_tables self.now.query.now }
        ensures { (given : Value)
            → Gives (outcome self.now.database.now self.now.query.now
            (OneRow sub) given points.now) result }
    {
        match points {
            Points::Two(one, two) => {
                match scalar_subquery(self.alloc, &self.query.block.cond, self.tables, sub) {
                    Ok(Some(found)) => self.at_inner_two(&found, one, two),
                    Ok(None) => Ok(false),
                    Err(_) => Err(TruthStop::NoMemory),
                }
            }
            Points::One(_) | Points::Without(_) => Ok(false),
        }
    }

    fn fails_empty(&self, points: &Points) -> Result<bool, TruthStop>
        requires { self.now.tables.now ≡ main_tables self.now.query.now }
        ensures { (given : Value)
            → Gives (outcome self.now.database.now self.now.query.now Empty given points.now)
            result }
    {
        match points {
            Points::One(one) => self.at_one(true, one),
            Points::Two(..) | Points::Without(_) => Ok(false),
        }
    }

    fn fails_needless_distinct(&self, points: &Points) -> Result<bool, TruthStop>
        requires { self.now.tables.now ≡ main_tables self.now.query.now }
        ensures { (given : Value)
            → Gives (outcome self.now.database.now self.now.query.now
            NeedlessDistinct given points.now) result }
    {
        match points {
            Points::Two(one, two) => {
                let items = self.query.items.as_slice();
                let is_same = is_same_binding(one.levels.as_slice(), two.levels.as_slice());
                let are_same = are_same_items(self.database, items, self.tables, one, two);
                self.at_two(!is_same, are_same, one, two)
            }
            Points::One(_) | Points::Without(_) => Ok(false),
        }
    }

    fn fails_constant(&self, item: u32, given: &Value, points: &Points) -> Result<bool, TruthStop>
        requires { self.now.tables.now ≡ main_tables self.now.query.now }
        ensures { Gives (outcome self.now.database.now self.now.query.now
            (Constant item) given.now points.now) result }
    {
        match points {
            Points::One(one) => {
                let items = self.query.items.as_slice();
                let value = item_value(self.database, items, item, self.tables, one);
                self.at_one(!are_not_distinct(&value, &seen(given)), one)
            }
            Points::Two(..) | Points::Without(_) => Ok(false),
        }
    }

    fn fails_duplicate(&self, item: u32, other: u32, points: &Points) -> Result<bool, TruthStop>
        requires { self.now.tables.now ≡ main_tables self.now.query.now }
        ensures { (given : Value)
            → Gives (outcome self.now.database.now self.now.query.now
            (Duplicate item other) given points.now) result }
    {
        match points {
            Points::One(one) => {
                let items = self.query.items.as_slice();
                let value = item_value(self.database, items, item, self.tables, one);
                let other_value = item_value(self.database, items, other, self.tables, one);
                self.at_one(!are_not_distinct(&value, &other_value), one)
            }
            Points::Two(..) | Points::Without(_) => Ok(false),
        }
    }

    fn fails_needless_join(&self, entry: u32, points: &Points) -> Result<bool, TruthStop>
        requires { self.now.tables.now ≡ main_tables self.now.query.now }
        ensures { (given : Value)
            → Gives (outcome self.now.database.now self.now.query.now
            (NeedlessJoin entry) given points.now) result }
    {
        match points {
            Points::Two(one, two) => {
                let differ = differ_in_entry(entry, one.levels.as_slice(), two.levels.as_slice());
                self.at_two(differ, true, one, two)
            }
            Points::Without(one) => self.at_rest(entry, one),
            Points::One(_) => Ok(false),
        }
    }

    fn fails_implied(&self, predicate: u32, points: &Points) -> Result<bool, TruthStop>
        requires { self.now.tables.now ≡ main_tables self.now.query.now }
        ensures { (given : Value)
            → Gives (outcome self.now.database.now self.now.query.now
            (Implied predicate) given points.now) result }
    {
        match points {
            Points::One(one) => self.at_replaced(true, predicate, one),
            Points::Two(..) | Points::Without(_) => Ok(false),
        }
    }

    fn fails_impossible(&self, predicate: u32, points: &Points) -> Result<bool, TruthStop>
        requires { self.now.tables.now ≡ main_tables self.now.query.now }
        ensures { (given : Value)
            → Gives (outcome self.now.database.now self.now.query.now
            (Impossible predicate) given points.now) result }
    {
        match points {
            Points::One(one) => self.at_replaced(false, predicate, one),
            Points::Two(..) | Points::Without(_) => Ok(false),
        }
    }

    fn fails_same_row(&self, entry: u32, other: u32, points: &Points) -> Result<bool, TruthStop>
        requires { self.now.tables.now ≡ main_tables self.now.query.now }
        ensures { (given : Value)
            → Gives (outcome self.now.database.now self.now.query.now
            (SameRow entry other) given points.now) result }
    {
        match points {
            Points::One(one) => {
                let is_same = is_same_row(one.levels.as_slice(), entry, other);
                self.at_one(!is_same, one)
            }
            Points::Two(..) | Points::Without(_) => Ok(false),
        }
    }

    fn fails_null_in_not_in(&self, sub: u32, points: &Points) -> Result<bool, TruthStop>
        requires { self.now.tables.now ≡ main_tables self.now.query.now }
        ensures { (given : Value)
            → Gives (outcome self.now.database.now self.now.query.now
            (NullInNotIn sub) given points.now) result }
    {
        match points {
            Points::One(one) => {
                match not_in_subquery(self.alloc, &self.query.block.cond, self.tables, sub) {
                    Ok(Some(found)) => {
                        let tables = found.tables.as_slice();
                        let value = value_at(self.database, found.item, tables, one);
                        self.at_inner_one(&found, value.is_null(), one)
                    }
                    Ok(None) => Ok(false),
                    Err(_) => Err(TruthStop::NoMemory),
                }
            }
            Points::Two(..) | Points::Without(_) => Ok(false),
        }
    }
}

/// Whether the points refute the question: they have its form, name rows that are there, and what
/// refutes the question is true there. `given` is the value of a constant column; the other
/// questions do not look at it. The schema is not looked at, and the question need not be asked of
/// the query.
///
/// `TwoRows` comes where the points have the question's form and a scalar subquery of a condition
/// that is named there gives two rows, also where another part would decide: it has the place of
/// the first in the order of evaluation. `NoMemory` may come instead of any answer.
pub fn fails_at(
    alloc: Global,
    _schema: &Schema,
    database: &Database,
    query: &Query,
    question: &Question,
    given: &Value,
    points: &Points,
) -> Result<bool, TruthStop>
    ensures { Gives (outcome database.now query.now question.now given.now points.now) result }
{
    let tables = main_tables(alloc, query)?;
    let main = Main {
        alloc,
        database: &*database,
        query: &*query,
        tables: tables.as_slice(),
    };
    match *question {
        Question::OneRow { sub } => main.fails_one_row(sub, points),
        Question::Empty => main.fails_empty(points),
        Question::NeedlessDistinct => main.fails_needless_distinct(points),
        Question::Constant { item } => main.fails_constant(item, given, points),
        Question::Duplicate { item, other } => main.fails_duplicate(item, other, points),
        Question::NeedlessJoin { entry } => main.fails_needless_join(entry, points),
        Question::Implied { predicate } => main.fails_implied(predicate, points),
        Question::Impossible { predicate } => main.fails_impossible(predicate, points),
        Question::SameRow { entry, other } => main.fails_same_row(entry, other, points),
        Question::NullInNotIn { sub } => main.fails_null_in_not_in(sub, points),
    }
}
