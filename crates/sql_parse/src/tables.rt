//! The readers of declarations of tables.
ghost use Rattle.std.specs.Prelude.{◌≡◌, ℕ, false, [], ◌∷◌, ◌++◌, codes, IfOk, OnOk, OnErr};
ghost use Rattle.sql_parse.specs.grammar.Tables.{last_end};
ghost use Rattle.sql_parse.specs.inner.readers.Tokens.{is_called, is_comma, at_head, read_after, read_separated};
ghost use Rattle.sql_parse.specs.inner.readers.Terms.{read_names};
ghost use Rattle.sql_parse.specs.inner.readers.Gives.{Gives, GivesToken};
ghost use Rattle.sql_parse.specs.inner.readers.Leaves.{Leaves, GivesAlone, alone};
ghost use Rattle.sql_parse.specs.inner.readers.Tables.{read_length, character_rest, read_type, read_default, read_constraint, is_set_value, is_event, read_action, read_event, read_actions, read_one_name, read_target, read_reference, foreign_tree, begins_rule, read_check, word_rule, read_column_rule, read_named_rule, read_rules, read_table_rule, read_declared_column, read_element, read_elements, read_create};

use crate::front::{Mark, Nesting, ParseStop, at, expect, is, next};
use crate::lists::separated;
use crate::reserved::{
    CHECK, CONSTRAINT, CREATE, FOREIGN, NOT, NULL, ON, PRIMARY, REFERENCES, TABLE, UNIQUE,
};
use crate::selects::condition;
use crate::terms::{name, names, number, value};
use crate::words::{expect_called, is_called, next_called};
use lint_base::{Items, NoMemory, Span};
use sql_lex::{Kind, Token};
use sql_tree::{CondTree, CreateTable, Element, NameTree, RuleTree, TypeTree};
use std::alloc::Global;

/// A length in parentheses.
#[tactic(auto, unfolding(crate::specs::inner::readers::Tables::read_length, crate::specs::inner::readers::Tokens::and_then, crate::specs::inner::readers::Tokens::read_after))]
fn length_of_text(tokens: &[Token]) -> Result<(TypeTree, &[Token]), ParseStop>
    ensures { Gives (read_length tokens.now) result }
{
    let (_, rest) = expect(tokens, Mark::Open)?;
    let ((length, span), rest) = number(rest)?;
    let (_, rest) = expect(rest, Mark::Close)?;
    Ok((TypeTree::Text { length, span }, rest))
}

/// What follows the word CHAR or CHARACTER, whose place this is.
#[tactic(auto, using(crate::proofs::Called::called_words), unfolding(crate::specs::inner::readers::Tables::character_rest, crate::specs::inner::readers::Tokens::and_then, crate::specs::inner::readers::Tokens::read_after))]
fn character_rest(place: Span, tokens: &[Token]) -> Result<(TypeTree, &[Token]), ParseStop>
    ensures { Gives (character_rest place tokens.now) result }
{
    if at(tokens, Mark::Open) {
        return length_of_text(tokens);
    }
    match next_called(tokens, "VARYING") {
        Some((_, rest)) => length_of_text(rest),
        None => Ok((
            TypeTree::Text {
                length: 1,
                span: place,
            },
            tokens,
        )),
    }
}

/// A type.
#[tactic(auto, using(crate::proofs::Called::called_words), unfolding(crate::specs::inner::readers::Tables::read_type, crate::specs::inner::readers::Tables::type_from, crate::specs::inner::readers::Tables::is_integer, crate::specs::inner::readers::Tables::is_character))]
fn type_of_column(tokens: &[Token]) -> Result<(TypeTree, &[Token]), ParseStop>
    ensures { Gives (read_type tokens.now) result }
{
    let Some((Token { kind, span }, rest)) = tokens.split_first() else {
        return Err(ParseStop::Syntax(0));
    };
    if is_called(kind, "SMALLINT") {
        Ok((TypeTree::Small, rest))
    } else if is_called(kind, "INTEGER") || is_called(kind, "INT") {
        Ok((TypeTree::Integer, rest))
    } else if is_called(kind, "BIGINT") {
        Ok((TypeTree::Big, rest))
    } else if is_called(kind, "VARCHAR") {
        length_of_text(rest)
    } else if is_called(kind, "CHAR") || is_called(kind, "CHARACTER") {
        character_rest(*span, rest)
    } else {
        Err(ParseStop::Syntax(tokens.len()))
    }
}

/// What follows a DEFAULT with its value, where there is one.
#[tactic(auto, using(crate::proofs::Called::called_words), unfolding(crate::specs::inner::readers::Tables::read_default, crate::specs::inner::readers::Tokens::and_then, crate::specs::inner::readers::Tokens::read_after))]
fn after_default(alloc: Global, tokens: &[Token]) -> Result<&[Token], ParseStop>
    ensures { Leaves false (read_default tokens.now) result }
{
    let Some((_, rest)) = next_called(tokens, "DEFAULT") else {
        return Ok(tokens);
    };
    let (_, rest) = value(alloc, rest)?;
    Ok(rest)
}

/// What follows a CONSTRAINT with its name, where there is one.
#[tactic(auto, unfolding(crate::specs::inner::readers::Tables::read_constraint, crate::specs::inner::readers::Tokens::and_then, crate::specs::inner::readers::Tokens::read_after))]
fn after_constraint(alloc: Global, tokens: &[Token]) -> Result<&[Token], ParseStop>
    ensures { Leaves false (read_constraint tokens.now) result }
{
    let Some((_, rest)) = next(tokens, CONSTRAINT) else {
        return Ok(tokens);
    };
    let (_, rest) = name(alloc, rest)?;
    Ok(rest)
}

/// The NULL or DEFAULT of SET.
#[tactic(auto, using(crate::proofs::Called::called_words), unfolding(crate::specs::inner::readers::Tables::is_set_value, crate::specs::inner::readers::Tokens::expect))]
fn set_value(tokens: &[Token]) -> Result<(&Token, &[Token]), ParseStop>
    ensures { GivesToken is_set_value tokens.now result }
{
    match tokens.split_first() {
        Some((token, rest)) if is(&token.kind, NULL) || is_called(&token.kind, "DEFAULT") => {
            Ok((token, rest))
        }
        _ => Err(ParseStop::Syntax(tokens.len())),
    }
}

/// What follows CASCADE, RESTRICT, SET NULL, SET DEFAULT or NO ACTION.
#[tactic(auto, using(crate::proofs::Called::called_words), unfolding(crate::specs::inner::readers::Tables::read_action, crate::specs::inner::readers::Tables::action_from, crate::specs::inner::readers::Tables::is_plain_action, crate::specs::inner::readers::Tokens::and_then))]
fn after_action(tokens: &[Token]) -> Result<&[Token], ParseStop>
    ensures { Leaves false (read_action tokens.now) result }
{
    let Some((Token { kind, .. }, rest)) = tokens.split_first() else {
        return Err(ParseStop::Syntax(0));
    };
    if is_called(kind, "CASCADE") || is_called(kind, "RESTRICT") {
        Ok(rest)
    } else if is_called(kind, "SET") {
        let (_, rest) = set_value(rest)?;
        Ok(rest)
    } else if is_called(kind, "NO") {
        let (_, rest) = expect_called(rest, "ACTION")?;
        Ok(rest)
    } else {
        Err(ParseStop::Syntax(tokens.len()))
    }
}

/// The DELETE or UPDATE of an action.
#[tactic(auto, using(crate::proofs::Called::called_words), unfolding(crate::specs::inner::readers::Tables::is_event, crate::specs::inner::readers::Tokens::expect))]
fn event(tokens: &[Token]) -> Result<(&Token, &[Token]), ParseStop>
    ensures { GivesToken is_event tokens.now result }
{
    match tokens.split_first() {
        Some((token, rest))
            if is_called(&token.kind, "DELETE") || is_called(&token.kind, "UPDATE") => {
            Ok((token, rest))
        }
        _ => Err(ParseStop::Syntax(tokens.len())),
    }
}

/// What follows ON with its event and its action.
#[tactic(auto, unfolding(crate::specs::inner::readers::Tables::read_event, crate::specs::inner::readers::Tokens::and_then, crate::specs::inner::readers::Tokens::read_after))]
fn after_event(tokens: &[Token]) -> Result<&[Token], ParseStop>
    ensures { Leaves [] (read_event 0 tokens.now) result }
{
    let (_, rest) = expect(tokens, ON)?;
    let (_, rest) = event(rest)?;
    after_action(rest)
}

/// What follows the actions of a reference.
#[tactic(auto, unfolding(crate::specs::inner::readers::Tables::read_actions))]
fn after_actions(tokens: &[Token]) -> Result<&[Token], ParseStop>
    ensures { Leaves false (read_actions tokens.now) result }
{
    let mut rest = tokens;
    while at(rest, ON) {
        rest = after_event(rest)?;
    }
    Ok(rest)
}

/// A name in parentheses.
#[tactic(auto, unfolding(crate::specs::inner::readers::Tables::read_one_name, crate::specs::inner::readers::Tokens::and_then, crate::specs::inner::readers::Tokens::read_after))]
fn one_name<'a>(
    alloc: Global,
    tokens: &'a [Token],
) -> Result<(Items<NameTree>, &'a [Token]), ParseStop>
    ensures { Gives (read_one_name tokens.now) result }
{
    let (_, rest) = expect(tokens, Mark::Open)?;
    let (name, rest) = name(alloc, rest)?;
    let (_, rest) = expect(rest, Mark::Close)?;
    let names = alone(alloc, name)?;
    Ok((names, rest))
}

/// The columns that a reference names, where it does; at a column one.
#[tactic(auto, unfolding(crate::specs::inner::readers::Tables::read_target))]
fn target<'a>(
    alloc: Global,
    one: bool,
    tokens: &'a [Token],
) -> Result<(Items<NameTree>, &'a [Token]), ParseStop>
    ensures { Gives (read_target one tokens.now) result }
{
    if !at(tokens, Mark::Open) {
        Ok((Items::new(alloc), tokens))
    } else if one {
        one_name(alloc, tokens)
    } else {
        names(alloc, tokens)
    }
}

/// A reference: the table and the columns that it names.
#[tactic(auto, unfolding(crate::specs::inner::readers::Tables::read_reference, crate::specs::inner::readers::Tokens::and_then, crate::specs::inner::readers::Tokens::read_after))]
fn reference<'a>(
    alloc: Global,
    one: bool,
    tokens: &'a [Token],
) -> Result<((NameTree, Items<NameTree>), &'a [Token]), ParseStop>
    ensures { Gives (read_reference one tokens.now) result }
{
    let (_, rest) = expect(tokens, REFERENCES)?;
    let (table, rest) = name(alloc, rest)?;
    let (target, rest) = target(alloc, one, rest)?;
    let rest = after_actions(rest)?;
    Ok(((table, target), rest))
}

/// Where the last name of a reference ends.
#[tactic(auto, using(crate::proofs::LastEnds::last_end_rules))]
fn last_end(table: &NameTree, target: &[NameTree]) -> u32
    ensures { result ≡ last_end table.now target.now }
{
    match target.split_last() {
        Some((name, _)) => name.span.to,
        None => table.span.to,
    }
}

/// A foreign key whose rule begins at this place.
fn foreign(
    columns: Items<NameTree>,
    place: Span,
    table: NameTree,
    target: Items<NameTree>,
) -> RuleTree
    ensures { result ≡ foreign_tree columns place (table, target) }
{
    let span = Span {
        from: place.from,
        to: last_end(&table, target.as_slice()),
    };
    RuleTree::Foreign {
        columns,
        table,
        target,
        span,
    }
}

/// CHECK with its condition, which has no subquery.
#[tactic(auto, unfolding(crate::specs::inner::readers::Tables::read_check, crate::specs::inner::readers::Tokens::and_then, crate::specs::inner::readers::Tokens::read_after))]
fn check<'a>(
    alloc: Global,
    depth: usize,
    tokens: &'a [Token],
) -> Result<(CondTree, &'a [Token]), ParseStop>
    ensures { Gives (read_check depth tokens.now) result }
{
    let (_, rest) = expect(tokens, CHECK)?;
    let (_, rest) = expect(rest, Mark::Open)?;
    let (tree, rest) = condition(alloc, Nesting { flat: true, depth }, rest)?;
    let (_, rest) = expect(rest, Mark::Close)?;
    Ok((tree, rest))
}

/// The same name.
fn copy_of(alloc: Global, name: &NameTree) -> Result<NameTree, NoMemory>
    ensures { IfOk result (λ copy. copy ≡ name.now) }
{
    let text = name.text.copy(alloc)?;
    Ok(NameTree {
        text,
        span: name.span,
    })
}

/// The list of one name.
fn alone(alloc: Global, name: NameTree) -> Result<Items<NameTree>, NoMemory>
    ensures { IfOk result (λ names. names ≡ name ∷ []) }
{
    let mut names = Items::new(alloc);
    names.push(name)?;
    Ok(names)
}

/// A column as the one column of its rule.
fn column_alone(alloc: Global, column: &NameTree) -> Result<Items<NameTree>, NoMemory>
    ensures { IfOk result (λ names. names ≡ column.now ∷ []) }
{
    let column = copy_of(alloc, column)?;
    alone(alloc, column)
}

/// What follows the first word of a rule at a column that a word says without more.
#[tactic(auto, using(crate::proofs::Called::called_words), unfolding(crate::specs::inner::readers::Tables::word_rule, crate::specs::inner::readers::Tokens::and_then))]
fn word_rule<'a>(
    alloc: Global,
    column: &NameTree,
    token: &Token,
    rest: &'a [Token],
) -> Result<(Option<RuleTree>, &'a [Token]), ParseStop>
    ensures { (depth : ℕ) → GivesAlone (word_rule depth column.now token.now.kind token.now.span
        rest.now) result }
{
    if is(&token.kind, NOT) {
        let (_, rest) = expect(rest, NULL)?;
        Ok((Some(RuleTree::NotNull), rest))
    } else if is(&token.kind, NULL) {
        Ok((None, rest))
    } else if is(&token.kind, UNIQUE) {
        let columns = column_alone(alloc, column)?;
        Ok((Some(RuleTree::Unique { columns }), rest))
    } else if is(&token.kind, PRIMARY) {
        let (_, rest) = expect_called(rest, "KEY")?;
        let columns = column_alone(alloc, column)?;
        let span = token.span;
        Ok((Some(RuleTree::Primary { columns, span }), rest))
    } else {
        Err(ParseStop::Syntax(rest.len() + 1))
    }
}

/// A rule at a column. NULL is none.
#[tactic(auto, unfolding(crate::specs::inner::readers::Tables::read_column_rule, crate::specs::inner::readers::Tables::column_rule_from, crate::specs::inner::readers::Tokens::and_then))]
fn column_rule<'a>(
    alloc: Global,
    depth: usize,
    column: &NameTree,
    tokens: &'a [Token],
) -> Result<(Option<RuleTree>, &'a [Token]), ParseStop>
    ensures { GivesAlone (read_column_rule depth column.now tokens.now) result }
{
    let Some((token, rest)) = tokens.split_first() else {
        return Err(ParseStop::Syntax(0));
    };
    if is(&token.kind, CHECK) {
        let (tree, rest) = check(alloc, depth, tokens)?;
        Ok((Some(RuleTree::Check(tree)), rest))
    } else if is(&token.kind, REFERENCES) {
        let ((table, target), rest) = reference(alloc, true, tokens)?;
        let columns = column_alone(alloc, column)?;
        Ok((Some(foreign(columns, token.span, table, target)), rest))
    } else {
        word_rule(alloc, column, token, rest)
    }
}

/// A rule at a column that may have a name.
#[tactic(auto, unfolding(crate::specs::inner::readers::Tables::read_named_rule, crate::specs::inner::readers::Tokens::and_then))]
fn named_rule<'a>(
    alloc: Global,
    depth: usize,
    column: &NameTree,
    tokens: &'a [Token],
) -> Result<(Option<RuleTree>, &'a [Token]), ParseStop>
    ensures { (count : ℕ) → GivesAlone (read_named_rule depth column.now count tokens.now) result }
{
    let rest = after_constraint(alloc, tokens)?;
    column_rule(alloc, depth, column, rest)
}

/// What a rule at a column begins with.
#[tactic(auto, unfolding(crate::specs::inner::readers::Tables::begins_rule))]
fn begins_rule(kind: &Kind) -> bool
    ensures { result ≡ begins_rule kind.now }
{
    is(kind, CONSTRAINT)
        || is(kind, NOT)
        || is(kind, NULL)
        || is(kind, UNIQUE)
        || is(kind, PRIMARY)
        || is(kind, CHECK)
        || is(kind, REFERENCES)
}

/// Whether a rule at a column comes first.
#[tactic(auto, unfolding(crate::specs::inner::readers::Tokens::at_head))]
fn at_rule(tokens: &[Token]) -> bool
    ensures { result ≡ at_head begins_rule tokens.now }
{
    match tokens.split_first() {
        Some((token, _)) => begins_rule(&token.kind),
        None => false,
    }
}

/// Adds the item, if there is one.
pub(crate) fn add_optional<T: Drop>(items: &mut Items<T>, item: Option<T>) -> Result<(), NoMemory>
    ensures ok { OnOk result (items.new ≡ items.old ++ alone item) }
    ensures err { OnErr result (items.new ≡ items.old) }
{
    match item {
        Some(item) => items.push(item),
        None => Ok(()),
    }
}

/// The rules at a column.
#[tactic(auto, unfolding(crate::specs::inner::readers::Tables::read_rules))]
fn rules<'a>(
    alloc: Global,
    depth: usize,
    column: &NameTree,
    tokens: &'a [Token],
) -> Result<(Items<RuleTree>, &'a [Token]), ParseStop>
    ensures { Gives (read_rules depth column.now tokens.now) result }
{
    let mut rules = Items::new(alloc);
    let mut rest = tokens;
    while at_rule(rest) {
        let (rule, after) = named_rule(alloc, depth, column, rest)?;
        add_optional(&mut rules, rule)?;
        rest = after;
    }
    Ok((rules, rest))
}

/// The names after KEY.
#[tactic(auto, using(crate::proofs::Called::called_words), unfolding(crate::specs::inner::readers::Tokens::and_then, crate::specs::inner::readers::Tokens::read_after))]
fn key_names<'a>(
    alloc: Global,
    tokens: &'a [Token],
) -> Result<(Items<NameTree>, &'a [Token]), ParseStop>
    ensures { Gives (read_after (is_called (codes "KEY")) read_names tokens.now) result }
{
    let (_, rest) = expect_called(tokens, "KEY")?;
    names(alloc, rest)
}

/// A rule beside the columns.
#[tactic(auto, unfolding(crate::specs::inner::readers::Tables::read_table_rule, crate::specs::inner::readers::Tables::table_rule_from, crate::specs::inner::readers::Tables::read_key_names, crate::specs::inner::readers::Tokens::and_then))]
fn table_rule<'a>(
    alloc: Global,
    depth: usize,
    tokens: &'a [Token],
) -> Result<(RuleTree, &'a [Token]), ParseStop>
    ensures { Gives (read_table_rule depth tokens.now) result }
{
    let Some((Token { kind, span }, rest)) = tokens.split_first() else {
        return Err(ParseStop::Syntax(0));
    };
    if is(kind, UNIQUE) {
        let (columns, rest) = names(alloc, rest)?;
        Ok((RuleTree::Unique { columns }, rest))
    } else if is(kind, PRIMARY) {
        let (columns, rest) = key_names(alloc, rest)?;
        Ok((
            RuleTree::Primary {
                columns,
                span: *span,
            },
            rest,
        ))
    } else if is(kind, CHECK) {
        let (tree, rest) = check(alloc, depth, tokens)?;
        Ok((RuleTree::Check(tree), rest))
    } else if is(kind, FOREIGN) {
        let (columns, rest) = key_names(alloc, rest)?;
        let ((table, target), rest) = reference(alloc, false, rest)?;
        Ok((foreign(columns, *span, table, target), rest))
    } else {
        Err(ParseStop::Syntax(tokens.len()))
    }
}

/// A column with its type and its rules.
#[tactic(auto, unfolding(crate::specs::inner::readers::Tables::read_declared_column, crate::specs::inner::readers::Tokens::and_then))]
fn column<'a>(
    alloc: Global,
    depth: usize,
    tokens: &'a [Token],
) -> Result<(Element, &'a [Token]), ParseStop>
    ensures { Gives (read_declared_column depth tokens.now) result }
{
    let (name, rest) = name(alloc, tokens)?;
    let (kind, rest) = type_of_column(rest)?;
    let rest = after_default(alloc, rest)?;
    let (rules, rest) = rules(alloc, depth, &name, rest)?;
    Ok((Element::Column { name, kind, rules }, rest))
}

/// A column, or a rule beside the columns.
#[tactic(auto, unfolding(crate::specs::inner::readers::Tables::read_element, crate::specs::inner::readers::Tokens::and_then))]
fn element<'a>(
    alloc: Global,
    depth: usize,
    tokens: &'a [Token],
) -> Result<(Element, &'a [Token]), ParseStop>
    ensures { Gives (read_element depth tokens.now) result }
{
    if at(tokens, Mark::Name) {
        return column(alloc, depth, tokens);
    }
    let rest = after_constraint(alloc, tokens)?;
    let (rule, rest) = table_rule(alloc, depth, rest)?;
    Ok((Element::Rule(rule), rest))
}

/// Elements with commas between them.
fn listed_elements<'a>(
    alloc: Global,
    depth: usize,
    tokens: &'a [Token],
) -> Result<(Items<Element>, &'a [Token]), ParseStop>
    ensures { Gives (read_separated is_comma (read_element depth) tokens.now) result }
{
    separated(
        alloc,
        tokens,
        Mark::Comma,
        |part| element(alloc, depth, part),
    )
}

/// The elements of a table, in parentheses.
#[tactic(auto, unfolding(crate::specs::inner::readers::Tables::read_elements, crate::specs::inner::readers::Tokens::and_then, crate::specs::inner::readers::Tokens::read_after))]
fn elements<'a>(
    alloc: Global,
    depth: usize,
    tokens: &'a [Token],
) -> Result<(Items<Element>, &'a [Token]), ParseStop>
    ensures { Gives (read_elements depth tokens.now) result }
{
    let (_, rest) = expect(tokens, Mark::Open)?;
    let (elements, rest) = listed_elements(alloc, depth, rest)?;
    let (_, rest) = expect(rest, Mark::Close)?;
    Ok((elements, rest))
}

/// A declaration of a table. Conditions are nested to less than the depth.
#[tactic(auto, unfolding(crate::specs::inner::readers::Tables::read_create, crate::specs::inner::readers::Tokens::and_then, crate::specs::inner::readers::Tokens::read_after))]
pub(crate) fn create<'a>(
    alloc: Global,
    depth: usize,
    tokens: &'a [Token],
) -> Result<(CreateTable, &'a [Token]), ParseStop>
    ensures { Gives (read_create depth tokens.now) result }
{
    let (_, rest) = expect(tokens, CREATE)?;
    let (_, rest) = expect(rest, TABLE)?;
    let (name, rest) = name(alloc, rest)?;
    let (elements, rest) = elements(alloc, depth, rest)?;
    Ok((CreateTable { name, elements }, rest))
}
