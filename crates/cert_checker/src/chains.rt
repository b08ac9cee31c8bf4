//! Chains of equal texts that lead to what is not equal.
ghost use Rattle.std.specs.Prelude.{◌≡◌, List, Some, option_map, if◌then◌else◌};
ghost use Rattle.lint_core.specs.declared.certificate.TextEdge.TheVariants as edge;
ghost use Rattle.lint_core.specs.declared.schema.Table.{Table as Declared};
ghost use Rattle.sort_formula.specs.Facts.{Branch, atom_of, is_same_side};
ghost use Rattle.sort_formula.specs.Chains.{equal_sides, same_cells, ends_of, chain_end, chain_leads_to, are_two_texts, constants_clash, is_text_clash};
ghost use Rattle.cert_checker.specs.inner.Seen.{side_of, sides_of, branch_of};

use crate::facts::{End, Open, Said};
use lint_core::{Domain, Table, TextEdge};

/// Whether both are texts, and not the same.
fn are_two_texts(end: &End, other: &End) -> bool
    ensures { (schema : List Declared) (branch : Branch) → result
        ≡ are_two_texts schema branch (side_of end.now) (side_of other.now) }
{
    match (end, other) {
        (End::Text(_), End::Text(_)) => !end.is_same(other),
        _ => false,
    }
}

/// From the second to the first.
fn turned<'a>(sides: (End<'a>, End<'a>), back: bool) -> (End<'a>, End<'a>)
    ensures { result ≡ (if back then (sides.entry.1, sides.entry.0) else sides.entry) }
{
    if back { (sides.1, sides.0) } else { sides }
}

impl<'a> Open<'a> {
    /// The two sides of a fact that says that they are one text, or these turned.
    fn equal_texts(&self, fact: u32, back: bool) -> Option<(End<'a>, End<'a>)>
        ensures { (schema : List Declared) → option_map sides_of result
            ≡ ends_of schema (branch_of self.now)
            (if back then edge.FactBack fact else edge.Fact fact) }
    {
        match self.atom(fact)? {
            Said::TextEq { left, right } => Some(turned((left, right), back)),
            _ => None,
        }
    }

    /// The cells of a text column in the two rows that a fact says are one, or these turned.
    fn same_cells(
        &self,
        tables: &[Table],
        fact: u32,
        column: u32,
        back: bool,
    ) -> Option<(End<'a>, End<'a>)>
        ensures { option_map sides_of result ≡ ends_of tables.now (branch_of self.now)
            (if back then edge.Back fact column else edge.Same fact column) }
    {
        let (row, other) = self.same_rows(fact)?;
        match self.domain(tables, row, column)? {
            Domain::Text { .. } => {
                let cells = (End::Cell { row, column }, End::Cell { row: other, column });
                Some(turned(cells, back))
            }
            Domain::Number { .. } => None,
        }
    }

    /// The two sides of an edge.
    fn ends(&self, tables: &[Table], edge: TextEdge) -> Option<(End<'a>, End<'a>)>
        ensures { option_map sides_of result ≡ ends_of tables.now (branch_of self.now) edge }
    {
        match edge {
            TextEdge::Fact(fact) => self.equal_texts(fact, false),
            TextEdge::FactBack(fact) => self.equal_texts(fact, true),
            TextEdge::Same { fact, column } => self.same_cells(tables, fact, column, false),
            TextEdge::Back { fact, column } => self.same_cells(tables, fact, column, true),
        }
    }

    /// Where a chain leads to from a side: each edge begins where the one before ends.
    fn chain_end(&self, tables: &[Table], from: End<'a>, edges: &[TextEdge]) -> Option<End<'a>>
        ensures { option_map side_of result
            ≡ chain_end tables.now (branch_of self.now) (side_of from.entry) edges.now }
    {
        let mut end = from;
        for edge in edges {
            let (left, right) = self.ends(tables, *edge)?;
            if !end.is_same(&left) {
                return None;
            }
            end = right;
        }
        Some(end)
    }

    /// Whether the chain leads from the one side of a fact to the other, which are not equal.
    fn is_unequal(&self, tables: &[Table], last: u32, edges: &[TextEdge]) -> bool
        ensures { result ≡ is_text_clash tables.now (branch_of self.now) (Some last) edges.now }
    {
        match self.atom(last) {
            Some(Said::TextNe { left, right }) => match self.chain_end(tables, left, edges) {
                Some(end) => right.is_same(&end),
                None => false,
            },
            _ => false,
        }
    }

    /// Whether the chain leads from a side that is a text to another text.
    fn leads_to_other_text(&self, tables: &[Table], from: End<'a>, edges: &[TextEdge]) -> bool
        ensures { result ≡ chain_leads_to tables.now (branch_of self.now) (side_of from.entry) edges.now
            (are_two_texts tables.now (branch_of self.now) (side_of from.entry)) }
    {
        match self.chain_end(tables, from, edges) {
            Some(end) => are_two_texts(&from, &end),
            None => false,
        }
    }

    /// Whether the chain is not empty and leads from a text to another.
    fn constants_clash(&self, tables: &[Table], edges: &[TextEdge]) -> bool
        ensures { result ≡ constants_clash tables.now (branch_of self.now) edges.now }
    {
        let [first, ..] = edges else {
            return false;
        };
        match self.ends(tables, *first) {
            Some((from, _)) => self.leads_to_other_text(tables, from, edges),
            None => false,
        }
    }

    /// Whether the chain leads from the one side of the last fact to the other, which are not
    /// equal, or, without such a fact, is not empty and leads from a text to another.
    pub(crate) fn is_text_clash(
        &self,
        tables: &[Table],
        last: Option<u32>,
        edges: &[TextEdge],
    ) -> bool
        ensures { result ≡ is_text_clash tables.now (branch_of self.now) last edges.now }
    {
        match last {
            Some(last) => self.is_unequal(tables, last, edges),
            None => self.constants_clash(tables, edges),
        }
    }
}
