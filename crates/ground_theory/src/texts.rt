//! The facts about texts that literals ask for, and the Text leaf of a path of them.
ghost use Rattle.std.specs.Prelude.{◌≡◌, ◌++◌, ◌∷◌, [], ◌≤◌, IfOk, OnOk, length};
ghost use Rattle.lint_core.specs.declared.certificate.TextEdge.TheVariants as edge;
ghost use Rattle.ground_theory.specs.inner.Found.{all_facts};
ghost use Rattle.ground_theory.specs.inner.Known.{all_origins};
ghost use Rattle.ground_theory.specs.inner.Sifting.{gathered};
ghost use Rattle.ground_theory.specs.inner.Sums.{told, HasBothRows, HaveRoom, HaveColumns};
ghost use Rattle.ground_theory.specs.inner.TextSystem.{end_at, said_fact, said_origin, HaveTextRoom};
ghost use Rattle.ground_theory.specs.inner.TextSystem.{HasTextRoom, HasSideRoom, same_fact, same_origin};
ghost use Rattle.ground_theory.specs.inner.TextSystem.{join_facts, join_origins};

use crate::joining::Join;
use crate::literal::{Frame, Literal};
use crate::numbering::Numbering;
use crate::numbers::domains;
use lint_base::{NoMemory, Str};
use lint_core::{Domain, TextEdge};
use sort_formula::{Atom, Side};
use std::alloc::Global;
use text_classes::{TextEnd, TextFact};

/// Facts about texts, and beside each the edge of a certificate that says it.
#[derive(Drop)]
pub(crate) struct TextSystem {
    pub(crate) origins: Vec<TextEdge>,
    pub(crate) facts: Vec<TextFact>,
}

/// What the literals say of texts, and that those of rows of one class are the same.
pub(crate) fn all_texts(
    alloc: Global,
    literals: &[Literal],
    frame: &Frame,
    joins: &[Join],
    numbering: &Numbering,
) -> Result<TextSystem, NoMemory>
    requires count { length literals.now ≤ 400000 }
    requires room { HaveTextRoom numbering.now.places.items literals.now }
    requires joins { HaveRoom numbering.now.places.items joins.now }
    requires columns { HaveColumns frame.now }
    ensures facts { IfOk result (λ s. s.facts.items
        ≡ all_facts frame.now literals.now joins.now numbering.now) }
    ensures origins { IfOk result (λ s. s.origins.items
        ≡ all_origins frame.now literals.now joins.now numbering.now) }
{
    let mut system = said_texts(alloc, literals, numbering)?;
    system.add_sames(frame, joins, numbering)?;
    Ok(system)
}

/// What the literals say of texts.
fn said_texts(
    alloc: Global,
    literals: &[Literal],
    numbering: &Numbering,
) -> Result<TextSystem, NoMemory>
    requires count { length literals.now ≤ 400000 }
    requires room { HaveTextRoom numbering.now.places.items literals.now }
    ensures facts { IfOk result (λ s. s.facts.items
        ≡ gathered (said_fact numbering.now.places.items) 0 literals.now) }
    ensures origins { IfOk result (λ s. s.origins.items ≡ gathered said_origin 0 literals.now) }
{
    let mut system = TextSystem {
        origins: Vec::new(alloc),
        facts: Vec::new(alloc),
    };
    for (number, literal) in literals.iter().enumerate() {
        system.add(alloc, number as u32, &literal.atom, numbering)?;
    }
    Ok(system)
}

impl TextSystem {
    /// Adds what an atom says of texts.
    fn add(
        &mut self,
        alloc: Global,
        fact: u32,
        atom: &Atom,
        numbering: &Numbering,
    ) -> Result<(), NoMemory>
        requires { HasTextRoom numbering.now.places.items atom.now }
        ensures facts { OnOk result (self.new.facts.items
            ≡ self.old.facts.items ++ said_fact numbering.now.places.items fact atom.now) }
        ensures origins { OnOk result (self.new.origins.items
            ≡ self.old.origins.items ++ said_origin fact atom.now) }
    {
        match atom {
            Atom::TextEq { left, right } => { self.push(alloc, fact, numbering, left, right, true) }
            Atom::TextNe { left, right } => {
                self.push(alloc, fact, numbering, left, right, false)
            }
            _ => Ok(()),
        }
    }

    /// Adds that two texts are the same, or are not.
    fn push(
        &mut self,
        alloc: Global,
        fact: u32,
        numbering: &Numbering,
        left: &Side,
        right: &Side,
        equal: bool,
    ) -> Result<(), NoMemory>
        requires left { HasSideRoom numbering.now.places.items left.now }
        requires right { HasSideRoom numbering.now.places.items right.now }
        ensures facts { OnOk result (self.new.facts.items ≡ self.old.facts.items ++ record {
          left = end_at numbering.now.places.items left.now;
          right = end_at numbering.now.places.items right.now;
          equal = equal;
        } ∷ []) }
        ensures origins { OnOk result (self.new.origins.items
            ≡ self.old.origins.items ++ edge.Fact fact ∷ []) }
    {
        let left = end(alloc, numbering, left)?;
        let right = end(alloc, numbering, right)?;
        self.facts.push(TextFact { left, right, equal })?;
        self.origins.push(TextEdge::Fact(fact))?;
        Ok(())
    }

    /// Adds that the texts of rows of one class are the same.
    fn add_sames(
        &mut self,
        frame: &Frame,
        joins: &[Join],
        numbering: &Numbering,
    ) -> Result<(), NoMemory>
        requires joins { HaveRoom numbering.now.places.items joins.now }
        requires columns { HaveColumns frame.now }
        ensures facts { OnOk result (self.new.facts.items ≡ self.old.facts.items
            ++ told (join_facts frame.now numbering.now.places.items) 0 joins.now) }
        ensures origins { OnOk result (self.new.origins.items ≡ self.old.origins.items
            ++ told (join_origins frame.now numbering.now.places.items) 0 joins.now) }
    {
        for join in joins {
            self.add_join(frame, *join, numbering)?;
        }
        Ok(())
    }

    /// Adds that the texts of two rows are the same.
    fn add_join(&mut self, frame: &Frame, join: Join, numbering: &Numbering) -> Result<(), NoMemory>
        requires room { HasBothRows numbering.now.places.items join }
        requires columns { HaveColumns frame.now }
        ensures facts { OnOk result (self.new.facts.items ≡ self.old.facts.items
            ++ join_facts frame.now numbering.now.places.items 0 join) }
        ensures origins { OnOk result (self.new.origins.items ≡ self.old.origins.items
            ++ join_origins frame.now numbering.now.places.items 0 join) }
    {
        for (column, domain) in domains(frame, join.row).iter().enumerate() {
            if let Domain::Text { .. } = domain {
                let column = column as u32;
                let left = numbering.number(join.row, column);
                let right = numbering.number(join.other, column);
                self.add_same(join.fact, column, left, right)?;
            }
        }
        Ok(())
    }

    /// Adds that two texts are the same, where both cells have a variable.
    fn add_same(
        &mut self,
        fact: u32,
        column: u32,
        left: Option<u32>,
        right: Option<u32>,
    ) -> Result<(), NoMemory>
        ensures facts { OnOk result (self.new.facts.items
            ≡ self.old.facts.items ++ same_fact left right) }
        ensures origins { OnOk result (self.new.origins.items
            ≡ self.old.origins.items ++ same_origin fact column left right) }
    {
        if let (Some(left), Some(right)) = (left, right) {
            self.facts.push(TextFact {
                left: TextEnd::Var(left),
                right: TextEnd::Var(right),
                equal: true,
            })?;
            self.origins.push(TextEdge::Same { fact, column })?;
        }
        Ok(())
    }
}

/// The variable of a cell, or a text.
fn end(alloc: Global, numbering: &Numbering, side: &Side) -> Result<TextEnd, NoMemory>
    requires { HasSideRoom numbering.now.places.items side.now }
    ensures { IfOk result (λ end. end ≡ end_at numbering.now.places.items side.now) }
{
    match side {
        Side::Cell { row, column } => {
            Ok(TextEnd::Var(numbering.number(*row, *column).unwrap_or(0)))
        }
        Side::Zero => Ok(TextEnd::Var(0)),
        Side::Text(text) => Ok(TextEnd::Text(text.copy(alloc)?)),
    }
}
