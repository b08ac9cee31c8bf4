//! The classes of nodes that equal facts join: a search through the links gives each node its
//! class, and the link by which it was met.
ghost use Rattle.std.specs.Prelude.{◌≡◌, ◌<◌, ◌≤◌, ◌^◌, ◌+◌, ◌++◌, ◌∷◌, [], Some, None, length, IfOk, OnOk, replicate, slice_set};
ghost use Rattle.text_classes.specs.declared.forest.Visit.{Visit};
ghost use Rattle.text_classes.specs.inner.Nodes.{AreWithin, AreWays, IsWay, LeadsIn, link_at, other_end};
ghost use Rattle.text_classes.specs.inner.Forest.{IsFilling, Extends, IsGrown, IsBetween, IsPlaced};
ghost use Rattle.text_classes.specs.inner.Forest.{IsMet, IsSound, place_of, visit_at, class_in, LeadsToRoot};

use crate::graph::Link;
use lint_base::{Items, NoMemory};
use std::alloc::Global;

/// A node that was met, its class, and the number of the link by which it was met. The first node
/// of a class has none.
#[derive(Clone, Copy)]
pub(crate) struct Visit {
    node: usize,
    class: usize,
    back: Option<u32>,
}

/// The nodes in the order in which they were met, the place of each node in it, and the number of
/// classes.
#[derive(Drop)]
pub(crate) struct Forest {
    order: Vec<Visit>,
    places: Vec<Option<usize>>,
    pub(crate) classes: usize,
}

impl Forest {
    /// Gives each node its class.
    pub(crate) fn grow(
        alloc: Global,
        links: &[Link],
        ways: &[Items<u32>],
    ) -> Result<Forest, NoMemory>
        requires within { AreWithin (length ways.now) links.now }
        requires few { length links.now < 2 ^ 32 }
        requires ways { AreWays links.now (length links.now) ways.now }
        ensures { IfOk result (λ forest. IsGrown (length ways.now) links.now forest) }
    {
        let mut forest = Forest {
            order: Vec::new(alloc),
            places: nones(alloc, ways.len())?,
            classes: 0,
        };
        for root in 0..ways.len() {
            if forest.places[root].is_none() {
                forest.fill(links, ways, root)?;
            }
        }
        Ok(forest)
    }

    /// Adds the class of a node: the nodes to which equal facts lead from it.
    fn fill(&mut self, links: &[Link], ways: &[Items<u32>], root: usize) -> Result<(), NoMemory>
        requires within { AreWithin (length ways.now) links.now }
        requires few { length links.now < 2 ^ 32 }
        requires ways { AreWays links.now (length links.now) ways.now }
        requires between { IsBetween (length ways.now) links.now root self.old }
        requires root { root < length ways.now }
        requires fresh { place_of self.old.places.items root ≡ None }
        ensures { OnOk result (IsBetween (length ways.now) links.now (root + 1) self.new) }
    {
        let mut place = self.order.len();
        let class = self.classes;
        self.visit(root, class, None)?;
        self.classes = class + 1;
        while place < self.order.len() {
            self.spread(links, ways, place)?;
            place += 1;
        }
        Ok(())
    }

    /// Meets the nodes next to the one at the place.
    fn spread(&mut self, links: &[Link], ways: &[Items<u32>], place: usize) -> Result<(), NoMemory>
        requires within { AreWithin (length ways.now) links.now }
        requires few { length links.now < 2 ^ 32 }
        requires ways { AreWays links.now (length links.now) ways.now }
        requires place { place < length self.old.order.items }
        requires filling { let class = (visit_at self.old.order.items place).class in
            IsFilling (length ways.now) links.now place class self.old }
        ensures filling { let class = (visit_at self.old.order.items place).class in
            OnOk result (IsFilling (length ways.now) links.now (place + 1) class self.new) }
        ensures extends { OnOk result (Extends self.old self.new) }
    {
        let node = self.order[place].node;
        for number in ways[node].as_slice() {
            self.meet(links, place, *number)?;
        }
        Ok(())
    }

    /// Meets the node to which the link of this number leads from the one at the place.
    fn meet(&mut self, links: &[Link], place: usize, number: u32) -> Result<(), NoMemory>
        requires within { AreWithin (length self.old.places.items) links.now }
        requires place { place < length self.old.order.items }
        requires filling { let class = (visit_at self.old.order.items place).class in
            IsFilling (length self.old.places.items) links.now place class self.old }
        requires way { let from = (visit_at self.old.order.items place).node in
            IsWay links.now (length links.now) from number }
        ensures filling { let class = (visit_at self.old.order.items place).class in
            OnOk result (IsFilling (length self.old.places.items) links.now place class self.new) }
        ensures extends { OnOk result (Extends self.old self.new) }
        ensures met { let from = visit_at self.old.order.items place in
            let next = other_end (link_at links.now number) from.node in
            OnOk result (class_in self.new next ≡ Some from.class) }
    {
        let from = self.order[place];
        let next = links[number as usize].other(from.node);
        if self.places[next].is_none() {
            self.visit(next, from.class, Some(number))?;
        }
        Ok(())
    }

    /// Puts a node at the end of the order.
    fn visit(&mut self, node: usize, class: usize, back: Option<u32>) -> Result<(), NoMemory>
        requires node { node < length self.old.places.items }
        ensures order { let visit : Visit = record { node = node; class = class; back = back } in
            OnOk result (self.new.order.items ≡ self.old.order.items ++ visit ∷ []) }
        ensures places { let place = length self.old.order.items in
            let places = slice_set self.old.places.items node (Some place) in
            OnOk result (self.new.places.items ≡ places) }
        ensures classes { self.new.classes ≡ self.old.classes }
    {
        let place = self.order.len();
        self.order.push(Visit { node, class, back })?;
        self.places[node] = Some(place);
        Ok(())
    }

    /// The numbers of links that lead from a node to another one of its class.
    pub(crate) fn path(
        &self,
        alloc: Global,
        links: &[Link],
        from: usize,
        to: usize,
    ) -> Result<Vec<u32>, NoMemory>
        requires forest { IsSound links.now self.now }
        requires from { IsPlaced self.now.places.items from }
        requires to { IsPlaced self.now.places.items to }
        requires same { class_in self.now from ≡ class_in self.now to }
        ensures { IfOk result (λ path. LeadsIn links.now from path.items to) }
    {
        let mut path = self.climb(alloc, links, from)?;
        let mut back = self.climb(alloc, links, to)?;
        back.reverse();
        path.extend_from_slice(&back)?;
        Ok(path)
    }

    /// The numbers of links that lead from a node to the first one of its class.
    fn climb(&self, alloc: Global, links: &[Link], node: usize) -> Result<Vec<u32>, NoMemory>
        requires forest { IsSound links.now self.now }
        requires placed { IsPlaced self.now.places.items node }
        ensures { IfOk result (λ chain. LeadsToRoot links.now self.now node chain.items) }
    {
        let mut chain = Vec::new(alloc);
        let mut at = node;
        let mut place = self.place(node);
        while let Some(number) = self.order[place].back {
            chain.push(number)?;
            at = links[number as usize].other(at);
            place = self.place(at);
        }
        Ok(chain)
    }

    /// The class of a node.
    pub(crate) fn class(&self, node: usize) -> usize
        requires { IsMet self.now node }
        ensures { class_in self.now node ≡ Some result }
    {
        self.order[self.place(node)].class
    }

    /// The place of a node in the order.
    fn place(&self, node: usize) -> usize
        requires { IsPlaced self.now.places.items node }
        ensures { place_of self.now.places.items node ≡ Some result }
    {
        self.places[node].unwrap()
    }
}

/// No number in each place.
pub(crate) fn nones(alloc: Global, count: usize) -> Result<Vec<Option<usize>>, NoMemory>
    ensures { IfOk result (λ v. v.items ≡ replicate count None) }
{
    let mut all = Vec::new(alloc);
    for _ in 0..count {
        all.push(None)?;
    }
    Ok(all)
}
