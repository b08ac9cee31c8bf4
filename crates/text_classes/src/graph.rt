//! The facts read as a graph: its nodes are the variables and the constant texts, and each fact
//! links two of them.
ghost use Rattle.std.specs.Prelude.{◌≡◌, ◌<◌, ◌≤◌, ◌+◌, ◌++◌, ◌∷◌, ◌^◌, [], All, length, replicate, slice_set, IfOk, OnOk};
ghost use Rattle.text_classes.specs.Texts.{IsAmong, IsBelow};
ghost use Rattle.text_classes.specs.inner.Nodes.{AreKept, IsLonger, text_at, end_at, IsGraph};
ghost use Rattle.text_classes.specs.inner.Nodes.{AreWithin, AreWays, ways_at, other_end};

use crate::facts::{TextEnd, TextFact};
use lint_base::{Items, NoMemory, Str};
use std::alloc::Global;
use std::collections::HashMap;

/// A fact, by the nodes of its two sides.
#[derive(Clone, Copy)]
pub(crate) struct Link {
    pub(crate) left: usize,
    pub(crate) right: usize,
    pub(crate) equal: bool,
}

/// The constant texts that were met, each once, and the place of each.
#[derive(Drop)]
struct Constants<'a> {
    places: HashMap<&'a str, usize>,
    texts: Vec<Str>,
}

/// The constant texts, each once, and a link for each fact. A node below the number of variables
/// is a variable, and the others are the texts in order.
#[derive(Drop)]
pub(crate) struct Graph {
    pub(crate) texts: Vec<Str>,
    pub(crate) links: Vec<Link>,
}

impl Link {
    /// The other side.
    pub(crate) fn other(&self, node: usize) -> usize
        ensures { result ≡ other_end self.now node }
    {
        if self.left == node {
            self.right
        } else {
            self.left
        }
    }
}

impl<'a> Constants<'a> {
    /// The place of a text, which is added if it is not there.
    fn place(&mut self, alloc: Global, text: &'a Str) -> Result<usize, NoMemory>
        requires kept { AreKept self.old.places self.old.texts.items }
        ensures kept { OnOk result (AreKept self.new.places self.new.texts.items) }
        ensures longer { OnOk result (IsLonger self.old.texts.items self.new.texts.items) }
        ensures within { IfOk result (λ place. place < length self.new.texts.items) }
        ensures text { IfOk result (λ place. text_at self.new.texts.items place ≡ text.now) }
    {
        let characters = text.as_str();
        if let Some(place) = self.places.get(characters).copied() {
            return Ok(place);
        }
        let place = self.texts.len();
        self.texts.push(text.copy(alloc)?)?;
        self.places.insert(characters, place)?;
        Ok(place)
    }

    /// The node of a side of a fact.
    fn node(&mut self, alloc: Global, vars: u32, end: &'a TextEnd) -> Result<usize, NoMemory>
        requires kept { AreKept self.old.places self.old.texts.items }
        requires below { IsBelow vars end.now }
        requires few { length self.old.texts.items ≤ 2 ^ 40 }
        ensures kept { OnOk result (AreKept self.new.places self.new.texts.items) }
        ensures longer { OnOk result (IsLonger self.old.texts.items self.new.texts.items) }
        ensures within { IfOk result (λ node. node < vars + length self.new.texts.items) }
        ensures end { IfOk result (λ node. end_at vars self.new.texts.items node ≡ end.now) }
    {
        match end {
            TextEnd::Var(number) => Ok(*number as usize),
            TextEnd::Text(text) => {
                let place = self.place(alloc, text)?;
                Ok(vars as usize + place)
            }
        }
    }
}

impl Graph {
    /// Reads the facts.
    pub(crate) fn read(alloc: Global, vars: u32, facts: &[TextFact]) -> Result<Graph, NoMemory>
        requires variables { All (IsAmong vars) facts.now }
        requires few { length facts.now < 2 ^ 32 }
        ensures { IfOk result (λ graph.
            IsGraph vars facts.now graph.texts.items graph.links.items) }
    {
        let mut constants = Constants {
            places: HashMap::new(alloc),
            texts: Vec::new(alloc),
        };
        let mut links = Vec::new(alloc);
        for fact in facts {
            let left = constants.node(alloc, vars, &fact.left)?;
            let right = constants.node(alloc, vars, &fact.right)?;
            links.push(Link {
                left,
                right,
                equal: fact.equal,
            })?;
        }
        let Constants { places: _, texts } = constants;
        Ok(Graph { texts, links })
    }
}

/// For each node the numbers of the equal facts that have it as a side.
pub(crate) fn ways(alloc: Global, nodes: usize, links: &[Link]) -> Result<Vec<Items<u32>>, NoMemory>
    requires within { AreWithin nodes links.now }
    requires few { length links.now < 2 ^ 32 }
    ensures count { IfOk result (λ ways. length ways.items ≡ nodes) }
    ensures ways { IfOk result (λ ways. AreWays links.now (length links.now) ways.items) }
{
    let mut ways = no_ways(alloc, nodes)?;
    for number in 0..links.len() as u32 {
        let link = links[number as usize];
        if link.equal {
            add_way(&mut ways, link.left, number)?;
            add_way(&mut ways, link.right, number)?;
        }
    }
    Ok(ways)
}

/// Adds a number to those of a node.
fn add_way(ways: &mut Vec<Items<u32>>, node: usize, number: u32) -> Result<(), NoMemory>
    requires { node < length ways.old.items }
    ensures { let more = ways_at ways.old.items node ++ number ∷ [] in
        OnOk result (ways.new.items ≡ slice_set ways.old.items node more) }
{
    ways[node].push(number)?;
    Ok(())
}

/// No numbers for each node.
fn no_ways(alloc: Global, nodes: usize) -> Result<Vec<Items<u32>>, NoMemory>
    ensures { IfOk result (λ ways. ways.items ≡ replicate nodes []) }
{
    let mut ways = Vec::new(alloc);
    for _ in 0..nodes {
        ways.push(Items::new(alloc))?;
    }
    Ok(ways)
}
