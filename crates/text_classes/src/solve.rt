//! Whether texts of the variables satisfy facts.
ghost use Rattle.std.specs.Prelude.{◌≡◌, ◌<◌, ◌^◌, All, length, IfOk, true};
ghost use Rattle.text_classes.specs.Texts.{IsAmong, Satisfies};
ghost use Rattle.text_classes.specs.Paths.{IsPath};
ghost use Rattle.text_classes.specs.Answer.{IfLabels, IfPath, text_in, AreDistinct, IsPlain, AreClasses};

use crate::facts::{Classed, TextFact};
use crate::forest::Forest;
use crate::graph::{Graph, ways};
use crate::labels::{Held, broken, hold, labels, texts};
use crate::prefix::unused;
use lint_base::{Items, NoMemory};
use std::alloc::Global;

/// A class for each variable and a text for each class, so that the facts hold; or a chain of
/// equal facts between the sides of an unequal one or between two different texts, which shows
/// that there are none. Two variables are of one class only where equal facts lead from the one to
/// the other, and two classes have different texts.
///
/// `NoMemory` when memory runs out, and in no other case. The time is nearly linear in the facts.
pub fn classes(alloc: Global, vars: u32, facts: &[TextFact]) -> Result<Classed, NoMemory>
    requires variables { All (IsAmong vars) facts.now }
    requires few { length facts.now < 2 ^ 32 }
    ensures count { IfOk result (λ c. IfLabels c (λ labels texts. length labels ≡ vars)) }
    ensures listed { IfOk result (λ c. IfLabels c (λ labels texts.
        All (λ label. label < length texts) labels)) }
    ensures satisfied { IfOk result (λ c. IfLabels c (λ labels texts.
        Satisfies (text_in labels texts) facts.now)) }
    ensures classes { IfOk result (λ c. IfLabels c (λ labels texts.
        AreClasses vars facts.now labels)) }
    ensures distinct { IfOk result (λ c. IfLabels c (λ labels texts. AreDistinct texts)) }
    ensures plain { IfOk result (λ c. IfLabels c (λ labels texts.
        IsPlain vars facts.now (text_in labels texts))) }
    ensures path { IfOk result (λ c. IfPath c (λ last path. IsPath facts.now last path)) }
{
    let graph = Graph::read(alloc, vars, facts)?;
    let links = graph.links.as_slice();
    let nodes = vars as usize + graph.texts.len();
    let ways = ways(alloc, nodes, links)?;
    let forest = Forest::grow(alloc, links, &ways)?;
    if let Some(last) = broken(links, &forest) {
        let link = links[last as usize];
        let path = forest.path(alloc, links, link.left, link.right)?;
        return Ok(Classed::Path {
            last: Some(last),
            facts: Items::from_vec(path),
        });
    }
    match hold(alloc, vars as usize, nodes, &forest)? {
        Held::Clash(left, right) => Ok(Classed::Path {
            last: None,
            facts: Items::from_vec(forest.path(alloc, links, left, right)?),
        }),
        Held::Each(held) => {
            let prefix = unused(alloc, &graph.texts)?;
            let texts = texts(alloc, vars as usize, &graph.texts, &held, prefix.as_str())?;
            let labels = labels(alloc, vars, &forest)?;
            Ok(Classed::Labels {
                labels: Items::from_vec(labels),
                texts: Items::from_vec(texts),
            })
        }
    }
}
