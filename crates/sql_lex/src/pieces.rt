//! The pieces of a query file, one after the other.
ghost use Rattle.std.specs.Prelude.{◌≡◌, ◌+◌, ◌<◌, ◌^◌, length};
ghost use Rattle.std.specs.Option.{option_map_or};

use crate::classes::{Class, Run, first_run};
use lint_base::Span;

/// The pieces of a text that are still to come.
#[derive(Debug, Drop)]
pub struct Pieces<'a> {
    // what is not yet read, and its offset in the whole text
    text: &'a [u8],
    at: u32,
    ghost fits: { at + length text.now < 2 ^ 32 },
}

impl<'a> Pieces<'a> {
    ghost use Rattle.sql_lex.specs.Pieces.{pieces};
    ghost use Rattle.sql_lex.specs.Rest.{rest};

    pub(crate) fn new(text: &'a [u8]) -> Self
        requires { length text.now < 2 ^ 32 }
        ensures { rest result ≡ pieces text.now }
    {
        Pieces { text, at: 0 }
    }
}

// From the first solid byte of a part to the end of a run of solid bytes at this offset.
fn grown(solid: Option<Span>, at: u32, len: u32) -> Span
    requires { at + len < 2 ^ 32 }
    ensures from { result.from ≡ option_map_or (λ span. span.from) solid at }
    ensures to { result.to ≡ at + len }
{
    Span {
        from: solid.map_or(at, |span| span.from),
        to: at + len,
    }
}

impl Iterator for Pieces<'_> {
    ghost use Rattle.std.specs.Iterator.{YieldsFirst, item_count};
    ghost use Rattle.sql_lex.specs.Rest.{rest};

    type Item = Span;

    ghost next_gives = { YieldsFirst rest };

    ghost remaining = { item_count rest };

    #[tactic(auto, using(crate::proofs::PartLemmas::pieces_to_come, crate::proofs::PartLemmas::grown_is))]
    fn next(&mut self) -> Option<Span> {
        // from the first to the last solid byte of the part, so far
        let mut solid = None;
        while !self.text.is_empty() {
            let Run { class, len } = first_run(self.text);
            let at = self.at;
            self.text = &self.text[len..];
            self.at += len as u32;
            match class {
                Class::Blank => {}
                Class::Solid => solid = Some(grown(solid, at, len as u32)),
                Class::Separator => {
                    if solid.is_some() {
                        return solid;
                    }
                }
            }
        }
        solid
    }
}
