//! A query file falls into pieces.
ghost use Rattle.std.specs.Prelude.{◌≡◌, ◌<◌, ◌^◌, length, All};
ghost use Rattle.sql_lex.specs.Pieces.{pieces};
ghost use Rattle.sql_lex.specs.Rest.{rest};
ghost use Rattle.sql_lex.specs.Within.{IsWithin};

use crate::pieces::Pieces;

/// The parts between the semicolons that stand outside quotes and comments, in order, each from
/// its first to its last byte that is neither white space nor comment, by byte offsets in the
/// text. A part without such a byte is left out. In a quote that is not closed `--` begins no
/// comment, and white space is white space.
///
/// It takes no memory, and the time is linear in the text.
#[tactic(auto, using(crate::proofs::PartLemmas::pieces_within))]
pub fn split_queries(text: &[u8]) -> Pieces<'_>
    requires { length text.now < 2 ^ 32 }
    ensures spans { rest result ≡ pieces text.now }
    ensures within { All (IsWithin (length text.now)) (rest result) }
{
    Pieces::new(text)
}
