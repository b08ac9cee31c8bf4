//! A place that text is written to.
ghost use Rattle.std.specs.Prelude.{◌≡◌, ℕ, ◌<◌, ◌≤◌, List, [], Option, length, take, IfOk, OnOk, OnErr, MatchResult};
ghost use Rattle.lint_base.specs.Counts.{Rose};
ghost use Rattle.lint_base.specs.Sink.{Appended};

use crate::place::Failed;
use crate::stops::WriteStop;

/// A place that text is written to.
pub trait Sink {
    /// What was written, where that is told.
    ghost contents: { Self → Option (List ℕ) };

    /// How many writes failed.
    ghost faults: { Self → ℕ };

    /// Writes bytes from the front of the slice, and answers how many: 0 only where the slice is
    /// empty. A fault writes nothing.
    fn write(&mut self, bytes: &[u8]) -> Result<usize, Failed>
        ensures faults { MatchResult result
            (λ _. faults self.new ≡ faults self.old)
            (λ _. Rose (faults self.old) (faults self.new)) }
        ensures later { faults self.old ≤ faults self.new }
        ensures within { IfOk result (λ n. n ≤ length bytes.now) }
        ensures some { IfOk result (λ n. 0 < length bytes.now → 0 < n) }
        ensures contents { MatchResult result
            (λ n. Appended (contents self.old) (contents self.new) (take n bytes.now))
            (λ _. contents self.new ≡ contents self.old) };
}

/// Writes the whole text. At `WriteFault` the sink failed, and has taken a part from the text's
/// front. It takes no memory.
#[tactic(auto, using(crate::proofs::Pieces::appended_more, std::proofs::lemmas::List::take_rest))]
pub fn write_text<K: Sink>(sink: &mut K, text: &[u8]) -> Result<(), WriteStop>
    ensures ok { OnOk result (Appended (K.contents sink.old) (K.contents sink.new) text.now) }
    ensures stand { OnOk result (K.faults sink.new ≡ K.faults sink.old) }
    ensures fault { OnErr result (Rose (K.faults sink.old) (K.faults sink.new)) }
    ensures later { K.faults sink.old ≤ K.faults sink.new }
    ensures prefix { OnErr result ((n : ℕ) × (n ≤ length text.now)
        × Appended (K.contents sink.old) (K.contents sink.new) (take n text.now)) }
{
    let mut taken = 0;
    while taken < text.len() {
        taken += sink.write(&text[taken..])?;
    }
    Ok(())
}
