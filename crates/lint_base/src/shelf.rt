//! A place that files are read from.
ghost use Rattle.std.specs.Prelude.{◌≡◌, ℕ, ◌+◌, ◌≤◌, List, Option, Some, None, if◌then◌else◌, is_ok, length, IfOk, OnOk, MatchResult};
ghost use Rattle.lint_base.specs.Counts.{Rose};
ghost use Rattle.lint_base.specs.Shelf.{file_at, IsThere, Gives};

use crate::place::Failed;

/// A place that files are read from, one at a time.
pub trait Shelf {
    /// Where the files are told: what each path, as its bytes, holds, if it is there.
    ghost files: { Self → Option (List ℕ → Option (List ℕ)) };

    /// What is left of the open file, where that is told.
    ghost left: { Self → Option (List ℕ) };

    /// How many bytes were given since the last open that succeeded.
    ghost given: { Self → ℕ };

    /// The path of the last open that failed.
    ghost failed_path: { Self → Option (List ℕ) };

    /// The path of the last open that succeeded.
    ghost opened_path: { Self → Option (List ℕ) };

    /// How many opens failed.
    ghost open_faults: { Self → ℕ };

    /// How many reads failed.
    ghost read_faults: { Self → ℕ };

    /// Opens a file, from its first byte. A path that is not there is a fault. After a fault no
    /// file is open.
    fn open_file(&mut self, path: &str) -> Result<(), Failed>
        ensures files { files self.new ≡ files self.old }
        ensures open_faults { MatchResult result
            (λ _. open_faults self.new ≡ open_faults self.old)
            (λ _. Rose (open_faults self.old) (open_faults self.new)) }
        ensures later { open_faults self.old ≤ open_faults self.new }
        ensures read_faults { read_faults self.new ≡ read_faults self.old }
        ensures opened_path { opened_path self.new
            ≡ (if is_ok result then Some path.now else opened_path self.old) }
        ensures failed_path { failed_path self.new
            ≡ (if is_ok result then failed_path self.old else Some path.now) }
        ensures given { given self.new ≡ (if is_ok result then 0 else given self.old) }
        ensures left { left self.new
            ≡ (if is_ok result then file_at (files self.old) path.now else None) }
        ensures there { OnOk result (IsThere (files self.old) path.now) };

    /// Puts the next bytes of the open file at the front of the slice, and answers how many: 0
    /// only at the end, or where the slice is empty. After a fault no file is open.
    fn read(&mut self, into: &mut [u8]) -> Result<usize, Failed>
        ensures files { files self.new ≡ files self.old }
        ensures open_faults { open_faults self.new ≡ open_faults self.old }
        ensures read_faults { MatchResult result
            (λ _. read_faults self.new ≡ read_faults self.old)
            (λ _. Rose (read_faults self.old) (read_faults self.new)) }
        ensures later { read_faults self.old ≤ read_faults self.new }
        ensures opened_path { opened_path self.new ≡ opened_path self.old }
        ensures failed_path { failed_path self.new ≡ failed_path self.old }
        ensures within { IfOk result (λ n. n ≤ length into.new) }
        ensures given { MatchResult result
            (λ n. given self.new ≡ given self.old + n)
            (λ _. given self.new ≡ given self.old) }
        ensures left { MatchResult result
            (λ n. Gives (left self.old) n into.new (left self.new))
            (λ _. left self.new ≡ None) };
}
