//! A run of the program, from its words to its report and its status, over any shelf and any sink.
//!
//! The layer above uses `run` with what it answers, `Outcome`, `Stop` and `Which`. Of `specs/` a
//! reader must believe `Text` (the bytes, with the report of `lint_report` and the certificates of
//! `cert_format`), `RightRun` (what a run says of the queries), `KeepsItsWord` (what its answers
//! promise, by `Headline` of `verdict_laws`), `Stops` (when each stop comes, and what was read),
//! `ReadBack` (that certificates are read again), `Status` and `Written`, and `Wanted` and
//! `WantedOf` of `command_words`; `inner/` is cited by private functions alone. `laws` proves of
//! `Text` that the lines of a refused schema and of refused certificates are those that are known
//! by hand.
//!
//! What was written is said where the sink tells its contents, and what the files hold where the
//! shelf tells its files; of a shelf or a sink that tells neither the clauses speak of counts and
//! paths alone. Memory may run out at any call that allocates: a private function that always
//! answers so would be proved, and the runs of `worked_runs` show that there are reports.
#![tactic(auto)]

mod judging;
mod kept;
mod laws;
mod outcome;
mod program;
mod status;
mod stop_lines;
mod texts;

pub use kept::runs_keep_their_word;
pub use laws::worked_texts;
pub use outcome::{Outcome, Stop, Which};
pub use program::run;
