//! What is written as certificates is accepted when it is checked. The function calls other laws:
//! its contract is a law about the definitions in `specs/` and in the crates below.
//!
//! `written_certificates_are_accepted`: where a run judges the queries of a file, and a run that
//! checks reads the same two files, each certificate of the first run's answers `always` is
//! accepted by the second, also where it comes to it in the file that the first one writes.
//!
//! `unhindered_runs_come_to_their_end`: a run has no stop, but for want of memory, where its words
//! are a command, its files are there, keep their limits and are what they should be, and no fault
//! is counted.
//!
//! No crate stands on this one. Of `specs/` a reader must believe `Rechecked` and `Unhindered`,
//! beside `RightRun`, `Stops`, `Written` and `Text` of `lint_run`, `Checks` of `cert_checks`, and
//! `CertFile` of `cert_format`.
#![tactic(auto)]

mod ends;
mod laws;

pub use ends::unhindered_runs_come_to_their_end;
pub use laws::written_certificates_are_accepted;
