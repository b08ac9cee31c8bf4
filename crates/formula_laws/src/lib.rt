//! What the definitions of `sort_formula` mean. Each function does nothing: its contract is a law
//! about these definitions.
//!
//! The laws: `negation_complements` and `placing_renames` say what `negate` and `place` are for,
//! and `accepted_steps_refute` what accepted steps of a certificate show. Of the run of steps,
//! `wrong_steps_are_numbered` says what the number of the first wrong step tells, `steps_compose`
//! that steps behind others act on what these leave, and `realized_branches_stay_open` that no
//! step closes a branch whose facts hold at places of a database. `leading_rows_are_points` says
//! that the leading rows of a counter sentence make points of the question, and
//! `levels_put_together` how a list falls into levels.
#![tactic(auto)]

mod laws;
mod points;
mod steps;

pub use laws::{accepted_steps_refute, negation_complements, placing_renames};
pub use points::{leading_rows_are_points, levels_put_together};
pub use steps::{realized_branches_stay_open, steps_compose, wrong_steps_are_numbered};
