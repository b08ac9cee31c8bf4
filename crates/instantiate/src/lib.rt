//! The ground list of a question's sentences: one clause for each node of each sentence and each
//! list of row terms for the Foralls around it. Its guards say on which choices at other clauses
//! it waits, its ways what may be chosen there; a way of an atom has the atom as its literal, over
//! row terms in place of variables.
//!
//! `ground` makes it: it counts the clauses first, and answers `ManyNodes` where there are more
//! than 400,000. The number of a clause is the number of its node's first one and the place of its
//! rows among the lists of the node's tables. `maker_numbers` answers the clause of each row
//! term's maker, and `term_number` the row term that an Exists asks for.
//!
//! The layer above may use the types and these calls, and cite the laws. A reader must believe
//! `specs/Keys` (which clauses there are, and in which order), `specs/Ground` (what stands in
//! each), `specs/Groundable` (of what it is made), `specs/Stops` (when it is not made), `specs/Cases` (what a problem is, and which
//! database a full case of one makes, of which the laws of `witness_db` speak), `specs/Hanging`
//! (how the clauses of a problem hang together) and `specs/Plain` (what stands at the nodes under
//! no Forall). The last two are all that the layers above have to know of the numbers of clauses
//! and row terms. `specs/inner` is cited by private clauses alone.
//!
//! Of wrong bodies the contracts let through only those that answer `NoMemory` though there is
//! memory, since no clause can say when memory ends.
#![tactic(auto)]

mod clauses;
mod counts;
mod grounding;
mod laws;
mod listing;
mod numbers;
mod outline;
mod problem;
mod rows;
mod spots;
mod worked;

pub use grounding::{GroundStop, ground};
pub use laws::{clauses_hang_together, plain_nodes_are_numbered};
pub use listing::term_number;
pub use numbers::maker_numbers;
pub use problem::Problem;
pub use worked::worked_ground_list;
