//! The explorer: from power-up it follows one side through every dialogue of some kinds at once.
//!
//! It steps a symbolic chip, forks where a condition is open, joins where two ways meet at one point, asks whether a
//! point can be reached, and stops at the requests, which are a layer. What is said of all inputs stands in `specs/`:
//! `Runs` has the held runs of one dialogue for each assignment of the inputs, `Entries` what an entry says of them
//! and when a list of entries covers them, `Seen` what was noted, `Layers` what a layer is and knows, `Faults` why a
//! call stops before its end, `Growth` how far the graph grows, `Laws` what stays, `Told` what a layer tells of one
//! dialogue. `Walk`, `Pending`, `Starts`, `Transfers` and `Explored` have what holds on the way.
//!
//! - `budget`, `reached`, `purse`: how much may be spent, and the points that were reached.
//! - `layer`, `plan`: the request states of a layer, and what a call explores.
//! - `layers`: `first` and `extend`, which make layers.
//! - `faults`: why an exploration stops.
//! - `laws`, `telling`: what stays of layers, and what they tell of single dialogues.
//!
//! The private files: `entries` has the pending entries, one for each point ahead; `arrivals` puts an entry among them
//! and notes its point; `going` goes on from an entry by one instruction; `questions` asks whether a point is passed;
//! `confirming` finds inputs for an entry, or drops it; `visiting` does with an entry what its chips do next; `walking`
//! takes one entry after another until none is pending; `starts` has the entry at power-up, `transfers` those after one
//! access more; `facts` has what the proofs take from the crates below.
#![tactic(auto)]

mod arrivals;
mod budget;
mod confirming;
mod entries;
mod facts;
mod faults;
mod going;
mod laws;
mod layer;
mod layers;
mod plan;
mod purse;
mod questions;
mod reached;
mod starts;
mod telling;
mod transfers;
mod visiting;
mod walking;

pub use budget::Budget;
pub use faults::{Asked, ExploreFault};
pub use laws::{knowledge_stays, layers_stay};
pub use layer::{Layer, Request};
pub use layers::{extend, first};
pub use plan::Plan;
pub use purse::Purse;
pub use reached::{Reached, ReachedPoint};
pub use telling::layers_tell_of_dialogues;
