//! The demo pair: for each number two images that answer alike, of which the second does nothing now and then.
//!
//! Both images wait for a byte, work on it and give a byte back, over and over; the words of their work are drawn by
//! the number. `pairs` has the one call, which gives exactly the pair of `specs/Demo.antt`, with the words of bodies
//! in `bodies` and their place in an image in `program`. `laws` has what is true of the pair of every number: how few
//! points its held runs pass, that they never breach or overrun, and that no dialogue differs (`specs/Laws.antt`).
#![tactic(auto)]

mod bodies;
mod laws;
mod pairs;
mod program;

pub use laws::{numbers_have_bodies, pairs_keep_going, pairs_reach_few_points, pairs_say_the_same};
pub use pairs::make_pair;
