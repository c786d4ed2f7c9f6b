//! What an explorer keeps of a symbolic chip: where it stands, states that meet there, and questions about dialogues.
//!
//! Keys are the points of `wb_port`; what a state shows of its key stands in `keys`. Two states at one place of the
//! program merge into one (`merging`; the private `lists` merges their terms one after another). A question (`question`)
//! is about the dialogue of some kinds of transfers under inputs, which `dialogues` makes and takes back; it holds as
//! `specs/Holds.antt` has it, and a formula says it as in `specs/Says.antt`. `laws` has what holds of all of these.
#![tactic(auto)]

mod dialogues;
mod keys;
mod laws;
mod lists;
mod merging;
mod question;

pub use dialogues::{dialogue_of, inputs_of, normalise};
pub use keys::{same_key, same_place, shown};
pub use laws::{
    bits_say_questions, dialogues_are_of_their_kinds, dialogues_grow_at_the_end,
    normalised_inputs_decide, normalised_inputs_give_the_values,
    normalised_inputs_keep_the_dialogue, states_show_their_machines, talks_come_back,
};
pub use merging::merge;
pub use question::{Accesses, FixedBit, FixedBits, Query};
pub use wb_law::{Class, class_at, rank_at};
pub use wb_port::{Point, Points, Shown};
pub use wb_symstep::{OutOfMemory, SymState};
