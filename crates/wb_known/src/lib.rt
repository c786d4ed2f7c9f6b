//! What the nodes of a term graph tell of values, whatever the inputs are.
//!
//! Each function only reads the graph, a few levels of it, and what it answers holds under all inputs. `masks` has the
//! bits that a word can have and words that are parts of others by a mask, `parts` words with all the bits of others
//! and nodes that stand for a part, `bounds` the values that a word can't have and sums that fit, `pairs` two words in
//! place of two others, `bits` bits that tell of others, `sources` where a bit of a word comes from.
#![tactic(auto)]

mod bits;
mod bounds;
mod masks;
mod pairs;
mod parts;
mod sources;

pub use bits::{are_opposite_bits, implies, opposite};
pub use bounds::{can_be, is_always_below, is_never_below, never_carries};
pub use masks::{
    Masked, are_apart, is_cleared, is_kept, is_shifted_out_left, is_shifted_out_right, mask_of,
    possible_bits, shifted_left,
};
pub use pairs::{Pair, compared, negated, rebuilt};
pub use parts::{are_opposite, is_part, standing_part, standing_shl, standing_shr};
pub use sources::{Source, bit_source};
