//! Images as text: the canonical line of an instruction word, and the listing of an image.
//!
//! `line_of` spells each of the 2^24 words in one way (`specs/Line.antt`), and `disassemble` gives exactly the
//! 3072 lines of `specs/Listing.antt`, which assemble to the same image (`laws`). `lines` has the line of a word,
//! `digits` its hexadecimal numbers, `listings` the listing. `specs/Steps.antt` says how a line grows, for the
//! proofs alone.
#![tactic(auto)]

mod digits;
mod laws;
mod lines;
mod listings;

pub use laws::{lines_tell_words_apart, listings_assemble};
pub use lines::{TextLine, line_of};
pub use listings::disassemble;
