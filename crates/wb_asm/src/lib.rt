//! Assembles sources: texts in the source language become images.
//!
//! `assemble` gives exactly the image of a text or its first fault, in the order of four readings
//! (`specs/Assembly.antt`): bytes and tokens (`wb_lex`), grammar (`wb_syntax`), definitions and placing, values.
//! `specs/Layout.antt` says what one statement does in the third reading and `specs/Counters.antt` what all of them
//! do; `specs/Words.antt` has the fourth, and `specs/Value.antt` says what an expression stands for. Above them,
//! `specs/Placing.antt` says the image by its rules alone; `laws` shows that both are one.
//!
//! `laying` goes through the third reading, `reading` reads one line of it into a `layout` of two `spaces` and the
//! `names`; `assembly` goes through the fourth, `filling` puts one statement's words, `words` and `values` compute
//! them. `counters` has the counters before a statement, and `faults` what a caller is answered. `Layout`, `Space`, `Names` and `Counters` are public because the
//! definitions speak of them; only this crate makes them.
#![tactic(auto)]

mod assembly;
mod counters;
mod faults;
mod filling;
mod laws;
mod laying;
mod layout;
mod names;
mod reading;
mod spaces;
mod values;
mod words;

pub use assembly::assemble;
pub use counters::Counters;
pub use faults::{AsmError, AsmFault, AsmKind};
pub use laws::{each_source_has_one_answer, images_are_placings, placings_are_one};
pub use layout::Layout;
pub use names::Names;
pub use spaces::Space;
