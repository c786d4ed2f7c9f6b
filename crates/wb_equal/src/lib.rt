//! Formulas in the making, in which equal functions are one literal.
//!
//! `Sharing` is a formula to which gates are added. A gate that stands is not added again; nor is one that has the
//! function of a constant, of an input or of a gate that stands, as far as diagrams within limits tell: its entry is
//! that constant or that literal.
//!
//! `entries` has the entries, which are constants or literals, and the gates over them; `sharing` the formula, and
//! `functions` what its variables say, as diagrams over these variables; `order` has the order in which diagrams ask
//! for them, `rooms` what they may take, and `likely` values under which an entry is likely true. `specs/Entries.antt` says what an entry means,
//! `specs/Functions.antt` and `specs/Order.antt` what the diagrams do.
#![tactic(auto)]

mod entries;
mod functions;
mod likely;
mod order;
mod rooms;
mod sharing;

pub use entries::{Entry, and, majority, mux, negation, or, xor};
pub use rooms::{Room, Rooms};
pub use sharing::Sharing;
