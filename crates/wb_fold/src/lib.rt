//! What a chip needs of the term graph beyond single nodes: an operation of its ALU with the flags, and its RAM.
//!
//! `alu` has the operation, `operations` the results that no sum gives and `signs` the flags; `ram` has the RAM of
//! 256 words at an address of the graph, `addresses` the address's bits, `select` the tree of choices and `store`
//! the choices of a store. The private `address` and `flags` have the types alone. The constructors of single nodes
//! are those of `wb_make`.
#![tactic(auto)]

mod address;
mod addresses;
mod alu;
mod flags;
mod operations;
mod page;
mod pages;
mod ram;
mod select;
mod signs;
mod store;

pub use alu::alu_terms;
pub use flags::SymFlags;
pub use pages::{Pages, pages_merge, pages_select, pages_store};
pub use ram::{ram_select, ram_store};
pub use wb_make::{
    mk_and, mk_andb, mk_borrow, mk_byte, mk_carry, mk_cell, mk_const, mk_diff, mk_high, mk_ite,
    mk_iteb, mk_known, mk_look, mk_low, mk_not, mk_notb, mk_or, mk_orb, mk_pick, mk_same, mk_shl,
    mk_shr, mk_sum, mk_xor, mk_xorb,
};
pub use wb_term::OutOfMemory;
