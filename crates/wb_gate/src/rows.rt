//! A gate as a formula keeps it.
use crate::gates::Gate;

/// A gate, and the number of clauses of all gates up to it.
#[derive(Clone, Copy)]
pub struct Row {
    pub gate: Gate,
    pub end: u64,
}
