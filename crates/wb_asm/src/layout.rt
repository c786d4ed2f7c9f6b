//! How far a source is laid out.
use crate::counters::Counters;
use crate::names::Names;
use crate::spaces::Space;
use std::alloc::{AllocError, Global};

/// How far a source is laid out: its two memories, and the names of its earlier lines.
#[derive(Drop)]
pub struct Layout<'a> {
    pub prog: Space,
    pub drom: Space,
    pub names: Names<'a>,
}

impl<'a> Layout<'a> {
    ghost use Rattle.std.specs.Prelude.{◌≡◌, IfOk};
    ghost use Rattle.wb_asm.specs.Layout.{start};
    ghost use Rattle.wb_asm.specs.Counters.{counters_of};

    /// Before the first line.
    pub(crate) fn start(alloc: Global) -> Result<Self, AllocError>
        ensures { IfOk result (λ layout. layout ≡ start) }
    {
        Ok(Layout {
            prog: Space::empty(alloc, 2048)?,
            drom: Space::empty(alloc, 1024)?,
            names: Names::new(alloc),
        })
    }

    /// The two counters.
    pub(crate) fn counters(&self) -> Counters
        ensures { result ≡ counters_of self.now }
    {
        Counters {
            prog: self.prog.at(),
            drom: self.drom.at(),
        }
    }
}
