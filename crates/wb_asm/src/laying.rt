//! The third reading of a source, line by line.
ghost use Rattle.std.specs.Prelude.{◌≡◌, IfErr, IfOk};
ghost use Rattle.wb_asm.specs.Counters.{first_misplaced};
ghost use Rattle.wb_asm.specs.Laid.{IsLaidOut};
ghost use Rattle.wb_asm.specs.Layout.{start};
ghost use Rattle.wb_asm.specs.Refusal.{IsFirst};

use crate::counters::Counters;
use crate::faults::AsmError;
use crate::layout::Layout;
use crate::names::Names;
use std::alloc::Global;
use wb_syntax::Statement;

/// What the third reading hands to the fourth: all names, and the counters before each statement.
#[derive(Drop)]
pub(crate) struct Placing<'a> {
    pub names: Names<'a>,
    pub counters: Vec<Counters>,
}

/// Lays out the statements of a text.
pub(crate) fn lay_out<'a>(
    alloc: Global,
    text: &'a [u8],
    statements: &[Statement],
) -> Result<Placing<'a>, AsmError>
    ensures ok { IfOk result (IsLaidOut text.now statements.now) }
    ensures err { IfErr result (IsFirst (first_misplaced text.now start statements.now)) }
{
    let mut counters = Vec::with_capacity(alloc, statements.len())?;
    let mut layout = Layout::start(alloc)?;
    for statement in statements {
        counters.push(layout.counters()).unwrap();
        layout.read(text, statement)?;
    }
    let Layout {
        prog: _,
        drom: _,
        names,
    } = layout;
    Ok(Placing { names, counters })
}
