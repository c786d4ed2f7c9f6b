//! What a comparison holds on its way.
ghost use Rattle.std.specs.Prelude.{◌≡◌, IfOk, OnOk, None, Some, option_map};
ghost use Rattle.wb_port.specs.Talk.{Talk, IsTalk};
ghost use Rattle.wb_compare.specs.Working.{or_else, with_overrun, kept_of};

use std::alloc::Global;
use wb_explore::{Layer, Purse};
use wb_port::{Access, Dialogue};
use wb_term::Graph;
use wb_word::{OutOfMemory, Side};

/// The graph of both machines, the points that were reached, and an overrun of each side, where one was found.
#[derive(Drop)]
pub(crate) struct Work {
    pub graph: Graph,
    pub purse: Purse,
    pub first_overrun: Option<Dialogue>,
    pub second_overrun: Option<Dialogue>,
}

/// Keeps the layer's overrun, where none of its side was kept.
pub(crate) fn keep_overrun(alloc: Global, work: &mut Work, layer: &Layer) -> Result<(), OutOfMemory>
    ensures kept { OnOk result (work.new ≡ with_overrun work.old layer.now.plan.side layer.now.overrun) }
    ensures lawful { OnOk result (kept_of work.old layer.now.plan.side ≡ None → (d : Talk) → layer.now.overrun ≡ Some d → IsTalk d) }
{
    match layer.side() {
        Side::A => keep(alloc, &mut work.first_overrun, layer.overrun()),
        Side::B => keep(alloc, &mut work.second_overrun, layer.overrun()),
    }
}

/// Keeps what was found, where nothing was kept.
fn keep(
    alloc: Global,
    kept: &mut Option<Dialogue>,
    found: Option<&Dialogue>,
) -> Result<(), OutOfMemory>
    ensures kept { OnOk result (kept.new ≡ or_else kept.old (option_map (λ d. d.now) found.entry)) }
    ensures lawful { OnOk result (kept.old ≡ None → (d : Talk) → option_map (λ d. d.now) found.entry ≡ Some d → IsTalk d) }
{
    if kept.is_some() {
        return Ok(());
    }
    match found {
        None => Ok(()),
        Some(dialogue) => {
            *kept = Some(copy_dialogue(alloc, dialogue)?);
            Ok(())
        }
    }
}

/// An equal dialogue.
fn copy_dialogue(alloc: Global, dialogue: &Dialogue) -> Result<Dialogue, OutOfMemory>
    ensures value { IfOk result (λ d. d ≡ dialogue.now) }
    ensures lawful { IsTalk dialogue.now }
{
    let accesses: Vec<Access> = dialogue.list().to_vec(alloc)?;
    let mut copy = Dialogue::from_vec(accesses);
    copy.set_start(dialogue.start());
    Ok(copy)
}
