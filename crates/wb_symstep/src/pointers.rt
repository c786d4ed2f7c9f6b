ghost use Rattle.std.specs.Prelude.{◌≡◌, ◌+◌, ◌*◌, ◌/◌, ◌%◌, ◌<◌, ◌≤◌, ◌^◌, bit_xor, [], ◌∷◌, IfOk, length};
ghost use Rattle.wb_term.specs.Terms.{HasWord};
ghost use Rattle.wb_term.specs.Values.{IsWord, word_value};
ghost use Rattle.wb_term.specs.Growth.{Grown, AddsAtMost};
ghost use Rattle.wb_make.specs.Inputs.{BringsOnly};
ghost use Rattle.wb_machine.specs.Next.{dp_stepped, low_stepped, rp_stepped};

use crate::words::{masked, raised, turned};
use wb_make::{mk_const, mk_or};
use wb_term::{Graph, OutOfMemory, WordId};
use wb_word::{Dpl, Nibble};

/// The low four bits of DP after their change.
fn low_bits(graph: &mut Graph, change: Dpl, dp: WordId) -> Result<WordId, OutOfMemory>
    requires dp { HasWord graph.old dp }
    requires room { length graph.old.nodes + 5 ≤ 2 ^ 31 }
    ensures value { IfOk result (λ id. IsWord graph.new id (λ inputs. low_stepped change (word_value inputs graph.old dp % 16))) }
    ensures inputs { IfOk result (λ id. BringsOnly graph.old graph.new (dp.number ∷ []) id.number) }
    ensures grown { Grown graph.old graph.new }
    ensures adds { AddsAtMost graph.old graph.new 5 64 }
{
    let moved = match change {
        Dpl::DpNop => dp,
        Dpl::DpInc => raised(graph, dp, 1)?,
        Dpl::DpDec => raised(graph, dp, 15)?,
        Dpl::DpClr => mk_const(graph, 0)?,
    };
    masked(graph, moved, 15)
}

/// The bits of DP that a word turns over.
fn high_mask(high: Nibble) -> u16
    ensures value { result ≡ high.value * 16 }
{
    u16::from(high.value) << 4
}

/// The bits of DP above its low four, with some of them turned over.
fn high_bits(graph: &mut Graph, high: Nibble, dp: WordId) -> Result<WordId, OutOfMemory>
    requires dp { HasWord graph.old dp }
    requires room { length graph.old.nodes + 4 ≤ 2 ^ 31 }
    ensures value { IfOk result (λ id. IsWord graph.new id (λ inputs. bit_xor (word_value inputs graph.old dp / 16) high.value * 16)) }
    ensures inputs { IfOk result (λ id. BringsOnly graph.old graph.new (dp.number ∷ []) id.number) }
    ensures grown { Grown graph.old graph.new }
    ensures adds { AddsAtMost graph.old graph.new 4 32 }
{
    let _dp = graph.word_at(dp);
    let turned = turned(graph, dp, high_mask(high))?;
    masked(graph, turned, 0xFFF0)
}

/// DP with some of its bits above the low four turned over.
fn turn_high(graph: &mut Graph, high: Nibble, dp: WordId) -> Result<WordId, OutOfMemory>
    requires dp { HasWord graph.old dp }
    requires room { length graph.old.nodes + 2 ≤ 2 ^ 31 }
    ensures value { IfOk result (λ id. IsWord graph.new id (λ inputs. dp_stepped Dpl.DpNop high.value (word_value inputs graph.old dp))) }
    ensures inputs { IfOk result (λ id. BringsOnly graph.old graph.new (dp.number ∷ []) id.number) }
    ensures grown { Grown graph.old graph.new }
    ensures adds { AddsAtMost graph.old graph.new 2 16 }
{
    turned(graph, dp, high_mask(high))
}

/// DP after the change that a word makes in it.
pub(crate) fn step_dp(
    graph: &mut Graph,
    change: Dpl,
    high: Nibble,
    dp: WordId,
) -> Result<WordId, OutOfMemory>
    requires dp { HasWord graph.old dp }
    requires room { length graph.old.nodes + 10 ≤ 2 ^ 31 }
    ensures value { IfOk result (λ id. IsWord graph.new id (λ inputs. dp_stepped change high.value (word_value inputs graph.old dp))) }
    ensures inputs { IfOk result (λ id. BringsOnly graph.old graph.new (dp.number ∷ []) id.number) }
    ensures grown { Grown graph.old graph.new }
    ensures adds { AddsAtMost graph.old graph.new 10 112 }
{
    match change {
        Dpl::DpNop => turn_high(graph, high, dp),
        _ => step_halves(graph, change, high, dp),
    }
}

fn step_halves(
    graph: &mut Graph,
    change: Dpl,
    high: Nibble,
    dp: WordId,
) -> Result<WordId, OutOfMemory>
    requires dp { HasWord graph.old dp }
    requires room { length graph.old.nodes + 10 ≤ 2 ^ 31 }
    ensures value { IfOk result (λ id. IsWord graph.new id (λ inputs. dp_stepped change high.value (word_value inputs graph.old dp))) }
    ensures inputs { IfOk result (λ id. BringsOnly graph.old graph.new (dp.number ∷ []) id.number) }
    ensures grown { Grown graph.old graph.new }
    ensures adds { AddsAtMost graph.old graph.new 10 112 }
{
    let above = high_bits(graph, high, dp)?;
    let low = low_bits(graph, change, dp)?;
    mk_or(graph, above, low)
}

/// RP after the change that a word makes in it.
pub(crate) fn step_rp(graph: &mut Graph, change: bool, rp: WordId) -> Result<WordId, OutOfMemory>
    requires rp { HasWord graph.old rp }
    requires room { length graph.old.nodes + 5 ≤ 2 ^ 31 }
    ensures value { IfOk result (λ id. IsWord graph.new id (λ inputs. rp_stepped change (word_value inputs graph.old rp))) }
    ensures inputs { IfOk result (λ id. BringsOnly graph.old graph.new (rp.number ∷ []) id.number) }
    ensures grown { Grown graph.old graph.new }
    ensures adds { AddsAtMost graph.old graph.new 5 64 }
{
    if !change {
        return Ok(rp);
    }
    let before = raised(graph, rp, 0x3FF)?;
    masked(graph, before, 0x3FF)
}
