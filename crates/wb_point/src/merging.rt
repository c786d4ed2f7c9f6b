ghost use Rattle.std.specs.Prelude.{◌≡◌, ◌+◌, ◌≤◌, ◌^◌, Bool, IfOk, length};
ghost use Rattle.wb_term.specs.declared.nodes.Node.{Node};
ghost use Rattle.wb_term.specs.Terms.{HasBit};
ghost use Rattle.wb_term.specs.Under.{HasOnly};
ghost use Rattle.wb_term.specs.Growth.{Grown, AddsAtMost};
ghost use Rattle.wb_symstep.specs.State.{IsSymState, StateHasOnly};
ghost use Rattle.wb_point.specs.Shows.{shows, SamePlace};
ghost use Rattle.wb_point.specs.Lists.{bit_in, word_list, bit_list, state_of};
ghost use Rattle.wb_point.specs.Merging.{Merges};

use crate::keys::shown;
use crate::lists::{merge_bits, merge_words};
use std::alloc::Global;
use wb_fold::{Pages, SymFlags, pages_merge};
use wb_port::Shown;
use wb_symstep::{OutOfMemory, SymState};
use wb_term::{BitId, Graph, WordId};

/// One state for two at one place of the program: the one where a bit is true, else the other.
pub fn merge(
    graph: &mut Graph,
    alloc: Global,
    cond: BitId,
    yes: &SymState,
    no: &SymState,
) -> Result<SymState, OutOfMemory>
    requires cond { HasBit graph.old cond }
    requires yes { IsSymState graph.old yes.now }
    requires no { IsSymState graph.old no.now }
    requires same { SamePlace yes.now no.now }
    requires room { length graph.old.nodes + 300 ≤ 2 ^ 31 }
    ensures there { IfOk result (IsSymState graph.new) }
    ensures place { IfOk result (λ s. shows s ≡ shows yes.now) }
    ensures stands { IfOk result (Merges graph.old graph.new cond yes.now no.now) }
    ensures inputs { IfOk result (λ s. (allowed : Node → Bool) → HasOnly graph.old allowed cond.number →
        StateHasOnly graph.old allowed yes.now → StateHasOnly graph.old allowed no.now → StateHasOnly graph.new allowed s) }
    ensures grown { Grown graph.old graph.new }
    ensures adds { AddsAtMost graph.old graph.new 300 5000 }
{
    let words = merge_words(graph, alloc, cond, &words_of(yes), &words_of(no))?;
    let bits = merge_bits(graph, alloc, cond, &bits_of(yes), &bits_of(no))?;
    let ram = pages_merge(graph, alloc, cond, &yes.ram, &no.ram)?;
    Ok(state_of(shown(yes), &words, &bits, ram))
}

/// The registers that are terms.
fn words_of(state: &SymState) -> [WordId; 11]
    ensures { result ≡ word_list state.now }
{
    [
        state.rp, state.dp, state.a, state.b, state.tr, state.trb, state.k, state.l, state.dr,
        state.sr, state.so,
    ]
}

/// The flags of both accumulators.
fn bits_of(state: &SymState) -> [BitId; 12]
    ensures { result ≡ bit_list state.now }
{
    let a = state.flags_a;
    let b = state.flags_b;
    [
        a.c, a.z, a.s0, a.s1, a.ov0, a.ov1, b.c, b.z, b.s0, b.s1, b.ov0, b.ov1,
    ]
}

/// The state with these concrete parts and terms.
fn state_of(place: Shown, words: &[WordId], bits: &[BitId], ram: Pages) -> SymState
    requires words { length words.now ≡ 11 }
    requires bits { length bits.now ≡ 12 }
    ensures { result ≡ state_of place words.now bits.now ram }
{
    let stack = place.stack;
    SymState {
        pc: place.pc,
        sp: place.sp,
        stack,
        rqm: place.rqm,
        drs: place.drs,
        rp: words[0],
        dp: words[1],
        a: words[2],
        b: words[3],
        tr: words[4],
        trb: words[5],
        k: words[6],
        l: words[7],
        dr: words[8],
        sr: words[9],
        so: words[10],
        flags_a: flags_of(&bits[..6]),
        flags_b: flags_of(&bits[6..]),
        ram,
    }
}

/// Six flags, in order.
fn flags_of(bits: &[BitId]) -> SymFlags
    requires { length bits.now ≡ 6 }
    ensures c { result.c ≡ bit_in bits.now 0 }
    ensures z { result.z ≡ bit_in bits.now 1 }
    ensures s0 { result.s0 ≡ bit_in bits.now 2 }
    ensures s1 { result.s1 ≡ bit_in bits.now 3 }
    ensures ov0 { result.ov0 ≡ bit_in bits.now 4 }
    ensures ov1 { result.ov1 ≡ bit_in bits.now 5 }
{
    SymFlags {
        c: bits[0],
        z: bits[1],
        s0: bits[2],
        s1: bits[3],
        ov0: bits[4],
        ov1: bits[5],
    }
}
