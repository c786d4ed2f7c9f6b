ghost use Rattle.std.specs.Prelude.{◌≡◌, ◌+◌, ◌<◌, ◌≤◌, ◌^◌, Bool, ℕ, true, List, IfOk, length, slice_index};
ghost use Rattle.wb_term.specs.declared.nodes.Node.{Node};
ghost use Rattle.wb_term.specs.declared.nodes.WordNode.{WordNode};
ghost use Rattle.wb_term.specs.Inputs.{Assignment, IsAssignment};
ghost use Rattle.wb_term.specs.Terms.{Terms};
ghost use Rattle.wb_term.specs.Values.{word_value};
ghost use Rattle.wb_term.specs.Growth.{Grown, AddsAtMost};
ghost use Rattle.wb_fold.specs.Ram.{word_in, AreWords, HasWords, WordsHaveOnly};
ghost use Rattle.wb_machine.specs.State.{power, reset};
ghost use Rattle.wb_symstep.specs.State.{StandsFor, IsSymState, StateHasOnly};
ghost use Rattle.wb_symstep.specs.Starts.{AreConstants};

use crate::state::SymState;
use crate::work::Constants;
use std::alloc::Global;
use wb_fold::{Pages, SymFlags};
use wb_make::{mk_cell, mk_const, mk_known};
use wb_term::{Graph, OutOfMemory, WordId};

/// What every register and flag holds at power-up.
fn constants(graph: &mut Graph) -> Result<Constants, OutOfMemory>
    requires room { length graph.old.nodes + 3 ≤ 2 ^ 31 }
    ensures are { IfOk result (AreConstants graph.new) }
    ensures grown { Grown graph.old graph.new }
    ensures adds { AddsAtMost graph.old graph.new 3 0 }
{
    let zero = mk_const(graph, 0)?;
    let last = mk_const(graph, 0x3FF)?;
    let clear = mk_known(graph, false)?;
    Ok(Constants { zero, last, clear })
}

/// The words of the RAM's start.
fn cells(graph: &mut Graph, alloc: Global) -> Result<Vec<WordId>, OutOfMemory>
    requires room { length graph.old.nodes + 256 ≤ 2 ^ 31 }
    ensures len { IfOk result (λ words. length words.items ≡ 256) }
    ensures value { IfOk result (λ words. AreWords graph.new words.items (λ inputs k. slice_index inputs.cells k)) }
    ensures inputs { IfOk result (λ words. (allowed : Node → Bool) → ((place : ℕ) → place < 256 → allowed (Node.Word (WordNode.Cell place)) ≡ true) →
        WordsHaveOnly graph.new allowed words.items) }
    ensures grown { Grown graph.old graph.new }
    ensures adds { AddsAtMost graph.old graph.new 256 0 }
{
    let mut words = Vec::with_capacity(alloc, 256)?;
    for place in 0..256u16 {
        let cell = mk_cell(graph, place as u8)?;
        words.push(cell)?;
    }
    Ok(words)
}

/// The chip at power-up with a RAM.
fn at_power(constants: Constants, ram: Pages) -> SymState
    ensures state { (g : Terms) → AreConstants g constants → length ram ≡ 256 → HasWords g ram → IsSymState g result }
    ensures stands { (g : Terms) (inputs : Assignment) (words : List ℕ) → AreConstants g constants → IsAssignment inputs →
        ((k : ℕ) → k < 256 → word_value inputs g (word_in ram k) ≡ slice_index words k) → StandsFor inputs g result (power words) }
    ensures inputs { (g : Terms) (allowed : Node → Bool) → AreConstants g constants → WordsHaveOnly g allowed ram → StateHasOnly g allowed result }
{
    let zero = constants.zero;
    let clear = constants.clear;
    let flags = SymFlags {
        c: clear,
        z: clear,
        s0: clear,
        s1: clear,
        ov0: clear,
        ov1: clear,
    };
    SymState {
        pc: 0,
        sp: 0,
        stack: [0; 4],
        rqm: false,
        drs: false,
        rp: constants.last,
        dp: zero,
        a: zero,
        b: zero,
        tr: zero,
        trb: zero,
        k: zero,
        l: zero,
        dr: zero,
        sr: zero,
        so: zero,
        flags_a: flags,
        flags_b: flags,
        ram,
    }
}

impl SymState {
    /// The chip at power-up, with a RAM of zeros.
    pub fn reset(graph: &mut Graph, alloc: Global) -> Result<SymState, OutOfMemory>
        requires room { length graph.old.nodes + 16 ≤ 2 ^ 31 }
        ensures state { IfOk result (IsSymState graph.new) }
        ensures stands { IfOk result (λ s. (inputs : Assignment) → IsAssignment inputs → StandsFor inputs graph.new s reset) }
        ensures inputs { IfOk result (λ s. (allowed : Node → Bool) → StateHasOnly graph.new allowed s) }
        ensures grown { Grown graph.old graph.new }
        ensures adds { AddsAtMost graph.old graph.new 16 0 }
    {
        let constants = constants(graph)?;
        let ram = Pages::from_list(alloc, &[constants.zero; 256])?;
        Ok(at_power(constants, ram))
    }

    /// The chip at power-up, whose RAM holds the start of the inputs.
    pub fn power(graph: &mut Graph, alloc: Global) -> Result<SymState, OutOfMemory>
        requires room { length graph.old.nodes + 272 ≤ 2 ^ 31 }
        ensures state { IfOk result (IsSymState graph.new) }
        ensures stands { IfOk result (λ s. (inputs : Assignment) → IsAssignment inputs → StandsFor inputs graph.new s (power inputs.cells)) }
        ensures inputs { IfOk result (λ s. (allowed : Node → Bool) → ((place : ℕ) → place < 256 → allowed (Node.Word (WordNode.Cell place)) ≡ true) →
            StateHasOnly graph.new allowed s) }
        ensures grown { Grown graph.old graph.new }
        ensures adds { AddsAtMost graph.old graph.new 272 0 }
    {
        let words = cells(graph, alloc)?;
        let constants = constants(graph)?;
        let ram = Pages::from_list(alloc, &words)?;
        Ok(at_power(constants, ram))
    }
}
