ghost use Rattle.std.specs.Prelude.{◌≡◌, ◌≢◌, ◌+◌, ◌<◌, ◌≤◌, ◌^◌, Bool, not, ◌&&◌, true, is_some, Some, [], ◌∷◌, ◌++◌, IfOk, IfErr, OnOk, OnErr, length};
ghost use Rattle.wb_term.specs.Terms.{HasBit, table_of, table_words};
ghost use Rattle.wb_term.specs.Under.{HasOnly};
ghost use Rattle.wb_symstep.specs.State.{IsSymState, StateHasOnly};
ghost use Rattle.wb_symstep.specs.declared.stepped.Stepped.TheVariants.{One, Fork};
ghost use Rattle.wb_symstep.specs.Stepped.{IsStepped, SteppedHasOnly};
ghost use Rattle.wb_term.specs.declared.nodes.Node.{Node};
ghost use Rattle.wb_term.specs.Values.{IsBit, bit_value};
ghost use Rattle.wb_term.specs.Growth.{Grown, AddsAtMost};
ghost use Rattle.wb_law.specs.declared.classes.Class.TheVariants as class;
ghost use Rattle.wb_law.specs.Classes.{class_at};
ghost use Rattle.wb_explore.specs.declared.entries.Entry.{Entry};
ghost use Rattle.wb_explore.specs.Entries.{IsSound};
ghost use Rattle.wb_explore.specs.Plans.{runs_of, is_chosen};
ghost use Rattle.wb_explore.specs.Layers.{AddsPassed};
ghost use Rattle.wb_explore.specs.Pending.{entry_view, IsEntry, ArePending, AreAhead, IsAbove, IsPutAhead, IsUnput, IsNext, AreHeirs, AreArrivals, StepsTo, ArePutAhead, IsGoneOn, each_of, list_of};

use crate::arrivals::arrive;
use crate::entries::Entry;
use crate::facts::held_laws;
use crate::faults::ExploreFault;
use crate::plan::Plan;
use crate::purse::Purse;
use std::alloc::Global;
use wb_make::{mk_andb, mk_notb};
use wb_point::{dialogues_are_of_their_kinds, rank_at, shown};
use wb_rom::Image;
use wb_symstep::{Stepped, SymState, states_stay, sym_step};
use wb_term::{BitId, Graph, Inputs, Scratch};
use wb_word::OutOfMemory;

/// The entry that comes of another by one instruction, which leaves this state.
pub(crate) fn next_entry(
    alloc: Global,
    image: &Image,
    plan: &Plan,
    entry: &Entry,
    state: SymState,
    cond: BitId,
    witness: Option<Inputs>,
) -> Result<Entry, OutOfMemory>
    requires place { entry.now.key.pc < 2048 }
    requires small { entry.now.key.count < plan.now.pace }
    requires next_place { state.pc < 2048 }
    ensures { IfOk result (IsNext image.now plan.now entry.now state cond witness) }
{
    let pace = plan.pace;
    let mut key = entry.key.copy(alloc)?;
    let shows = shown(&state);
    key.step(image, shows);
    let rank = rank_at(image, pace, &key);
    Ok(Entry {
        key,
        rank,
        state,
        cond,
        witness,
    })
}

/// What comes of an entry by one instruction.
#[derive(Drop)]
pub(crate) enum Arrivals {
    One(Entry),
    Two(Entry, Entry),
}

/// Who inherits inputs: the first of two where its bit is true under them, else the second.
fn heirs(
    graph: &Graph,
    alloc: Global,
    first: BitId,
    witness: &Option<Inputs>,
) -> Result<(Option<Inputs>, Option<Inputs>), OutOfMemory>
    requires { HasBit graph.now first }
    ensures { IfOk result (λ pair. AreHeirs graph.now first witness.now pair.0 pair.1) }
{
    let Some(inputs) = witness else {
        return Ok((None, None));
    };
    let copy = copy_inputs(alloc, inputs)?;
    let mut scratch = Scratch::for_graph(alloc, graph)?;
    let _node = graph.bit_at(first);
    if graph.value_bit(first, inputs, &mut scratch) {
        Ok((Some(copy), None))
    } else {
        Ok((None, Some(copy)))
    }
}

/// Equal inputs.
pub(crate) fn copy_inputs(alloc: Global, inputs: &Inputs) -> Result<Inputs, OutOfMemory>
    ensures { IfOk result (λ copy. copy ≡ inputs.now) }
{
    let bytes = inputs_bytes(alloc, inputs)?;
    let cells = inputs_cells(alloc, inputs)?;
    let copy = Inputs::new(alloc, &bytes, &cells)?;
    Ok(copy)
}

fn inputs_bytes(alloc: Global, inputs: &Inputs) -> Result<Vec<u8>, OutOfMemory>
    ensures bytes { IfOk result (λ bytes. bytes.items ≡ inputs.now.bytes) }
    ensures len { IfOk result (λ bytes. length bytes.items ≡ 16) }
{
    let _first = inputs.byte(0);
    let mut bytes = Vec::with_capacity(alloc, 16)?;
    for place in 0..16u8 {
        bytes.push(inputs.byte(place))?;
    }
    Ok(bytes)
}

fn inputs_cells(alloc: Global, inputs: &Inputs) -> Result<Vec<u16>, OutOfMemory>
    ensures cells { IfOk result (λ cells. cells.items ≡ inputs.now.cells) }
    ensures len { IfOk result (λ cells. length cells.items ≡ 256) }
{
    let _first = inputs.cell(0);
    let mut cells = Vec::with_capacity(alloc, 256)?;
    for place in 0..256u16 {
        cells.push(inputs.cell(place as u8))?;
    }
    Ok(cells)
}

/// The conditions of the two ways of a fork: the entry's, and that of the fork or not.
pub(crate) fn branches(
    graph: &mut Graph,
    here: BitId,
    cond: BitId,
) -> Result<(BitId, BitId), OutOfMemory>
    requires here { HasBit graph.old here }
    requires cond { HasBit graph.old cond }
    requires room { length graph.old.nodes + 3 ≤ 2 ^ 31 }
    ensures first { IfOk result (λ pair. IsBit graph.new pair.0 (λ i. bit_value i graph.old here && bit_value i graph.old cond)) }
    ensures second { IfOk result (λ pair. IsBit graph.new pair.1 (λ i. bit_value i graph.old here && not (bit_value i graph.old cond))) }
    ensures inputs { IfOk result (λ pair. (allowed : Node → Bool) → HasOnly graph.old allowed here.number → HasOnly graph.old allowed cond.number →
        HasOnly graph.new allowed pair.0.number × HasOnly graph.new allowed pair.1.number) }
    ensures grown { Grown graph.old graph.new }
    ensures adds { AddsAtMost graph.old graph.new 3 2 }
{
    let first = mk_andb(graph, here, cond)?;
    let other = mk_notb(graph, cond)?;
    let second = mk_andb(graph, here, other)?;
    Ok((first, second))
}

/// What comes of an entry by a fork.
fn fork(
    graph: &mut Graph,
    alloc: Global,
    image: &Image,
    plan: &Plan,
    entry: &Entry,
    cond: BitId,
    yes: SymState,
    no: SymState,
) -> Result<Arrivals, OutOfMemory>
    requires entry { IsEntry graph.old image.now plan.now entry.now }
    requires goes { entry.now.key.count < plan.now.pace }
    requires place { entry.now.key.pc < 2048 }
    requires cond { HasBit graph.old cond }
    requires cond_inputs { HasOnly graph.old (is_chosen plan.now.kinds plan.now.power) cond.number }
    requires yes { IsSymState graph.old yes }
    requires no { IsSymState graph.old no }
    requires yes_inputs { StateHasOnly graph.old (is_chosen plan.now.kinds plan.now.power) yes }
    requires no_inputs { StateHasOnly graph.old (is_chosen plan.now.kinds plan.now.power) no }
    requires stands { StepsTo graph.old image.now entry.now (Fork cond yes no) }
    requires room { length graph.old.nodes + 3 ≤ 2 ^ 31 }
    ensures arrivals { IfOk result (λ a. AreArrivals graph.new image.now plan.now entry.now (list_of a)) }
    ensures grown { Grown graph.old graph.new }
    ensures adds { AddsAtMost graph.old graph.new 3 2 }
{
    states_stay();
    let (first, second) = branches(graph, entry.cond, cond)?;
    let (heir, other) = heirs(graph, alloc, first, &entry.witness)?;
    let one = next_entry(alloc, image, plan, entry, yes, first, heir)?;
    let two = next_entry(alloc, image, plan, entry, no, second, other)?;
    Ok(Arrivals::Two(one, two))
}

/// What comes of an entry without a fork.
fn one_way(
    graph: &Graph,
    alloc: Global,
    image: &Image,
    plan: &Plan,
    entry: &Entry,
    state: SymState,
) -> Result<Arrivals, OutOfMemory>
    requires entry { IsEntry graph.now image.now plan.now entry.now }
    requires goes { entry.now.key.count < plan.now.pace }
    requires place { entry.now.key.pc < 2048 }
    requires state { IsSymState graph.now state }
    requires state_inputs { StateHasOnly graph.now (is_chosen plan.now.kinds plan.now.power) state }
    requires stands { StepsTo graph.now image.now entry.now (One state) }
    ensures { IfOk result (λ a. AreArrivals graph.now image.now plan.now entry.now (list_of a)) }
{
    states_stay();
    let witness = copy_witness(alloc, &entry.witness)?;
    let one = next_entry(alloc, image, plan, entry, state, entry.cond, witness)?;
    Ok(Arrivals::One(one))
}

/// Equal inputs, where there are some.
fn copy_witness(alloc: Global, witness: &Option<Inputs>) -> Result<Option<Inputs>, OutOfMemory>
    ensures { IfOk result (λ copy. copy ≡ witness.now) }
{
    match witness {
        Some(inputs) => {
            let copy = copy_inputs(alloc, inputs)?;
            Ok(Some(copy))
        }
        None => Ok(None),
    }
}

/// What comes of an entry by what its state comes to.
fn arrivals_of(
    graph: &mut Graph,
    alloc: Global,
    image: &Image,
    plan: &Plan,
    entry: &Entry,
    stepped: Stepped,
) -> Result<Arrivals, OutOfMemory>
    requires entry { IsEntry graph.old image.now plan.now entry.now }
    requires goes { entry.now.key.count < plan.now.pace }
    requires place { entry.now.key.pc < 2048 }
    requires stepped { IsStepped graph.old stepped }
    requires inputs { SteppedHasOnly graph.old (is_chosen plan.now.kinds plan.now.power) stepped }
    requires stands { StepsTo graph.old image.now entry.now stepped }
    requires room { length graph.old.nodes + 3 ≤ 2 ^ 31 }
    ensures arrivals { IfOk result (λ a. AreArrivals graph.new image.now plan.now entry.now (list_of a)) }
    ensures grown { Grown graph.old graph.new }
    ensures adds { AddsAtMost graph.old graph.new 3 2 }
{
    match stepped {
        Stepped::One(state) => one_way(graph, alloc, image, plan, entry, state),
        Stepped::Fork { cond, yes, no } => fork(graph, alloc, image, plan, entry, cond, yes, no),
    }
}

/// What comes of an entry by its next instruction.
pub(crate) fn follow(
    graph: &mut Graph,
    alloc: Global,
    image: &Image,
    plan: &Plan,
    entry: &Entry,
) -> Result<Arrivals, OutOfMemory>
    requires entry { IsEntry graph.old image.now plan.now entry.now }
    requires goes { entry.now.key.count < plan.now.pace }
    requires words { table_words graph.old.tables (table_of graph.old.tables plan.now.side) ≡ image.now.drom }
    requires room { length graph.old.nodes + 1203 ≤ 2 ^ 31 }
    ensures arrivals { IfOk result (λ a. AreArrivals graph.new image.now plan.now entry.now (list_of a)) }
    ensures grown { Grown graph.old graph.new }
    ensures adds { AddsAtMost graph.old graph.new 1203 120002 }
{
    states_stay();
    let stepped = sym_step(graph, alloc, image, plan.side, &entry.state)?;
    arrivals_of(graph, alloc, image, plan, entry, stepped)
}

/// Puts an entry among those ahead of a rank. One that isn't above it is at no chip, and is left out.
pub(crate) fn arrive_ahead(
    graph: &mut Graph,
    alloc: Global,
    image: &Image,
    plan: &Plan,
    purse: &mut Purse,
    pending: &mut Vec<Entry>,
    entry: Entry,
    bound: u32,
) -> Result<(), ExploreFault>
    requires pending { ArePending graph.old image.now plan.now purse.old.reached pending.old.items }
    requires entry { IsEntry graph.old image.now plan.now entry }
    requires sound { IsSound (entry_view graph.old) (runs_of image.now plan.now) entry }
    requires ahead { AreAhead image.now plan.now purse.old.reached pending.old.items bound }
    requires above { IsAbove graph.old image.now plan.now bound entry }
    requires few { length plan.now.kinds ≤ 16 }
    requires room { length graph.old.nodes + 301 ≤ 2 ^ 31 }
    ensures put { OnOk result (IsPutAhead image.now plan.now graph.old graph.new purse.old.reached purse.new.reached pending.old.items entry bound pending.new.items) }
    ensures fault { IfErr result (IsUnput image.now plan.now purse.old) }
    ensures passed { AddsPassed image.now plan.now purse.old.reached purse.new.reached }
    ensures budget { purse.new.budget ≡ purse.old.budget }
    ensures grown { Grown graph.old graph.new }
    ensures adds { AddsAtMost graph.old graph.new 301 5001 }
{
    if bound < entry.rank {
        return arrive(graph, alloc, image, plan, purse, pending, entry);
    }
    Ok(())
}

/// Puts two entries among those ahead of a rank.
fn put_two(
    graph: &mut Graph,
    alloc: Global,
    image: &Image,
    plan: &Plan,
    purse: &mut Purse,
    pending: &mut Vec<Entry>,
    one: Entry,
    two: Entry,
    bound: u32,
) -> Result<(), ExploreFault>
    requires pending { ArePending graph.old image.now plan.now purse.old.reached pending.old.items }
    requires ahead { AreAhead image.now plan.now purse.old.reached pending.old.items bound }
    requires one { IsEntry graph.old image.now plan.now one }
    requires two { IsEntry graph.old image.now plan.now two }
    requires one_sound { IsSound (entry_view graph.old) (runs_of image.now plan.now) one }
    requires two_sound { IsSound (entry_view graph.old) (runs_of image.now plan.now) two }
    requires one_above { IsAbove graph.old image.now plan.now bound one }
    requires two_above { IsAbove graph.old image.now plan.now bound two }
    requires few { length plan.now.kinds ≤ 16 }
    requires room { length graph.old.nodes + 602 ≤ 2 ^ 31 }
    ensures put { OnOk result (ArePutAhead image.now plan.now graph.old graph.new purse.old.reached purse.new.reached pending.old.items (one ∷ two ∷ []) bound pending.new.items) }
    ensures fault { IfErr result (IsUnput image.now plan.now purse.old) }
    ensures passed { AddsPassed image.now plan.now purse.old.reached purse.new.reached }
    ensures budget { purse.new.budget ≡ purse.old.budget }
    ensures grown { Grown graph.old graph.new }
    ensures adds { AddsAtMost graph.old graph.new 602 10002 }
{
    states_stay();
    arrive_ahead(graph, alloc, image, plan, purse, pending, one, bound)?;
    arrive_ahead(graph, alloc, image, plan, purse, pending, two, bound)
}

/// Puts what comes of an entry among those ahead of a rank.
fn put_arrivals(
    graph: &mut Graph,
    alloc: Global,
    image: &Image,
    plan: &Plan,
    purse: &mut Purse,
    pending: &mut Vec<Entry>,
    arrivals: Arrivals,
    bound: u32,
) -> Result<(), ExploreFault>
    requires pending { ArePending graph.old image.now plan.now purse.old.reached pending.old.items }
    requires ahead { AreAhead image.now plan.now purse.old.reached pending.old.items bound }
    requires entries { each_of (IsEntry graph.old image.now plan.now) arrivals }
    requires sound { each_of (IsSound (entry_view graph.old) (runs_of image.now plan.now)) arrivals }
    requires above { each_of (IsAbove graph.old image.now plan.now bound) arrivals }
    requires few { length plan.now.kinds ≤ 16 }
    requires room { length graph.old.nodes + 602 ≤ 2 ^ 31 }
    ensures put { OnOk result (ArePutAhead image.now plan.now graph.old graph.new purse.old.reached purse.new.reached pending.old.items (list_of arrivals) bound pending.new.items) }
    ensures fault { IfErr result (IsUnput image.now plan.now purse.old) }
    ensures passed { AddsPassed image.now plan.now purse.old.reached purse.new.reached }
    ensures budget { purse.new.budget ≡ purse.old.budget }
    ensures grown { Grown graph.old graph.new }
    ensures adds { AddsAtMost graph.old graph.new 602 10002 }
{
    match arrivals {
        Arrivals::One(one) => arrive_ahead(graph, alloc, image, plan, purse, pending, one, bound),
        Arrivals::Two(one, two) => put_two(
            graph, alloc, image, plan, purse, pending, one, two, bound,
        ),
    }
}

/// Goes on from an entry: what comes of it by one instruction is put among the others.
pub(crate) fn go_on(
    graph: &mut Graph,
    alloc: Global,
    image: &Image,
    plan: &Plan,
    purse: &mut Purse,
    pending: &mut Vec<Entry>,
    entry: &Entry,
) -> Result<(), ExploreFault>
    requires pending { ArePending graph.old image.now plan.now purse.old.reached pending.old.items }
    requires ahead { AreAhead image.now plan.now purse.old.reached pending.old.items entry.now.rank }
    requires entry { IsEntry graph.old image.now plan.now entry.now }
    requires sound { IsSound (entry_view graph.old) (runs_of image.now plan.now) entry.now }
    requires class { class_at image.now plan.now.pace entry.now.key ≡ class.GoesOn }
    requires goes { entry.now.key.count < plan.now.pace }
    requires few { length plan.now.kinds ≤ 16 }
    requires words { table_words graph.old.tables (table_of graph.old.tables plan.now.side) ≡ image.now.drom }
    requires room { length graph.old.nodes + 1805 ≤ 2 ^ 31 }
    ensures gone { OnOk result (IsGoneOn image.now plan.now graph.old graph.new purse.old.reached purse.new.reached pending.old.items entry.now pending.new.items) }
    ensures fault { IfErr result (IsUnput image.now plan.now purse.old) }
    ensures passed { AddsPassed image.now plan.now purse.old.reached purse.new.reached }
    ensures budget { purse.new.budget ≡ purse.old.budget }
    ensures grown { Grown graph.old graph.new }
    ensures adds { AddsAtMost graph.old graph.new 1805 130004 }
{
    held_laws();
    dialogues_are_of_their_kinds();
    states_stay();
    let arrivals = follow(graph, alloc, image, plan, entry)?;
    put_arrivals(
        graph, alloc, image, plan, purse, pending, arrivals, entry.rank,
    )
}
