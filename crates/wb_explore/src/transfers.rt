//! Transfers: what comes of the request states of a layer by one access more.
ghost use Rattle.std.specs.Prelude.{◌≡◌, ◌≤◌, ◌<◌, ◌+◌, ◌^◌, Bool, true, is_some, Some, None, [], ◌∷◌, ◌++◌, IfOk, IfErr, OnOk, length, All};
ghost use Rattle.wb_term.specs.declared.nodes.Node.{Node};
ghost use Rattle.wb_term.specs.declared.nodes.Node.TheVariants.{Word};
ghost use Rattle.wb_term.specs.declared.nodes.WordNode.TheVariants.{Byte};
ghost use Rattle.wb_term.specs.Terms.{HasBit};
ghost use Rattle.wb_term.specs.Values.{bit_value};
ghost use Rattle.wb_term.specs.Under.{HasOnly};
ghost use Rattle.wb_term.specs.Growth.{Grown, AddsAtMost};
ghost use Rattle.wb_port.specs.declared.accesses.Kind.TheVariants as kinds;
ghost use Rattle.wb_symport.specs.Transfer.{StandsAfter};
ghost use Rattle.wb_symstep.specs.State.{IsSymState, StateHasOnly};
ghost use Rattle.wb_symstep.specs.Stepped.{IsStepped, SteppedHasOnly};
ghost use Rattle.wb_symstep.specs.declared.stepped.Stepped.TheVariants.{One, Fork};
ghost use Rattle.wb_point.specs.Dialogues.{access_under};
ghost use Rattle.wb_explore.specs.declared.entries.Entry.{Entry};
ghost use Rattle.wb_explore.specs.Entries.{IsSound, Covered, Carries};
ghost use Rattle.wb_explore.specs.Plans.{runs_of, is_chosen};
ghost use Rattle.wb_explore.specs.Layers.{IsLayer, IsRequest, Knows, AddsPassed, request_point};
ghost use Rattle.wb_explore.specs.Explored.{longer_plan, IsOfOther};
ghost use Rattle.wb_explore.specs.Growth.{IsWithin, GrowsByPoints};
ghost use Rattle.wb_explore.specs.Pending.{entry_view, IsEntry, ArePending, AreAhead, AreAllFound, IsUnput, each_of, list_of, found_in};
ghost use Rattle.wb_explore.specs.Transfers.{IsAsked, GivesTo, IsGiven, ComesOfGiving, IsWay, AreAllWays, IsInOrder, AreGiven, IsFirstFound, ArePut, IsServed};

use crate::arrivals::arrive;
use crate::entries::Entry;
use crate::facts::held_laws;
use crate::faults::ExploreFault;
use crate::going::{Arrivals, branches, copy_inputs};
use crate::layer::{Layer, Request};
use crate::plan::Plan;
use crate::purse::Purse;
use std::alloc::Global;
use wb_law::different_values_are_no_more;
use wb_point::{
    dialogues_are_of_their_kinds, dialogues_grow_at_the_end, normalised_inputs_keep_the_dialogue,
    rank_at, shown,
};
use wb_port::{Kind, Point, Shown};
use wb_rom::Image;
use wb_symport::{sym_read, sym_write};
use wb_symstep::{Stepped, SymState, states_stay};
use wb_term::{BitId, Graph, Inputs, Scratch};
use wb_word::OutOfMemory;

/// One of the ways of a fork: the bit says where the state is that of the chip.
#[derive(Drop)]
pub(crate) struct Way {
    pub cond: BitId,
    pub state: SymState,
}

/// What comes of a state by a transfer of this kind, the next one after as many as the place says.
fn transfer(
    graph: &mut Graph,
    state: &SymState,
    kind: Kind,
    place: u8,
) -> Result<Stepped, OutOfMemory>
    requires state { IsSymState graph.old state.now }
    requires place { place < 16 }
    requires room { length graph.old.nodes + 16 ≤ 2 ^ 31 }
    ensures stands { IfOk result (StandsAfter graph.old graph.new state.now (λ inputs. access_under inputs place kind)) }
    ensures there { IfOk result (IsStepped graph.new) }
    ensures inputs { IfOk result (λ r. (allowed : Node → Bool) → (kind ≡ kinds.Write → allowed (Word (Byte place)) ≡ true) →
        StateHasOnly graph.old allowed state.now → SteppedHasOnly graph.new allowed r) }
    ensures grown { Grown graph.old graph.new }
    ensures adds { AddsAtMost graph.old graph.new 16 256 }
{
    match kind {
        Kind::Read => read_by(graph, state),
        Kind::Write => sym_write(graph, state, place),
    }
}

/// What comes of a state by a read.
fn read_by(graph: &mut Graph, state: &SymState) -> Result<Stepped, OutOfMemory>
    requires state { IsSymState graph.old state.now }
    requires room { length graph.old.nodes + 16 ≤ 2 ^ 31 }
    ensures stands { IfOk result (StandsAfter graph.old graph.new state.now (λ inputs. access_under inputs 0 kinds.Read)) }
    ensures there { IfOk result (IsStepped graph.new) }
    ensures inputs { IfOk result (λ r. (allowed : Node → Bool) → StateHasOnly graph.old allowed state.now → SteppedHasOnly graph.new allowed r) }
    ensures grown { Grown graph.old graph.new }
    ensures adds { AddsAtMost graph.old graph.new 16 256 }
{
    let (_byte, stepped) = sym_read(graph, state)?;
    Ok(stepped)
}

/// The point of a request state.
fn request_key(alloc: Global, plan: &Plan, state: &SymState) -> Result<Point, OutOfMemory>
    ensures { IfOk result (λ p. p ≡ request_point plan.now state.now) }
{
    let kinds = plan.kinds.copy(alloc)?;
    Ok(Point {
        side: plan.side,
        kinds,
        count: 0,
        pc: state.pc,
        sp: state.sp,
        stack: state.stack,
        asked: true,
        rqm: state.rqm,
        drs: state.drs,
    })
}

/// The entry that comes of a request state by a transfer, which leaves this state.
fn given_entry(
    alloc: Global,
    image: &Image,
    plan: &Plan,
    kind: Kind,
    from: &SymState,
    way: Way,
    witness: Option<Inputs>,
) -> Result<Entry, OutOfMemory>
    requires place { way.state.pc < 2048 }
    ensures { IfOk result (IsGiven image.now plan.now kind from.now way.state way.cond witness) }
{
    let pace = plan.pace;
    let mut key = request_key(alloc, plan, from)?;
    let _from = shown(from);
    let shows = shown(&way.state);
    key.give(kind, shows)?;
    let rank = rank_at(image, pace, &key);
    Ok(Entry {
        key,
        rank,
        state: way.state,
        cond: way.cond,
        witness,
    })
}

/// Whether a bit is true under inputs.
fn is_true(graph: &Graph, alloc: Global, bit: BitId, inputs: &Inputs) -> Result<bool, OutOfMemory>
    requires { HasBit graph.now bit }
    ensures { IfOk result (λ b. b ≡ bit_value inputs.now graph.now bit) }
{
    let mut scratch = Scratch::for_graph(alloc, graph)?;
    let _node = graph.bit_at(bit);
    Ok(graph.value_bit(bit, inputs, &mut scratch))
}

/// Two ways, the first of them first where the test is true.
fn in_order(first: bool, yes: Way, no: Way) -> (Way, Way)
    ensures { IsInOrder first yes no result.0 result.1 }
{
    if first { (yes, no) } else { (no, yes) }
}

/// What comes of a request state by a transfer without a fork.
fn one_given(
    graph: &Graph,
    alloc: Global,
    image: &Image,
    plan: &Plan,
    kind: Kind,
    request: &Request,
    state: SymState,
) -> Result<Arrivals, OutOfMemory>
    requires way { ComesOfGiving graph.now plan.now kind request.now state request.now.cond (Some request.now.inputs) }
    ensures { IfOk result (λ a. AreGiven graph.now image.now plan.now kind request.now (list_of a)) }
{
    let inputs = copy_inputs(alloc, &request.inputs)?;
    let way = Way {
        cond: request.cond,
        state,
    };
    let one = given_entry(alloc, image, plan, kind, &request.state, way, Some(inputs))?;
    Ok(Arrivals::One(one))
}

/// What comes of a request state by a transfer with a fork. The way of the request state's own inputs comes first.
fn two_given(
    graph: &Graph,
    alloc: Global,
    image: &Image,
    plan: &Plan,
    kind: Kind,
    request: &Request,
    here: Way,
    other: Way,
) -> Result<Arrivals, OutOfMemory>
    requires here { IsWay graph.now plan.now kind request.now here (Some request.now.inputs) }
    requires other { IsWay graph.now plan.now kind request.now other None }
    requires all { AreAllWays graph.now request.now here other }
    ensures { IfOk result (λ a. AreGiven graph.now image.now plan.now kind request.now (list_of a)) }
{
    let inputs = copy_inputs(alloc, &request.inputs)?;
    let one = given_entry(alloc, image, plan, kind, &request.state, here, Some(inputs))?;
    let two = given_entry(alloc, image, plan, kind, &request.state, other, None)?;
    Ok(Arrivals::Two(one, two))
}

/// What comes of a request state by a transfer that forks on a bit.
fn fork_given(
    graph: &mut Graph,
    alloc: Global,
    image: &Image,
    plan: &Plan,
    kind: Kind,
    request: &Request,
    cond: BitId,
    yes: SymState,
    no: SymState,
) -> Result<Arrivals, OutOfMemory>
    requires short { length plan.now.kinds < 16 }
    requires request { IsRequest graph.old plan.now request.now }
    requires cond { HasBit graph.old cond }
    requires cond_inputs { HasOnly graph.old (is_chosen (longer_plan plan.now kind).kinds plan.now.power) cond.number }
    requires yes { IsSymState graph.old yes }
    requires no { IsSymState graph.old no }
    requires yes_inputs { StateHasOnly graph.old (is_chosen (longer_plan plan.now kind).kinds plan.now.power) yes }
    requires no_inputs { StateHasOnly graph.old (is_chosen (longer_plan plan.now kind).kinds plan.now.power) no }
    requires stands { GivesTo graph.old plan.now kind request.now.state (Fork cond yes no) }
    requires room { length graph.old.nodes + 3 ≤ 2 ^ 31 }
    ensures given { IfOk result (λ a. AreGiven graph.new image.now plan.now kind request.now (list_of a)) }
    ensures grown { Grown graph.old graph.new }
    ensures adds { AddsAtMost graph.old graph.new 3 2 }
{
    states_stay();
    dialogues_grow_at_the_end();
    normalised_inputs_keep_the_dialogue();
    let (first, second) = branches(graph, request.cond, cond)?;
    let first_holds = is_true(graph, alloc, first, &request.inputs)?;
    let yes = Way {
        cond: first,
        state: yes,
    };
    let no = Way {
        cond: second,
        state: no,
    };
    let (here, other) = in_order(first_holds, yes, no);
    two_given(graph, alloc, image, plan, kind, request, here, other)
}

/// What comes of a request state by what a transfer leaves of its state.
fn ways_given(
    graph: &mut Graph,
    alloc: Global,
    image: &Image,
    plan: &Plan,
    kind: Kind,
    request: &Request,
    stepped: Stepped,
) -> Result<Arrivals, OutOfMemory>
    requires short { length plan.now.kinds < 16 }
    requires request { IsRequest graph.old plan.now request.now }
    requires stepped { IsStepped graph.old stepped }
    requires inputs { SteppedHasOnly graph.old (is_chosen (longer_plan plan.now kind).kinds plan.now.power) stepped }
    requires stands { GivesTo graph.old plan.now kind request.now.state stepped }
    requires room { length graph.old.nodes + 3 ≤ 2 ^ 31 }
    ensures given { IfOk result (λ a. AreGiven graph.new image.now plan.now kind request.now (list_of a)) }
    ensures grown { Grown graph.old graph.new }
    ensures adds { AddsAtMost graph.old graph.new 3 2 }
{
    dialogues_grow_at_the_end();
    normalised_inputs_keep_the_dialogue();
    match stepped {
        Stepped::One(state) => one_given(graph, alloc, image, plan, kind, request, state),
        Stepped::Fork { cond, yes, no } => fork_given(
            graph, alloc, image, plan, kind, request, cond, yes, no,
        ),
    }
}

/// What comes of a request state by the next transfer.
fn given(
    graph: &mut Graph,
    alloc: Global,
    image: &Image,
    plan: &Plan,
    kind: Kind,
    request: &Request,
) -> Result<Arrivals, OutOfMemory>
    requires short { length plan.now.kinds < 16 }
    requires request { IsRequest graph.old plan.now request.now }
    requires room { length graph.old.nodes + 19 ≤ 2 ^ 31 }
    ensures given { IfOk result (λ a. AreGiven graph.new image.now plan.now kind request.now (list_of a)) }
    ensures grown { Grown graph.old graph.new }
    ensures adds { AddsAtMost graph.old graph.new 19 258 }
{
    states_stay();
    let place = plan.kinds.len() as u8;
    let stepped = transfer(graph, &request.state, kind, place)?;
    ways_given(graph, alloc, image, plan, kind, request, stepped)
}

/// Puts two entries among the others.
fn put_both(
    graph: &mut Graph,
    alloc: Global,
    image: &Image,
    plan: &Plan,
    purse: &mut Purse,
    pending: &mut Vec<Entry>,
    one: Entry,
    two: Entry,
) -> Result<(), ExploreFault>
    requires pending { ArePending graph.old image.now plan.now purse.old.reached pending.old.items }
    requires found { AreAllFound plan.now purse.old.reached pending.old.items }
    requires one { IsEntry graph.old image.now plan.now one }
    requires two { IsEntry graph.old image.now plan.now two }
    requires one_sound { IsSound (entry_view graph.old) (runs_of image.now plan.now) one }
    requires two_sound { IsSound (entry_view graph.old) (runs_of image.now plan.now) two }
    requires first { is_some one.witness ≡ true }
    requires few { length plan.now.kinds ≤ 16 }
    requires room { length graph.old.nodes + 602 ≤ 2 ^ 31 }
    ensures put { OnOk result (ArePut image.now plan.now graph.old graph.new purse.old.reached purse.new.reached pending.old.items (one ∷ two ∷ []) pending.new.items) }
    ensures fault { IfErr result (IsUnput image.now plan.now purse.old) }
    ensures passed { AddsPassed image.now plan.now purse.old.reached purse.new.reached }
    ensures budget { purse.new.budget ≡ purse.old.budget }
    ensures grown { Grown graph.old graph.new }
    ensures adds { AddsAtMost graph.old graph.new 602 10002 }
    ensures still { pending.old.items ≡ [] → length purse.new.reached ≡ length purse.old.reached → graph.new ≡ graph.old }
{
    states_stay();
    arrive(graph, alloc, image, plan, purse, pending, one)?;
    arrive(graph, alloc, image, plan, purse, pending, two)
}

/// Puts an entry among the others.
fn put_single(
    graph: &mut Graph,
    alloc: Global,
    image: &Image,
    plan: &Plan,
    purse: &mut Purse,
    pending: &mut Vec<Entry>,
    one: Entry,
) -> Result<(), ExploreFault>
    requires pending { ArePending graph.old image.now plan.now purse.old.reached pending.old.items }
    requires found { AreAllFound plan.now purse.old.reached pending.old.items }
    requires one { IsEntry graph.old image.now plan.now one }
    requires one_sound { IsSound (entry_view graph.old) (runs_of image.now plan.now) one }
    requires few { length plan.now.kinds ≤ 16 }
    requires room { length graph.old.nodes + 301 ≤ 2 ^ 31 }
    ensures put { OnOk result (ArePut image.now plan.now graph.old graph.new purse.old.reached purse.new.reached pending.old.items (one ∷ []) pending.new.items) }
    ensures fault { IfErr result (IsUnput image.now plan.now purse.old) }
    ensures passed { AddsPassed image.now plan.now purse.old.reached purse.new.reached }
    ensures budget { purse.new.budget ≡ purse.old.budget }
    ensures grown { Grown graph.old graph.new }
    ensures adds { AddsAtMost graph.old graph.new 301 5001 }
    ensures still { pending.old.items ≡ [] → graph.new ≡ graph.old }
{
    arrive(graph, alloc, image, plan, purse, pending, one)
}

/// Puts what comes of a request state among the others.
fn put_given(
    graph: &mut Graph,
    alloc: Global,
    image: &Image,
    plan: &Plan,
    purse: &mut Purse,
    pending: &mut Vec<Entry>,
    arrivals: Arrivals,
) -> Result<(), ExploreFault>
    requires pending { ArePending graph.old image.now plan.now purse.old.reached pending.old.items }
    requires found { AreAllFound plan.now purse.old.reached pending.old.items }
    requires entries { each_of (IsEntry graph.old image.now plan.now) arrivals }
    requires sound { each_of (IsSound (entry_view graph.old) (runs_of image.now plan.now)) arrivals }
    requires first { IsFirstFound (list_of arrivals) }
    requires few { length plan.now.kinds ≤ 16 }
    requires room { length graph.old.nodes + 602 ≤ 2 ^ 31 }
    ensures put { OnOk result (ArePut image.now plan.now graph.old graph.new purse.old.reached purse.new.reached pending.old.items (list_of arrivals) pending.new.items) }
    ensures fault { IfErr result (IsUnput image.now plan.now purse.old) }
    ensures passed { AddsPassed image.now plan.now purse.old.reached purse.new.reached }
    ensures budget { purse.new.budget ≡ purse.old.budget }
    ensures grown { Grown graph.old graph.new }
    ensures adds { AddsAtMost graph.old graph.new 602 10002 }
    ensures still { pending.old.items ≡ [] → length purse.new.reached ≡ length purse.old.reached → graph.new ≡ graph.old }
{
    match arrivals {
        Arrivals::One(one) => put_single(graph, alloc, image, plan, purse, pending, one),
        Arrivals::Two(one, two) => { put_both(graph, alloc, image, plan, purse, pending, one, two) }
    }
}

/// Gives the next transfer to a request state, and puts what comes of it among the others.
fn give(
    graph: &mut Graph,
    alloc: Global,
    image: &Image,
    plan: &Plan,
    longer: &Plan,
    kind: Kind,
    request: &Request,
    purse: &mut Purse,
    pending: &mut Vec<Entry>,
) -> Result<(), ExploreFault>
    requires longer { longer.now ≡ longer_plan plan.now kind }
    requires short { length plan.now.kinds < 16 }
    requires request { IsRequest graph.old plan.now request.now }
    requires asked { IsAsked graph.old image.now plan.now request.now }
    requires pending { ArePending graph.old image.now longer.now purse.old.reached pending.old.items }
    requires found { AreAllFound longer.now purse.old.reached pending.old.items }
    requires room { length graph.old.nodes + 621 ≤ 2 ^ 31 }
    ensures pending { OnOk result (ArePending graph.new image.now longer.now purse.new.reached pending.new.items) }
    ensures found { OnOk result (AreAllFound longer.now purse.new.reached pending.new.items) }
    ensures served { OnOk result (IsServed graph.old graph.new image.now longer.now purse.new.reached pending.new.items request.now) }
    ensures carries { OnOk result (Carries (runs_of image.now longer.now) (entry_view graph.old) pending.old.items (entry_view graph.new) pending.new.items) }
    ensures count { OnOk result (length purse.old.reached + found_in pending.new.items ≤ length purse.new.reached + found_in pending.old.items) }
    ensures fault { IfErr result (IsUnput image.now longer.now purse.old) }
    ensures passed { AddsPassed image.now longer.now purse.old.reached purse.new.reached }
    ensures budget { purse.new.budget ≡ purse.old.budget }
    ensures grown { Grown graph.old graph.new }
    ensures adds { AddsAtMost graph.old graph.new 621 10260 }
    ensures still { pending.old.items ≡ [] → length purse.new.reached ≡ length purse.old.reached → AddsAtMost graph.old graph.new 19 258 }
{
    held_laws();
    dialogues_are_of_their_kinds();
    dialogues_grow_at_the_end();
    states_stay();
    let arrivals = given(graph, alloc, image, plan, kind, request)?;
    put_given(graph, alloc, image, longer, purse, pending, arrivals)
}

/// Gives the next transfer to each request state of a layer: the entries right after it.
pub(crate) fn give_all(
    graph: &mut Graph,
    alloc: Global,
    image: &Image,
    layer: &Layer,
    longer: &Plan,
    kind: Kind,
    purse: &mut Purse,
) -> Result<Vec<Entry>, ExploreFault>
    requires layer { IsLayer graph.old image.now layer.now }
    requires short { length layer.now.plan.kinds < 16 }
    requires longer { longer.now ≡ longer_plan layer.now.plan kind }
    requires knows { Knows image.now layer.now.plan purse.old.reached }
    requires fresh { All (IsOfOther longer.now) purse.old.reached }
    requires within { IsWithin graph.old layer.now.plan.power (length purse.old.reached) 4000 260000 }
    ensures pending { IfOk result (λ es. ArePending graph.new image.now longer.now purse.new.reached es.items) }
    ensures ahead { IfOk result (λ es. AreAhead image.now longer.now purse.new.reached es.items 0) }
    ensures covered { IfOk result (λ es. Covered (entry_view graph.new) (runs_of image.now longer.now) es.items (λ _ _. ⊥)) }
    ensures count { IfOk result (λ es. length purse.old.reached + found_in es.items ≤ length purse.new.reached) }
    ensures fault { IfErr result (IsUnput image.now longer.now purse.old) }
    ensures passed { AddsPassed image.now longer.now purse.old.reached purse.new.reached }
    ensures budget { purse.new.budget ≡ purse.old.budget }
    ensures grown { Grown graph.old graph.new }
    ensures grows { OnOk result (GrowsByPoints graph.old graph.new (length purse.old.reached) (length purse.new.reached) 1242 20520) }
    ensures within { IsWithin graph.new layer.now.plan.power (length purse.new.reached) 4096 262144 }
{
    held_laws();
    dialogues_are_of_their_kinds();
    dialogues_grow_at_the_end();
    states_stay();
    different_values_are_no_more::<Shown>();
    let mut pending = Vec::new(alloc);
    for at in 0..layer.len() {
        let _points = purse.points();
        let request = layer.request_at(at);
        give(
            graph,
            alloc,
            image,
            layer.plan(),
            longer,
            kind,
            request,
            purse,
            &mut pending,
        )?;
    }
    Ok(pending)
}
