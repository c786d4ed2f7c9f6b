//! The request states of a layer are the chips at their requests.
ghost use Rattle.std.specs.Prelude.{◌<◌, length, Contains};
ghost use Rattle.wb_term.specs.Terms.{HasBit, HasWord};
ghost use Rattle.wb_symstep.specs.State.{IsSymState};
ghost use Rattle.wb_explore.specs.declared.layer.Request.{Request};
ghost use Rattle.wb_explore.specs.Layers.{IsLayer, IsRequest};

use super::cases::Case;
use crate::Explored;
use std::alloc::Global;
use std::process::Abort;
use std::test::Fail;
use wb_explore::{Layer, Request};
use wb_point::{dialogue_of, inputs_of, shown};
use wb_port::{Chip, Dialogue, Event, Kind, Shown, halfway, requested};
use wb_rom::Image;
use wb_symstep::SymState;
use wb_term::{Graph, Inputs, Scratch, WordId};

/// The most instructions that a chip takes to its next request.
const MOST: u32 = 10_000;

/// Leads a chip to its next request, within the pace. Whether it comes there.
fn to_request(image: &Image, chip: &mut Chip, pace: u16) -> bool {
    for _ in 0..MOST {
        if requested(&chip.machine) {
            return true;
        }
        if chip.monitor.count == u64::from(pace) || chip.is_breach(image) {
            return false;
        }
        let _none = chip.apply(image, Event::Step);
    }
    false
}

/// The chip at the first request after a dialogue.
fn at_request(image: &Image, dialogue: &Dialogue, pace: u16) -> Option<Chip> {
    let mut chip = Chip::power(dialogue.start());
    for access in dialogue.list() {
        if !to_request(image, &mut chip, pace) {
            return None;
        }
        let _reply = chip.apply(image, Event::Host(*access));
    }
    if to_request(image, &mut chip, pace) {
        Some(chip)
    } else {
        None
    }
}

/// What a chip shows.
fn shown_by(chip: &Chip) -> Shown {
    let machine = &chip.machine;
    let regs = machine.regs();
    Shown {
        pc: regs.pc,
        sp: regs.sp,
        stack: [
            machine.stack_at(0),
            machine.stack_at(1),
            machine.stack_at(2),
            machine.stack_at(3),
        ],
        rqm: requested(machine),
        drs: halfway(machine),
    }
}

/// Whether a request state's condition is true under inputs.
fn holds(alloc: Global, graph: &Graph, request: &Request, inputs: &Inputs) -> Result<bool, Fail>
    requires there { HasBit graph.now request.now.cond }
{
    let mut scratch = Scratch::for_graph(alloc, graph)?;
    let _bit = graph.bit_at(request.cond);
    Ok(graph.value_bit(request.cond, inputs, &mut scratch))
}

/// The places of the request states whose conditions are true under inputs.
fn places(alloc: Global, graph: &Graph, layer: &Layer, inputs: &Inputs) -> Result<Vec<usize>, Fail>
    requires each { (q : Request) → Contains layer.now.requests q → IsRequest graph.now layer.now.plan q }
{
    let mut places = Vec::new(alloc);
    for place in 0..layer.len() {
        if holds(alloc, graph, layer.request_at(place), inputs)? {
            places.push(place)?;
        }
    }
    Ok(places)
}

/// The value of a word.
fn value(alloc: Global, graph: &Graph, word: WordId, inputs: &Inputs) -> Result<u16, Fail>
    requires there { HasWord graph.now word }
{
    let mut scratch = Scratch::for_graph(alloc, graph)?;
    let _word = graph.word_at(word);
    Ok(graph.value_word(word, inputs, &mut scratch))
}

/// A state has the values of the chip at its request.
fn check_state(
    rt: &impl Abort,
    alloc: Global,
    graph: &Graph,
    state: &SymState,
    inputs: &Inputs,
    chip: &Chip,
) -> Result<(), Fail>
    requires state { IsSymState graph.now state.now }
{
    let regs = chip.machine.regs();
    assert_eq!(rt; shown(state), shown_by(chip));
    assert_eq!(rt; value(alloc, graph, state.dr, inputs)?, regs.dr);
    assert_eq!(rt;
        value(alloc, graph, state.sr, inputs)? & 0x6FFF,
        regs.sr & 0x6FFF
    );
    assert_eq!(rt; value(alloc, graph, state.a, inputs)?, regs.a);
    assert_eq!(rt;
        value(alloc, graph, state.ram.get(0), inputs)?,
        chip.machine.ram_at(0)
    );
    Ok(())
}

/// The request state at a place has the values of the chip at its request.
fn check_state_at(
    rt: &impl Abort,
    alloc: Global,
    graph: &Graph,
    layer: &Layer,
    place: usize,
    inputs: &Inputs,
    chip: &Chip,
) -> Result<(), Fail>
    requires each { (q : Request) → Contains layer.now.requests q → IsRequest graph.now layer.now.plan q }
    requires place { place < length layer.now.requests }
{
    check_state(
        rt,
        alloc,
        graph,
        &layer.request_at(place).state,
        inputs,
        chip,
    )
}

/// One request state is the dialogue's where a request comes, else none.
fn check_request(
    rt: &impl Abort,
    alloc: Global,
    image: &Image,
    case: &Case,
    found: &Explored,
    dialogue: &Dialogue,
) -> Result<(), Fail>
    requires layer { IsLayer found.now.graph image.now found.now.layer }
{
    let inputs = inputs_of(alloc, dialogue)?;
    let places = places(alloc, &found.graph, &found.layer, &inputs)?;
    let Some(chip) = at_request(image, dialogue, case.pace) else {
        assert_eq!(rt; places.len(), 0);
        return Ok(());
    };
    let [place] = places.as_slice() else {
        return Err(Fail::from("not one request state"));
    };
    let place = *place;
    if place >= found.layer.len() {
        return Err(Fail::from("no request state"));
    }
    check_state_at(rt, alloc, &found.graph, &found.layer, place, &inputs, &chip)
}

/// The inputs of a request state lead to it.
fn check_reached(
    rt: &impl Abort,
    alloc: Global,
    image: &Image,
    case: &Case,
    found: &Explored,
    place: usize,
) -> Result<(), Fail>
    requires layer { IsLayer found.now.graph image.now found.now.layer }
    requires place { place < length found.now.layer.requests }
{
    let layer = &found.layer;
    let inputs = layer.inputs_at(place);
    let dialogue = dialogue_of(alloc, &layer.plan().kinds, inputs, case.power)?;
    let places = places(alloc, &found.graph, layer, inputs)?;
    assert_eq!(rt; places.as_slice(), [place].as_slice());
    assert!(rt; at_request(image, &dialogue, case.pace).is_some());
    check_request(rt, alloc, image, case, found, &dialogue)
}

/// The request states are those of the dialogues of these kinds, and their inputs lead to them.
pub(super) fn check_requests(
    rt: &impl Abort,
    alloc: Global,
    image: &Image,
    case: &Case,
    found: &Explored,
    kinds: &[Kind],
    tried: &[Dialogue],
) -> Result<(), Fail>
    requires layer { IsLayer found.now.graph image.now found.now.layer }
{
    for dialogue in tried {
        if dialogue.len() == kinds.len() {
            check_request(rt, alloc, image, case, found, dialogue)?;
        }
    }
    for place in 0..found.layer.len() {
        check_reached(rt, alloc, image, case, found, place)?;
    }
    Ok(())
}
