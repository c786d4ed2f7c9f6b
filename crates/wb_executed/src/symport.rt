ghost use Rattle.std.specs.Prelude.{◌≡◌, ◌+◌, ◌≤◌, ◌^◌, IfOk, length};
ghost use Rattle.wb_term.specs.Terms.{Terms, HasWord};
ghost use Rattle.wb_symstep.specs.State.{IsSymState};
ghost use Rattle.wb_symstep.specs.Stepped.{IsStepped};

mod programs;
mod worked;

use crate::port::image_of;
use std::alloc::Global;
use std::process::Abort;
use std::test::Fail;
use wb_make::{mk_byte, mk_const, mk_shl};
use wb_rom::Image;
use wb_symport::{OutOfMemory, Stepped, SymState, sym_read, sym_status, sym_write};
use wb_symstep::sym_step;
use wb_term::{Graph, Inputs, Scratch, WordId};
use wb_word::{Rom, Side};

/// The status register of a case.
#[derive(Clone, Copy)]
enum Control {
    Known(u16),
    /// Its high half is the first byte.
    Written,
}

/// A status register, DRS and the first byte; then the status byte, the byte read, RQM and DRS after a transfer, and
/// DR after a write of 5A over ABCD.
type Case = (Control, bool, u8, u16, u16, bool, bool, u16);

const CASES: [Case; 6] = [
    (
        Control::Known(0x0000),
        false,
        0,
        0x80,
        0xCD,
        true,
        true,
        0xAB5A,
    ),
    (
        Control::Known(0x0000),
        true,
        0,
        0x90,
        0xAB,
        false,
        false,
        0x5ACD,
    ),
    (
        Control::Known(0x9400),
        false,
        0,
        0x84,
        0xCD,
        false,
        false,
        0xAB5A,
    ),
    (
        Control::Known(0x0400),
        true,
        0,
        0x94,
        0xCD,
        false,
        true,
        0xAB5A,
    ),
    (
        Control::Written,
        true,
        0x64,
        0xF4,
        0xCD,
        false,
        true,
        0xAB5A,
    ),
    (
        Control::Written,
        true,
        0x90,
        0x90,
        0xAB,
        false,
        false,
        0x5ACD,
    ),
];

fn inputs_of(alloc: Global, first: u8, second: u8) -> Result<Inputs, OutOfMemory> {
    let mut bytes = [0; 16];
    bytes[0] = first;
    bytes[1] = second;
    Inputs::new(alloc, &bytes, &[0; 256])
}

/// The word of a status register.
fn register(graph: &mut Graph, sr: Control) -> Result<WordId, OutOfMemory>
    requires room { length graph.old.nodes + 2 ≤ 2 ^ 31 }
    ensures there { IfOk result (HasWord graph.new) }
    ensures longer { length graph.new.nodes ≤ length graph.old.nodes + 2 }
{
    match sr {
        Control::Known(value) => mk_const(graph, value),
        Control::Written => {
            let byte = mk_byte(graph, 0)?;
            mk_shl(graph, byte, 8)
        }
    }
}

/// A state with a request, this status register and ABCD in DR.
fn set_up(alloc: Global, sr: Control, drs: bool) -> Result<(Graph, SymState), OutOfMemory>
    ensures state { IfOk result (λ r. IsSymState r.0 r.1) }
    ensures short { IfOk result (λ r. length r.0.nodes ≤ 32) }
{
    let table = Rom::zero(alloc)?;
    let mut graph = Graph::new(alloc, &table, &table)?;
    let sr = register(&mut graph, sr)?;
    let dr = mk_const(&mut graph, 0xABCD)?;
    let mut state = SymState::reset(&mut graph, alloc)?;
    state.rqm = true;
    state.drs = drs;
    state.sr = sr;
    state.dr = dr;
    Ok((graph, state))
}

/// RQM, DRS and DR of the chosen state under inputs.
fn seen(
    alloc: Global,
    graph: &Graph,
    stepped: &Stepped,
    inputs: &Inputs,
) -> Result<(bool, bool, u16), OutOfMemory>
    requires there { IsStepped graph.now stepped.now }
{
    let mut scratch = Scratch::for_graph(alloc, graph)?;
    let state = match stepped {
        Stepped::One(state) => state,
        Stepped::Fork { cond, yes, no } => {
            let _bit = graph.bit_at(*cond);
            if graph.value_bit(*cond, inputs, &mut scratch) {
                yes
            } else {
                no
            }
        }
    };
    let _dr = graph.word_at(state.dr);
    Ok((
        state.rqm,
        state.drs,
        graph.value_word(state.dr, inputs, &mut scratch),
    ))
}

/// The value of a word under inputs.
pub(super) fn value_of(
    alloc: Global,
    graph: &Graph,
    word: WordId,
    inputs: &Inputs,
) -> Result<u16, OutOfMemory>
    requires there { HasWord graph.now word }
{
    let mut scratch = Scratch::for_graph(alloc, graph)?;
    let _word = graph.word_at(word);
    Ok(graph.value_word(word, inputs, &mut scratch))
}

fn status_of(alloc: Global, sr: Control, drs: bool, first: u8) -> Result<u16, OutOfMemory> {
    let (mut graph, state) = set_up(alloc, sr, drs)?;
    let byte = sym_status(&mut graph, &state)?;
    value_of(alloc, &graph, byte, &inputs_of(alloc, first, 0x5A)?)
}

/// The byte read, and what is seen after the read.
fn read_of(
    alloc: Global,
    sr: Control,
    drs: bool,
    first: u8,
) -> Result<(u16, (bool, bool, u16)), OutOfMemory> {
    let (mut graph, state) = set_up(alloc, sr, drs)?;
    let (byte, stepped) = sym_read(&mut graph, &state)?;
    let inputs = inputs_of(alloc, first, 0x5A)?;
    Ok((
        value_of(alloc, &graph, byte, &inputs)?,
        seen(alloc, &graph, &stepped, &inputs)?,
    ))
}

/// What is seen after a write of the second byte.
fn written(
    alloc: Global,
    sr: Control,
    drs: bool,
    first: u8,
) -> Result<(bool, bool, u16), OutOfMemory> {
    let (mut graph, state) = set_up(alloc, sr, drs)?;
    let stepped = sym_write(&mut graph, &state, 1)?;
    seen(alloc, &graph, &stepped, &inputs_of(alloc, first, 0x5A)?)
}

fn expect_cases(rt: &impl Abort, alloc: Global, cases: &[Case]) -> Result<(), Fail> {
    for (sr, drs, first, status, byte, rqm_after, drs_after, dr_after) in cases {
        let (sr, drs, first) = (*sr, *drs, *first);
        assert_eq!(rt; status_of(alloc, sr, drs, first)?, *status);
        assert_eq!(rt;
            read_of(alloc, sr, drs, first)?,
            (*byte, (*rqm_after, *drs_after, 0xABCD))
        );
        assert_eq!(rt;
            written(alloc, sr, drs, first)?,
            (*rqm_after, *drs_after, *dr_after)
        );
    }
    Ok(())
}

#[test]
fn accesses_go_by_the_status_register(rt: HostRuntime) -> Result<(), Fail> {
    expect_cases(&rt, rt.alloc(), &CASES)
}

/// It moves a written word to the status register, so that DRC is a written bit.
const WRITTEN_CONTROL: [u32; 6] = [0x000080, 0x97C004, 0x000097, 0x000080, 0x97C010, 0xA0000C];

/// The one state that comes of a state.
fn only(stepped: Stepped) -> Result<SymState, Fail>
    ensures { IfOk result (λ s. (g : Terms) → IsStepped g stepped → IsSymState g s) }
{
    match stepped {
        Stepped::One(state) => Ok(state),
        Stepped::Fork { .. } => Err(Fail::from("a fork")),
    }
}

/// Executes an instruction that doesn't fork.
fn stepped(
    graph: &mut Graph,
    alloc: Global,
    image: &Image,
    state: &SymState,
) -> Result<SymState, Fail>
    requires state { IsSymState graph.old state.now }
    requires words { graph.old.tables.first ≡ image.now.drom }
    requires room { length graph.old.nodes + 1200 ≤ 2 ^ 31 }
    ensures there { IfOk result (IsSymState graph.new) }
    ensures words { graph.new.tables.first ≡ image.now.drom }
    ensures longer { length graph.new.nodes ≤ length graph.old.nodes + 1200 }
{
    only(sym_step(graph, alloc, image, Side::A, state)?)
}

/// After one instruction, two writes and three instructions.
fn controlled(graph: &mut Graph, alloc: Global, image: &Image) -> Result<SymState, Fail>
    requires words { graph.old.tables.first ≡ image.now.drom }
    requires room { length graph.old.nodes ≡ 0 }
    ensures there { IfOk result (IsSymState graph.new) }
    ensures longer { length graph.new.nodes ≤ 8000 }
{
    let state = SymState::reset(graph, alloc)?;
    let state = stepped(graph, alloc, image, &state)?;
    let state = only(sym_write(graph, &state, 0)?)?;
    let state = only(sym_write(graph, &state, 1)?)?;
    let state = stepped(graph, alloc, image, &state)?;
    let state = stepped(graph, alloc, image, &state)?;
    stepped(graph, alloc, image, &state)
}

/// Whether the read forks, and what is seen after it, where the two bytes of the word were written.
fn control_of(alloc: Global, low: u8, high: u8) -> Result<(bool, (bool, bool, u16)), Fail> {
    let image = image_of(alloc, &WRITTEN_CONTROL)?;
    let mut graph = Graph::new(alloc, &image.drom, &image.drom)?;
    let state = controlled(&mut graph, alloc, &image)?;
    let (_, read) = sym_read(&mut graph, &state)?;
    let forks = matches!(read, Stepped::Fork { .. });
    Ok((
        forks,
        seen(alloc, &graph, &read, &inputs_of(alloc, low, high)?)?,
    ))
}

#[test]
fn a_read_forks_on_a_written_bit(rt: HostRuntime) -> Result<(), Fail> {
    assert_eq!(rt;
        control_of(rt.alloc(), 0x00, 0x04)?,
        (true, (false, false, 0x0400))
    );
    assert_eq!(rt;
        control_of(rt.alloc(), 0x00, 0x00)?,
        (true, (true, true, 0x0000))
    );
    Ok(())
}
