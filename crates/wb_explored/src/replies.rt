// Circuits over input bytes and constants: when they need no question, what the bit says, and which access tells
// them apart.
ghost use Rattle.std.specs.Prelude.{◌≡◌, ◌+◌, ◌≤◌, ◌^◌, IfOk, length};
ghost use Rattle.wb_term.specs.Terms.{HasWord, HasBit};
ghost use Rattle.wb_term.specs.Growth.{Grown, AddsAtMost};
ghost use Rattle.wb_replies.specs.Circuits.{IsCircuit};

use std::test::Fail;
use wb_make::{mk_byte, mk_const, mk_known, mk_pick};
use wb_port::Access;
use wb_replies::{ReplyCircuit, differ, differing_access};
use wb_term::{BitId, Graph, Inputs, OutOfMemory, Scratch, WordId};
use wb_word::Rom;

/// A word of a circuit: one of the first three bytes, which are 3, 4 and 3, or a constant.
#[derive(Clone, Copy)]
enum Part {
    First,
    Second,
    Third,
    Fixed(u16),
}

/// When a circuit is present: never, or where the lowest bit of the first byte is set, as it is, or of the second, as
/// it isn't.
#[derive(Clone, Copy)]
enum When {
    Never,
    FirstIsOdd,
    SecondIsOdd,
}

/// A circuit: when it is present, its status and its read.
type Side = (When, Part, Part);

/// Two circuits, and whether reads are wanted; the bit's value, and the access that tells them apart. Without a bit
/// nothing need be asked.
type Case = (Side, Side, bool, Option<bool>, Access);

const CASES: [Case; 9] = [
    // Equal nodes need no question.
    (
        (When::FirstIsOdd, Part::First, Part::Second),
        (When::FirstIsOdd, Part::First, Part::Second),
        true,
        None,
        Access::Read,
    ),
    (
        (When::FirstIsOdd, Part::Fixed(128), Part::First),
        (When::SecondIsOdd, Part::Fixed(128), Part::Second),
        false,
        None,
        Access::Read,
    ),
    // The reads differ alone.
    (
        (When::FirstIsOdd, Part::Fixed(128), Part::First),
        (When::FirstIsOdd, Part::Fixed(128), Part::Second),
        true,
        Some(true),
        Access::Read,
    ),
    // Two nodes that have one value under the inputs.
    (
        (When::FirstIsOdd, Part::First, Part::First),
        (When::FirstIsOdd, Part::Third, Part::Third),
        true,
        Some(false),
        Access::Read,
    ),
    // The status bytes differ.
    (
        (When::FirstIsOdd, Part::First, Part::Fixed(0)),
        (When::FirstIsOdd, Part::Second, Part::Fixed(0)),
        true,
        Some(true),
        Access::Status,
    ),
    (
        (When::FirstIsOdd, Part::Fixed(128), Part::First),
        (When::FirstIsOdd, Part::Fixed(144), Part::Second),
        true,
        Some(true),
        Access::Status,
    ),
    (
        (When::FirstIsOdd, Part::Second, Part::First),
        (When::FirstIsOdd, Part::Third, Part::First),
        false,
        Some(true),
        Access::Status,
    ),
    // The second circuit isn't present under the inputs, or never.
    (
        (When::FirstIsOdd, Part::Fixed(128), Part::First),
        (When::SecondIsOdd, Part::Fixed(144), Part::First),
        true,
        Some(false),
        Access::Status,
    ),
    (
        (When::FirstIsOdd, Part::Fixed(128), Part::First),
        (When::Never, Part::Fixed(144), Part::First),
        true,
        None,
        Access::Status,
    ),
];

fn word_of(graph: &mut Graph, part: Part) -> Result<WordId, OutOfMemory>
    requires room { length graph.old.nodes + 1 ≤ 2 ^ 31 }
    ensures there { IfOk result (HasWord graph.new) }
    ensures grown { Grown graph.old graph.new }
    ensures adds { AddsAtMost graph.old graph.new 1 0 }
{
    match part {
        Part::First => mk_byte(graph, 0),
        Part::Second => mk_byte(graph, 1),
        Part::Third => mk_byte(graph, 2),
        Part::Fixed(value) => mk_const(graph, value),
    }
}

fn bit_of(graph: &mut Graph, when: When) -> Result<BitId, OutOfMemory>
    requires room { length graph.old.nodes + 2 ≤ 2 ^ 31 }
    ensures there { IfOk result (HasBit graph.new) }
    ensures grown { Grown graph.old graph.new }
    ensures adds { AddsAtMost graph.old graph.new 2 32 }
{
    let byte = match when {
        When::Never => return mk_known(graph, false),
        When::FirstIsOdd => mk_byte(graph, 0)?,
        When::SecondIsOdd => mk_byte(graph, 1)?,
    };
    mk_pick(graph, byte, 0)
}

fn circuit_of(graph: &mut Graph, side: Side) -> Result<ReplyCircuit, OutOfMemory>
    requires room { length graph.old.nodes + 4 ≤ 2 ^ 31 }
    ensures there { IfOk result (IsCircuit graph.new) }
    ensures grown { Grown graph.old graph.new }
    ensures adds { AddsAtMost graph.old graph.new 4 32 }
{
    let (when, status, read) = side;
    let present = bit_of(graph, when)?;
    let status = word_of(graph, status)?;
    let read = word_of(graph, read)?;
    Ok(ReplyCircuit {
        present,
        status,
        read,
    })
}

/// The bit's value between two circuits, and the access.
fn answer_of(rt: &HostRuntime, case: Case) -> Result<(Option<bool>, Access), OutOfMemory> {
    let (first, second, want_read, _, _) = case;
    let table = Rom::zero(rt.alloc())?;
    let mut graph = Graph::new(rt.alloc(), &table, &table)?;
    let a = circuit_of(&mut graph, first)?;
    let b = circuit_of(&mut graph, second)?;
    let bit = differ(&mut graph, &a, &b, want_read)?;
    let mut bytes = [0; 16];
    bytes[0] = 3;
    bytes[1] = 4;
    bytes[2] = 3;
    let inputs = Inputs::new(rt.alloc(), &bytes, &[0; 256])?;
    let mut scratch = Scratch::for_graph(rt.alloc(), &graph)?;
    let access = differing_access(&graph, &a, &b, &inputs, &mut scratch);
    let value = match bit {
        None => None,
        Some(bit) => {
            let _bit = graph.bit_at(bit);
            Some(graph.value_bit(bit, &inputs, &mut scratch))
        }
    };
    Ok((value, access))
}

#[test]
fn circuits_are_told_apart_where_a_wanted_reply_differs(rt: HostRuntime) -> Result<(), Fail> {
    for case in &CASES {
        let (_, _, _, value, access) = *case;
        assert_eq!(rt; answer_of(&rt, *case)?, (value, access));
    }
    Ok(())
}
