//! Questions that a solver answers, and oracles that lie in each way.
ghost use Rattle.std.specs.Prelude.{◌+◌, ◌<◌, ◌≤◌, ◌^◌, IfOk, length};
ghost use Rattle.wb_term.specs.Terms.{HasBit, HasWord};
ghost use Rattle.wb_term.specs.Growth.{Grown, AddsAtMost};

use super::*;
use std::alloc::Global;
use std::test::Fail;
use wb_blast::{count_gates, gate_numbers_agree};
use wb_derive::{Clause, Derivation, Step};
use wb_gate::Formula;
use wb_solve::{Answer, Values};
use wb_term::{BitId, BitNode, Graph, Scratch, WordId, WordNode};
use wb_word::{OutOfMemory, Rom};

/// How an oracle lies.
#[derive(Clone, Copy)]
enum Lie {
    /// All values are false.
    Falsehoods,
    /// There is no value.
    NoValues,
    /// A derivation without a step.
    NoStep,
    /// The empty clause follows from nothing.
    EmptyStep,
    /// Nothing is known.
    Spent,
}

#[derive(Drop)]
struct Liar {
    lie: Lie,
}

impl Oracle for Liar {
    ghost use Rattle.std.specs.Prelude.{false, None};

    ghost is_sound = { λ _. false };

    ghost limit_of = { λ _. 0 };

    ghost held = { λ _. None };

    ghost given = { λ _. None };

    fn sound(&self) -> bool {
        false
    }

    fn limit(&self) -> u64 {
        0
    }

    fn answer(&mut self, alloc: Global, formula: &Formula) -> Result<Answer, OutOfMemory> {
        match self.lie {
            Lie::Falsehoods => {
                let values = vec![in alloc; false; formula.variables() as usize]?;
                Ok(Answer::Sat(Values::new(alloc, values.as_slice())?))
            }
            Lie::NoValues => Ok(Answer::Sat(Values::new(alloc, &[])?)),
            Lie::NoStep => Ok(Answer::Unsat(Derivation::new(alloc))),
            Lie::EmptyStep => Ok(Answer::Unsat(empty_step(alloc)?)),
            Lie::Spent => Ok(Answer::Spent(Derivation::new(alloc))),
        }
    }
}

fn empty_step(alloc: Global) -> Result<Derivation, OutOfMemory> {
    let mut derivation = Derivation::new(alloc);
    if let Some(clause) = Clause::new(alloc, &[])? {
        derivation.push(Step::new(alloc, clause, &[])?)?;
    }
    Ok(derivation)
}

/// A graph, and the bit that is true where byte 0 is C3.
fn byte_question(rt: &HostRuntime) -> Result<(Graph, BitId), OutOfMemory>
    ensures { IfOk result (λ made. HasBit made.0 made.1) }
{
    let a = Rom::zero(rt.alloc())?;
    let b = Rom::zero(rt.alloc())?;
    let mut graph = Graph::new(rt.alloc(), &a, &b)?;
    let byte = graph.word(WordNode::Byte(0))?;
    let wanted = graph.word(WordNode::Const(0x00C3))?;
    let equal = graph.bit(BitNode::Same(byte, wanted))?;
    Ok((graph, equal))
}

/// Asks, where the bit's gate number is small enough.
fn ask_small<O: Oracle>(
    rt: &HostRuntime,
    graph: &Graph,
    bit: BitId,
    oracle: &mut O,
) -> Result<Found, AskFault>
    requires { HasBit graph.now bit }
{
    gate_numbers_agree();
    let mut scratch = Scratch::for_graph(rt.alloc(), graph)?;
    if count_gates(graph, bit, &mut scratch) > 8000 {
        return Err(AskFault::OutOfMemory);
    }
    ask(rt.alloc(), graph, bit, oracle)
}

#[test]
fn the_byte_is_found(rt: HostRuntime) -> Result<(), Fail> {
    let (graph, equal) = byte_question(&rt)?;
    let mut oracle = SolverOracle::new(1000);
    match ask_small(&rt, &graph, equal, &mut oracle) {
        Ok(Found::Holds(inputs)) => assert_eq!(rt; inputs.byte(0), 0xC3),
        _ => return Err("not found".into()),
    }
    Ok(())
}

/// A byte and its half, which never add up to 2.
fn odd_sum(graph: &mut Graph, byte: WordId) -> Result<WordId, OutOfMemory>
    requires byte { HasWord graph.old byte }
    requires room { length graph.old.nodes + 3 ≤ 2 ^ 31 }
    ensures sum { IfOk result (HasWord graph.new) }
    ensures grown { Grown graph.old graph.new }
    ensures adds { AddsAtMost graph.old graph.new 3 48 }
{
    let half = graph.word(WordNode::Shr(byte, 1))?;
    let none = graph.bit(BitNode::Known(false))?;
    graph.word(WordNode::Sum(byte, half, none))
}

/// What hangs on two bytes.
fn arm(graph: &mut Graph, place: u8) -> Result<WordId, OutOfMemory>
    requires place { place < 15 }
    requires room { length graph.old.nodes + 3 ≤ 2 ^ 31 }
    ensures word { IfOk result (HasWord graph.new) }
    ensures grown { Grown graph.old graph.new }
    ensures adds { AddsAtMost graph.old graph.new 3 16 }
{
    let byte = graph.word(WordNode::Byte(place))?;
    let next = graph.word(WordNode::Byte(place + 1))?;
    graph.word(WordNode::Xor(byte, next))
}

/// What hangs on four bytes, under a condition that no value of a fifth meets.
fn impossible_question(rt: &HostRuntime) -> Result<(Graph, BitId), OutOfMemory>
    ensures { IfOk result (λ made. HasBit made.0 made.1) }
{
    let a = Rom::zero(rt.alloc())?;
    let b = Rom::zero(rt.alloc())?;
    let mut graph = Graph::new(rt.alloc(), &a, &b)?;
    let byte = graph.word(WordNode::Byte(0))?;
    let choice = graph.bit(BitNode::Pick(byte, 3))?;
    let sum = odd_sum(&mut graph, byte)?;
    let two = graph.word(WordNode::Const(2))?;
    let control = graph.bit(BitNode::Same(sum, two))?;
    let first = arm(&mut graph, 1)?;
    let second = arm(&mut graph, 3)?;
    let chosen = graph.word(WordNode::Ite(choice, first, second))?;
    let data = graph.bit(BitNode::Same(chosen, first))?;
    let both = graph.bit(BitNode::AndB(control, data))?;
    Ok((graph, both))
}

#[test]
fn what_no_control_allows_is_refuted_without_the_data(rt: HostRuntime) -> Result<(), Fail> {
    let (graph, both) = impossible_question(&rt)?;
    let mut oracle = SolverOracle::new(0);
    assert!(rt; matches!(ask_small(&rt, &graph, both, &mut oracle), Ok(Found::Never)));
    Ok(())
}

/// The bit that is true where the product of two words has a given upper half.
fn product_question(rt: &HostRuntime) -> Result<(Graph, BitId), OutOfMemory>
    ensures { IfOk result (λ made. HasBit made.0 made.1) }
{
    let a = Rom::zero(rt.alloc())?;
    let b = Rom::zero(rt.alloc())?;
    let mut graph = Graph::new(rt.alloc(), &a, &b)?;
    let first = graph.word(WordNode::Cell(0))?;
    let second = graph.word(WordNode::Cell(1))?;
    let product = graph.word(WordNode::High(first, second))?;
    let wanted = graph.word(WordNode::Const(0x1234))?;
    let equal = graph.bit(BitNode::Same(product, wanted))?;
    Ok((graph, equal))
}

#[test]
fn a_search_ends_at_its_limit(rt: HostRuntime) -> Result<(), Fail> {
    let (graph, equal) = product_question(&rt)?;
    let mut oracle = SolverOracle::new(3);
    match ask_small(&rt, &graph, equal, &mut oracle) {
        Err(AskFault::Spent(_, derivation)) => assert_eq!(rt; derivation.steps().len(), 3),
        _ => return Err("not spent".into()),
    }
    Ok(())
}

/// The bit that is true where two bytes, multiplied and doubled, give 70.
fn factors_question(rt: &HostRuntime) -> Result<(Graph, BitId), OutOfMemory>
    ensures { IfOk result (λ made. HasBit made.0 made.1) }
{
    let a = Rom::zero(rt.alloc())?;
    let b = Rom::zero(rt.alloc())?;
    let mut graph = Graph::new(rt.alloc(), &a, &b)?;
    let first = graph.word(WordNode::Byte(0))?;
    let second = graph.word(WordNode::Byte(1))?;
    let product = graph.word(WordNode::Low(first, second))?;
    let wanted = graph.word(WordNode::Const(70))?;
    let equal = graph.bit(BitNode::Same(product, wanted))?;
    Ok((graph, equal))
}

#[test]
fn factors_are_found(rt: HostRuntime) -> Result<(), Fail> {
    let (graph, equal) = factors_question(&rt)?;
    let mut oracle = SolverOracle::new(10_000);
    match ask_small(&rt, &graph, equal, &mut oracle) {
        Ok(Found::Holds(inputs)) => {
            let product = u32::from(inputs.byte(0)) * u32::from(inputs.byte(1));
            assert_eq!(rt; product * 2 % 0x10000, 70);
        }
        _ => return Err("not found".into()),
    }
    let mut liar = Liar { lie: Lie::NoStep };
    assert!(rt; ask_small(&rt, &graph, equal, &mut liar).is_err());
    Ok(())
}

/// What a lie looks like: whether it is values, and how many values or steps it has.
fn shape(answer: &Answer) -> (bool, usize) {
    match answer {
        Answer::Sat(values) => (true, values.list().len()),
        Answer::Unsat(derivation) | Answer::Spent(derivation) => {
            (false, derivation.steps().len())
        }
    }
}

#[test]
fn lies_are_handed_back(rt: HostRuntime) -> Result<(), Fail> {
    let (graph, equal) = product_question(&rt)?;
    for (lie, want) in [
        (Lie::NoValues, (true, 0)),
        (Lie::NoStep, (false, 0)),
        (Lie::EmptyStep, (false, 1)),
        (Lie::Spent, (false, 0)),
    ] {
        let mut liar = Liar { lie };
        match ask_small(&rt, &graph, equal, &mut liar) {
            Err(AskFault::BadAnswer(_, answer)) => assert_eq!(rt; shape(&answer), want),
            _ => return Err("not handed back".into()),
        }
    }
    Ok(())
}

#[test]
fn false_values_are_handed_back(rt: HostRuntime) -> Result<(), Fail> {
    let (graph, equal) = product_question(&rt)?;
    let mut liar = Liar {
        lie: Lie::Falsehoods,
    };
    match ask_small(&rt, &graph, equal, &mut liar) {
        Err(AskFault::BadAnswer(blasted, answer)) => {
            assert_eq!(rt; blasted.formula.inputs(), 32);
            assert_eq!(rt;
                shape(&answer),
                (true, blasted.formula.variables() as usize)
            );
        }
        _ => return Err("not handed back".into()),
    }
    Ok(())
}

#[test]
fn what_is_likely_is_found_without_the_oracle(rt: HostRuntime) -> Result<(), Fail> {
    let (graph, equal) = byte_question(&rt)?;
    let mut liar = Liar { lie: Lie::NoStep };
    match ask_small(&rt, &graph, equal, &mut liar) {
        Ok(Found::Holds(inputs)) => assert_eq!(rt; inputs.byte(0), 0xC3),
        _ => return Err("not found".into()),
    }
    Ok(())
}
