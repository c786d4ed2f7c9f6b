//! Random terms of fixed seeds have their values whatever their diagrams may take.
use crate::blast::is_satisfied;
use crate::draws::Draws;
use crate::nodes::{bit_node, three_nodes, word_node};
use std::marker::Model;
use std::test::Fail;
use wb_blast::{Room, Rooms, blast_within};
use wb_term::{BitId, Graph, Inputs, Scratch, WordId};

/// A graph with two words and a bit, the last that were made.
#[derive(Drop)]
struct Term {
    graph: Graph,
    x: WordId,
    y: WordId,
    c: BitId,
}

impl Model for Term {
    ghost use Rattle.wb_term.specs.Terms.{Terms};
    ghost use Rattle.wb_solved.specs.Term.{AreThere};

    ghost Value = { Terms };

    ghost view = { λ term. term.graph };

    ghost invariant = { λ term. AreThere term.graph term.x term.y term.c };
}

/// One random word and one random bit more, neither of which is looked up in a table.
fn grown(term: Term, draws: &mut Draws) -> Result<Term, Fail> {
    let Term { mut graph, x, y, c } = term;
    if graph.len() > 1000 {
        return Err("the graph is large".into());
    }
    let word = graph.word(word_node(draws.below(11) as u8, x, y, c))?;
    let bit = graph.bit(bit_node(draws.below(9) as u8, word, x, c, c))?;
    Ok(Term {
        graph,
        x: word,
        y: x,
        c: bit,
    })
}

/// A term of six random words and bits.
fn random_term(rt: &HostRuntime, draws: &mut Draws) -> Result<Term, Fail> {
    let (graph, x, y, c) = three_nodes(rt.alloc())?;
    let mut term = Term { graph, x, y, c };
    for _ in 0..6 {
        term = grown(term, draws)?;
    }
    Ok(term)
}

/// Rooms in which all steps together are few, and others with one more limit so low that it is met.
fn rooms(at: usize) -> Rooms {
    let few = Rooms {
        steps: 20_000,
        ..Rooms::default()
    };
    let low = |steps: u32, nodes: u32| Room { steps, nodes };
    match at {
        0 => few,
        1 => Rooms { nodes: 0, ..few },
        2 => Rooms { nodes: 60, ..few },
        3 => Rooms { steps: 0, ..few },
        4 => Rooms { steps: 90, ..few },
        5 => Rooms {
            choice: low(4, 100),
            sum: low(4, 100),
            ..few
        },
        _ => Rooms {
            choice: low(1000, 3),
            sum: low(1000, 2),
            ..few
        },
    }
}

/// The value of the bit.
fn value_of(
    rt: &HostRuntime,
    term: &Term,
    bytes: &[u8; 16],
    cells: &[u16; 256],
) -> Result<bool, Fail> {
    let inputs = Inputs::new(rt.alloc(), bytes, cells)?;
    let mut scratch = Scratch::for_graph(rt.alloc(), &term.graph)?;
    Ok(term.graph.value_bit(term.c, &inputs, &mut scratch))
}

/// Whether the bit has the value of its formula under random inputs.
fn holds(rt: &HostRuntime, term: &Term, rooms: Rooms, draws: &mut Draws) -> Result<bool, Fail> {
    let made = blast_within(rt.alloc(), &term.graph, term.c, 1 << 20, rooms)?;
    let mut bytes = [0u8; 16];
    let mut cells = [0u16; 256];
    let mut holds = true;
    for _ in 0..8 {
        bytes[15] = draws.below(256) as u8;
        cells[7] = draws.below(65536) as u16;
        cells[255] = draws.below(65536) as u16;
        let value = value_of(rt, term, &bytes, &cells)?;
        holds &= is_satisfied(rt, &made, &bytes, &cells)? == value;
    }
    Ok(holds)
}

#[test]
fn values_hold_past_each_limit(rt: HostRuntime) -> Result<(), Fail> {
    let mut draws = Draws { state: 7725 };
    for round in 0..28 {
        let term = random_term(&rt, &mut draws)?;
        let rooms = rooms(round % 7);
        assert!(rt; holds(&rt, &term, rooms, &mut draws)?, "{round}");
    }
    Ok(())
}
