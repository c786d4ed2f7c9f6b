ghost use Rattle.std.specs.Prelude.{◌≡◌, [], IfOk};

use crate::made::At::{A, B, T, U, W, Y, Z};
use crate::made::BitStep::{AndB, Borrow, Carry, IteB, NotB, OrB, Pick, Same, Still, XorB};
use crate::made::On::{C, D, F, G, P, Q};
use crate::made::WordStep::{And, Diff, High, Ite, Keep, Low, Not, Or, Shl, Shr, Sum, Xor};
use crate::made::{BitStep, WordStep, after_bits, after_words, begin};
use std::alloc::Global;
use std::process::Abort;
use std::test::Fail;
use wb_fold::{OutOfMemory, Pages, SymFlags, alu_terms, mk_look, pages_select, pages_store};
use wb_term::{Graph, Inputs, Scratch, Table};
use wb_word::{Alu, Rom};

fn graph_of(alloc: Global) -> Result<Graph, OutOfMemory>
    ensures { IfOk result (λ graph. graph.nodes ≡ []) }
{
    let mut a = Rom::zero(alloc)?;
    a.set(2, 0x1234);
    let b = Rom::zero(alloc)?;
    Graph::new(alloc, &a, &b)
}

/// The number of the last word, and its value where Z is 7, W is 12 and the byte C3.
fn word_of(alloc: Global, constant: u16, steps: [WordStep; 4]) -> Result<(u32, u16), OutOfMemory> {
    let mut graph = graph_of(alloc)?;
    let start = begin(&mut graph, constant)?;
    let made = after_words(&mut graph, start, &steps)?;
    let mut scratch = Scratch::for_graph(alloc, &graph)?;
    let _node = graph.word_at(made.a);
    let value = graph.value_word(made.a, &inputs_of(alloc)?, &mut scratch);
    Ok((made.a.number(), value))
}

/// The number of the last bit, and its value where Z is 7, W is 12 and the byte C3.
fn bit_of(
    alloc: Global,
    constant: u16,
    words: [WordStep; 2],
    bits: [BitStep; 3],
) -> Result<(u32, bool), OutOfMemory> {
    let mut graph = graph_of(alloc)?;
    let start = begin(&mut graph, constant)?;
    let middle = after_words(&mut graph, start, &words)?;
    let made = after_bits(&mut graph, middle, &bits)?;
    let mut scratch = Scratch::for_graph(alloc, &graph)?;
    let _node = graph.bit_at(made.p);
    let value = graph.value_bit(made.p, &inputs_of(alloc)?, &mut scratch);
    Ok((made.p.number(), value))
}

fn inputs_of(alloc: Global) -> Result<Inputs, OutOfMemory> {
    let mut bytes = [0; 16];
    bytes[0] = 0xC3;
    let mut cells = [0; 256];
    cells[9] = 7;
    cells[10] = 12;
    Inputs::new(alloc, &bytes, &cells)
}

/// A constant, a step, and the value of the word that it makes.
type WordValue = (u16, WordStep, u16);

/// A step, and the value of the bit that it makes.
type BitValue = (BitStep, bool);

/// A constant, steps, and the number of the word that the last one makes.
type WordRow = (u16, [WordStep; 4], u32);

/// Steps, and the number of the bit that the last one makes.
type BitRow = ([BitStep; 3], u32);

/// A constant, steps of words and then of bits, and the number of the last bit.
type PickRow = (u16, [WordStep; 2], [BitStep; 3], u32);

fn expect_word_values(rt: &impl Abort, alloc: Global, rows: &[WordValue]) -> Result<(), Fail> {
    for (constant, step, value) in rows {
        let made = word_of(alloc, *constant, [Keep, Keep, Keep, *step])?;
        assert_eq!(rt; made, (9, *value));
    }
    Ok(())
}

fn expect_bit_values(rt: &impl Abort, alloc: Global, rows: &[BitValue]) -> Result<(), Fail> {
    for (step, value) in rows {
        let made = bit_of(alloc, 0xFFF9, [Keep, Keep], [Still, Still, *step])?;
        assert_eq!(rt; made, (9, *value));
    }
    Ok(())
}

fn expect_words(rt: &impl Abort, alloc: Global, rows: &[WordRow]) -> Result<(), Fail> {
    for (constant, steps, number) in rows {
        assert_eq!(rt; word_of(alloc, *constant, *steps)?.0, *number);
    }
    Ok(())
}

fn expect_bits(rt: &impl Abort, alloc: Global, rows: &[BitRow]) -> Result<(), Fail> {
    for (bits, number) in rows {
        assert_eq!(rt; bit_of(alloc, 0, [Keep, Keep], *bits)?.0, *number);
    }
    Ok(())
}

fn expect_picks(rt: &impl Abort, alloc: Global, rows: &[PickRow]) -> Result<(), Fail> {
    for (constant, words, bits, number) in rows {
        assert_eq!(rt; bit_of(alloc, *constant, *words, *bits)?.0, *number);
    }
    Ok(())
}

/// A step makes node 9
const VALUES_OF_WORDS: [WordValue; 12] = [
    (0xFFFE, Not(T), 0xFF3C),
    (0x0F0F, And(Z, Y), 0x0007),
    (0xFFF0, Or(T, Y), 0xFFF3),
    (0xFFFE, Xor(T, Y), 0xFF3D),
    (0xFFFE, Sum(T, Y, D), 0x00C2),
    (0xFFFE, Diff(T, Y, D), 0x00C4),
    (0xFFFE, Ite(F, Z, Y), 0x0007),
    (0xFFFE, Ite(G, Z, Y), 0xFFFE),
    (0xFFFE, Shl(Z, 15), 0x8000),
    (0xFFFE, Shr(T, 6), 0x0003),
    (0xFFFE, High(T, Y), 0xFFFF),
    (0xFFFE, Low(T, Y), 0xFCF4),
];

#[test]
fn words_keep_their_values(rt: HostRuntime) -> Result<(), Fail> {
    expect_word_values(&rt, rt.alloc(), &VALUES_OF_WORDS)
}

/// A step makes node 9
const VALUES_OF_BITS: [BitValue; 10] = [
    (Pick(T, 6), true),
    (Pick(T, 5), false),
    (NotB(F), false),
    (AndB(F, G), false),
    (OrB(F, G), true),
    (XorB(F, G), true),
    (IteB(F, F, G), true),
    (Same(Z, W), false),
    (Carry(Z, Y, C), true),
    (Borrow(Z, Y, C), true),
];

#[test]
fn bits_keep_their_values(rt: HostRuntime) -> Result<(), Fail> {
    expect_bit_values(&rt, rt.alloc(), &VALUES_OF_BITS)
}

/// Z is node 0, W 1, the constant 2, 00FF 3, the byte 4, and what a row makes first is 9
const WORDS: [WordRow; 36] = [
    // constants
    (0xFF00, [Keep, Keep, Keep, Not(Y)], 3),
    (0xFF00, [Keep, Keep, Not(U), And(A, Y)], 2),
    (0xFF00, [Keep, Keep, Or(U, Y), Xor(A, Y)], 3),
    (0x0000, [Keep, Keep, Sum(U, U, D), Diff(A, A, C)], 2),
    // double negation, idempotence, self-inverse
    (0x0000, [Keep, Keep, Not(Z), Not(A)], 0),
    (0x0000, [Keep, Keep, Keep, And(Z, Z)], 0),
    (0x0000, [Keep, Keep, Keep, Or(Z, Z)], 0),
    (0x0000, [Keep, Keep, Keep, Xor(Z, Z)], 2),
    // a word and its opposite
    (0x0000, [Keep, Keep, Not(Z), And(Z, A)], 2),
    (0xFFFF, [Keep, Keep, Not(Z), Or(A, Z)], 2),
    (0xFFFF, [Keep, Keep, Not(Z), Xor(Z, A)], 2),
    // absorption
    (0x0000, [Keep, Keep, And(Z, W), And(Z, A)], 9),
    (0x0000, [Keep, Keep, And(Z, W), Or(A, W)], 1),
    (0x0000, [Keep, Keep, Or(Z, W), And(W, A)], 1),
    (0x0000, [Keep, Keep, Or(Z, W), Or(A, Z)], 9),
    // masks: of all bits that a word can have, of none, merged, and two joined
    (0xFFFF, [Keep, Keep, Keep, And(Y, Z)], 0),
    (0x0000, [Keep, Keep, Keep, And(Y, Z)], 2),
    (0x0000, [Keep, Keep, Keep, And(T, U)], 4),
    (0x0000, [Keep, Keep, Shl(T, 8), And(A, U)], 2),
    (0x0FFF, [Keep, And(Z, U), And(Z, Y), And(A, U)], 9),
    (0x0FFF, [Keep, Shl(Z, 8), Shr(A, 8), And(Y, A)], 10),
    (0xFF00, [Keep, And(Z, Y), And(Z, U), Or(A, B)], 0),
    (0x0FFF, [And(Z, Y), Keep, And(Z, U), Or(A, B)], 9),
    // a constant joined with what it has, and a constant that changes nothing or all
    (0xFFFF, [Keep, Keep, Keep, Or(Z, Y)], 2),
    (0x0000, [Keep, Keep, Keep, Or(T, U)], 3),
    (0x0000, [Keep, Keep, Keep, Or(Z, Y)], 0),
    (0x0000, [Keep, Keep, Keep, Xor(Y, Z)], 0),
    (0xFFFF, [Keep, Keep, Not(Z), Xor(Z, Y)], 9),
    // bits changed twice, and words apart
    (0x0000, [Keep, Keep, Xor(Z, W), Xor(A, Z)], 1),
    (0x0000, [Keep, Shl(Z, 8), Or(A, T), Xor(B, T)], 10),
    // operands in order
    (0x0000, [Keep, Keep, And(Z, W), And(W, Z)], 9),
    (0x0000, [Keep, Keep, Or(Z, W), Or(W, Z)], 9),
    (0x0000, [Keep, Keep, Xor(Z, W), Xor(W, Z)], 9),
    (0x0000, [Keep, Keep, Sum(Z, W, F), Sum(W, Z, F)], 9),
    (0x0000, [Keep, Keep, High(Z, W), High(W, Z)], 9),
    (0x0000, [Keep, Keep, Low(Z, W), Low(W, Z)], 9),
];

#[test]
fn words_are_folded(rt: HostRuntime) -> Result<(), Fail> {
    expect_words(&rt, rt.alloc(), &WORDS)
}

const SHIFTS_SUMS_AND_CHOICES: [WordRow; 31] = [
    // shifts by nothing, one after another, past the width, and there and back
    (0x0000, [Keep, Keep, Shl(Z, 0), Shr(A, 0)], 0),
    (0x0000, [Keep, Shl(Z, 3), Shl(Z, 1), Shl(A, 2)], 9),
    (0x0000, [Keep, Shr(Z, 3), Shr(Z, 1), Shr(A, 2)], 9),
    (0x0000, [Keep, Keep, Shl(Z, 8), Shl(A, 8)], 2),
    (0x0000, [Keep, Keep, Shr(Z, 8), Shr(A, 8)], 2),
    (0x0000, [Keep, Keep, Keep, Shr(T, 8)], 2),
    (0xFF00, [Keep, And(Z, Y), Shr(Z, 8), Shl(A, 8)], 9),
    (0x0000, [Keep, And(Z, U), Shl(Z, 8), Shr(A, 8)], 9),
    // a word split and joined, by masks or shifts, with OR, XOR or ADD
    (0x0000, [Shr(Z, 8), Shl(A, 8), And(Z, U), Or(A, B)], 0),
    (0x0000, [Shr(Z, 8), Shl(A, 8), And(Z, U), Xor(A, B)], 0),
    (0x0000, [Shr(Z, 8), Shl(A, 8), And(Z, U), Sum(A, B, C)], 0),
    // sums with nothing, doubled, and as differences
    (0x0000, [Keep, Keep, Keep, Sum(Y, Z, C)], 0),
    (0x0000, [Keep, Keep, Shl(Z, 1), Sum(Z, Z, C)], 9),
    (0x0000, [Keep, Diff(Z, W, C), Not(W), Sum(Z, A, D)], 9),
    (
        0x0001,
        [Diff(Z, W, C), Not(W), Sum(Z, A, C), Sum(A, Y, C)],
        9,
    ),
    (
        0x0001,
        [Diff(Z, W, C), Not(W), Sum(A, Y, C), Sum(Z, A, C)],
        9,
    ),
    (
        0x0000,
        [Keep, Diff(Z, W, C), Diff(Y, W, C), Sum(A, Z, C)],
        9,
    ),
    (0x0000, [Keep, Diff(Y, W, C), Not(W), Sum(A, Y, D)], 9),
    // sums built of the bits of their words
    (0x0000, [Sum(Z, W, C), And(Z, W), Or(Z, W), Sum(A, B, C)], 9),
    // differences: of nothing, of a word and itself, and as sums
    (0x0000, [Keep, Keep, Keep, Diff(Z, Y, C)], 0),
    (0x0000, [Keep, Keep, Keep, Diff(Z, Z, C)], 2),
    (0xFFFF, [Keep, Keep, Keep, Diff(Z, Z, D)], 2),
    (0x0000, [Keep, Sum(Z, W, D), Not(W), Diff(Z, A, C)], 9),
    (
        0x0000,
        [Keep, Sum(Z, W, C), Diff(Y, W, C), Diff(Z, A, C)],
        9,
    ),
    // choices: known, of equal arms, and again by the same bit
    (0x0000, [Keep, Keep, Keep, Ite(D, Z, W)], 0),
    (0x0000, [Keep, Keep, Keep, Ite(C, Z, W)], 1),
    (0x0000, [Keep, Keep, Keep, Ite(F, Z, Z)], 0),
    (0x0000, [Keep, Ite(F, Z, W), Ite(F, Z, T), Ite(F, A, W)], 9),
    (0x0000, [Keep, Keep, Ite(F, Z, W), Ite(F, Z, A)], 9),
    // products with nothing
    (0x0000, [Keep, Keep, Keep, High(Z, Y)], 2),
    (0x0000, [Keep, Keep, Keep, Low(Y, Z)], 2),
];

#[test]
fn shifts_sums_and_choices_are_folded(rt: HostRuntime) -> Result<(), Fail> {
    expect_words(&rt, rt.alloc(), &SHIFTS_SUMS_AND_CHOICES)
}

#[test]
fn sums_are_built_of_the_bits_of_their_words(rt: HostRuntime) -> Result<(), Fail> {
    let mut graph = graph_of(rt.alloc())?;
    let start = begin(&mut graph, 0)?;
    let steps = [Sum(Z, W, C), And(Z, W), Shl(A, 1), Xor(Z, W), Sum(A, B, C)];
    let made = after_words(&mut graph, start, &steps)?;
    assert_eq!(rt; made.a.number(), 9);
    Ok(())
}

/// 0 is node 5, 1 is 6, the lowest bits of Z and W are 7 and 8, and what a row makes first is 9
const BITS: [BitRow; 31] = [
    ([Still, Still, NotB(C)], 6),
    ([Still, NotB(F), NotB(P)], 7),
    // constants, idempotence, opposites, absorption
    ([Still, AndB(F, C), AndB(P, G)], 5),
    ([Still, AndB(D, F), AndB(P, F)], 7),
    ([Still, NotB(F), AndB(F, P)], 5),
    ([Still, AndB(F, G), AndB(P, G)], 9),
    ([Still, OrB(F, G), AndB(F, P)], 7),
    ([Still, OrB(F, D), OrB(G, P)], 6),
    ([Still, OrB(C, F), OrB(P, F)], 7),
    ([Still, NotB(F), OrB(P, F)], 6),
    ([Still, OrB(F, G), OrB(G, P)], 9),
    ([Still, AndB(F, G), OrB(P, G)], 8),
    ([Still, XorB(F, C), XorB(P, F)], 5),
    ([NotB(F), XorB(D, F), XorB(P, F)], 6),
    ([Still, XorB(F, G), XorB(F, P)], 8),
    // operands in order
    ([Still, AndB(F, G), AndB(G, F)], 9),
    ([Still, OrB(F, G), OrB(G, F)], 9),
    ([Still, XorB(F, G), XorB(G, F)], 9),
    // choices: known, of equal arms, of known arms, of the bit itself or its opposite
    ([Still, IteB(D, F, G), IteB(C, F, P)], 7),
    ([Still, Still, IteB(F, G, G)], 8),
    ([NotB(F), IteB(P, G, F), IteB(F, F, G)], 10),
    ([Still, Still, IteB(F, D, C)], 7),
    ([Still, NotB(F), IteB(F, C, D)], 9),
    ([Still, OrB(F, G), IteB(F, D, G)], 9),
    ([Still, AndB(F, G), IteB(F, G, C)], 9),
    ([NotB(F), AndB(P, G), IteB(F, C, G)], 10),
    ([NotB(F), OrB(P, G), IteB(F, G, D)], 10),
    ([Still, OrB(F, G), IteB(F, F, G)], 9),
    ([Still, AndB(F, G), IteB(F, G, F)], 9),
    ([NotB(G), XorB(F, P), IteB(F, G, Q)], 10),
    ([NotB(G), XorB(F, G), IteB(F, Q, G)], 10),
];

#[test]
fn bits_are_folded(rt: HostRuntime) -> Result<(), Fail> {
    expect_bits(&rt, rt.alloc(), &BITS)
}

const PICKS_AND_COMPARISONS: [PickRow; 33] = [
    // a bit of a constant, of a byte, and through shifts, masks and negation
    (0x0100, [Keep, Keep], [Still, Still, Pick(Y, 8)], 6),
    (0x0000, [Keep, Keep], [Still, Still, Pick(T, 8)], 5),
    (
        0x0000,
        [Keep, Shl(Z, 3)],
        [Still, Pick(A, 2), Pick(A, 3)],
        7,
    ),
    (0x0000, [Keep, Shl(Z, 3)], [Still, Still, Pick(A, 2)], 5),
    (
        0x0000,
        [Keep, Shr(Z, 3)],
        [Pick(Z, 8), Still, Pick(A, 5)],
        10,
    ),
    (0x0000, [Keep, Shr(Z, 3)], [Still, Still, Pick(A, 13)], 5),
    (0x0000, [Keep, And(Z, U)], [Still, Still, Pick(A, 0)], 7),
    (0x0000, [Keep, And(Z, U)], [Still, Still, Pick(A, 8)], 5),
    (0xFF00, [Keep, Or(Z, Y)], [Still, Still, Pick(A, 0)], 7),
    (0xFF00, [Keep, Or(Z, Y)], [Still, Still, Pick(A, 8)], 6),
    (0xFF00, [Keep, Xor(Z, Y)], [Still, Still, Pick(A, 0)], 7),
    (0x0001, [Keep, Xor(Z, Y)], [NotB(F), Still, Pick(A, 0)], 10),
    (0x0000, [Keep, Not(Z)], [NotB(F), Still, Pick(A, 0)], 10),
    // a bit of a choice of constants, and of words put together
    (0x0001, [Keep, Ite(F, U, Y)], [Still, Still, Pick(A, 0)], 6),
    (0x0001, [Keep, Ite(F, U, Y)], [Still, Still, Pick(A, 1)], 7),
    (
        0x0001,
        [Keep, Ite(F, Y, U)],
        [NotB(F), Still, Pick(A, 1)],
        10,
    ),
    (
        0x0001,
        [Shl(W, 8), Or(A, T)],
        [Pick(T, 3), Still, Pick(A, 8)],
        8,
    ),
    // equal words, known ones, ones that can't be equal, and differences
    (0x0000, [Keep, Keep], [Still, Still, Same(Z, Z)], 6),
    (0x0000, [Keep, Keep], [Still, Still, Same(Y, U)], 5),
    (0x0100, [Keep, Keep], [Still, Still, Same(T, Y)], 5),
    (0x0000, [Keep, Keep], [Still, Same(Z, W), Same(W, Z)], 9),
    (
        0x0000,
        [Keep, Xor(Z, W)],
        [Still, Same(Z, W), Same(A, Y)],
        10,
    ),
    (
        0x0000,
        [Keep, Diff(Z, W, C)],
        [Still, Same(Z, W), Same(A, Y)],
        10,
    ),
    // carries: known, of words that fit, of a word and itself
    (0xFFFF, [Keep, Keep], [Still, Still, Carry(Y, U, C)], 6),
    (0x0000, [Keep, Keep], [Still, Still, Carry(Z, Y, C)], 5),
    (0xFE00, [Keep, Keep], [Still, Still, Carry(T, Y, D)], 5),
    (
        0x0000,
        [Keep, Keep],
        [Pick(Z, 15), Still, Carry(Z, Z, F)],
        9,
    ),
    (
        0x0000,
        [Keep, Keep],
        [Still, Carry(Z, W, C), Carry(W, Z, C)],
        9,
    ),
    // borrows: known, of a word and itself, and of words that bounds keep in order
    (0x0000, [Keep, Keep], [Still, Still, Borrow(Y, U, C)], 6),
    (0x0000, [Keep, Keep], [Still, Still, Borrow(Z, Z, F)], 7),
    (0x0000, [Keep, Keep], [Still, Still, Borrow(Z, Y, C)], 5),
    (0x0100, [Keep, Keep], [Still, Still, Borrow(Y, T, D)], 5),
    (0x0100, [Keep, Keep], [Still, Still, Borrow(T, Y, C)], 6),
];

#[test]
fn picks_and_comparisons_are_folded(rt: HostRuntime) -> Result<(), Fail> {
    expect_picks(&rt, rt.alloc(), &PICKS_AND_COMPARISONS)
}

/// The numbers of Z and its carry, doubled by an addition and by a shift with no bit shifted in.
fn doubled(alloc: Global) -> Result<[u32; 4], OutOfMemory> {
    let mut graph = graph_of(alloc)?;
    let start = begin(&mut graph, 0)?;
    let clear = SymFlags {
        c: start.c,
        z: start.c,
        s0: start.c,
        s1: start.c,
        ov0: start.c,
        ov1: start.c,
    };
    let (sum, one) = alu_terms(&mut graph, Alu::Add, start.z, start.z, start.c, clear)?;
    let (shifted, other) = alu_terms(&mut graph, Alu::Shl1, start.z, start.w, start.c, clear)?;
    Ok([
        sum.number(),
        shifted.number(),
        one.c.number(),
        other.c.number(),
    ])
}

#[test]
fn a_word_is_doubled_alike(rt: HostRuntime) -> Result<(), Fail> {
    let [sum, shifted, carry, shifted_out] = doubled(rt.alloc())?;
    assert_eq!(rt; (sum, carry), (shifted, shifted_out));
    Ok(())
}

/// The number of what is read at a place of a RAM of Zs after W was stored there, and at the next place.
fn stored(alloc: Global) -> Result<[u32; 2], OutOfMemory> {
    let mut graph = graph_of(alloc)?;
    let start = begin(&mut graph, 0x20)?;
    let words = vec![in alloc; start.z; 256]?;
    let mut ram = Pages::from_list(alloc, &words)?;
    pages_store(&mut graph, alloc, &mut ram, start.y, start.w)?;
    let read = pages_select(&mut graph, alloc, &ram, start.y)?;
    Ok([read.number(), ram.get(0x21).number()])
}

#[test]
fn what_is_stored_is_loaded_again(rt: HostRuntime) -> Result<(), Fail> {
    // Z is node 0, W 1
    assert_eq!(rt; stored(rt.alloc())?, [1, 0]);
    Ok(())
}

#[test]
fn a_table_is_looked_up(rt: HostRuntime) -> Result<(), Fail> {
    let mut graph = graph_of(rt.alloc())?;
    let start = begin(&mut graph, 0x0402)?;
    let word = mk_look(&mut graph, Table::First, start.y)?;
    let _node = graph.word_at(word);
    let mut scratch = Scratch::for_graph(rt.alloc(), &graph)?;
    assert_eq!(rt;
        graph.value_word(word, &inputs_of(rt.alloc())?, &mut scratch),
        0x1234
    );
    Ok(())
}
