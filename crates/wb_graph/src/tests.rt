//! What no clause says: that equal functions are found, and that what differs or wants an input more keeps a number of
//! its own.
use crate::steps::Step::{
    And, AndB, Borrow, Byte, Carry, Cell, Const, Diff, High, Ite, IteB, Known, Look, Low, Not,
    NotB, Or, OrB, Pick, Same, Shl, Shr, Sum, Xor, XorB,
};
use crate::steps::{NO, Step, X, Y, YES, ZERO, graph_of, made_of, value_of};
use crate::{Room, Rooms};
use std::alloc::Global;
use std::process::Abort;
use std::test::Fail;

/// Steps of which the last two make one function. The first of them has place 5.
const EQUAL: [&[Step]; 10] = [
    // A newer node than one with an input more.
    &[
        Xor(X, Y),
        Not(5),
        Xor(6, Y),
        Const(0xFFFF),
        Not(X),
        Diff(8, X, NO),
    ],
    // Two comparisons in both orders.
    &[
        Const(3),
        Const(5),
        Same(X, 5),
        Same(X, 6),
        Ite(8, 5, Y),
        Ite(7, 6, Y),
        Ite(7, 6, 9),
        Ite(8, 5, 10),
    ],
    // Conditions that exclude each other.
    &[
        Const(3),
        Const(5),
        Same(X, 5),
        Same(X, 6),
        AndB(7, 8),
        Known(false),
    ],
    // A byte in halves, joined.
    &[
        Shr(X, 4),
        Shl(5, 4),
        Const(15),
        And(X, 7),
        Sum(6, 8, NO),
        Byte(0),
    ],
    // A flag as the top bit of a difference.
    &[Diff(X, Y, NO), Pick(5, 15), Borrow(X, Y, NO)],
    // A flag as the other flag, inverted by an exclusive or.
    &[Not(Y), Carry(X, 5, YES), XorB(6, YES), Borrow(X, Y, NO)],
    // A flag as a difference that is zero.
    &[Diff(X, Y, NO), Same(5, ZERO), Same(X, Y)],
    // A table that was moved.
    &[
        Const(15),
        And(X, 5),
        Const(32),
        Sum(6, 7, NO),
        Look(6),
        Look(8),
    ],
    // An older node with fewer inputs.
    &[Not(X), Xor(X, Y), Not(6), Xor(7, Y), Not(X)],
    // An input that cancels out.
    &[Xor(X, Y), Xor(5, Y), Byte(0)],
];

/// Steps of which the last two make two numbers.
const APART: [&[Step]; 4] = [
    // They differ where X is 7.
    &[Const(7), Const(8), Borrow(X, 5, NO), Borrow(X, 6, NO)],
    // They differ where X is 0.
    &[
        Const(3),
        Const(4),
        Same(X, ZERO),
        Borrow(X, 6, NO),
        Ite(8, 5, Y),
        Ite(7, 6, Y),
        Ite(7, 6, 9),
        Ite(8, 5, 10),
    ],
    // The moved table differs at 16.
    &[
        Const(31),
        And(X, 5),
        Const(32),
        Sum(6, 7, NO),
        Look(6),
        Look(8),
    ],
    // They are equal, and under the older one stands Y, which the newer one's operand lacks.
    &[Xor(X, Y), Not(5), Xor(6, Y), Not(X)],
];

/// Steps, and the value of what each makes. The first has place 5.
const VALUES: [(Step, u16); 28] = [
    (Sum(X, Y, YES), 0x011E),
    (Diff(X, Y, YES), 0x0068),
    (Diff(Y, X, NO), 0xFF97),
    (Not(X), 0xFF3C),
    (And(X, Y), 0x0042),
    (Or(X, Y), 0x00DB),
    (Xor(X, Y), 0x0099),
    (Shl(5, 8), 0x1E00),
    (Shr(12, 4), 0x01E0),
    (Borrow(X, Y, NO), 0),
    (Borrow(Y, X, NO), 1),
    (Ite(15, X, Y), 0x00C3),
    (Pick(X, 6), 1),
    (XorB(15, 17), 0),
    (OrB(14, 17), 1),
    (AndB(14, 17), 0),
    (NotB(20), 1),
    (IteB(14, 20, 21), 1),
    (Same(X, Y), 0),
    (Carry(8, X, YES), 1),
    (Const(15), 0x000F),
    (And(X, 25), 0x0003),
    (Look(26), 0x000A),
    (Low(X, Y), 0x891C),
    (High(8, 8), 0x0001),
    (Cell(4), 0x1234),
    (Sum(28, 30, NO), 0x9B50),
    (Same(31, 31), 1),
];

/// Nodes and steps of all diagrams, and steps and nodes of each: much room, and rooms in which many nodes stand for
/// themselves.
const ROOMS: [[u32; 4]; 4] = [
    [1 << 20, 1 << 20, 1 << 16, 1 << 12],
    [2, 0, 0, 0],
    [1 << 20, 100, 20, 10],
    [1 << 20, 1 << 20, 1 << 16, 3],
];

fn rooms_of(room: [u32; 4]) -> Rooms {
    let [nodes, steps, node_steps, node_nodes] = room;
    let room = Room {
        steps: node_steps,
        nodes: node_nodes,
    };
    Rooms {
        nodes,
        steps,
        memo: 1 << 10,
        choice: room,
        sum: room,
    }
}

fn are_alike(rt: &impl Abort, alloc: Global, steps: &[Step]) -> Result<bool, Fail> {
    let mut graph = graph_of(alloc, Rooms::default())?;
    let made = made_of(rt, alloc, &mut graph, steps)?;
    let count = made.len();
    assert!(rt; count >= 2);
    Ok(made[count - 1] == made[count - 2])
}

fn expect_values(rt: &impl Abort, alloc: Global, rooms: Rooms) -> Result<(), Fail> {
    let mut graph = graph_of(alloc, rooms)?;
    let mut steps = Vec::new(alloc);
    for (step, _) in &VALUES {
        steps.push(*step)?;
    }
    let made = made_of(rt, alloc, &mut graph, &steps)?;
    for at in 0..VALUES.len() {
        assert_eq!(rt;
            value_of(rt, alloc, &graph, &made, at + 5)?,
            VALUES[at].1,
            "place {}",
            at + 5
        );
    }
    Ok(())
}

#[test]
fn equal_functions_have_one_number(rt: HostRuntime) -> Result<(), Fail> {
    for (row, steps) in EQUAL.iter().enumerate() {
        assert!(rt; are_alike(&rt, rt.alloc(), steps)?, "row {row}");
    }
    Ok(())
}

#[test]
fn others_have_two(rt: HostRuntime) -> Result<(), Fail> {
    for (row, steps) in APART.iter().enumerate() {
        assert!(rt; !are_alike(&rt, rt.alloc(), steps)?, "row {row}");
    }
    Ok(())
}

#[test]
fn values_stay_in_any_room(rt: HostRuntime) -> Result<(), Fail> {
    for rooms in &ROOMS {
        expect_values(&rt, rt.alloc(), rooms_of(*rooms))?;
    }
    Ok(())
}
