//! Keys, dialogues by inputs, questions, and states merged by a condition.
use crate::states::{three_kinds, two_states};
use std::test::Fail;
use wb_point::{
    Accesses, FixedBit, FixedBits, OutOfMemory, Point, dialogue_of, inputs_of, merge, normalise,
    same_key, same_place, shown,
};
use wb_port::{Access, Dialogue, Kind, Kinds, Power};
use wb_term::{Inputs, Scratch};
use wb_word::Side;

/// Inputs whose bytes are 0x50, 0x51 and so on, over a start of sevens.
fn inputs(rt: &HostRuntime) -> Result<Inputs, OutOfMemory> {
    let bytes = [
        0x50, 0x51, 0x52, 0x53, 0x54, 0x55, 0x56, 0x57, 0x58, 0x59, 0x5A, 0x5B, 0x5C, 0x5D, 0x5E,
        0x5F,
    ];
    Inputs::new(rt.alloc(), &bytes, &[7; 256])
}

/// The first word of a dialogue's start, and its accesses.
fn parts(dialogue: &Dialogue) -> (u16, &[Access]) {
    (dialogue.start_at(0), dialogue.list())
}

#[test]
fn dialogues_go_by_their_inputs(rt: HostRuntime) -> Result<(), Fail> {
    let given = inputs(&rt)?;
    let wanted = [Access::Write(0x50), Access::Read, Access::Write(0x52)];
    let any = dialogue_of(rt.alloc(), &three_kinds(rt.alloc())?, &given, Power::Any)?;
    assert_eq!(rt; parts(&any), (7, wanted.as_slice()));
    let zero = dialogue_of(rt.alloc(), &three_kinds(rt.alloc())?, &given, Power::Zero)?;
    assert_eq!(rt; parts(&zero), (0, wanted.as_slice()));
    let back = inputs_of(rt.alloc(), &any)?;
    assert_eq!(rt;
        (
            back.byte(0),
            back.byte(1),
            back.byte(2),
            back.byte(3),
            back.cell(9)
        ),
        (0x50, 0, 0x52, 0, 7)
    );
    let normal = normalise(rt.alloc(), &given, &three_kinds(rt.alloc())?, Power::Zero)?;
    assert_eq!(rt;
        (
            normal.byte(0),
            normal.byte(1),
            normal.byte(2),
            normal.byte(3),
            normal.cell(9)
        ),
        (0x50, 0, 0x52, 0, 0)
    );
    Ok(())
}

/// A point after one transfer of this kind.
fn point(rt: &HostRuntime, kind: Kind, count: u16) -> Result<Point, OutOfMemory> {
    let mut kinds = Kinds::new(rt.alloc());
    kinds.push(kind)?;
    Ok(Point {
        side: Side::A,
        kinds,
        count,
        pc: 2,
        sp: 0,
        stack: [0; 4],
        asked: true,
        rqm: true,
        drs: false,
    })
}

#[test]
fn keys_differ_in_any_part(rt: HostRuntime) -> Result<(), Fail> {
    let key = point(&rt, Kind::Write, 0)?;
    assert_eq!(rt; same_key(&key, &point(&rt, Kind::Write, 0)?), true);
    assert_eq!(rt; same_key(&key, &point(&rt, Kind::Read, 0)?), false);
    assert_eq!(rt; same_key(&key, &point(&rt, Kind::Write, 1)?), false);
    Ok(())
}

#[test]
fn questions_have_lists(rt: HostRuntime) -> Result<(), Fail> {
    let mut fixed = FixedBits::new(rt.alloc());
    let bit = FixedBit {
        place: 1,
        bit: 7,
        value: true,
    };
    fixed.push(bit)?;
    assert_eq!(rt; (fixed.len(), fixed.at(0)), (1, bit));
    let mut last = Accesses::new(rt.alloc());
    last.push(Access::Status)?;
    assert_eq!(rt; (last.len(), last.at(0)), (1, Access::Status));
    Ok(())
}

/// A in the state merged of two, under inputs with this first byte.
fn merged_a(rt: &HostRuntime, first: u8) -> Result<u16, OutOfMemory> {
    let mut t = two_states(rt.alloc())?;
    let state = merge(&mut t.graph, rt.alloc(), t.low, &t.one, &t.two)?;
    let mut bytes = [0; 16];
    bytes[0] = first;
    let inputs = Inputs::new(rt.alloc(), &bytes, &[0; 256])?;
    let mut scratch = Scratch::for_graph(rt.alloc(), &t.graph)?;
    let _a = t.graph.word_at(state.a);
    Ok(t.graph.value_word(state.a, &inputs, &mut scratch))
}

#[test]
fn states_merge_by_a_condition(rt: HostRuntime) -> Result<(), Fail> {
    assert_eq!(rt; merged_a(&rt, 0xFF)?, 1);
    assert_eq!(rt; merged_a(&rt, 0xFE)?, 2);
    let mut t = two_states(rt.alloc())?;
    assert_eq!(rt; same_place(&t.one, &t.two), true);
    t.two.pc = 1;
    assert_eq!(rt; (same_place(&t.one, &t.two), shown(&t.two).pc), (false, 1));
    Ok(())
}
