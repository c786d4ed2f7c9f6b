// Reached points stand in the order in which they came; a purse begins empty, with its budget.
use std::alloc::Global;
use std::test::Fail;
use wb_explore::{Budget, Purse, Reached, ReachedPoint};
use wb_port::{Dialogue, Kinds, Point};
use wb_word::Side;

/// A point of image B three instructions on, with the dialogue that has no access.
fn reached_at(alloc: Global, pc: u16) -> ReachedPoint {
    let point = Point {
        side: Side::B,
        kinds: Kinds::new(alloc),
        count: 3,
        pc,
        sp: 0,
        stack: [0; 4],
        asked: false,
        rqm: false,
        drs: false,
    };
    let dialogue = Dialogue::new(alloc);
    ReachedPoint { point, dialogue }
}

#[test]
fn reached_points_stand_in_order(rt: HostRuntime) -> Result<(), Fail> {
    let mut reached = Reached::new(rt.alloc());
    for pc in [7, 2] {
        reached.push(reached_at(rt.alloc(), pc))?;
    }
    assert_eq!(rt; reached.len(), 2);
    for (place, pc) in [7, 2].iter().enumerate() {
        assert_eq!(rt; reached.at(place).point.pc, *pc);
    }
    Ok(())
}

#[test]
fn a_purse_begins_empty(rt: HostRuntime) -> Result<(), Fail> {
    let budget = Budget {
        points: 2,
        conflicts: 5,
    };
    let purse = Purse::new(rt.alloc(), budget);
    assert_eq!(rt; purse.points().len(), 0);
    assert_eq!(rt; (purse.budget().points, purse.budget().conflicts), (2, 5));
    Ok(())
}
