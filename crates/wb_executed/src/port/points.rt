// The points of held runs, worked by hand from the words of the images.
use super::{ECHO, R, S, WIDE, dialogue_of, image_of};
use std::alloc::Global;
use std::process::Abort;
use std::test::Fail;
use wb_port::{Access, Dialogue, Kind, Point, Shown, Side, points_passed};

/// A point of a run: the kinds, the count, PC, whether a request is asked, RQM and DRS.
type Row = (&'static [Kind], u16, u16, bool, bool, bool);

// After its request ECHO waits at 2 for the read, and after the next one at 5.
const ECHO_READ: [Row; 7] = [
    (&[], 0, 0, false, false, false),
    (&[], 1, 1, false, false, false),
    (&[], 0, 2, true, true, false),
    (&[Kind::Read], 0, 2, true, false, false),
    (&[Kind::Read], 1, 3, false, false, false),
    (&[Kind::Read], 2, 4, false, false, false),
    (&[Kind::Read], 0, 5, true, true, false),
];

// The first half of a word leaves the request, and sets DRS.
const WIDE_WRITE: [Row; 7] = [
    (&[], 0, 0, false, false, false),
    (&[], 0, 1, true, true, false),
    (&[Kind::Write], 0, 1, true, true, true),
    (&[Kind::Write, Kind::Write], 0, 1, true, false, false),
    (&[Kind::Write, Kind::Write], 1, 2, false, false, false),
    (&[Kind::Write, Kind::Write], 2, 3, false, false, false),
    (&[Kind::Write, Kind::Write], 0, 4, true, true, false),
];

// A call to 2, where a request is raised, and a wait at 3.
const CALL: &[u32] = &[0xA80008, 0, 0x000080, 0x97C00C];

fn is_row(point: &Point, side: Side, row: &Row) -> bool {
    let (kinds, count, pc, asked, rqm, drs) = *row;
    point.side == side
        && point.kinds.list() == kinds
        && point.count == count
        && point.pc == pc
        && point.asked == asked
        && point.rqm == rqm
        && point.drs == drs
}

/// The held run passes the points of the rows.
fn check_points(
    rt: &impl Abort,
    alloc: Global,
    side: Side,
    words: &[u32],
    accesses: &[Access],
    rows: &[Row],
) -> Result<(), Fail> {
    let image = image_of(alloc, words)?;
    let talk = dialogue_of(alloc, accesses)?;
    let points = points_passed(alloc, &image, side, &talk, 3)?;
    assert!(rt; points.len() == rows.len());
    for (place, row) in rows.iter().enumerate() {
        assert!(rt; is_row(points.at(place), side, row));
    }
    Ok(())
}

/// What a point shows of its machine.
fn shown(point: &Point) -> Shown {
    let stack = point.stack;
    Shown {
        pc: point.pc,
        sp: point.sp,
        stack,
        rqm: point.rqm,
        drs: point.drs,
    }
}

#[test]
fn runs_pass_the_points_worked_by_hand(rt: HostRuntime) -> Result<(), Fail> {
    let alloc = rt.alloc();
    let halves = [Access::Write(0x34), S, Access::Write(0x12)];
    check_points(&rt, alloc, Side::A, ECHO, &[S], &ECHO_READ[..3])?;
    check_points(&rt, alloc, Side::B, ECHO, &[S, R], &ECHO_READ)?;
    check_points(&rt, alloc, Side::B, WIDE, &halves, &WIDE_WRITE)
}

#[test]
fn calls_show_in_the_stack(rt: HostRuntime) -> Result<(), Fail> {
    let alloc = rt.alloc();
    let image = image_of(alloc, CALL)?;
    let points = points_passed(alloc, &image, Side::A, &Dialogue::new(alloc), 2)?;
    assert!(rt; points.len() == 3);
    assert_eq!(rt; points.at(0).sp, 0);
    assert_eq!(rt; points.at(2).sp, 1);
    assert_eq!(rt; points.at(2).stack, [1, 0, 0, 0]);
    Ok(())
}

#[test]
fn points_go_on_to_the_end_of_the_pace(rt: HostRuntime) -> Result<(), Fail> {
    let alloc = rt.alloc();
    let image = image_of(alloc, &[])?;
    let points = points_passed(alloc, &image, Side::B, &Dialogue::new(alloc), 65535)?;
    assert!(rt; points.len() == 65536);
    assert!(rt;
        is_row(
            points.at(2048),
            Side::B,
            &(&[], 2048, 0, false, false, false)
        )
    );
    assert!(rt;
        is_row(
            points.at(65535),
            Side::B,
            &(&[], 65535, 2047, false, false, false)
        )
    );
    Ok(())
}

#[test]
fn a_point_goes_on_by_what_is_shown(rt: HostRuntime) -> Result<(), Fail> {
    let alloc = rt.alloc();
    let image = image_of(alloc, ECHO)?;
    let talk = dialogue_of(alloc, &[R])?;
    let points = points_passed(alloc, &image, Side::A, &talk, 3)?;
    assert!(rt; points.len() == 7);
    let mut here = points.at(1).copy(alloc)?;
    assert!(rt; here.pc < 2048 && here.count < 65535);
    here.step(&image, shown(points.at(2)));
    assert!(rt; is_row(&here, Side::A, &ECHO_READ[2]));
    here.give(Kind::Read, shown(points.at(3)))?;
    assert!(rt; is_row(&here, Side::A, &ECHO_READ[3]));
    Ok(())
}
