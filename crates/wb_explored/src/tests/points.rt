//! The points that were reached are those that the tried dialogues pass.
ghost use Rattle.std.specs.Prelude.{◌≤◌};

use super::cases::Case;
use super::explored;
use std::alloc::Global;
use std::process::Abort;
use std::test::Fail;
use wb_explore::{ExploreFault, Purse, Reached};
use wb_point::same_key;
use wb_port::{Dialogue, Kind, Point, Points, Run, points_passed, replay};
use wb_rom::Image;

/// How held runs end, beside those that are answered.
#[derive(Clone, Copy)]
pub(super) struct Ends {
    pub overruns: bool,
    pub breaches: bool,
}

/// Whether some held run of these overruns, and whether some breaches.
pub(super) fn check_ends(
    alloc: Global,
    image: &Image,
    case: &Case,
    tried: &[Dialogue],
) -> Result<Ends, Fail>
    requires paced { 1 ≤ case.now.pace }
{
    let mut ends = Ends {
        overruns: false,
        breaches: false,
    };
    for dialogue in tried {
        match replay(alloc, image, dialogue, case.pace, true)? {
            Run::Answered(_) => {},
            Run::Overrun => ends.overruns = true,
            Run::Breach(_) => ends.breaches = true,
        }
    }
    Ok(ends)
}

/// The place of a point among those that were reached.
fn place_of(reached: &Reached, point: &Point) -> Option<usize> {
    for place in 0..reached.len() {
        if same_key(&reached.at(place).point, point) {
            return Some(place);
        }
    }
    None
}

/// Marks the places of points, each of which was reached.
fn mark(rt: &impl Abort, reached: &Reached, points: &Points, marks: &mut [bool]) {
    for at in 0..points.len() {
        let place = place_of(reached, points.at(at));
        assert!(rt; place.is_some(), "a point wasn't reached");
        if let Some(mark) = place.and_then(|place| marks.get_mut(place)) {
            *mark = true;
        }
    }
}

/// Each point is marked.
fn check_marked(rt: &impl Abort, reached: &Reached, marks: &[bool]) {
    for place in 0..reached.len() {
        let point = &reached.at(place).point;
        let (pc, count, length) = (point.pc, point.count, point.kinds.len());
        let passed = matches!(marks.get(place), Some(true));
        assert!(rt; passed, "no run passes {pc} at {count} after {length}");
    }
}

/// The points of the purse are those that the tried dialogues pass.
pub(super) fn check_points(
    rt: &impl Abort,
    alloc: Global,
    image: &Image,
    case: &Case,
    purse: &Purse,
    tried: &[Dialogue],
) -> Result<(), Fail>
    requires paced { 1 ≤ case.now.pace }
{
    let reached = purse.points();
    let mut marks = vec![in alloc; false; reached.len()]?;
    for dialogue in tried {
        let points = points_passed(alloc, image, case.side, dialogue, case.pace)?;
        mark(rt, reached, &points, &mut marks);
    }
    check_marked(rt, reached, marks.as_slice());
    Ok(())
}

/// Whether a point is among points.
fn has_point(points: &Points, point: &Point) -> bool {
    for at in 0..points.len() {
        if same_key(points.at(at), point) {
            return true;
        }
    }
    false
}

/// Each point is passed by the held run of its dialogue.
pub(super) fn check_witnesses(
    rt: &impl Abort,
    alloc: Global,
    image: &Image,
    case: &Case,
    reached: &Reached,
) -> Result<(), Fail>
    requires paced { 1 ≤ case.now.pace }
{
    for place in 0..reached.len() {
        let here = reached.at(place);
        let points = points_passed(alloc, image, case.side, &here.dialogue, case.pace)?;
        assert!(rt;
            has_point(&points, &here.point),
            "its dialogue misses a point"
        );
    }
    Ok(())
}

/// Whether so many points suffice.
fn is_enough(alloc: Global, image: &Image, case: &Case, kinds: &[Kind], points: u32) -> bool
    requires paced { 1 ≤ case.now.pace }
{
    match explored(alloc, image, case, kinds, points) {
        Ok(_found) => true,
        Err(_fault) => false,
    }
}

/// The points that are told where so many don't suffice.
fn told(
    alloc: Global,
    image: &Image,
    case: &Case,
    kinds: &[Kind],
    points: u32,
) -> Result<Reached, Fail>
    requires paced { 1 ≤ case.now.pace }
{
    match explored(alloc, image, case, kinds, points) {
        Err(ExploreFault::Points(list)) => Ok(list),
        Ok(_found) => Err(Fail::from("points aren't short")),
        Err(_fault) => Err(Fail::from("another fault")),
    }
}

/// As many points as there are suffice, and one less is too few: then all of them are told.
pub(super) fn check_shortage(
    rt: &impl Abort,
    alloc: Global,
    image: &Image,
    case: &Case,
    kinds: &[Kind],
    count: usize,
) -> Result<(), Fail>
    requires paced { 1 ≤ case.now.pace }
{
    let Ok(most) = u32::try_from(count) else {
        return Err(Fail::from("too many points"));
    };
    assert!(rt; most > 1);
    assert!(rt; is_enough(alloc, image, case, kinds, most));
    let list = told(alloc, image, case, kinds, most - 1)?;
    assert_eq!(rt; list.len(), count);
    check_witnesses(rt, alloc, image, case, &list)
}
