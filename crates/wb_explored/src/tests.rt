//! What the explorer finds is what comes of trying the dialogues one by one.
ghost use Rattle.std.specs.Prelude.{◌≤◌, IfOk};
ghost use Rattle.wb_explore.specs.Layers.{IsLayer};

mod cases;
pub mod enumeration;
mod oracles;
mod points;
mod requests;

use crate::{Explored, Setting, explore};
use cases::{BRANCHES, CHECKED, Case, EVERY, HALTS, STORED, STRAIGHT};
use enumeration::{dialogues, image_of};
use points::{Ends, check_ends, check_points, check_shortage, check_witnesses};
use requests::check_requests;
use std::alloc::Global;
use std::process::Abort;
use std::test::Fail;
use wb_explore::{Budget, ExploreFault};
use wb_port::{Kind, Run, replay};
use wb_query::SolverOracle;
use wb_rom::Image;

/// Explores a program with as many points as this.
fn explored(
    alloc: Global,
    image: &Image,
    case: &Case,
    kinds: &[Kind],
    points: u32,
) -> Result<Explored, ExploreFault>
    requires paced { 1 ≤ case.now.pace }
    ensures layer { IfOk result (λ e. IsLayer e.graph image.now e.layer) }
{
    if points == 0 || points > 8192 || kinds.len() > 16 {
        return Err(ExploreFault::OutOfMemory);
    }
    let setting = Setting {
        side: case.side,
        pace: case.pace,
        power: case.power,
        budget: Budget {
            points,
            conflicts: 10_000,
        },
    };
    explore(alloc, image, setting, kinds, &mut SolverOracle::new(10_000))
}

/// What was explored is what the tried dialogues show.
fn check_explored(
    rt: &impl Abort,
    alloc: Global,
    image: &Image,
    case: &Case,
    kinds: &[Kind],
    found: &Explored,
) -> Result<(), Fail>
    requires layer { IsLayer found.now.graph image.now found.now.layer }
    requires paced { 1 ≤ case.now.pace }
{
    let tried = dialogues(alloc, case, kinds)?;
    let ends = check_ends(alloc, image, case, tried.as_slice())?;
    assert!(rt; !ends.breaches);
    assert_eq!(rt; found.layer.overrun().is_some(), ends.overruns);
    if let Some(dialogue) = found.layer.overrun() {
        let run = replay(alloc, image, dialogue, case.pace, true)?;
        assert!(rt; matches!(run, Run::Overrun));
    }
    check_points(rt, alloc, image, case, &found.purse, tried.as_slice())?;
    check_witnesses(rt, alloc, image, case, found.purse.points())?;
    check_requests(rt, alloc, image, case, found, kinds, tried.as_slice())
}

/// A breach was told, which the tried dialogues show.
fn check_fault(
    rt: &impl Abort,
    alloc: Global,
    image: &Image,
    case: &Case,
    kinds: &[Kind],
    fault: &ExploreFault,
) -> Result<(), Fail>
    requires paced { 1 ≤ case.now.pace }
{
    let ExploreFault::Breach(dialogue, at) = fault else {
        return Err(Fail::from("no breach"));
    };
    let Run::Breach(here) = replay(alloc, image, dialogue, case.pace, true)? else {
        return Err(Fail::from("no breach of the dialogue"));
    };
    assert_eq!(rt; here.value, at.value);
    let tried = dialogues(alloc, case, kinds)?;
    let Ends { breaches, .. } = check_ends(alloc, image, case, tried.as_slice())?;
    assert!(rt; breaches);
    Ok(())
}

fn check_kinds(
    rt: &impl Abort,
    alloc: Global,
    image: &Image,
    case: &Case,
    kinds: &[Kind],
) -> Result<(), Fail>
    requires paced { 1 ≤ case.now.pace }
{
    match explored(alloc, image, case, kinds, 4096) {
        Ok(found) => {
            check_explored(rt, alloc, image, case, kinds, &found)?;
            check_shortage(rt, alloc, image, case, kinds, found.purse.points().len())
        }
        Err(fault) => check_fault(rt, alloc, image, case, kinds, &fault),
    }
}

fn check_cases(rt: &impl Abort, alloc: Global, cases: &[Case]) -> Result<(), Fail> {
    for case in cases {
        check_case(rt, alloc, case)?;
    }
    Ok(())
}

fn check_case(rt: &impl Abort, alloc: Global, case: &Case) -> Result<(), Fail> {
    let image = image_of(alloc, case.words)?;
    assert!(rt; case.pace > 0);
    for kinds in case.kinds {
        check_kinds(rt, alloc, &image, case, kinds)?;
    }
    Ok(())
}

#[test]
fn straight_programs_are_explored(rt: HostRuntime) -> Result<(), Fail> {
    check_cases(&rt, rt.alloc(), &STRAIGHT)
}

#[test]
fn branches_are_explored(rt: HostRuntime) -> Result<(), Fail> {
    check_cases(&rt, rt.alloc(), &BRANCHES)
}

#[test]
fn stored_words_are_explored(rt: HostRuntime) -> Result<(), Fail> {
    check_cases(&rt, rt.alloc(), &STORED)
}

#[test]
fn halts_are_explored(rt: HostRuntime) -> Result<(), Fail> {
    check_cases(&rt, rt.alloc(), &HALTS)
}

#[test]
fn every_byte_is_explored(rt: HostRuntime) -> Result<(), Fail> {
    check_cases(&rt, rt.alloc(), &EVERY)
}

#[test]
fn oracles_are_checked(rt: HostRuntime) -> Result<(), Fail> {
    oracles::check_rows(&rt, rt.alloc(), &CHECKED)
}
