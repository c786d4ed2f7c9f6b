//! Held chips, their ranks and their points, and how a point goes on.
ghost use Rattle.wb_law.specs.Points.{HeldChipsStayInPace, RanksRise, RanksAreOnce, PointsArePassedAfterAccesses, LastPointsArePassedAfterAll, TrailsHoldThePoints, PointsGoOn};

use crate::facts::port_facts;

/// A held chip stays in pace, and a request that stands is asked.
pub fn held_chips_stay_in_pace()
    ensures { HeldChipsStayInPace }
{
    port_facts();
}

/// Each instruction of a held chip raises its rank.
pub fn ranks_rise()
    ensures { RanksRise }
{
    port_facts();
}

/// Where a held chip strides on after some accesses, it has each rank once.
pub fn ranks_are_once()
    ensures { RanksAreOnce }
{
    port_facts();
}

/// Each point that a held run passes is passed by the held chip after some first accesses of its dialogue.
pub fn points_are_passed_after_accesses()
    ensures { PointsArePassedAfterAccesses }
{}

/// A held run without status reads passes a point with all of its kinds exactly where the held chip does after the last access.
pub fn last_points_are_passed_after_all()
    ensures { LastPointsArePassedAfterAll }
{}

/// The points of a trail are those that the held run passes.
pub fn trails_hold_the_points()
    ensures { TrailsHoldThePoints }
{}

/// A point goes on by what it was and by what the machine shows then.
pub fn points_go_on()
    ensures { PointsGoOn }
{}
