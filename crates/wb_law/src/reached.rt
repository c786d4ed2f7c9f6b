//! How many points are reached: bounds, and what they are counted by.
ghost use Rattle.wb_law.specs.Reached.{StatusReadsPassNoPoint, FittingDialoguesPassReachedPoints, PointsAreReachedOnTheirSide, ListsBoundReachedPoints, ListsBoundPointsOfASide, GreaterBoundsHold, GreaterBoundsHoldOfASide, BoundsHoldOfEachSide, BoundsOfSidesAddUp};

use crate::fits::{status_reads_always_fit, transfers_are_left};

/// Leaving status reads out changes no point of a held run.
pub fn status_reads_pass_no_point()
    ensures { StatusReadsPassNoPoint }
{}

/// A fitting dialogue passes reached points alone, also where it has status reads.
pub fn fitting_dialogues_pass_reached_points()
    ensures { FittingDialoguesPassReachedPoints }
{
    status_reads_always_fit();
    transfers_are_left();
}

/// A point is reached exactly where it is reached on its own side.
pub fn points_are_reached_on_their_side()
    ensures { PointsAreReachedOnTheirSide }
{}

/// No more points are reached than a list has that holds them all.
pub fn lists_bound_reached_points()
    ensures { ListsBoundReachedPoints }
{}

/// No more points of a side are reached than a list has that holds them all.
pub fn lists_bound_points_of_a_side()
    ensures { ListsBoundPointsOfASide }
{}

/// What bounds the reached points may be raised.
pub fn greater_bounds_hold()
    ensures { GreaterBoundsHold }
{}

/// What bounds the reached points of a side may be raised.
pub fn greater_bounds_hold_of_a_side()
    ensures { GreaterBoundsHoldOfASide }
{}

/// What bounds both sides together bounds each side.
pub fn bounds_hold_of_each_side()
    ensures { BoundsHoldOfEachSide }
{}

/// The bounds of the two sides add up.
pub fn bounds_of_sides_add_up()
    ensures { BoundsOfSidesAddUp }
{}
