//! The parts of a chip stay in their ranges, whatever host and chip do.
ghost use Rattle.wb_law.specs.Ranges.{AccessesKeepRanges, SchedulesKeepRanges, MomentsAreInRange, RunsKeepRanges, StridingChipsStayInRange};

use wb_machine::{ranges_are_kept, starts_are_in_range};

/// An access keeps the ranges of all parts.
pub fn accesses_keep_ranges()
    ensures { AccessesKeepRanges }
{}

/// Every schedule keeps the ranges of all parts.
pub fn schedules_keep_ranges()
    ensures { SchedulesKeepRanges }
{
    ranges_are_kept();
}

/// The parts of a chip are in their ranges at every moment of every schedule.
pub fn moments_are_in_range()
    ensures { MomentsAreInRange }
{
    ranges_are_kept();
    starts_are_in_range();
}

/// The parts of a chip are in their ranges at every moment of every run.
pub fn runs_keep_ranges()
    ensures { RunsKeepRanges }
{
    ranges_are_kept();
    starts_are_in_range();
}

/// A chip that strides on after some accesses is in its ranges.
pub fn striding_chips_stay_in_range()
    ensures { StridingChipsStayInRange }
{
    ranges_are_kept();
    starts_are_in_range();
}
