//! Events that are applied one by one to a chip whose count is held.
ghost use Rattle.wb_law.specs.Counts.{AppliedChipsFollow, AppliedChipsAreHeldAtTheGreatestCount, CountsAreAtMostTheSteps, ShortSchedulesHoldNothing};

/// Events that are applied one by one come to the chip after the schedule, but for a count past 64 bits.
pub fn applied_chips_follow()
    ensures { AppliedChipsFollow }
{}

/// The chip is that after the schedule, with its count held at the greatest number of 64 bits.
pub fn applied_chips_are_held_at_the_greatest_count()
    ensures { AppliedChipsAreHeldAtTheGreatestCount }
{
    applied_chips_follow();
}

/// The count is at most the number of instructions.
pub fn counts_are_at_most_the_steps()
    ensures { CountsAreAtMostTheSteps }
{}

/// Below 2^64 instructions the chip is that after the schedule.
pub fn short_schedules_hold_nothing()
    ensures { ShortSchedulesHoldNothing }
{
    applied_chips_follow();
}
