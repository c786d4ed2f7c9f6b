//! Where held runs are answered.
ghost use Rattle.wb_law.specs.Waits.{HeldRunsAreAnsweredAtPolls, WaitsAreOne};

/// A held run is answered exactly where the chip comes to wait at a poll after all accesses.
pub fn held_runs_are_answered_at_polls()
    ensures { HeldRunsAreAnsweredAtPolls }
{}

/// A held chip comes to wait at one chip.
pub fn waits_are_one()
    ensures { WaitsAreOne }
{}
