//! The addresses that held runs execute, by their points.
ghost use Rattle.wb_law.specs.Addresses.{ExecutedAddressesAreShown, ShownAddressesAreExecuted, ReachedPointsShowTheExecuted};

use crate::fits::{fronts_fit, status_reads_always_fit};

/// Each executed address is shown by a point.
pub fn executed_addresses_are_shown()
    ensures { ExecutedAddressesAreShown }
{}

/// Each address that a point with all kinds shows is executed.
pub fn shown_addresses_are_executed()
    ensures { ShownAddressesAreExecuted }
{}

/// Some fitting dialogue executes an address exactly where some reached point shows it.
pub fn reached_points_show_the_executed()
    ensures { ReachedPointsShowTheExecuted }
{
    fronts_fit();
    status_reads_always_fit();
}
