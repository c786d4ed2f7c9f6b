//! Values of any type, and numbers: what needs nothing of the chip.
ghost use Rattle.wb_law.specs.Values.{DifferentValuesAreNoMore, LeastNumbersExist};

/// Values of one type that are different from one another and stand in a list are no more than this list has.
pub fn different_values_are_no_more<T>()
    ensures { DifferentValuesAreNoMore T }
{}

/// Where a test passes a number, there is a least one that it passes.
pub fn least_numbers_exist()
    ensures { LeastNumbersExist }
{}
