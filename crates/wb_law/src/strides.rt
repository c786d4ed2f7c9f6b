//! Strides of a chip: where they lead, and how they raise its rank.
ghost use Rattle.wb_law.specs.Strides.{StridesAddUp, RestingChipsStay, StoppedChipsStay, OtherStridesAreInstructions, StridesBeginWithAnInstruction, StridesAreOneWalk, RestsAreOne, StopsAreOne, RestingChipsDontStop, ChipsRestOrStop, StridesKeepPace, RanksNeverFall, EqualRanksAreOneChip};

use crate::facts::port_facts;

/// Strides add up.
pub fn strides_add_up()
    ensures { StridesAddUp }
{}

/// A chip that rests stays.
pub fn resting_chips_stay()
    ensures { RestingChipsStay }
{}

/// A chip that can't execute its next instruction stays.
pub fn stopped_chips_stay()
    ensures { StoppedChipsStay }
{}

/// Every other stride is an instruction.
pub fn other_strides_are_instructions()
    ensures { OtherStridesAreInstructions }
{}

/// Strides that lead to another chip begin with an instruction.
pub fn strides_begin_with_an_instruction()
    ensures { StridesBeginWithAnInstruction }
{}

/// Of two chips on one walk, one comes to the other.
pub fn strides_are_one_walk()
    ensures { StridesAreOneWalk }
{}

/// A chip comes to rest at one chip.
pub fn rests_are_one()
    ensures { RestsAreOne }
{}

/// A chip stops in one way.
pub fn stops_are_one()
    ensures { StopsAreOne }
{}

/// A chip that comes to rest doesn't stop.
pub fn resting_chips_dont_stop()
    ensures { RestingChipsDontStop }
{}

/// A chip in pace comes to rest, or it stops.
pub fn chips_rest_or_stop()
    ensures { ChipsRestOrStop }
{
    port_facts();
}

/// Strides keep a chip in pace.
pub fn strides_keep_pace()
    ensures { StridesKeepPace }
{
    port_facts();
}

/// No strides of a held chip lower its rank.
pub fn ranks_never_fall()
    ensures { RanksNeverFall }
{
    port_facts();
}

/// Two chips of one rank on the walk of a held chip are one.
pub fn equal_ranks_are_one_chip()
    ensures { EqualRanksAreOneChip }
{
    port_facts();
}
