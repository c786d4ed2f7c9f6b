//! What is true of every instruction of every image in every state.
ghost use Rattle.wb_machine.specs.Parts.{MovesToSrGoByBits, PartsGoOnAlone, RangesAreKept, StartsAreInRange};

/// Each register, the stack and the RAM after an instruction have a definition of their own over the state before.
/// That is how `next` is defined; it stands here so that who rests on one part needn't open the whole.
pub fn parts_go_on_alone()
    ensures { PartsGoOnAlone }
{}

/// A move to SR writes bits 14, 13, 11 to 7, 1 and 0, and leaves RQM, DRS and the others as the source left them.
pub fn moves_to_sr_go_by_bits()
    ensures { MovesToSrGoByBits }
{}

/// A state in its ranges stays in them.
pub fn ranges_are_kept()
    ensures { RangesAreKept }
{}

/// A chip at power-up is in its ranges.
pub fn starts_are_in_range()
    ensures { StartsAreInRange }
{}
