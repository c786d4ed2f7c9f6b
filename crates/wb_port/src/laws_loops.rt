//! What is true of every wait loop, and that every run comes to one end.
ghost use Rattle.wb_rom.specs.declared.images.Image.{Image};
ghost use Rattle.wb_port.specs.Endings.{LoopsArePolls, PollsBeginLoops, LoopsAreOne, LoopsShareNoAddress};
ghost use Rattle.wb_port.specs.Endings.{RunsComeToAnEnd};
ghost use Rattle.wb_port.specs.Worked.{WorkedLoops};

/// Each address of a wait loop begins it too, and is a poll.
pub fn loops_are_polls()
    ensures { LoopsArePolls }
{}

/// A poll begins a wait loop.
pub fn polls_begin_loops()
    ensures { PollsBeginLoops }
{}

/// An address begins one wait loop at most.
pub fn loops_are_one()
    ensures { LoopsAreOne }
{}

/// Each address of a wait loop is in no other one.
pub fn loops_share_no_address()
    ensures { LoopsShareNoAddress }
{}

/// Every run comes to one end, within `(k + 7) * (transfers + 2)` instructions.
pub fn runs_come_to_an_end()
    ensures { RunsComeToAnEnd }
{}

/// The wait loops of five programs, as the definitions have them.
pub fn worked_loops()
    ensures { (image : Image) → WorkedLoops image }
{}
