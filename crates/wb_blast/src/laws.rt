//! What holds of every graph.
ghost use Rattle.wb_blast.specs.Laws.{GateNumbersAgree, GateNumbersAreLight};

/// Some bits have one gate number.
pub fn gate_numbers_agree()
    ensures { GateNumbersAgree }
{}

/// The gate number of some bits is at most the weight of the whole graph.
pub fn gate_numbers_are_light()
    ensures { GateNumbersAreLight }
{}
