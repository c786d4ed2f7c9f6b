//! What holds of every graph.
ghost use Rattle.wb_term.specs.Laws.{ValuesAgree};

/// A node has one value under all inputs that agree on the input nodes under it.
pub fn values_agree()
    ensures { ValuesAgree }
{}
