//! What is true of the texts of verdicts.
ghost use Rattle.wb_report.specs.Laws.{RunsSayOneThing, VerdictsHaveOneText};

/// Every run says one list of bytes until it ends, and so every verdict has one text.
pub fn verdicts_have_one_text()
    ensures runs { RunsSayOneThing }
    ensures verdicts { VerdictsHaveOneText }
{}
