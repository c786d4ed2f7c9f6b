//! What a verdict means.
ghost use Rattle.wb_derive.specs.Laws.{VerdictsAreSound};

/// A derivation has one verdict, and where that is yes, no assignment satisfies the formula.
pub fn verdicts_are_sound()
    ensures { VerdictsAreSound }
{}
