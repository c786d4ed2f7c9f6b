//! What holds of every state.
ghost use Rattle.wb_symstep.specs.Laws.{GrowthKeepsStates};

/// A state stays in a graph that grows, and stands in it for exactly the machines for which it stood.
pub fn states_stay()
    ensures { GrowthKeepsStates }
{}
