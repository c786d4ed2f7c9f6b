//! What holds of all diagrams.
ghost use Rattle.wb_diagram.specs.Paths.{PathsAreTrue, PathsRise};

/// A diagram is true under all values that follow a path of it, and the variables of a path rise.
pub fn paths_are_true()
    ensures true_there { PathsAreTrue }
    ensures rise { PathsRise }
{}
