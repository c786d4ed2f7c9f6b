ghost use Rattle.std.specs.Prelude.{◌≡◌};

/// The number of a diagram.
#[derive(Clone, Copy, PartialEq, Eq, Hash, Debug)]
pub struct Diagram {
    pub(crate) number: u32,
}

/// What stands at a number.
#[derive(Clone, Copy, PartialEq, Eq, Hash, Debug)]
pub enum Node {
    /// A constant function.
    Leaf(bool),
    /// The function that is `high` where the variable is set, else `low`.
    Split {
        variable: u32,
        low: Diagram,
        high: Diagram,
    },
}

/// The function that is `yes` where `test` is true, else `no`.
#[derive(Clone, Copy, PartialEq, Eq, Debug)]
pub struct Choice {
    pub test: Diagram,
    pub yes: Diagram,
    pub no: Diagram,
}

impl Diagram {
    pub fn number(&self) -> u32
        ensures { result ≡ self.now.number }
    {
        self.number
    }
}

/// One step down a diagram: a variable, and the side that is taken there.
#[derive(Clone, Copy, PartialEq, Eq, Debug)]
pub struct Turn {
    pub variable: u32,
    pub side: bool,
}
