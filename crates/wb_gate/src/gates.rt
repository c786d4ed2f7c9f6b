//! Literals, gates and goals.

/// A variable, or its negation.
#[derive(Clone, Copy, PartialEq, Eq, Hash, Debug, Default)]
pub struct Lit {
    pub var: u32,
    /// Whether the variable is negated.
    pub neg: bool,
}

/// A gate over earlier variables.
#[derive(Clone, Copy, PartialEq, Eq, Hash, Debug)]
pub enum Gate {
    /// Both.
    And(Lit, Lit),
    /// Just one of the two.
    Xor(Lit, Lit),
    /// The second where the first holds, else the third.
    Mux(Lit, Lit, Lit),
    /// Two of the three at least.
    Maj(Lit, Lit, Lit),
}

/// What a formula asks for.
#[derive(Clone, Copy, PartialEq, Eq, Debug)]
pub enum Goal {
    /// What no assignment meets.
    Never,
    /// A literal that is true.
    Lit(Lit),
    /// What each assignment meets.
    Always,
}
