//! How far a trace goes back.
ghost use Rattle.std.specs.Prelude.{◌≤◌};

/// How many moves of a trace can be taken back: from 1 to 256.
#[derive(Clone, Copy)]
pub struct Depth {
    pub value: usize,
    pub ghost some: { 1 ≤ value },
    pub ghost few: { value ≤ 256 },
}
