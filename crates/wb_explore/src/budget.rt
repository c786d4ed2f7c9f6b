/// How much an exploration may spend: how many points it may reach, and how many conflicts each question may take.
#[derive(Clone, Copy, PartialEq, Eq, Debug)]
pub struct Budget {
    pub points: u32,
    pub conflicts: u64,
}
