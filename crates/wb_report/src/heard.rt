use wb_port::Replies;

/// The bytes that the runs of a dialogue said until they ended.
#[derive(Drop)]
pub enum Heard {
    /// On one side.
    One(Replies),
    /// On A, and on B.
    Both(Replies, Replies),
}
