use crate::lists::Replies;
use wb_word::Addr;

/// How a run of a dialogue ends.
#[derive(Drop)]
pub enum Run {
    /// Every access was given; these are the bytes that the reads and status reads gave.
    Answered(Replies),
    /// The pace was used up before the next request.
    Overrun,
    /// The word at this address touches the port while a request is asked, and it isn't in a poll.
    Breach(Addr),
}
