//! Which dialogues fit beside one that fits, and what leaving status reads out does to a dialogue.
ghost use Rattle.wb_law.specs.FitLaws.{FrontsFit, StatusReadsAlwaysFit, StatusReadsHaveNoKind, TransfersAreLeft, TransfersJoinInOrder, LastsMayBeStatus};

/// The first accesses of a dialogue that fits make one that fits.
pub fn fronts_fit()
    ensures { FrontsFit }
{}

/// A dialogue fits exactly where it fits without its status reads.
pub fn status_reads_always_fit()
    ensures { StatusReadsAlwaysFit }
{}

/// Leaving status reads out changes no kind.
pub fn status_reads_have_no_kind()
    ensures { StatusReadsHaveNoKind }
{}

/// What is left without status reads are transfers, and transfers alone stay as they are.
pub fn transfers_are_left()
    ensures { TransfersAreLeft }
{}

/// Kinds and transfers of two lists together are those of the one and then those of the other.
pub fn transfers_join_in_order()
    ensures { TransfersJoinInOrder }
{}

/// Only the last access may be a status read exactly where all before it are transfers.
pub fn lasts_may_be_status()
    ensures { LastsMayBeStatus }
{}
