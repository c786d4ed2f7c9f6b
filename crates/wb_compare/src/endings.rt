//! How a comparison ends before every dialogue was followed.
ghost use Rattle.std.specs.Prelude.{◌≡◌};
ghost use Rattle.wb_compare.specs.Endings.{ended_by, ended_by_asking};

use crate::verdicts::{CompareFault, Spent, Verdict};
use std::alloc::AllocFailed;
use wb_explore::{Asked, ExploreFault};
use wb_point::Query;
use wb_query::AskFault;
use wb_word::{OutOfMemory, Side};

/// A verdict before the end, or a cause why there is none.
#[derive(Drop)]
pub(crate) enum Ended {
    Shown(Verdict),
    Failed(CompareFault),
}

impl From<OutOfMemory> for Ended {
    ghost use Rattle.std.specs.Prelude.{◌≡◌};
    ghost use Rattle.wb_compare.specs.declared.endings.Ended.TheVariants as ended;
    ghost use Rattle.wb_compare.specs.declared.verdicts.CompareFault.TheVariants as fault;

    ghost from_gives = { λ _ e. e ≡ ended.Failed fault.OutOfMemory };

    fn from(_: OutOfMemory) -> Self {
        Ended::Failed(CompareFault::OutOfMemory)
    }
}

impl<T: Drop> From<AllocFailed<T>> for Ended {
    ghost use Rattle.std.specs.Prelude.{◌≡◌};
    ghost use Rattle.wb_compare.specs.declared.endings.Ended.TheVariants as ended;
    ghost use Rattle.wb_compare.specs.declared.verdicts.CompareFault.TheVariants as fault;

    ghost from_gives = { λ _ e. e ≡ ended.Failed fault.OutOfMemory };

    fn from(_: AllocFailed<T>) -> Self {
        Ended::Failed(CompareFault::OutOfMemory)
    }
}

/// What an exploration's fault on this side comes to.
pub(crate) fn ending_of(side: Side, fault: ExploreFault) -> Ended
    ensures { result ≡ ended_by side fault }
{
    match fault {
        ExploreFault::Breach(dialogue, at) => { Ended::Shown(Verdict::Breach(side, dialogue, at)) }
        ExploreFault::Points(list) => Ended::Shown(Verdict::Unknown(Spent::Points(list))),
        ExploreFault::Conflicts(asked, steps) => {
            Ended::Shown(Verdict::Unknown(Spent::Conflicts(asked, steps)))
        }
        ExploreFault::BadAnswer(asked, answer) => {
            Ended::Failed(CompareFault::BadAnswer(asked, answer))
        }
        ExploreFault::OutOfMemory => Ended::Failed(CompareFault::OutOfMemory),
    }
}

/// What a fault of asking this question comes to.
pub(crate) fn asked_ending(query: Query, fault: AskFault) -> Ended
    ensures { result ≡ ended_by_asking query fault }
{
    match fault {
        AskFault::Spent(blasted, steps) => {
            let asked = Asked { query, blasted };
            Ended::Shown(Verdict::Unknown(Spent::Conflicts(asked, steps)))
        }
        AskFault::BadAnswer(blasted, answer) => {
            Ended::Failed(CompareFault::BadAnswer(Asked { query, blasted }, answer))
        }
        AskFault::OutOfMemory => Ended::Failed(CompareFault::OutOfMemory),
    }
}
