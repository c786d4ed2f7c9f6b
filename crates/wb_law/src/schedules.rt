//! Schedules and what they say, for every image, start and pace.
ghost use Rattle.wb_law.specs.Schedules.{OwnTalkSuffices, ObedientSchedulesAreFaithful, AnsweredRunsAreSchedules, DifferencesRefute, RepliesDecide, RequestsDecide};

use crate::facts::port_facts;

/// An obedient schedule comes to what the eager host comes to, where the held run of its own talk doesn't breach.
pub fn own_talk_suffices()
    ensures { OwnTalkSuffices }
{
    port_facts();
}

/// The law that carries the headline: where no fitting dialogue's held run breaches, every obedient schedule whose talk fits comes to what the eager host comes to, however host and chip interleave.
pub fn obedient_schedules_are_faithful()
    ensures { ObedientSchedulesAreFaithful }
{
    port_facts();
}

/// An eager host is a host: a plain run that is answered is an obedient schedule that says the replies.
pub fn answered_runs_are_schedules()
    ensures { AnsweredRunsAreSchedules }
{}

/// Where two images differ in a fitting dialogue, they don't answer alike.
pub fn differences_refute()
    ensures { DifferencesRefute }
{}

/// Two images answer alike where neither breaches and both give the same replies in each fitting dialogue that both answer.
pub fn replies_decide()
    ensures { RepliesDecide }
{
    port_facts();
}

/// Two images that answer alike at each request answer each dialogue alike, status reads included.
pub fn requests_decide()
    ensures { RequestsDecide }
{}
