//! Runs of dialogues by their accesses, for every image, start and pace.
ghost use Rattle.wb_law.specs.Runs.{RunsHaveOneEnd, RunsFollowTheirCourse, AnsweredRunsAreGiven, HeldRunsStopBeforeOrAfter, LongerRunsStopBefore, ShorterRunsStopToo, StatusReadsStopNothing};

/// A run has one end at most.
pub fn runs_have_one_end()
    ensures { RunsHaveOneEnd }
{}

/// A run ends as its course says, access by access: after this no proof counts turns.
pub fn runs_follow_their_course()
    ensures { RunsFollowTheirCourse }
{}

/// A plain run is answered exactly where all of its accesses are given.
pub fn answered_runs_are_given()
    ensures { AnsweredRunsAreGiven }
{}

/// A held run overruns or breaches before its last access, or after it.
pub fn held_runs_stop_before_or_after()
    ensures { HeldRunsStopBeforeOrAfter }
{}

/// With one access more, a run stops before its last access where it stopped before or on the way to a request.
pub fn longer_runs_stop_before()
    ensures { LongerRunsStopBefore }
{}

/// A held run that stops before its last access stops so without this access too.
pub fn shorter_runs_stop_too()
    ensures { ShorterRunsStopToo }
{}

/// Leaving status reads out changes neither an overrun nor a breach of a held run.
pub fn status_reads_stop_nothing()
    ensures { StatusReadsStopNothing }
{}
