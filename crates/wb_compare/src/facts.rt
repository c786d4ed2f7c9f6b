//! What the proofs here take from the crates below.
ghost use Rattle.wb_compare.specs.Laws.{RunLaws};

use wb_law::{
    first_requests_are_fresh, fronts_fit, held_runs_stop_before_or_after,
    last_access_is_given_at_a_request, last_points_are_passed_after_all,
    last_reply_is_given_at_a_request, lists_bound_reached_points, obedient_schedules_are_faithful,
    points_are_passed_after_accesses, replies_decide, requests_are_on_the_way, requests_decide,
    runs_follow_their_course, shorter_runs_stop_too, status_reads_always_fit,
    status_reads_stop_nothing, transfers_are_left, transfers_join_in_order,
};
use wb_point::{dialogues_are_of_their_kinds, dialogues_grow_at_the_end, talks_come_back};

/// The laws on runs and dialogues, together.
pub(crate) fn run_laws()
    ensures { RunLaws }
{
    fronts_fit();
    status_reads_always_fit();
    transfers_are_left();
    transfers_join_in_order();
    runs_follow_their_course();
    held_runs_stop_before_or_after();
    shorter_runs_stop_too();
    status_reads_stop_nothing();
    last_access_is_given_at_a_request();
    last_reply_is_given_at_a_request();
    requests_are_on_the_way();
    first_requests_are_fresh();
    points_are_passed_after_accesses();
    last_points_are_passed_after_all();
    obedient_schedules_are_faithful();
    replies_decide();
    requests_decide();
    lists_bound_reached_points();
    talks_come_back();
    dialogues_are_of_their_kinds();
    dialogues_grow_at_the_end();
}
