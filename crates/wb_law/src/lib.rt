//! The laws on schedules, runs and points of the µPD77C25's host port: why one eager host speaks for all hosts.
//!
//! Each law is a public function that does nothing; its clause is the theorem, and its statement stands in `specs/`
//! over the definitions of `wb_port`. Whoever doubts that two images answer alike reads three pages: `AnswersAlike`
//! in `wb_port`'s `specs/Alike.antt`, which says what is promised; `specs/Schedules.antt` here, which leads from
//! every schedule to the eager host (`ObedientSchedulesAreFaithful`), and from there to replies at single requests
//! (`RepliesDecide`, `RequestsDecide`); and `specs/Runs.antt`, on how the eager host's runs end.
//!
//! - `schedules`: every interleaving of host and chip, and two images.
//! - `runs`: the ends of plain and held runs, by their course (`specs/Course.antt`), access by access.
//! - `requests`: the chips at which accesses are given, and what the observer shows there and at each request.
//! - `strides`: where the strides of a chip lead, and that they lead there in one way.
//! - `points`: held chips, the rank that each instruction raises, the points that a held run passes, and how a point
//!   goes on.
//! - `fits`: which dialogues fit beside one that fits, and what is left without status reads.
//! - `ranges`: a chip is in its ranges, at every moment of every schedule and run.
//! - `classes`: what a held chip does next, and its rank, by its point: the two calls of this crate.
//! - `reached`: how many points the held runs of all fitting dialogues pass.
//! - `waits` and `addresses`: where held runs are answered, and which addresses they execute.
//! - `values`: two laws on any values and numbers.
//! - `counts`: a chip to which events are applied one by one, whose count is held at its greatest number.
//! - `facts`: the laws of `wb_port` that the laws here stand on, together.
#![tactic(auto)]

mod addresses;
#[cfg(test)]
mod class_tests;
mod classes;
mod counts;
mod facts;
mod fits;
mod points;
mod ranges;
mod reached;
mod requests;
mod runs;
mod schedules;
mod strides;
mod values;
mod waits;

pub use addresses::{
    executed_addresses_are_shown, reached_points_show_the_executed, shown_addresses_are_executed,
};
pub use classes::{Class, class_at, points_tell_what_comes, rank_at};
pub use counts::{
    applied_chips_are_held_at_the_greatest_count, applied_chips_follow,
    counts_are_at_most_the_steps, short_schedules_hold_nothing,
};
pub use fits::{
    fronts_fit, lasts_may_be_status, status_reads_always_fit, status_reads_have_no_kind,
    transfers_are_left, transfers_join_in_order,
};
pub use points::{
    held_chips_stay_in_pace, last_points_are_passed_after_all, points_are_passed_after_accesses,
    points_go_on, ranks_are_once, ranks_rise, trails_hold_the_points,
};
pub use ranges::{
    accesses_keep_ranges, moments_are_in_range, runs_keep_ranges, schedules_keep_ranges,
    striding_chips_stay_in_range,
};
pub use reached::{
    bounds_hold_of_each_side, bounds_of_sides_add_up, fitting_dialogues_pass_reached_points,
    greater_bounds_hold, greater_bounds_hold_of_a_side, lists_bound_points_of_a_side,
    lists_bound_reached_points, points_are_reached_on_their_side, status_reads_pass_no_point,
};
pub use requests::{
    first_requests_are_fresh, fresh_requests_are_first, given_chips_are_one,
    last_access_is_given_at_a_request, last_reply_is_given_at_a_request, requests_are_asked,
    requests_are_on_the_way, requests_are_one, status_reads_move_no_request,
};
pub use runs::{
    answered_runs_are_given, held_runs_stop_before_or_after, longer_runs_stop_before,
    runs_follow_their_course, runs_have_one_end, shorter_runs_stop_too, status_reads_stop_nothing,
};
pub use schedules::{
    answered_runs_are_schedules, differences_refute, obedient_schedules_are_faithful,
    own_talk_suffices, replies_decide, requests_decide,
};
pub use strides::{
    chips_rest_or_stop, equal_ranks_are_one_chip, other_strides_are_instructions, ranks_never_fall,
    resting_chips_dont_stop, resting_chips_stay, rests_are_one, stopped_chips_stay, stops_are_one,
    strides_add_up, strides_are_one_walk, strides_begin_with_an_instruction, strides_keep_pace,
};
pub use values::{different_values_are_no_more, least_numbers_exist};
pub use waits::{held_runs_are_answered_at_polls, waits_are_one};
