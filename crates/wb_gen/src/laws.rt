//! What is true of the demo pair of every body.
ghost use Rattle.wb_gen.specs.Laws.{NumbersHaveBodies, PairsReachFewPoints, PairsKeepGoing, PairsSayTheSame};

use wb_law::{
    bounds_of_sides_add_up, fronts_fit, held_runs_stop_before_or_after,
    lists_bound_points_of_a_side, points_are_passed_after_accesses, replies_decide,
    requests_decide,
};
use wb_port::{calm_words_keep_the_port, raising_words_touch};
use wb_word::coding_laws;

/// The body of every number is a body: 64 words that compute and move between the registers of `body_sources` and
/// `body_targets`, so that none jumps, touches the port or changes DP or RP.
pub fn numbers_have_bodies()
    ensures { NumbersHaveBodies }
{
    coding_laws();
}

/// At most 283 points are reached on the first side and at most 411 on the second, with either power.
pub fn pairs_reach_few_points()
    ensures { PairsReachFewPoints }
{
    calm_words_keep_the_port();
    raising_words_touch();
    fronts_fit();
    points_are_passed_after_accesses();
    lists_bound_points_of_a_side();
    bounds_of_sides_add_up();
}

/// No fitting dialogue's held run breaches or overruns on either side.
pub fn pairs_keep_going()
    ensures { PairsKeepGoing }
{
    calm_words_keep_the_port();
    raising_words_touch();
    held_runs_stop_before_or_after();
}

/// No fitting dialogue differs, and two hosts that hold the same fitting talk hear the same.
pub fn pairs_say_the_same()
    ensures { PairsSayTheSame }
{
    calm_words_keep_the_port();
    raising_words_touch();
    held_runs_stop_before_or_after();
    requests_decide();
    replies_decide();
}
