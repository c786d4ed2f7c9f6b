//! What the proofs here take from the crates below.
ghost use Rattle.wb_explore.specs.HeldLaws.{HeldLaws};

use wb_law::{
    equal_ranks_are_one_chip, first_requests_are_fresh, fresh_requests_are_first,
    given_chips_are_one, held_chips_stay_in_pace, held_runs_stop_before_or_after,
    last_access_is_given_at_a_request, last_points_are_passed_after_all,
    other_strides_are_instructions, points_are_passed_after_accesses, points_go_on,
    points_tell_what_comes, ranks_never_fall, ranks_rise, requests_are_on_the_way,
    requests_are_one, resting_chips_stay, shorter_runs_stop_too, stopped_chips_stay,
    strides_add_up, strides_are_one_walk, strides_begin_with_an_instruction,
    striding_chips_stay_in_range,
};

/// The laws on held runs, together.
pub(crate) fn held_laws()
    ensures { HeldLaws }
{
    strides_add_up();
    resting_chips_stay();
    stopped_chips_stay();
    other_strides_are_instructions();
    strides_begin_with_an_instruction();
    strides_are_one_walk();
    ranks_never_fall();
    equal_ranks_are_one_chip();
    held_chips_stay_in_pace();
    ranks_rise();
    last_points_are_passed_after_all();
    points_are_passed_after_accesses();
    points_go_on();
    requests_are_one();
    given_chips_are_one();
    last_access_is_given_at_a_request();
    first_requests_are_fresh();
    fresh_requests_are_first();
    requests_are_on_the_way();
    held_runs_stop_before_or_after();
    shorter_runs_stop_too();
    points_tell_what_comes();
    striding_chips_stay_in_range();
}
