//! What the laws take from the crate below.
ghost use Rattle.wb_law.specs.PortFacts.{PortFacts};

use wb_port::{
    accesses_raise_nothing, calm_words_commute, calm_words_keep_the_port, gates_are_near,
    idle_instructions_move_alone, loops_have_one_gate, only_raising_words_request,
    places_come_nearer, polls_follow_polls, polls_raise_nothing, raising_words_request,
    raising_words_touch, tests_are_gates,
};

/// The laws of the port on single instructions and accesses, together.
pub(crate) fn port_facts()
    ensures { PortFacts }
{
    calm_words_commute();
    calm_words_keep_the_port();
    only_raising_words_request();
    raising_words_request();
    raising_words_touch();
    polls_raise_nothing();
    polls_follow_polls();
    gates_are_near();
    places_come_nearer();
    tests_are_gates();
    loops_have_one_gate();
    idle_instructions_move_alone();
    accesses_raise_nothing();
}
