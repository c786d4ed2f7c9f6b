//! The host port of the µPD77C25, and what happens between the chip and its host: wait loops, the observer beside the
//! chip, schedules, dialogues, the runs of an eager host, and the points that these pass.
//!
//! Every call is exactly its definition in `specs/`; `specs/Alike.antt` has the headline, `AnswersAlike`, to which
//! the laws of `wb_law` lead. The laws here are functions that do nothing and whose clauses are the theorems: on
//! single instructions and accesses (`laws_single`), and on wait loops and the end of a run (`laws_loops`). `port`
//! has the host's accesses, `accesses`, `runs` and `lists` the types of accesses, ends of runs, replies and kinds,
//! `loops` the words and wait loops, `chips` the observed chip, `talks` and `shapes` dialogues and what fits,
//! `replays` and `trails` the runs and their points, `points` how a point goes on.
#![tactic(auto)]

mod accesses;
mod chips;
mod laws_loops;
mod laws_single;
mod lists;
mod loops;
mod points;
mod port;
mod replays;
mod runs;
mod shapes;
mod talks;
mod trails;

pub use accesses::{Access, Event, Kind, Letter, Power};
pub use chips::{Chip, Monitor};
pub use laws_loops::{
    loops_are_one, loops_are_polls, loops_share_no_address, polls_begin_loops, runs_come_to_an_end,
    worked_loops,
};
pub use laws_single::{
    accesses_raise_nothing, calm_words_commute, calm_words_keep_the_port, gates_are_near,
    gates_are_tests, idle_instructions_move_alone, loops_have_one_gate, only_raising_words_request,
    places_come_nearer, polls_follow_polls, polls_raise_nothing, raising_words_request,
    raising_words_touch, status_reads_change_nothing, tests_are_gates,
};
pub use lists::{Kinds, Replies};
pub use loops::{follow, is_poll, is_test, raises, to_gate, touches};
pub use points::{Point, Points, Shown};
pub use port::{halfway, read, requested, status, write};
pub use replays::{replay, replay_into};
pub use runs::Run;
pub use shapes::Shape;
pub use talks::Dialogue;
pub use trails::points_passed;
pub use wb_word::Side;
