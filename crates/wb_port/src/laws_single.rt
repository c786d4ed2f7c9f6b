//! What one instruction, or one access, does to the host port, for every image and state.
//! Each law is the contract of a function that does nothing.
ghost use Rattle.wb_port.specs.Facts.{CalmWordsCommute, CalmWordsKeepThePort, OnlyRaisingWordsRequest, RaisingWordsRequest, RaisingWordsTouch, PollsRaiseNothing, PollsFollowPolls, GatesAreNear, PlacesComeNearer, TestsAreGates, GatesAreTests, LoopsHaveOneGate, IdleInstructionsMoveAlone, StatusReadsChangeNothing, AccessesRaiseNothing};

/// A word that doesn't touch the port can be executed before or after any access.
pub fn calm_words_commute()
    ensures { CalmWordsCommute }
{}

/// A word that doesn't touch the port leaves DR and the status register as they are.
pub fn calm_words_keep_the_port()
    ensures { CalmWordsKeepThePort }
{}

/// Only a word that raises a request sets RQM.
pub fn only_raising_words_request()
    ensures { OnlyRaisingWordsRequest }
{}

/// A word that raises a request sets RQM, whatever stood before.
pub fn raising_words_request()
    ensures { RaisingWordsRequest }
{}

/// A word that raises a request touches the port.
pub fn raising_words_touch()
    ensures { RaisingWordsTouch }
{}

/// The word of a poll raises no request.
pub fn polls_raise_nothing()
    ensures { PollsRaiseNothing }
{}

/// What follows a poll is a poll.
pub fn polls_follow_polls()
    ensures { PollsFollowPolls }
{}

/// The test of a poll's loop is fewer than eight words away.
pub fn gates_are_near()
    ensures { GatesAreNear }
{}

/// A place of a loop that isn't its test is one word farther from the test than the place after it.
pub fn places_come_nearer()
    ensures { PlacesComeNearer }
{}

/// Where the word is a test, the test is no word away.
pub fn tests_are_gates()
    ensures { TestsAreGates }
{}

/// The gate of a poll is the test of its loop.
pub fn gates_are_tests()
    ensures { GatesAreTests }
{}

/// All places of a loop have the same gate.
pub fn loops_have_one_gate()
    ensures { LoopsHaveOneGate }
{}

/// An idle instruction moves the chip to the next place of its loop, and changes nothing else.
pub fn idle_instructions_move_alone()
    ensures { IdleInstructionsMoveAlone }
{}

/// A status read changes nothing.
pub fn status_reads_change_nothing()
    ensures { StatusReadsChangeNothing }
{}

/// No access sets RQM.
pub fn accesses_raise_nothing()
    ensures { AccessesRaiseNothing }
{}
