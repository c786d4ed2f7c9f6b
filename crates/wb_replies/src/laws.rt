//! What holds of all circuits of replies.
ghost use Rattle.wb_replies.specs.Laws.{CircuitsStay, DifferencesAreOfReplies, DifferencesAreShown, DifferencesSayQuestions};

use wb_law::{answered_runs_are_given, last_reply_is_given_at_a_request};

/// Growth of the graph leaves every circuit as it is.
pub fn circuits_stay()
    ensures { CircuitsStay }
{}

/// Two circuits are told apart where both runs come to a first request and a reply there differs.
pub fn differences_are_of_replies()
    ensures { DifferencesAreOfReplies }
{}

/// Two circuits for the same dialogues are told apart where the question about the replies holds.
pub fn differences_are_shown()
    ensures { DifferencesAreShown }
{
    answered_runs_are_given();
    last_reply_is_given_at_a_request();
}

/// The bit of the difference of two circuits says the question about the replies.
pub fn differences_say_questions()
    ensures { DifferencesSayQuestions }
{
    differences_are_shown();
}
