//! What is true of every trace.
ghost use Rattle.wb_trace.specs.Laws.{TracesFollowTheirMoves, UndosGiveBack};
ghost use Rattle.wb_trace.specs.Moves.{EachTextHasOneAnswer};

use wb_law::applied_chips_follow;

/// After any moves the two chips, and the pairs that can be taken back to, are those of the moves that stand.
pub fn traces_follow_their_moves()
    ensures { TracesFollowTheirMoves }
{
    applied_chips_follow();
}

/// Steps and transfers that are all taken back leave both chips as they were.
pub fn undos_give_back()
    ensures { UndosGiveBack }
{}

/// Every text is a moves file or has a first bad line, and never both.
pub fn each_text_has_one_answer()
    ensures { EachTextHasOneAnswer }
{}
