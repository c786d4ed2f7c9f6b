//! What follows from the answers of calls.
ghost use Rattle.wb_cli.specs.Complete.{BudgetsSuffice, DoneWorkIsExpected, ValidCallsAreDone};
ghost use Rattle.wb_cli.specs.Counts.{CountsTellFaults};
ghost use Rattle.wb_cli.specs.Demo.{DemosKeepPace};
ghost use Rattle.wb_cli.specs.Once.{OneAnswer};
ghost use Rattle.wb_cli.specs.Told.{ComparisonsTell};

use wb_asm::each_source_has_one_answer;
use wb_gen::{numbers_have_bodies, pairs_keep_going, pairs_reach_few_points, pairs_say_the_same};
use wb_report::verdicts_have_one_text;
use wb_rom::files_pair_with_images;
use wb_script::each_text_has_one_answer;
use wb_session::each_script_has_one_transcript;
use wb_trace::each_text_has_one_answer as each_moves_file_has_one_answer;

/// A valid call without a fault does its work, and ends with a status of its command, or is refused memory.
pub fn valid_calls_get_through()
    ensures done { ValidCallsAreDone }
    ensures expected { DoneWorkIsExpected }
{
    each_text_has_one_answer();
    each_moves_file_has_one_answer();
    each_source_has_one_answer();
    files_pair_with_images();
    numbers_have_bodies();
    pairs_reach_few_points();
    pairs_keep_going();
    pairs_say_the_same();
}

/// A comparison isn't left open whose budget suffices.
pub fn budgets_suffice()
    ensures { BudgetsSuffice }
{}

/// The status of a comparison tells of the images in its files whether they answer alike.
pub fn comparisons_tell()
    ensures { ComparisonsTell }
{}

/// Every demo prints that its pair answers alike and keeps the pace, but for faults of the sink and want of memory.
pub fn demos_keep_pace()
    ensures { DemosKeepPace }
{
    numbers_have_bodies();
    pairs_reach_few_points();
    pairs_keep_going();
    pairs_say_the_same();
}

/// The words and the contents of the files decide the status and the text, but for faults and want of memory. Only a
/// comparison may tell one of several differences.
pub fn calls_have_one_answer()
    ensures { OneAnswer }
{
    each_text_has_one_answer();
    each_moves_file_has_one_answer();
    each_source_has_one_answer();
    files_pair_with_images();
    each_script_has_one_transcript();
    verdicts_have_one_text();
}

/// A count of faults rises only where its fault is answered: the shelf's at a read fault, or where that report wasn't
/// written whole or had no memory; the sink's at a write fault.
pub fn counts_tell_faults()
    ensures { CountsTellFaults }
{}
