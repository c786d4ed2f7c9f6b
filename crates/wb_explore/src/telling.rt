//! What a layer tells of single dialogues.
ghost use Rattle.wb_explore.specs.Told.{LayersTellOfDialogues};

use crate::facts::held_laws;
use wb_point::{states_show_their_machines, talks_come_back};

/// A layer tells of each dialogue of its kinds whether a request follows it, and what the machine is there.
pub fn layers_tell_of_dialogues()
    ensures { LayersTellOfDialogues }
{
    held_laws();
    states_show_their_machines();
    talks_come_back();
}
