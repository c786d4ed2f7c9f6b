//! What holds of all states, of all dialogues under inputs and of all questions.
ghost use Rattle.wb_point.specs.Laws.{StatesShowTheirMachines, TalksComeBack, DialoguesAreOfTheirKinds, DialoguesGrowAtTheEnd, NormalisedInputsKeepTheDialogue, NormalisedInputsDecide, NormalisedInputsGiveTheValues, BitsSayQuestions};

use wb_term::values_agree;

/// What a state shows is what each machine shows for which it stands.
pub fn states_show_their_machines()
    ensures { StatesShowTheirMachines }
{}

/// A dialogue of data transfers with an allowed start is that of its kinds under its own inputs.
pub fn talks_come_back()
    ensures { TalksComeBack }
{}

/// A dialogue under inputs has its kinds, no status read, an allowed start, and bytes and words alone.
pub fn dialogues_are_of_their_kinds()
    ensures { DialoguesAreOfTheirKinds }
{}

/// With one kind more, a dialogue under inputs has one transfer more, at the place after the others.
pub fn dialogues_grow_at_the_end()
    ensures { DialoguesGrowAtTheEnd }
{}

/// Normalised inputs keep the dialogue; what it doesn't use is 0.
pub fn normalised_inputs_keep_the_dialogue()
    ensures { NormalisedInputsKeepTheDialogue }
{}

/// Whether a question holds depends on the normalised inputs alone.
pub fn normalised_inputs_decide()
    ensures { NormalisedInputsDecide }
{}

/// Normalised inputs give each node the value that the inputs gave it, where only input nodes that dialogues of the kinds use stand under it.
pub fn normalised_inputs_give_the_values()
    ensures { NormalisedInputsGiveTheValues }
{
    values_agree();
}

/// A formula of a bit says a question where the bit is true exactly where the question holds.
pub fn bits_say_questions()
    ensures { BitsSayQuestions }
{}
