ghost use Rattle.std.specs.Prelude.{◌<◌, ◌^◌, IfOk, length};
ghost use Rattle.wb_term.specs.Values.{IsWord, IsBit};
ghost use Rattle.wb_term.specs.Growth.{Grown, AddsAtMost};
ghost use Rattle.wb_make.specs.Inputs.{BringsOnly};
ghost use Rattle.wb_make.specs.Forms.{word_form_value, bit_form_value, word_form_numbers, bit_form_numbers, word_form_weight, bit_form_weight, IsWordReady, IsBitReady};

use wb_term::{BitId, BitNode, Graph, OutOfMemory, WordId, WordNode};

/// What a constructor of words decides on.
#[derive(Clone, Copy)]
pub(crate) enum WordForm {
    Old(WordId),
    New(WordNode),
}

/// What a constructor of bits decides on.
#[derive(Clone, Copy)]
pub(crate) enum BitForm {
    Old(BitId),
    New(BitNode),
}

/// The number of the node that was decided on.
pub(crate) fn make_word(graph: &mut Graph, form: WordForm) -> Result<WordId, OutOfMemory>
    requires ready { IsWordReady graph.old form }
    requires room { length graph.old.nodes < 2 ^ 31 }
    ensures value { IfOk result (λ id. IsWord graph.new id (λ inputs. word_form_value inputs graph.old form)) }
    ensures inputs { IfOk result (λ id. BringsOnly graph.old graph.new (word_form_numbers form) id.number) }
    ensures grown { Grown graph.old graph.new }
    ensures adds { AddsAtMost graph.old graph.new 1 (word_form_weight form) }
{
    match form {
        WordForm::Old(id) => Ok(id),
        WordForm::New(node) => graph.word(node),
    }
}

/// The number of the node that was decided on.
pub(crate) fn make_bit(graph: &mut Graph, form: BitForm) -> Result<BitId, OutOfMemory>
    requires ready { IsBitReady graph.old form }
    requires room { length graph.old.nodes < 2 ^ 31 }
    ensures value { IfOk result (λ id. IsBit graph.new id (λ inputs. bit_form_value inputs graph.old form)) }
    ensures inputs { IfOk result (λ id. BringsOnly graph.old graph.new (bit_form_numbers form) id.number) }
    ensures grown { Grown graph.old graph.new }
    ensures adds { AddsAtMost graph.old graph.new 1 (bit_form_weight form) }
{
    match form {
        BitForm::Old(id) => Ok(id),
        BitForm::New(node) => graph.bit(node),
    }
}
