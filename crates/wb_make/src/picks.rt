ghost use Rattle.std.specs.Prelude.{◌≡◌, ◌/◌, ◌%◌, ◌<◌, ◌≤◌, ◌^◌, ◌==◌, not, ◌&&◌, ◌||◌, if◌then◌else◌, Bool, [], ◌∷◌, IfOk, length};
ghost use Rattle.std.specs.Bool.{beq};
ghost use Rattle.wb_term.specs.Inputs.{Assignment, IsAssignment};
ghost use Rattle.wb_term.specs.Terms.{HasWord, HasBit};
ghost use Rattle.wb_term.specs.Values.{IsBit, word_value, bit_value};
ghost use Rattle.wb_term.specs.Growth.{Grown, AddsAtMost};
ghost use Rattle.wb_make.specs.Inputs.{BringsOnly};
ghost use Rattle.wb_known.specs.Stands.{StandsOn};
ghost use Rattle.wb_make.specs.Forms.{BitMeans, IsBitReady, bit_form_numbers, bit_form_weight};
ghost use Rattle.wb_term.specs.Terms.{Terms};
ghost use Rattle.wb_term.specs.declared.nodes.Node.{Node};
ghost use Rattle.wb_term.specs.Nodes.{Each};
ghost use Rattle.wb_term.specs.Under.{HasOnly};

use crate::bits::notb_form;
use crate::forms::{BitForm, make_bit};
use wb_known::{Source, bit_source};
use wb_term::{BitId, BitNode, Graph, OutOfMemory, WordId, WordNode};

/// A bit of a word, counted from the low end.
pub fn mk_pick(graph: &mut Graph, x: WordId, m: u8) -> Result<BitId, OutOfMemory>
    requires x { HasWord graph.old x }
    requires place { m < 16 }
    requires room { length graph.old.nodes < 2 ^ 31 }
    ensures value { IfOk result (λ id. IsBit graph.new id (λ inputs. word_value inputs graph.old x / 2 ^ m % 2 == 1)) }
    ensures inputs { IfOk result (λ id. BringsOnly graph.old graph.new (x.number ∷ []) id.number) }
    ensures grown { Grown graph.old graph.new }
    ensures adds { AddsAtMost graph.old graph.new 1 0 }
{
    let form = pick_form(graph, x, m);
    make_bit(graph, form)
}

/// A bit of a word, counted from the low end.
pub(crate) fn pick_form(graph: &Graph, x: WordId, m: u8) -> BitForm
    requires x { HasWord graph.now x }
    requires count { m < 16 }
    ensures value { BitMeans graph.now result (λ inputs. word_value inputs graph.now x / 2 ^ m % 2 == 1) }
    ensures ready { IsBitReady graph.now result }
    ensures inputs { StandsOn graph.now (x.number ∷ []) (bit_form_numbers result) }
    ensures light { bit_form_weight result ≤ 0 }
{
    match bit_source(graph, x, m) {
        Source::Fixed(value) => BitForm::New(BitNode::Known(value)),
        Source::Place(word, place, false) => BitForm::New(BitNode::Pick(word, place)),
        Source::Place(word, place, true) => match graph.find_bit(BitNode::Pick(word, place)) {
            Some(bit) => notb_form(graph, bit),
            None => BitForm::New(BitNode::Pick(x, m)),
        },
        Source::Condition(c, false) => BitForm::Old(c),
        Source::Condition(c, true) => notb_form(graph, c),
    }
}
