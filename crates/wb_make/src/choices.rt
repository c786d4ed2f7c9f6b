ghost use Rattle.std.specs.Prelude.{◌≡◌, ◌<◌, ◌≤◌, ◌^◌, if◌then◌else◌, [], ◌∷◌, IfOk, length};
ghost use Rattle.wb_term.specs.Inputs.{Assignment, IsAssignment};
ghost use Rattle.wb_term.specs.Terms.{HasWord, HasBit};
ghost use Rattle.wb_term.specs.Values.{IsWord, word_value, bit_value};
ghost use Rattle.wb_term.specs.Growth.{Grown, AddsAtMost};
ghost use Rattle.wb_make.specs.Inputs.{BringsOnly};
ghost use Rattle.wb_known.specs.Stands.{StandsOn};
ghost use Rattle.wb_make.specs.Forms.{WordMeans, IsWordReady, word_form_numbers, word_form_weight};

use crate::forms::{WordForm, make_word};
use wb_term::{BitId, BitNode, Graph, OutOfMemory, WordId, WordNode};

/// The first word where the bit is set, else the second.
pub fn mk_ite(graph: &mut Graph, c: BitId, x: WordId, y: WordId) -> Result<WordId, OutOfMemory>
    requires c { HasBit graph.old c }
    requires x { HasWord graph.old x }
    requires y { HasWord graph.old y }
    requires room { length graph.old.nodes < 2 ^ 31 }
    ensures value { IfOk result (λ id. IsWord graph.new id
        (λ inputs. if bit_value inputs graph.old c then word_value inputs graph.old x else word_value inputs graph.old y)) }
    ensures inputs { IfOk result (λ id. BringsOnly graph.old graph.new (c.number ∷ x.number ∷ y.number ∷ []) id.number) }
    ensures grown { Grown graph.old graph.new }
    ensures adds { AddsAtMost graph.old graph.new 1 16 }
{
    let form = ite_form(graph, c, x, y);
    make_word(graph, form)
}

/// The first word where the bit is set, else the second.
fn ite_form(graph: &Graph, c: BitId, x: WordId, y: WordId) -> WordForm
    requires c { HasBit graph.now c }
    requires x { HasWord graph.now x }
    requires y { HasWord graph.now y }
    ensures value { WordMeans graph.now result (λ inputs. if bit_value inputs graph.now c then word_value inputs graph.now x else word_value inputs graph.now y) }
    ensures ready { IsWordReady graph.now result }
    ensures inputs { StandsOn graph.now (c.number ∷ x.number ∷ y.number ∷ []) (word_form_numbers result) }
    ensures light { word_form_weight result ≤ 16 }
{
    match graph.bit_at(c) {
        BitNode::Known(true) => WordForm::Old(x),
        BitNode::Known(false) => WordForm::Old(y),
        BitNode::NotB(inner) => chosen(graph, inner, y, x),
        _ => chosen(graph, c, x, y),
    }
}

/// The choice by a bit that isn't known.
fn chosen(graph: &Graph, c: BitId, x: WordId, y: WordId) -> WordForm
    requires c { HasBit graph.now c }
    requires x { HasWord graph.now x }
    requires y { HasWord graph.now y }
    ensures value { WordMeans graph.now result (λ inputs. if bit_value inputs graph.now c then word_value inputs graph.now x else word_value inputs graph.now y) }
    ensures ready { IsWordReady graph.now result }
    ensures inputs { StandsOn graph.now (c.number ∷ x.number ∷ y.number ∷ []) (word_form_numbers result) }
    ensures light { word_form_weight result ≤ 16 }
{
    let x = arm(graph, c, true, x);
    let y = arm(graph, c, false, y);
    if x == y {
        WordForm::Old(x)
    } else {
        WordForm::New(WordNode::Ite(c, x, y))
    }
}

/// What a word is where a bit has a value: the arm of it, where it is a choice by that bit.
fn arm(graph: &Graph, c: BitId, set: bool, x: WordId) -> WordId
    requires c { HasBit graph.now c }
    requires x { HasWord graph.now x }
    ensures there { HasWord graph.now result }
    ensures value { (inputs : Assignment) → IsAssignment inputs → bit_value inputs graph.now c ≡ set →
        word_value inputs graph.now result ≡ word_value inputs graph.now x }
    ensures inputs { StandsOn graph.now (x.number ∷ []) (result.number ∷ []) }
{
    match graph.word_at(x) {
        WordNode::Ite(d, a, _) if d == c && set => a,
        WordNode::Ite(d, _, b) if d == c && !set => b,
        _ => x,
    }
}
