ghost use Rattle.std.specs.Prelude.{◌≡◌, ◌-◌, ◌<◌, ◌≤◌, ◌^◌, bit_and, bit_or, bit_xor, [], ◌∷◌, IfOk, length};
ghost use Rattle.wb_term.specs.Terms.{HasWord};
ghost use Rattle.wb_term.specs.Values.{IsWord, word_value};
ghost use Rattle.wb_term.specs.Growth.{Grown, AddsAtMost};
ghost use Rattle.wb_make.specs.Inputs.{BringsOnly};
ghost use Rattle.wb_known.specs.Stands.{StandsOn};
ghost use Rattle.wb_make.specs.Forms.{WordMeans, IsWordReady, word_form_numbers, word_form_weight};

use crate::conjunctions::and_form;
use crate::disjunctions::{or_form, xor_form};
use crate::forms::{WordForm, make_word};
use wb_term::{Graph, OutOfMemory, WordId, WordNode};

/// Each bit of a word turned over.
pub fn mk_not(graph: &mut Graph, x: WordId) -> Result<WordId, OutOfMemory>
    requires x { HasWord graph.old x }
    requires room { length graph.old.nodes < 2 ^ 31 }
    ensures value { IfOk result (λ id. IsWord graph.new id (λ inputs. 65535 - word_value inputs graph.old x)) }
    ensures inputs { IfOk result (λ id. BringsOnly graph.old graph.new (x.number ∷ []) id.number) }
    ensures grown { Grown graph.old graph.new }
    ensures adds { AddsAtMost graph.old graph.new 1 0 }
{
    let form = not_form(graph, x);
    make_word(graph, form)
}

/// The bits that two words share.
pub fn mk_and(graph: &mut Graph, x: WordId, y: WordId) -> Result<WordId, OutOfMemory>
    requires x { HasWord graph.old x }
    requires y { HasWord graph.old y }
    requires room { length graph.old.nodes < 2 ^ 31 }
    ensures value { IfOk result (λ id. IsWord graph.new id
        (λ inputs. bit_and (word_value inputs graph.old x) (word_value inputs graph.old y))) }
    ensures inputs { IfOk result (λ id. BringsOnly graph.old graph.new (x.number ∷ y.number ∷ []) id.number) }
    ensures grown { Grown graph.old graph.new }
    ensures adds { AddsAtMost graph.old graph.new 1 16 }
{
    let form = and_form(graph, x, y);
    make_word(graph, form)
}

/// The bits that one of two words has.
pub fn mk_or(graph: &mut Graph, x: WordId, y: WordId) -> Result<WordId, OutOfMemory>
    requires x { HasWord graph.old x }
    requires y { HasWord graph.old y }
    requires room { length graph.old.nodes < 2 ^ 31 }
    ensures value { IfOk result (λ id. IsWord graph.new id
        (λ inputs. bit_or (word_value inputs graph.old x) (word_value inputs graph.old y))) }
    ensures inputs { IfOk result (λ id. BringsOnly graph.old graph.new (x.number ∷ y.number ∷ []) id.number) }
    ensures grown { Grown graph.old graph.new }
    ensures adds { AddsAtMost graph.old graph.new 1 16 }
{
    let form = or_form(graph, x, y);
    make_word(graph, form)
}

/// The bits in which two words differ.
pub fn mk_xor(graph: &mut Graph, x: WordId, y: WordId) -> Result<WordId, OutOfMemory>
    requires x { HasWord graph.old x }
    requires y { HasWord graph.old y }
    requires room { length graph.old.nodes < 2 ^ 31 }
    ensures value { IfOk result (λ id. IsWord graph.new id
        (λ inputs. bit_xor (word_value inputs graph.old x) (word_value inputs graph.old y))) }
    ensures inputs { IfOk result (λ id. BringsOnly graph.old graph.new (x.number ∷ y.number ∷ []) id.number) }
    ensures grown { Grown graph.old graph.new }
    ensures adds { AddsAtMost graph.old graph.new 1 16 }
{
    let form = xor_form(graph, x, y);
    make_word(graph, form)
}

/// Each bit of a word turned over.
pub(crate) fn not_form(graph: &Graph, x: WordId) -> WordForm
    requires x { HasWord graph.now x }
    ensures value { WordMeans graph.now result (λ inputs. 65535 - word_value inputs graph.now x) }
    ensures ready { IsWordReady graph.now result }
    ensures inputs { StandsOn graph.now (x.number ∷ []) (word_form_numbers result) }
    ensures light { word_form_weight result ≡ 0 }
{
    match graph.word_at(x) {
        WordNode::Const(value) => WordForm::New(WordNode::Const(!value)),
        WordNode::Not(inner) => WordForm::Old(inner),
        _ => WordForm::New(WordNode::Not(x)),
    }
}
