ghost use Rattle.std.specs.Prelude.{◌≡◌, ◌*◌, ◌/◌, ◌<◌, ◌≤◌, ◌^◌, [], ◌∷◌, IfOk, length};
ghost use Rattle.wb_term.specs.Numbers.{cut};
ghost use Rattle.wb_term.specs.Terms.{HasWord};
ghost use Rattle.wb_term.specs.Values.{IsWord, word_value};
ghost use Rattle.wb_term.specs.Growth.{Grown, AddsAtMost};
ghost use Rattle.wb_make.specs.Inputs.{BringsOnly};
ghost use Rattle.wb_known.specs.Stands.{StandsOn};
ghost use Rattle.wb_make.specs.Forms.{WordMeans, IsWordReady, word_form_numbers, word_form_weight};

use crate::forms::{WordForm, make_word};
use wb_known::{
    is_shifted_out_left, is_shifted_out_right, shifted_left, standing_shl, standing_shr,
};
use wb_term::{Graph, OutOfMemory, WordId, WordNode};

/// A word shifted to the left, filled with zeros.
pub fn mk_shl(graph: &mut Graph, x: WordId, m: u8) -> Result<WordId, OutOfMemory>
    requires x { HasWord graph.old x }
    requires count { m < 16 }
    requires room { length graph.old.nodes < 2 ^ 31 }
    ensures value { IfOk result (λ id. IsWord graph.new id (λ inputs. cut (word_value inputs graph.old x * 2 ^ m))) }
    ensures inputs { IfOk result (λ id. BringsOnly graph.old graph.new (x.number ∷ []) id.number) }
    ensures grown { Grown graph.old graph.new }
    ensures adds { AddsAtMost graph.old graph.new 1 0 }
{
    let form = shl_form(graph, x, m);
    make_word(graph, form)
}

/// A word shifted to the right, filled with zeros.
pub fn mk_shr(graph: &mut Graph, x: WordId, m: u8) -> Result<WordId, OutOfMemory>
    requires x { HasWord graph.old x }
    requires count { m < 16 }
    requires room { length graph.old.nodes < 2 ^ 31 }
    ensures value { IfOk result (λ id. IsWord graph.new id (λ inputs. word_value inputs graph.old x / 2 ^ m)) }
    ensures inputs { IfOk result (λ id. BringsOnly graph.old graph.new (x.number ∷ []) id.number) }
    ensures grown { Grown graph.old graph.new }
    ensures adds { AddsAtMost graph.old graph.new 1 0 }
{
    let form = shr_form(graph, x, m);
    make_word(graph, form)
}

/// A word shifted to the left, filled with zeros.
#[tactic(auto, using(crate::proofs::ShiftLaws::shl_laws))]
pub(crate) fn shl_form(graph: &Graph, x: WordId, m: u8) -> WordForm
    requires x { HasWord graph.now x }
    requires count { m < 16 }
    ensures value { WordMeans graph.now result (λ inputs. cut (word_value inputs graph.now x * 2 ^ m)) }
    ensures ready { IsWordReady graph.now result }
    ensures inputs { StandsOn graph.now (x.number ∷ []) (word_form_numbers result) }
    ensures light { word_form_weight result ≤ 0 }
{
    match graph.word_at(x) {
        _ if m == 0 => WordForm::Old(x),
        WordNode::Const(value) => WordForm::New(WordNode::Const(shifted_left(value, m))),
        _ if is_shifted_out_left(graph, x, m) => WordForm::New(WordNode::Const(0)),
        WordNode::Shl(inner, count) if count < 16 - m => WordForm::New(WordNode::Shl(
            inner,
            count + m,
        )),
        _ => match standing_shl(graph, x, m) {
            Some(part) => WordForm::Old(part),
            None => WordForm::New(WordNode::Shl(x, m)),
        },
    }
}

/// A word shifted to the right, filled with zeros.
#[tactic(auto, using(crate::proofs::ShiftLaws::shr_laws))]
pub(crate) fn shr_form(graph: &Graph, x: WordId, m: u8) -> WordForm
    requires x { HasWord graph.now x }
    requires count { m < 16 }
    ensures value { WordMeans graph.now result (λ inputs. word_value inputs graph.now x / 2 ^ m) }
    ensures ready { IsWordReady graph.now result }
    ensures inputs { StandsOn graph.now (x.number ∷ []) (word_form_numbers result) }
    ensures light { word_form_weight result ≤ 0 }
{
    match graph.word_at(x) {
        _ if m == 0 => WordForm::Old(x),
        WordNode::Const(value) => WordForm::New(WordNode::Const(value >> m)),
        _ if is_shifted_out_right(graph, x, m) => WordForm::New(WordNode::Const(0)),
        WordNode::Shr(inner, count) if count < 16 - m => WordForm::New(WordNode::Shr(
            inner,
            count + m,
        )),
        _ => match standing_shr(graph, x, m) {
            Some(part) => WordForm::Old(part),
            None => WordForm::New(WordNode::Shr(x, m)),
        },
    }
}
