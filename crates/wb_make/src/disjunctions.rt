ghost use Rattle.std.specs.Prelude.{◌≡◌, ◌-◌, ◌≤◌, true, bit_and, bit_or, bit_xor, [], ◌∷◌, IfSome};
ghost use Rattle.wb_term.specs.Inputs.{Assignment, IsAssignment};
ghost use Rattle.wb_term.specs.Terms.{HasWord};
ghost use Rattle.wb_term.specs.Values.{word_value};
ghost use Rattle.wb_known.specs.Stands.{StandsOn};
ghost use Rattle.wb_make.specs.Forms.{WordMeans, IsWordReady, word_form_numbers, word_form_weight};

use crate::conjunctions::kept_part;
use crate::forms::WordForm;
use crate::words::not_form;
use wb_known::{are_apart, are_opposite, is_kept, is_part, mask_of};
use wb_term::{Graph, WordId, WordNode};

/// The bits that one of two words has.
#[tactic(auto, using(crate::proofs::WordLaws::or_laws))]
pub(crate) fn or_form(graph: &Graph, x: WordId, y: WordId) -> WordForm
    requires x { HasWord graph.now x }
    requires y { HasWord graph.now y }
    ensures value { WordMeans graph.now result (λ inputs. bit_or (word_value inputs graph.now x) (word_value inputs graph.now y)) }
    ensures ready { IsWordReady graph.now result }
    ensures inputs { StandsOn graph.now (x.number ∷ y.number ∷ []) (word_form_numbers result) }
    ensures light { word_form_weight result ≤ 16 }
{
    match (graph.word_at(x), graph.word_at(y)) {
        (WordNode::Const(a), WordNode::Const(b)) => WordForm::New(WordNode::Const(a | b)),
        (WordNode::Const(0), _) => WordForm::Old(y),
        (_, WordNode::Const(0)) => WordForm::Old(x),
        (_, WordNode::Const(mask)) if is_kept(graph, x, mask) => WordForm::Old(y),
        (WordNode::Const(mask), _) if is_kept(graph, y, mask) => WordForm::Old(x),
        _ => joined(graph, x, y),
    }
}

/// The bits that one of two words has, as their nodes tell it.
#[tactic(auto, using(crate::proofs::WordLaws::or_laws))]
fn joined(graph: &Graph, x: WordId, y: WordId) -> WordForm
    requires x { HasWord graph.now x }
    requires y { HasWord graph.now y }
    ensures value { WordMeans graph.now result (λ inputs. bit_or (word_value inputs graph.now x) (word_value inputs graph.now y)) }
    ensures ready { IsWordReady graph.now result }
    ensures inputs { StandsOn graph.now (x.number ∷ y.number ∷ []) (word_form_numbers result) }
    ensures light { word_form_weight result ≤ 16 }
{
    if is_part(graph, x, y) {
        return WordForm::Old(y);
    }
    if is_part(graph, y, x) {
        return WordForm::Old(x);
    }
    if are_opposite(graph, x, y) {
        return WordForm::New(WordNode::Const(0xFFFF));
    }
    match two_parts(graph, x, y) {
        Some(form) => form,
        None => ordered_or(graph, x, y),
    }
}

/// Two parts of one word, put together.
#[tactic(auto, using(crate::proofs::MaskLaws::two_masks))]
fn two_parts(graph: &Graph, x: WordId, y: WordId) -> Option<WordForm>
    requires x { HasWord graph.now x }
    requires y { HasWord graph.now y }
    ensures value { IfSome result (λ form. WordMeans graph.now form
        (λ inputs. bit_or (word_value inputs graph.now x) (word_value inputs graph.now y))) }
    ensures ready { IfSome result (λ form. IsWordReady graph.now form) }
    ensures inputs { IfSome result (λ form. StandsOn graph.now (x.number ∷ y.number ∷ []) (word_form_numbers form)) }
    ensures light { IfSome result (λ form. word_form_weight form ≤ 16) }
{
    let a = mask_of(graph, x);
    let b = mask_of(graph, y);
    if a.word == b.word {
        kept_part(graph, a.word, a.mask | b.mask)
    } else {
        None
    }
}

/// The node of two words in order of number.
#[tactic(auto, using(crate::proofs::WordLaws::or_comm))]
fn ordered_or(graph: &Graph, x: WordId, y: WordId) -> WordForm
    requires x { HasWord graph.now x }
    requires y { HasWord graph.now y }
    ensures value { WordMeans graph.now result (λ inputs. bit_or (word_value inputs graph.now x) (word_value inputs graph.now y)) }
    ensures ready { IsWordReady graph.now result }
    ensures inputs { StandsOn graph.now (x.number ∷ y.number ∷ []) (word_form_numbers result) }
    ensures light { word_form_weight result ≤ 16 }
{
    if y.number() < x.number() {
        WordForm::New(WordNode::Or(y, x))
    } else {
        WordForm::New(WordNode::Or(x, y))
    }
}

/// The bits in which two words differ.
#[tactic(auto, using(crate::proofs::WordLaws::xor_laws))]
pub(crate) fn xor_form(graph: &Graph, x: WordId, y: WordId) -> WordForm
    requires x { HasWord graph.now x }
    requires y { HasWord graph.now y }
    ensures value { WordMeans graph.now result (λ inputs. bit_xor (word_value inputs graph.now x) (word_value inputs graph.now y)) }
    ensures ready { IsWordReady graph.now result }
    ensures inputs { StandsOn graph.now (x.number ∷ y.number ∷ []) (word_form_numbers result) }
    ensures light { word_form_weight result ≤ 16 }
{
    match (graph.word_at(x), graph.word_at(y)) {
        (WordNode::Const(a), WordNode::Const(b)) => WordForm::New(WordNode::Const(a ^ b)),
        (WordNode::Const(0), _) => WordForm::Old(y),
        (_, WordNode::Const(0)) => WordForm::Old(x),
        (WordNode::Const(0xFFFF), _) => not_form(graph, y),
        (_, WordNode::Const(0xFFFF)) => not_form(graph, x),
        _ => differing(graph, x, y),
    }
}

/// The bits in which two words differ, as their nodes tell it.
#[tactic(auto, using(crate::proofs::WordLaws::xor_laws))]
fn differing(graph: &Graph, x: WordId, y: WordId) -> WordForm
    requires x { HasWord graph.now x }
    requires y { HasWord graph.now y }
    ensures value { WordMeans graph.now result (λ inputs. bit_xor (word_value inputs graph.now x) (word_value inputs graph.now y)) }
    ensures ready { IsWordReady graph.now result }
    ensures inputs { StandsOn graph.now (x.number ∷ y.number ∷ []) (word_form_numbers result) }
    ensures light { word_form_weight result ≤ 16 }
{
    if x == y {
        return WordForm::New(WordNode::Const(0));
    }
    if are_opposite(graph, x, y) {
        return WordForm::New(WordNode::Const(0xFFFF));
    }
    if are_apart(graph, x, y) {
        return or_form(graph, x, y);
    }
    match (graph.word_at(x), graph.word_at(y)) {
        (WordNode::Xor(a, b), _) if a == y => WordForm::Old(b),
        (WordNode::Xor(a, b), _) if b == y => WordForm::Old(a),
        (_, WordNode::Xor(a, b)) if a == x => WordForm::Old(b),
        (_, WordNode::Xor(a, b)) if b == x => WordForm::Old(a),
        _ => ordered_xor(graph, x, y),
    }
}

/// The node of two words in order of number.
#[tactic(auto, using(crate::proofs::WordLaws::xor_comm))]
fn ordered_xor(graph: &Graph, x: WordId, y: WordId) -> WordForm
    requires x { HasWord graph.now x }
    requires y { HasWord graph.now y }
    ensures value { WordMeans graph.now result (λ inputs. bit_xor (word_value inputs graph.now x) (word_value inputs graph.now y)) }
    ensures ready { IsWordReady graph.now result }
    ensures inputs { StandsOn graph.now (x.number ∷ y.number ∷ []) (word_form_numbers result) }
    ensures light { word_form_weight result ≤ 16 }
{
    if y.number() < x.number() {
        WordForm::New(WordNode::Xor(y, x))
    } else {
        WordForm::New(WordNode::Xor(x, y))
    }
}
