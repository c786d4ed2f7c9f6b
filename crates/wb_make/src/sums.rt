ghost use Rattle.std.specs.Prelude.{◌≡◌, ◌+◌, ◌<◌, ◌≤◌, ◌^◌, false, [], ◌∷◌, IfOk, IfSome, length};
ghost use Rattle.wb_term.specs.Numbers.{bit, cut, less};
ghost use Rattle.wb_term.specs.Inputs.{Assignment, IsAssignment};
ghost use Rattle.wb_term.specs.Terms.{HasWord, HasBit};
ghost use Rattle.wb_term.specs.Values.{IsWord, word_value, bit_value};
ghost use Rattle.wb_term.specs.Growth.{Grown, AddsAtMost};
ghost use Rattle.wb_make.specs.Inputs.{BringsOnly};
ghost use Rattle.wb_known.specs.Stands.{StandsOn};
ghost use Rattle.wb_make.specs.Forms.{WordMeans, IsWordReady, word_form_numbers, word_form_weight};

use crate::disjunctions::or_form;
use crate::forms::{WordForm, make_word};
use crate::shifts::shl_form;
use wb_known::{are_apart, negated, opposite, rebuilt};
use wb_term::{BitId, BitNode, Graph, OutOfMemory, WordId, WordNode, difference, sum};

/// The low 16 bits of two words and a carry.
pub fn mk_sum(graph: &mut Graph, x: WordId, y: WordId, c: BitId) -> Result<WordId, OutOfMemory>
    requires x { HasWord graph.old x }
    requires y { HasWord graph.old y }
    requires c { HasBit graph.old c }
    requires room { length graph.old.nodes < 2 ^ 31 }
    ensures value { IfOk result (λ id. IsWord graph.new id
        (λ inputs. cut (word_value inputs graph.old x + word_value inputs graph.old y + bit (bit_value inputs graph.old c)))) }
    ensures inputs { IfOk result (λ id. BringsOnly graph.old graph.new (x.number ∷ y.number ∷ c.number ∷ []) id.number) }
    ensures grown { Grown graph.old graph.new }
    ensures adds { AddsAtMost graph.old graph.new 1 48 }
{
    let form = sum_form(graph, x, y, c);
    make_word(graph, form)
}

/// The low 16 bits of a word less another and a borrow.
pub fn mk_diff(graph: &mut Graph, x: WordId, y: WordId, c: BitId) -> Result<WordId, OutOfMemory>
    requires x { HasWord graph.old x }
    requires y { HasWord graph.old y }
    requires c { HasBit graph.old c }
    requires room { length graph.old.nodes < 2 ^ 31 }
    ensures value { IfOk result (λ id. IsWord graph.new id
        (λ inputs. less (word_value inputs graph.old x) (word_value inputs graph.old y + bit (bit_value inputs graph.old c)))) }
    ensures inputs { IfOk result (λ id. BringsOnly graph.old graph.new (x.number ∷ y.number ∷ c.number ∷ []) id.number) }
    ensures grown { Grown graph.old graph.new }
    ensures adds { AddsAtMost graph.old graph.new 1 48 }
{
    let form = diff_form(graph, x, y, c);
    make_word(graph, form)
}

/// The low 16 bits of two words and a carry.
fn sum_form(graph: &Graph, x: WordId, y: WordId, c: BitId) -> WordForm
    requires x { HasWord graph.now x }
    requires y { HasWord graph.now y }
    requires c { HasBit graph.now c }
    ensures value { WordMeans graph.now result (λ inputs. cut (word_value inputs graph.now x + word_value inputs graph.now y + bit (bit_value inputs graph.now c))) }
    ensures ready { IsWordReady graph.now result }
    ensures inputs { StandsOn graph.now (x.number ∷ y.number ∷ c.number ∷ []) (word_form_numbers result) }
    ensures light { word_form_weight result ≤ 48 }
{
    if let Some(form) = as_difference(graph, x, y, c) {
        return form;
    }
    if let Some(form) = as_difference(graph, y, x, c) {
        return form;
    }
    simple_sum(graph, x, y, c)
}

/// The low 16 bits of a word less another and a borrow.
#[tactic(auto, using(crate::proofs::SumLaws::diff_laws))]
fn diff_form(graph: &Graph, x: WordId, y: WordId, c: BitId) -> WordForm
    requires x { HasWord graph.now x }
    requires y { HasWord graph.now y }
    requires c { HasBit graph.now c }
    ensures value { WordMeans graph.now result (λ inputs. less (word_value inputs graph.now x) (word_value inputs graph.now y + bit (bit_value inputs graph.now c))) }
    ensures ready { IsWordReady graph.now result }
    ensures inputs { StandsOn graph.now (x.number ∷ y.number ∷ c.number ∷ []) (word_form_numbers result) }
    ensures light { word_form_weight result ≤ 48 }
{
    match (graph.word_at(y), graph.bit_at(c)) {
        (WordNode::Not(inner), _) => match opposite(graph, c) {
            Some(carry) => simple_sum(graph, x, inner, carry),
            None => simple_difference(graph, x, y, c),
        },
        (_, BitNode::Known(false)) => match negated(graph, y) {
            Some(inner) => simple_sum(graph, x, inner, c),
            None => simple_difference(graph, x, y, c),
        },
        _ => simple_difference(graph, x, y, c),
    }
}

/// A sum as a difference, where its second word is another turned over or negated, or is one.
#[tactic(auto, using(crate::proofs::SumLaws::sum_laws))]
fn as_difference(graph: &Graph, x: WordId, y: WordId, c: BitId) -> Option<WordForm>
    requires x { HasWord graph.now x }
    requires y { HasWord graph.now y }
    requires c { HasBit graph.now c }
    ensures value { IfSome result (λ form. WordMeans graph.now form (λ inputs. cut (word_value inputs graph.now x + word_value inputs graph.now y + bit (bit_value inputs graph.now c)))) }
    ensures ready { IfSome result (λ form. IsWordReady graph.now form) }
    ensures inputs { IfSome result (λ form. StandsOn graph.now (x.number ∷ y.number ∷ c.number ∷ []) (word_form_numbers form)) }
    ensures light { IfSome result (λ form. word_form_weight form ≤ 48) }
{
    match (graph.word_at(y), graph.bit_at(c)) {
        (WordNode::Not(inner), _) => match opposite(graph, c) {
            Some(borrow) => Some(simple_difference(graph, x, inner, borrow)),
            None => None,
        },
        (WordNode::Const(1), BitNode::Known(false)) => one_more(graph, x, y, c),
        (_, BitNode::Known(false)) => match negated(graph, y) {
            Some(inner) => Some(simple_difference(graph, x, inner, c)),
            None => None,
        },
        _ => None,
    }
}

/// One more than a word, where that is a difference.
#[tactic(auto, using(crate::proofs::SumLaws::one_more_laws))]
fn one_more(graph: &Graph, x: WordId, y: WordId, c: BitId) -> Option<WordForm>
    requires x { HasWord graph.now x }
    requires y { HasWord graph.now y }
    requires c { HasBit graph.now c }
    requires one { (inputs : Assignment) → IsAssignment inputs → word_value inputs graph.now y ≡ 1 }
    requires no_carry { (inputs : Assignment) → IsAssignment inputs → bit_value inputs graph.now c ≡ false }
    ensures value { IfSome result (λ form. WordMeans graph.now form (λ inputs. cut (word_value inputs graph.now x + word_value inputs graph.now y + bit (bit_value inputs graph.now c)))) }
    ensures ready { IfSome result (λ form. IsWordReady graph.now form) }
    ensures inputs { IfSome result (λ form. StandsOn graph.now (x.number ∷ y.number ∷ c.number ∷ []) (word_form_numbers form)) }
    ensures light { IfSome result (λ form. word_form_weight form ≤ 48) }
{
    match graph.word_at(x) {
        WordNode::Diff(a, b, borrow) => match graph.bit_at(borrow) {
            BitNode::Known(true) => Some(simple_difference(graph, a, b, c)),
            _ => None,
        },
        WordNode::Sum(a, b, carry) => match (
            graph.word_at(a),
            graph.word_at(b),
            graph.bit_at(carry),
        ) {
            (WordNode::Not(inner), _, BitNode::Known(false)) => {
                Some(simple_difference(graph, b, inner, c))
            }
            (_, WordNode::Not(inner), BitNode::Known(false)) => {
                Some(simple_difference(graph, a, inner, c))
            }
            _ => None,
        },
        WordNode::Not(inner) => match graph.find_word(WordNode::Const(0)) {
            Some(zero) => Some(simple_difference(graph, zero, inner, c)),
            None => None,
        },
        _ => None,
    }
}

/// A sum, where it isn't a difference.
fn simple_sum(graph: &Graph, x: WordId, y: WordId, c: BitId) -> WordForm
    requires x { HasWord graph.now x }
    requires y { HasWord graph.now y }
    requires c { HasBit graph.now c }
    ensures value { WordMeans graph.now result (λ inputs. cut (word_value inputs graph.now x + word_value inputs graph.now y + bit (bit_value inputs graph.now c))) }
    ensures ready { IsWordReady graph.now result }
    ensures inputs { StandsOn graph.now (x.number ∷ y.number ∷ c.number ∷ []) (word_form_numbers result) }
    ensures light { word_form_weight result ≤ 48 }
{
    match (graph.word_at(x), graph.word_at(y), graph.bit_at(c)) {
        (WordNode::Const(a), WordNode::Const(b), BitNode::Known(carry)) => {
            WordForm::New(WordNode::Const(sum(a, b, carry)))
        }
        (_, _, BitNode::Known(false)) => bare_sum(graph, x, y, c),
        _ => ordered_sum(graph, x, y, c),
    }
}

/// A sum with no carry.
#[tactic(auto, using(crate::proofs::SumLaws::bare_sum_laws))]
fn bare_sum(graph: &Graph, x: WordId, y: WordId, c: BitId) -> WordForm
    requires x { HasWord graph.now x }
    requires y { HasWord graph.now y }
    requires c { HasBit graph.now c }
    requires no_carry { (inputs : Assignment) → IsAssignment inputs → bit_value inputs graph.now c ≡ false }
    ensures value { WordMeans graph.now result (λ inputs. cut (word_value inputs graph.now x + word_value inputs graph.now y + bit (bit_value inputs graph.now c))) }
    ensures ready { IsWordReady graph.now result }
    ensures inputs { StandsOn graph.now (x.number ∷ y.number ∷ c.number ∷ []) (word_form_numbers result) }
    ensures light { word_form_weight result ≤ 48 }
{
    let _node = (graph.word_at(x), graph.word_at(y));
    if x == y {
        return shl_form(graph, x, 1);
    }
    if are_apart(graph, x, y) {
        return or_form(graph, x, y);
    }
    if let Some(pair) = rebuilt(graph, x, y) {
        return ordered_sum(graph, pair.x, pair.y, c);
    }
    match rebuilt(graph, y, x) {
        Some(pair) => ordered_sum(graph, pair.x, pair.y, c),
        None => ordered_sum(graph, x, y, c),
    }
}

/// The node of two words in order of number.
fn ordered_sum(graph: &Graph, x: WordId, y: WordId, c: BitId) -> WordForm
    requires x { HasWord graph.now x }
    requires y { HasWord graph.now y }
    requires c { HasBit graph.now c }
    ensures value { WordMeans graph.now result (λ inputs. cut (word_value inputs graph.now x + word_value inputs graph.now y + bit (bit_value inputs graph.now c))) }
    ensures ready { IsWordReady graph.now result }
    ensures inputs { StandsOn graph.now (x.number ∷ y.number ∷ c.number ∷ []) (word_form_numbers result) }
    ensures light { word_form_weight result ≤ 48 }
{
    if y.number() < x.number() {
        WordForm::New(WordNode::Sum(y, x, c))
    } else {
        WordForm::New(WordNode::Sum(x, y, c))
    }
}

/// A difference, where it isn't a sum.
fn simple_difference(graph: &Graph, x: WordId, y: WordId, c: BitId) -> WordForm
    requires x { HasWord graph.now x }
    requires y { HasWord graph.now y }
    requires c { HasBit graph.now c }
    ensures value { WordMeans graph.now result (λ inputs. less (word_value inputs graph.now x) (word_value inputs graph.now y + bit (bit_value inputs graph.now c))) }
    ensures ready { IsWordReady graph.now result }
    ensures inputs { StandsOn graph.now (x.number ∷ y.number ∷ c.number ∷ []) (word_form_numbers result) }
    ensures light { word_form_weight result ≤ 48 }
{
    match (graph.word_at(x), graph.word_at(y), graph.bit_at(c)) {
        (WordNode::Const(a), WordNode::Const(b), BitNode::Known(borrow)) => {
            WordForm::New(WordNode::Const(difference(a, b, borrow)))
        }
        (_, WordNode::Const(0), BitNode::Known(false)) => WordForm::Old(x),
        (_, _, BitNode::Known(false)) if x == y => WordForm::New(WordNode::Const(0)),
        (_, _, BitNode::Known(true)) if x == y => WordForm::New(WordNode::Const(0xFFFF)),
        _ => WordForm::New(WordNode::Diff(x, y, c)),
    }
}
