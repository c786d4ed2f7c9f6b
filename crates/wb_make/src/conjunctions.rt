ghost use Rattle.std.specs.Prelude.{◌≡◌, ◌-◌, ◌≤◌, true, bit_and, bit_or, bit_xor, [], ◌∷◌, IfSome};
ghost use Rattle.wb_term.specs.Inputs.{Assignment, IsAssignment};
ghost use Rattle.wb_term.specs.Terms.{HasWord};
ghost use Rattle.wb_term.specs.Values.{word_value};
ghost use Rattle.wb_known.specs.Stands.{StandsOn};
ghost use Rattle.wb_make.specs.Forms.{WordMeans, IsWordReady, word_form_numbers, word_form_weight};

use crate::forms::WordForm;
use wb_known::{are_apart, are_opposite, is_cleared, is_kept, is_part, mask_of};
use wb_term::{Graph, WordId, WordNode};

/// The bits that two words share.
#[tactic(auto, using(crate::proofs::WordLaws::and_comm))]
pub(crate) fn and_form(graph: &Graph, x: WordId, y: WordId) -> WordForm
    requires x { HasWord graph.now x }
    requires y { HasWord graph.now y }
    ensures value { WordMeans graph.now result (λ inputs. bit_and (word_value inputs graph.now x) (word_value inputs graph.now y)) }
    ensures ready { IsWordReady graph.now result }
    ensures inputs { StandsOn graph.now (x.number ∷ y.number ∷ []) (word_form_numbers result) }
    ensures light { word_form_weight result ≤ 16 }
{
    match (graph.word_at(x), graph.word_at(y)) {
        (WordNode::Const(a), WordNode::Const(b)) => WordForm::New(WordNode::Const(a & b)),
        (_, WordNode::Const(mask)) => with_mask(graph, x, y, mask),
        (WordNode::Const(mask), _) => with_mask(graph, y, x, mask),
        _ => shared(graph, x, y),
    }
}

/// What a constant leaves of a word.
fn with_mask(graph: &Graph, x: WordId, y: WordId, mask: u16) -> WordForm
    requires x { HasWord graph.now x }
    requires y { HasWord graph.now y }
    requires mask { (inputs : Assignment) → IsAssignment inputs → word_value inputs graph.now y ≡ mask }
    ensures value { WordMeans graph.now result (λ inputs. bit_and (word_value inputs graph.now x) (word_value inputs graph.now y)) }
    ensures ready { IsWordReady graph.now result }
    ensures inputs { StandsOn graph.now (x.number ∷ y.number ∷ []) (word_form_numbers result) }
    ensures light { word_form_weight result ≤ 16 }
{
    if is_kept(graph, x, mask) {
        return WordForm::Old(x);
    }
    if is_cleared(graph, x, mask) {
        return WordForm::New(WordNode::Const(0));
    }
    let inner = mask_of(graph, x);
    match kept_part(graph, inner.word, inner.mask & mask) {
        Some(form) => form,
        None => ordered_and(graph, x, y),
    }
}

/// The bits that two words share, of which none is a constant.
#[tactic(auto, using(crate::proofs::WordLaws::and_laws))]
fn shared(graph: &Graph, x: WordId, y: WordId) -> WordForm
    requires x { HasWord graph.now x }
    requires y { HasWord graph.now y }
    ensures value { WordMeans graph.now result (λ inputs. bit_and (word_value inputs graph.now x) (word_value inputs graph.now y)) }
    ensures ready { IsWordReady graph.now result }
    ensures inputs { StandsOn graph.now (x.number ∷ y.number ∷ []) (word_form_numbers result) }
    ensures light { word_form_weight result ≤ 16 }
{
    if is_part(graph, x, y) {
        return WordForm::Old(x);
    }
    if is_part(graph, y, x) {
        return WordForm::Old(y);
    }
    if are_opposite(graph, x, y) || are_apart(graph, x, y) {
        return WordForm::New(WordNode::Const(0));
    }
    ordered_and(graph, x, y)
}

/// The node of two words in order of number.
#[tactic(auto, using(crate::proofs::WordLaws::and_comm))]
fn ordered_and(graph: &Graph, x: WordId, y: WordId) -> WordForm
    requires x { HasWord graph.now x }
    requires y { HasWord graph.now y }
    ensures value { WordMeans graph.now result (λ inputs. bit_and (word_value inputs graph.now x) (word_value inputs graph.now y)) }
    ensures ready { IsWordReady graph.now result }
    ensures inputs { StandsOn graph.now (x.number ∷ y.number ∷ []) (word_form_numbers result) }
    ensures light { word_form_weight result ≤ 16 }
{
    if y.number() < x.number() {
        WordForm::New(WordNode::And(y, x))
    } else {
        WordForm::New(WordNode::And(x, y))
    }
}

/// What a mask leaves of a word, where one node more does for it: the word itself, or a node of a constant that stands.
#[tactic(auto, using(crate::proofs::WordLaws::and_comm))]
pub(crate) fn kept_part(graph: &Graph, x: WordId, mask: u16) -> Option<WordForm>
    requires x { HasWord graph.now x }
    ensures value { IfSome result (λ form. WordMeans graph.now form (λ inputs. bit_and (word_value inputs graph.now x) mask)) }
    ensures ready { IfSome result (λ form. IsWordReady graph.now form) }
    ensures inputs { IfSome result (λ form. StandsOn graph.now (x.number ∷ []) (word_form_numbers form)) }
    ensures light { IfSome result (λ form. word_form_weight form ≤ 16) }
{
    if is_kept(graph, x, mask) {
        return Some(WordForm::Old(x));
    }
    match graph.find_word(WordNode::Const(mask)) {
        Some(y) if y.number() < x.number() => Some(WordForm::New(WordNode::And(y, x))),
        Some(y) => Some(WordForm::New(WordNode::And(x, y))),
        None => None,
    }
}
