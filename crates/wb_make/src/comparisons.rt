ghost use Rattle.std.specs.Prelude.{◌≡◌, ◌+◌, ◌<◌, ◌≤◌, ◌^◌, ◌==◌, nat_lt, [], ◌∷◌, IfOk, length};
ghost use Rattle.wb_term.specs.Numbers.{bit};
ghost use Rattle.wb_term.specs.Terms.{HasWord, HasBit};
ghost use Rattle.wb_term.specs.Values.{IsBit, word_value, bit_value};
ghost use Rattle.wb_term.specs.Growth.{Grown, AddsAtMost};
ghost use Rattle.wb_make.specs.Inputs.{BringsOnly};
ghost use Rattle.wb_known.specs.Stands.{StandsOn};
ghost use Rattle.wb_make.specs.Forms.{BitMeans, IsBitReady, bit_form_numbers, bit_form_weight};

use crate::forms::{BitForm, make_bit};
use crate::picks::pick_form;
use wb_known::{can_be, compared, is_always_below, is_never_below, never_carries};
use wb_term::{BitId, BitNode, Graph, OutOfMemory, WordId, WordNode, borrows, carries};

/// Whether two words are equal.
pub fn mk_same(graph: &mut Graph, x: WordId, y: WordId) -> Result<BitId, OutOfMemory>
    requires x { HasWord graph.old x }
    requires y { HasWord graph.old y }
    requires room { length graph.old.nodes < 2 ^ 31 }
    ensures value { IfOk result (λ id. IsBit graph.new id
        (λ inputs. word_value inputs graph.old x == word_value inputs graph.old y)) }
    ensures inputs { IfOk result (λ id. BringsOnly graph.old graph.new (x.number ∷ y.number ∷ []) id.number) }
    ensures grown { Grown graph.old graph.new }
    ensures adds { AddsAtMost graph.old graph.new 1 32 }
{
    let form = same_form(graph, x, y);
    make_bit(graph, form)
}

/// Whether two words and a carry are over 65535.
pub fn mk_carry(graph: &mut Graph, x: WordId, y: WordId, c: BitId) -> Result<BitId, OutOfMemory>
    requires x { HasWord graph.old x }
    requires y { HasWord graph.old y }
    requires c { HasBit graph.old c }
    requires room { length graph.old.nodes < 2 ^ 31 }
    ensures value { IfOk result (λ id. IsBit graph.new id
        (λ inputs. nat_lt 65535 (word_value inputs graph.old x + word_value inputs graph.old y + bit (bit_value inputs graph.old c)))) }
    ensures inputs { IfOk result (λ id. BringsOnly graph.old graph.new (x.number ∷ y.number ∷ c.number ∷ []) id.number) }
    ensures grown { Grown graph.old graph.new }
    ensures adds { AddsAtMost graph.old graph.new 1 32 }
{
    let form = carry_form(graph, x, y, c);
    make_bit(graph, form)
}

/// Whether a word is below another and a borrow.
pub fn mk_borrow(graph: &mut Graph, x: WordId, y: WordId, c: BitId) -> Result<BitId, OutOfMemory>
    requires x { HasWord graph.old x }
    requires y { HasWord graph.old y }
    requires c { HasBit graph.old c }
    requires room { length graph.old.nodes < 2 ^ 31 }
    ensures value { IfOk result (λ id. IsBit graph.new id
        (λ inputs. nat_lt (word_value inputs graph.old x) (word_value inputs graph.old y + bit (bit_value inputs graph.old c)))) }
    ensures inputs { IfOk result (λ id. BringsOnly graph.old graph.new (x.number ∷ y.number ∷ c.number ∷ []) id.number) }
    ensures grown { Grown graph.old graph.new }
    ensures adds { AddsAtMost graph.old graph.new 1 32 }
{
    let form = borrow_form(graph, x, y, c);
    make_bit(graph, form)
}

/// Whether two words are equal.
fn same_form(graph: &Graph, x: WordId, y: WordId) -> BitForm
    requires x { HasWord graph.now x }
    requires y { HasWord graph.now y }
    ensures value { BitMeans graph.now result (λ inputs. word_value inputs graph.now x == word_value inputs graph.now y) }
    ensures ready { IsBitReady graph.now result }
    ensures inputs { StandsOn graph.now (x.number ∷ y.number ∷ []) (bit_form_numbers result) }
    ensures light { bit_form_weight result ≤ 32 }
{
    let pair = compared(graph, x, y);
    simple_same(graph, pair.x, pair.y)
}

/// Whether two words are equal, of which none is a difference.
#[tactic(auto, using(crate::proofs::SumLaws::same_comm))]
fn simple_same(graph: &Graph, x: WordId, y: WordId) -> BitForm
    requires x { HasWord graph.now x }
    requires y { HasWord graph.now y }
    ensures value { BitMeans graph.now result (λ inputs. word_value inputs graph.now x == word_value inputs graph.now y) }
    ensures ready { IsBitReady graph.now result }
    ensures inputs { StandsOn graph.now (x.number ∷ y.number ∷ []) (bit_form_numbers result) }
    ensures light { bit_form_weight result ≤ 32 }
{
    match (graph.word_at(x), graph.word_at(y)) {
        _ if x == y => BitForm::New(BitNode::Known(true)),
        (WordNode::Const(a), WordNode::Const(b)) => BitForm::New(BitNode::Known(a == b)),
        (_, WordNode::Const(value)) if !can_be(graph, x, value) => BitForm::New(BitNode::Known(
            false,
        )),
        (WordNode::Const(value), _) if !can_be(graph, y, value) => BitForm::New(BitNode::Known(
            false,
        )),
        _ if y.number() < x.number() => BitForm::New(BitNode::Same(y, x)),
        _ => BitForm::New(BitNode::Same(x, y)),
    }
}

/// Whether two words and a carry are over 65535.
#[tactic(auto, using(crate::proofs::SumLaws::carry_of_doubled))]
fn carry_form(graph: &Graph, x: WordId, y: WordId, c: BitId) -> BitForm
    requires x { HasWord graph.now x }
    requires y { HasWord graph.now y }
    requires c { HasBit graph.now c }
    ensures value { BitMeans graph.now result (λ inputs. nat_lt 65535 (word_value inputs graph.now x + word_value inputs graph.now y + bit (bit_value inputs graph.now c))) }
    ensures ready { IsBitReady graph.now result }
    ensures inputs { StandsOn graph.now (x.number ∷ y.number ∷ c.number ∷ []) (bit_form_numbers result) }
    ensures light { bit_form_weight result ≤ 32 }
{
    match (graph.word_at(x), graph.word_at(y), graph.bit_at(c)) {
        (WordNode::Const(a), WordNode::Const(b), BitNode::Known(carry)) => {
            BitForm::New(BitNode::Known(carries(a, b, carry)))
        }
        _ if x == y => pick_form(graph, x, 15),
        _ if never_carries(graph, x, y, c) => BitForm::New(BitNode::Known(false)),
        _ if y.number() < x.number() => BitForm::New(BitNode::Carry(y, x, c)),
        _ => BitForm::New(BitNode::Carry(x, y, c)),
    }
}

/// Whether a word is below another and a borrow.
#[tactic(auto, using(crate::proofs::SumLaws::borrow_of_same))]
fn borrow_form(graph: &Graph, x: WordId, y: WordId, c: BitId) -> BitForm
    requires x { HasWord graph.now x }
    requires y { HasWord graph.now y }
    requires c { HasBit graph.now c }
    ensures value { BitMeans graph.now result (λ inputs. nat_lt (word_value inputs graph.now x) (word_value inputs graph.now y + bit (bit_value inputs graph.now c))) }
    ensures ready { IsBitReady graph.now result }
    ensures inputs { StandsOn graph.now (x.number ∷ y.number ∷ c.number ∷ []) (bit_form_numbers result) }
    ensures light { bit_form_weight result ≤ 32 }
{
    match (graph.word_at(x), graph.word_at(y), graph.bit_at(c)) {
        (WordNode::Const(a), WordNode::Const(b), BitNode::Known(borrow)) => {
            BitForm::New(BitNode::Known(borrows(a, b, borrow)))
        }
        _ if x == y => BitForm::Old(c),
        _ if is_never_below(graph, x, y, c) => BitForm::New(BitNode::Known(false)),
        _ if is_always_below(graph, x, y, c) => BitForm::New(BitNode::Known(true)),
        _ => BitForm::New(BitNode::Borrow(x, y, c)),
    }
}
