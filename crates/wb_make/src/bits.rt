ghost use Rattle.std.specs.Prelude.{◌≡◌, ◌<◌, ◌≤◌, ◌^◌, not, ◌&&◌, ◌||◌, if◌then◌else◌, true, [], ◌∷◌, IfOk, length};
ghost use Rattle.std.specs.Bool.{beq};
ghost use Rattle.wb_term.specs.Inputs.{Assignment, IsAssignment};
ghost use Rattle.wb_term.specs.Terms.{HasWord, HasBit};
ghost use Rattle.wb_term.specs.Values.{IsBit, word_value, bit_value};
ghost use Rattle.wb_term.specs.Growth.{Grown, AddsAtMost};
ghost use Rattle.wb_make.specs.Inputs.{BringsOnly};
ghost use Rattle.wb_known.specs.Stands.{StandsOn};
ghost use Rattle.wb_make.specs.Forms.{BitMeans, IsBitReady, bit_form_numbers, bit_form_weight};

use crate::forms::{BitForm, make_bit};
use wb_known::{are_opposite_bits, implies, opposite};
use wb_term::{BitId, BitNode, Graph, OutOfMemory};

/// The other bit.
pub fn mk_notb(graph: &mut Graph, c: BitId) -> Result<BitId, OutOfMemory>
    requires c { HasBit graph.old c }
    requires room { length graph.old.nodes < 2 ^ 31 }
    ensures value { IfOk result (λ id. IsBit graph.new id (λ inputs. not (bit_value inputs graph.old c))) }
    ensures inputs { IfOk result (λ id. BringsOnly graph.old graph.new (c.number ∷ []) id.number) }
    ensures grown { Grown graph.old graph.new }
    ensures adds { AddsAtMost graph.old graph.new 1 0 }
{
    let form = notb_form(graph, c);
    make_bit(graph, form)
}

/// Whether both bits are set.
pub fn mk_andb(graph: &mut Graph, c: BitId, d: BitId) -> Result<BitId, OutOfMemory>
    requires c { HasBit graph.old c }
    requires d { HasBit graph.old d }
    requires room { length graph.old.nodes < 2 ^ 31 }
    ensures value { IfOk result (λ id. IsBit graph.new id
        (λ inputs. bit_value inputs graph.old c && bit_value inputs graph.old d)) }
    ensures inputs { IfOk result (λ id. BringsOnly graph.old graph.new (c.number ∷ d.number ∷ []) id.number) }
    ensures grown { Grown graph.old graph.new }
    ensures adds { AddsAtMost graph.old graph.new 1 1 }
{
    let form = andb_form(graph, c, d);
    make_bit(graph, form)
}

/// Whether one of the bits is set.
pub fn mk_orb(graph: &mut Graph, c: BitId, d: BitId) -> Result<BitId, OutOfMemory>
    requires c { HasBit graph.old c }
    requires d { HasBit graph.old d }
    requires room { length graph.old.nodes < 2 ^ 31 }
    ensures value { IfOk result (λ id. IsBit graph.new id
        (λ inputs. bit_value inputs graph.old c || bit_value inputs graph.old d)) }
    ensures inputs { IfOk result (λ id. BringsOnly graph.old graph.new (c.number ∷ d.number ∷ []) id.number) }
    ensures grown { Grown graph.old graph.new }
    ensures adds { AddsAtMost graph.old graph.new 1 1 }
{
    let form = orb_form(graph, c, d);
    make_bit(graph, form)
}

/// Whether the bits differ.
pub fn mk_xorb(graph: &mut Graph, c: BitId, d: BitId) -> Result<BitId, OutOfMemory>
    requires c { HasBit graph.old c }
    requires d { HasBit graph.old d }
    requires room { length graph.old.nodes < 2 ^ 31 }
    ensures value { IfOk result (λ id. IsBit graph.new id
        (λ inputs. not (beq (bit_value inputs graph.old c) (bit_value inputs graph.old d)))) }
    ensures inputs { IfOk result (λ id. BringsOnly graph.old graph.new (c.number ∷ d.number ∷ []) id.number) }
    ensures grown { Grown graph.old graph.new }
    ensures adds { AddsAtMost graph.old graph.new 1 1 }
{
    let form = xorb_form(graph, c, d);
    make_bit(graph, form)
}

/// The second bit where the first is set, else the third.
pub fn mk_iteb(graph: &mut Graph, c: BitId, d: BitId, e: BitId) -> Result<BitId, OutOfMemory>
    requires c { HasBit graph.old c }
    requires d { HasBit graph.old d }
    requires e { HasBit graph.old e }
    requires room { length graph.old.nodes < 2 ^ 31 }
    ensures value { IfOk result (λ id. IsBit graph.new id
        (λ inputs. if bit_value inputs graph.old c then bit_value inputs graph.old d else bit_value inputs graph.old e)) }
    ensures inputs { IfOk result (λ id. BringsOnly graph.old graph.new (c.number ∷ d.number ∷ e.number ∷ []) id.number) }
    ensures grown { Grown graph.old graph.new }
    ensures adds { AddsAtMost graph.old graph.new 1 1 }
{
    let form = iteb_form(graph, c, d, e);
    make_bit(graph, form)
}

/// The other bit.
pub(crate) fn notb_form(graph: &Graph, c: BitId) -> BitForm
    requires c { HasBit graph.now c }
    ensures value { BitMeans graph.now result (λ inputs. not (bit_value inputs graph.now c)) }
    ensures ready { IsBitReady graph.now result }
    ensures inputs { StandsOn graph.now (c.number ∷ []) (bit_form_numbers result) }
    ensures light { bit_form_weight result ≤ 0 }
{
    match graph.bit_at(c) {
        BitNode::Known(value) => BitForm::New(BitNode::Known(!value)),
        BitNode::NotB(inner) => BitForm::Old(inner),
        _ => BitForm::New(BitNode::NotB(c)),
    }
}

/// Whether both bits are set.
#[tactic(auto, using(crate::proofs::TruthLaws::truth))]
fn andb_form(graph: &Graph, c: BitId, d: BitId) -> BitForm
    requires c { HasBit graph.now c }
    requires d { HasBit graph.now d }
    ensures value { BitMeans graph.now result (λ inputs. bit_value inputs graph.now c && bit_value inputs graph.now d) }
    ensures ready { IsBitReady graph.now result }
    ensures inputs { StandsOn graph.now (c.number ∷ d.number ∷ []) (bit_form_numbers result) }
    ensures light { bit_form_weight result ≤ 1 }
{
    if implies(graph, c, d) {
        return BitForm::Old(c);
    }
    if implies(graph, d, c) {
        return BitForm::Old(d);
    }
    if are_opposite_bits(graph, c, d) {
        return BitForm::New(BitNode::Known(false));
    }
    if d.number() < c.number() {
        BitForm::New(BitNode::AndB(d, c))
    } else {
        BitForm::New(BitNode::AndB(c, d))
    }
}

/// Whether one of the bits is set.
#[tactic(auto, using(crate::proofs::TruthLaws::truth))]
fn orb_form(graph: &Graph, c: BitId, d: BitId) -> BitForm
    requires c { HasBit graph.now c }
    requires d { HasBit graph.now d }
    ensures value { BitMeans graph.now result (λ inputs. bit_value inputs graph.now c || bit_value inputs graph.now d) }
    ensures ready { IsBitReady graph.now result }
    ensures inputs { StandsOn graph.now (c.number ∷ d.number ∷ []) (bit_form_numbers result) }
    ensures light { bit_form_weight result ≤ 1 }
{
    if implies(graph, c, d) {
        return BitForm::Old(d);
    }
    if implies(graph, d, c) {
        return BitForm::Old(c);
    }
    if are_opposite_bits(graph, c, d) {
        return BitForm::New(BitNode::Known(true));
    }
    if d.number() < c.number() {
        BitForm::New(BitNode::OrB(d, c))
    } else {
        BitForm::New(BitNode::OrB(c, d))
    }
}

/// Whether the bits differ.
#[tactic(auto, using(crate::proofs::TruthLaws::truth))]
fn xorb_form(graph: &Graph, c: BitId, d: BitId) -> BitForm
    requires c { HasBit graph.now c }
    requires d { HasBit graph.now d }
    ensures value { BitMeans graph.now result (λ inputs. not (beq (bit_value inputs graph.now c) (bit_value inputs graph.now d))) }
    ensures ready { IsBitReady graph.now result }
    ensures inputs { StandsOn graph.now (c.number ∷ d.number ∷ []) (bit_form_numbers result) }
    ensures light { bit_form_weight result ≤ 1 }
{
    match (graph.bit_at(c), graph.bit_at(d)) {
        _ if c == d => BitForm::New(BitNode::Known(false)),
        (BitNode::Known(false), _) => BitForm::Old(d),
        (_, BitNode::Known(false)) => BitForm::Old(c),
        (BitNode::Known(true), _) => notb_form(graph, d),
        (_, BitNode::Known(true)) => notb_form(graph, c),
        _ if are_opposite_bits(graph, c, d) => BitForm::New(BitNode::Known(true)),
        _ => differing_bits(graph, c, d),
    }
}

/// Whether two bits differ, of which none is known.
#[tactic(auto, using(crate::proofs::TruthLaws::truth))]
fn differing_bits(graph: &Graph, c: BitId, d: BitId) -> BitForm
    requires c { HasBit graph.now c }
    requires d { HasBit graph.now d }
    ensures value { BitMeans graph.now result (λ inputs. not (beq (bit_value inputs graph.now c) (bit_value inputs graph.now d))) }
    ensures ready { IsBitReady graph.now result }
    ensures inputs { StandsOn graph.now (c.number ∷ d.number ∷ []) (bit_form_numbers result) }
    ensures light { bit_form_weight result ≤ 1 }
{
    match (graph.bit_at(c), graph.bit_at(d)) {
        (BitNode::XorB(a, b), _) if a == d => BitForm::Old(b),
        (BitNode::XorB(a, b), _) if b == d => BitForm::Old(a),
        (_, BitNode::XorB(a, b)) if a == c => BitForm::Old(b),
        (_, BitNode::XorB(a, b)) if b == c => BitForm::Old(a),
        _ if d.number() < c.number() => BitForm::New(BitNode::XorB(d, c)),
        _ => BitForm::New(BitNode::XorB(c, d)),
    }
}

/// The second bit where the first is set, else the third.
fn iteb_form(graph: &Graph, c: BitId, d: BitId, e: BitId) -> BitForm
    requires c { HasBit graph.now c }
    requires d { HasBit graph.now d }
    requires e { HasBit graph.now e }
    ensures value { BitMeans graph.now result (λ inputs. if bit_value inputs graph.now c then bit_value inputs graph.now d else bit_value inputs graph.now e) }
    ensures ready { IsBitReady graph.now result }
    ensures inputs { StandsOn graph.now (c.number ∷ d.number ∷ e.number ∷ []) (bit_form_numbers result) }
    ensures light { bit_form_weight result ≤ 1 }
{
    match graph.bit_at(c) {
        BitNode::Known(true) => BitForm::Old(d),
        BitNode::Known(false) => BitForm::Old(e),
        BitNode::NotB(inner) => chosen_bit(graph, inner, e, d),
        _ => chosen_bit(graph, c, d, e),
    }
}

/// The choice by a bit that isn't known.
#[tactic(auto, using(crate::proofs::TruthLaws::truth))]
fn chosen_bit(graph: &Graph, c: BitId, d: BitId, e: BitId) -> BitForm
    requires c { HasBit graph.now c }
    requires d { HasBit graph.now d }
    requires e { HasBit graph.now e }
    ensures value { BitMeans graph.now result (λ inputs. if bit_value inputs graph.now c then bit_value inputs graph.now d else bit_value inputs graph.now e) }
    ensures ready { IsBitReady graph.now result }
    ensures inputs { StandsOn graph.now (c.number ∷ d.number ∷ e.number ∷ []) (bit_form_numbers result) }
    ensures light { bit_form_weight result ≤ 1 }
{
    if d == e {
        return BitForm::Old(d);
    }
    match (graph.bit_at(d), graph.bit_at(e)) {
        (BitNode::Known(true), BitNode::Known(false)) => BitForm::Old(c),
        (BitNode::Known(false), BitNode::Known(true)) => notb_form(graph, c),
        (BitNode::Known(true), _) => orb_form(graph, c, e),
        (_, BitNode::Known(false)) => andb_form(graph, c, d),
        (BitNode::Known(false), _) | (_, BitNode::Known(true)) => turned_choice(graph, c, d, e),
        _ => related(graph, c, d, e),
    }
}

/// The choice by a bit where its other bit stands: of 0 and a bit, or of a bit and 1.
#[tactic(auto, using(crate::proofs::TruthLaws::truth))]
fn turned_choice(graph: &Graph, c: BitId, d: BitId, e: BitId) -> BitForm
    requires c { HasBit graph.now c }
    requires d { HasBit graph.now d }
    requires e { HasBit graph.now e }
    ensures value { BitMeans graph.now result (λ inputs. if bit_value inputs graph.now c then bit_value inputs graph.now d else bit_value inputs graph.now e) }
    ensures ready { IsBitReady graph.now result }
    ensures inputs { StandsOn graph.now (c.number ∷ d.number ∷ e.number ∷ []) (bit_form_numbers result) }
    ensures light { bit_form_weight result ≤ 1 }
{
    let turned = match opposite(graph, c) {
        Some(turned) => turned,
        None => return BitForm::New(BitNode::IteB(c, d, e)),
    };
    match (graph.bit_at(d), graph.bit_at(e)) {
        (BitNode::Known(false), _) => andb_form(graph, turned, e),
        (_, BitNode::Known(true)) => orb_form(graph, turned, d),
        _ => BitForm::New(BitNode::IteB(c, d, e)),
    }
}

/// The choice of bits that are the one chosen by, or each other, or turned over.
#[tactic(auto, using(crate::proofs::TruthLaws::truth))]
fn related(graph: &Graph, c: BitId, d: BitId, e: BitId) -> BitForm
    requires c { HasBit graph.now c }
    requires d { HasBit graph.now d }
    requires e { HasBit graph.now e }
    ensures value { BitMeans graph.now result (λ inputs. if bit_value inputs graph.now c then bit_value inputs graph.now d else bit_value inputs graph.now e) }
    ensures ready { IsBitReady graph.now result }
    ensures inputs { StandsOn graph.now (c.number ∷ d.number ∷ e.number ∷ []) (bit_form_numbers result) }
    ensures light { bit_form_weight result ≤ 1 }
{
    if d == c {
        return orb_form(graph, c, e);
    }
    if e == c {
        return andb_form(graph, c, d);
    }
    if are_opposite_bits(graph, c, d) {
        return andb_form(graph, d, e);
    }
    if are_opposite_bits(graph, c, e) {
        return orb_form(graph, e, d);
    }
    if are_opposite_bits(graph, d, e) {
        return xorb_form(graph, c, e);
    }
    BitForm::New(BitNode::IteB(c, d, e))
}
