//! The older node of a function, a constant, or a new node.
ghost use Rattle.std.specs.Prelude.{◌≡◌, ◌<◌, ◌^◌, Bool, true, IfOk, OnErr, IfSome, length};
ghost use Rattle.wb_term.specs.declared.nodes.Node.{Node};
ghost use Rattle.wb_term.specs.declared.nodes.Node.TheVariants.{Word, Bit};
ghost use Rattle.wb_term.specs.Nodes.{is_input, Each, word_children, bit_children, word_weight, bit_weight};
ghost use Rattle.wb_term.specs.Terms.{Terms, IsGraph, HasWord, HasBit, IsWordPlaced, IsBitPlaced};
ghost use Rattle.wb_term.specs.Values.{word_value, bit_value, word_node_value, bit_node_value, IsWord, IsBit};
ghost use Rattle.wb_term.specs.Under.{HasOnly};
ghost use Rattle.wb_term.specs.Growth.{Grown, AddsAtMost};
ghost use Rattle.wb_graph.specs.Places.{ArePlaces, AreNodePlaces};
ghost use Rattle.wb_graph.specs.Functions.{IsWordFunction, IsBitFunction, AreRight};

use crate::bits::bit_is_sum;
use crate::functions::Functions;
use crate::places::Places;
use crate::summaries::{Function, Summary};
use crate::under::{bit_places, word_places};
use crate::words::word_is_sum;
use wb_diagram::Diagram;
use wb_term::{BitId, BitNode, Graph as Terms, WordId, WordNode};
use wb_vector::Vector;
use wb_word::OutOfMemory;

/// The number of a word, in terms of which something is known.
pub fn word_like(
    terms: &mut Terms,
    functions: &mut Functions,
    node: WordNode,
) -> Result<WordId, OutOfMemory>
    requires placed { IsWordPlaced terms.old node }
    requires room { length terms.old.nodes < 2 ^ 31 }
    requires right { AreRight terms.old functions.old }
    ensures right { AreRight terms.new functions.new }
    ensures means { IfOk result (λ id. IsWord terms.new id
        (λ inputs. word_node_value terms.old.tables inputs (word_value inputs terms.old) (bit_value inputs terms.old) node)) }
    ensures inputs { IfOk result (λ id. (allowed : Node → Bool) → (is_input (Word node) ≡ true → allowed (Word node) ≡ true) →
        Each (HasOnly terms.old allowed) (word_children node) → HasOnly terms.new allowed id.number) }
    ensures grown { Grown terms.old terms.new }
    ensures adds { AddsAtMost terms.old terms.new 1 (word_weight node) }
    ensures refused { OnErr result (terms.new ≡ terms.old) }
{
    if let Some(id) = terms.find_word(node) {
        return Ok(id);
    }
    let places = word_places(functions, node);
    let function = small_word(terms, functions, node);
    let Some(word) = function else {
        return add_word(terms, functions, node, places, None);
    };
    if let Some(id) = functions.older_word(&word, &places) {
        return Ok(id);
    }
    match functions.known_word(&word) {
        Some(value) => add_word(
            terms,
            functions,
            WordNode::Const(value),
            Places::none(),
            function,
        ),
        None => add_word(terms, functions, node, places, function),
    }
}

/// What the bits of a word are, where they are made within its room.
fn small_word(terms: &Terms, functions: &mut Functions, node: WordNode) -> Option<Vector>
    requires placed { IsWordPlaced terms.now node }
    requires right { AreRight terms.now functions.old }
    ensures function { IfSome result (IsWordFunction terms.now functions.new.forest
        (λ inputs. word_node_value terms.now.tables inputs (word_value inputs terms.now) (bit_value inputs terms.now) node)) }
    ensures right { AreRight terms.now functions.new }
{
    let is_sum = word_is_sum(node);
    functions.begin(is_sum);
    let word = functions.word_function(terms, node)?;
    if functions.ends_small(is_sum, &word) {
        Some(word)
    } else {
        None
    }
}

/// The number of a word node as it stands, and what is known of it: what it says, or it says itself.
fn add_word(
    terms: &mut Terms,
    functions: &mut Functions,
    node: WordNode,
    places: Places,
    function: Option<Vector>,
) -> Result<WordId, OutOfMemory>
    requires placed { IsWordPlaced terms.old node }
    requires room { length terms.old.nodes < 2 ^ 31 }
    requires right { AreRight terms.old functions.old }
    requires places { AreNodePlaces terms.old (Word node) places }
    requires function { IfSome function (IsWordFunction terms.old functions.old.forest
        (λ inputs. word_node_value terms.old.tables inputs (word_value inputs terms.old) (bit_value inputs terms.old) node)) }
    ensures right { AreRight terms.new functions.new }
    ensures means { IfOk result (λ id. IsWord terms.new id
        (λ inputs. word_node_value terms.old.tables inputs (word_value inputs terms.old) (bit_value inputs terms.old) node)) }
    ensures inputs { IfOk result (λ id. (allowed : Node → Bool) → (is_input (Word node) ≡ true → allowed (Word node) ≡ true) →
        Each (HasOnly terms.old allowed) (word_children node) → HasOnly terms.new allowed id.number) }
    ensures grown { Grown terms.old terms.new }
    ensures adds { AddsAtMost terms.old terms.new 1 (word_weight node) }
    ensures refused { OnErr result (terms.new ≡ terms.old) }
{
    let before = terms.len();
    let id = terms.word(node)?;
    if terms.len() > before {
        learn_word(functions, id, places, function);
    }
    Ok(id)
}

/// Keeps what is known of a word that was added: what it says, or it says itself.
fn learn_word(functions: &mut Functions, id: WordId, places: Places, function: Option<Vector>)
    ensures { (g : Terms) → IsGraph g → AreRight g functions.old → HasWord g id → ArePlaces g id.number places →
        IfSome function (IsWordFunction g functions.old.forest (λ inputs. word_value inputs g id)) → AreRight g functions.new }
{
    let Some(word) = function else {
        return learn_own_word(functions, id, places);
    };
    let function = Some(Function::Word(word));
    functions.enter_word(id, Summary { places, function });
}

/// Keeps of a word that was added that it says itself.
fn learn_own_word(functions: &mut Functions, id: WordId, places: Places)
    ensures { (g : Terms) → IsGraph g → AreRight g functions.old → HasWord g id → ArePlaces g id.number places → AreRight g functions.new }
{
    let function = match functions.own_word(id.number()) {
        Some(word) => Some(Function::Word(word)),
        None => None,
    };
    functions.enter_word(id, Summary { places, function });
}

/// The number of a bit, in terms of which something is known.
pub fn bit_like(
    terms: &mut Terms,
    functions: &mut Functions,
    node: BitNode,
) -> Result<BitId, OutOfMemory>
    requires placed { IsBitPlaced terms.old node }
    requires room { length terms.old.nodes < 2 ^ 31 }
    requires right { AreRight terms.old functions.old }
    ensures right { AreRight terms.new functions.new }
    ensures means { IfOk result (λ id. IsBit terms.new id
        (λ inputs. bit_node_value (word_value inputs terms.old) (bit_value inputs terms.old) node)) }
    ensures inputs { IfOk result (λ id. (allowed : Node → Bool) →
        Each (HasOnly terms.old allowed) (bit_children node) → HasOnly terms.new allowed id.number) }
    ensures grown { Grown terms.old terms.new }
    ensures adds { AddsAtMost terms.old terms.new 1 (bit_weight node) }
    ensures refused { OnErr result (terms.new ≡ terms.old) }
{
    if let Some(id) = terms.find_bit(node) {
        return Ok(id);
    }
    let places = bit_places(functions, node);
    let function = small_bit(terms, functions, node);
    let Some(bit) = function else {
        return add_bit(terms, functions, node, places, None);
    };
    if let Some(id) = functions.older_bit(bit, &places) {
        return Ok(id);
    }
    match functions.known_bit(bit) {
        Some(value) => add_bit(
            terms,
            functions,
            BitNode::Known(value),
            Places::none(),
            function,
        ),
        None => add_bit(terms, functions, node, places, function),
    }
}

/// What a bit is, where that is made within its room.
fn small_bit(terms: &Terms, functions: &mut Functions, node: BitNode) -> Option<Diagram>
    requires placed { IsBitPlaced terms.now node }
    requires right { AreRight terms.now functions.old }
    ensures function { IfSome result (IsBitFunction terms.now functions.new.forest
        (λ inputs. bit_node_value (word_value inputs terms.now) (bit_value inputs terms.now) node)) }
    ensures right { AreRight terms.now functions.new }
{
    let is_sum = bit_is_sum(node);
    functions.begin(is_sum);
    let bit = functions.bit_function(terms, node)?;
    if functions.ends_small(is_sum, &[bit]) {
        Some(bit)
    } else {
        None
    }
}

/// The number of a bit node as it stands, and what is known of it: what it says, or it says itself.
fn add_bit(
    terms: &mut Terms,
    functions: &mut Functions,
    node: BitNode,
    places: Places,
    function: Option<Diagram>,
) -> Result<BitId, OutOfMemory>
    requires placed { IsBitPlaced terms.old node }
    requires room { length terms.old.nodes < 2 ^ 31 }
    requires right { AreRight terms.old functions.old }
    requires places { AreNodePlaces terms.old (Bit node) places }
    requires function { IfSome function (IsBitFunction terms.old functions.old.forest
        (λ inputs. bit_node_value (word_value inputs terms.old) (bit_value inputs terms.old) node)) }
    ensures right { AreRight terms.new functions.new }
    ensures means { IfOk result (λ id. IsBit terms.new id
        (λ inputs. bit_node_value (word_value inputs terms.old) (bit_value inputs terms.old) node)) }
    ensures inputs { IfOk result (λ id. (allowed : Node → Bool) →
        Each (HasOnly terms.old allowed) (bit_children node) → HasOnly terms.new allowed id.number) }
    ensures grown { Grown terms.old terms.new }
    ensures adds { AddsAtMost terms.old terms.new 1 (bit_weight node) }
    ensures refused { OnErr result (terms.new ≡ terms.old) }
{
    let before = terms.len();
    let id = terms.bit(node)?;
    if terms.len() > before {
        learn_bit(functions, id, places, function);
    }
    Ok(id)
}

/// Keeps what is known of a bit that was added: what it says, or it says itself.
fn learn_bit(functions: &mut Functions, id: BitId, places: Places, function: Option<Diagram>)
    ensures { (g : Terms) → IsGraph g → AreRight g functions.old → HasBit g id → ArePlaces g id.number places →
        IfSome function (IsBitFunction g functions.old.forest (λ inputs. bit_value inputs g id)) → AreRight g functions.new }
{
    let Some(bit) = function else {
        return learn_own_bit(functions, id, places);
    };
    let function = Some(Function::Bit(bit));
    functions.enter_bit(id, Summary { places, function });
}

/// Keeps of a bit that was added that it says itself.
fn learn_own_bit(functions: &mut Functions, id: BitId, places: Places)
    ensures { (g : Terms) → IsGraph g → AreRight g functions.old → HasBit g id → ArePlaces g id.number places → AreRight g functions.new }
{
    let function = match functions.own_bit(id.number()) {
        Some(bit) => Some(Function::Bit(bit)),
        None => None,
    };
    functions.enter_bit(id, Summary { places, function });
}
