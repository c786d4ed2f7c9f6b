ghost use Rattle.std.specs.Prelude.{◌≡◌, ◌<◌, not, ◌&&◌, ◌||◌, if◌then◌else◌, Bool, [], ◌∷◌};
ghost use Rattle.std.specs.Bool.{beq};
ghost use Rattle.wb_term.specs.declared.nodes.Node.{Node};
ghost use Rattle.wb_term.specs.Nodes.{Each};
ghost use Rattle.wb_term.specs.Inputs.{Assignment, IsAssignment};
ghost use Rattle.wb_term.specs.Terms.{Terms, HasWord, HasBit};
ghost use Rattle.wb_term.specs.Values.{word_value, bit_value};
ghost use Rattle.wb_term.specs.Under.{HasOnly};
ghost use Rattle.wb_known.specs.Bits.{bit_of};
ghost use Rattle.wb_known.specs.Sources.{source_value, source_numbers, IsSource};
ghost use Rattle.wb_known.specs.Stands.{StandsOn};

use wb_term::{BitId, Graph, WordId, WordNode};

/// How many levels of nodes are looked at to see where a bit comes from.
const LEVELS: u8 = 4;

/// Where a bit of a word comes from, turned over or not.
#[derive(Clone, Copy)]
pub enum Source {
    Fixed(bool),
    Place(WordId, u8, bool),
    Condition(BitId, bool),
}

/// Where a bit of a word comes from, as far as a few levels of nodes tell it.
pub fn bit_source(graph: &Graph, x: WordId, m: u8) -> Source
    requires x { HasWord graph.now x }
    requires place { m < 16 }
    ensures value { (inputs : Assignment) → IsAssignment inputs → source_value inputs graph.now result ≡ bit_of (word_value inputs graph.now x) m }
    ensures there { IsSource graph.now result }
    ensures inputs { StandsOn graph.now (x.number ∷ []) (source_numbers result) }
{
    source_of(graph, x, m, LEVELS)
}

#[tactic(auto, using(crate::proofs::BitLaws::source_laws))]
fn source_of(graph: &Graph, x: WordId, m: u8, levels: u8) -> Source
    requires x { HasWord graph.now x }
    requires place { m < 16 }
    ensures value { (inputs : Assignment) → IsAssignment inputs → source_value inputs graph.now result ≡ bit_of (word_value inputs graph.now x) m }
    ensures there { IsSource graph.now result }
    ensures inputs { StandsOn graph.now (x.number ∷ []) (source_numbers result) }
{
    let here = Source::Place(x, m, false);
    match graph.word_at(x) {
        WordNode::Const(value) => Source::Fixed((value >> m) & 1 == 1),
        WordNode::Byte(_) if m >= 8 => Source::Fixed(false),
        _ if levels == 0 => here,
        WordNode::Shl(_, count) if m < count => Source::Fixed(false),
        WordNode::Shl(a, count) => source_of(graph, a, m - count, levels - 1),
        WordNode::Shr(_, count) if count + m >= 16 => Source::Fixed(false),
        WordNode::Shr(a, count) => source_of(graph, a, count + m, levels - 1),
        WordNode::Not(a) => turned(source_of(graph, a, m, levels - 1)),
        WordNode::And(a, b) => {
            let a = source_of(graph, a, m, levels - 1);
            both(here, a, source_of(graph, b, m, levels - 1))
        }
        WordNode::Or(a, b) => {
            let a = source_of(graph, a, m, levels - 1);
            either(here, a, source_of(graph, b, m, levels - 1))
        }
        WordNode::Xor(a, b) => {
            let a = source_of(graph, a, m, levels - 1);
            odd(here, a, source_of(graph, b, m, levels - 1))
        }
        WordNode::Ite(c, a, b) => {
            let a = source_of(graph, a, m, levels - 1);
            choice(here, c, a, source_of(graph, b, m, levels - 1))
        }
        _ => here,
    }
}

/// The other bit.
fn turned(source: Source) -> Source
    ensures value { (inputs : Assignment) (g : Terms) → source_value inputs g result ≡ not (source_value inputs g source) }
    ensures there { (g : Terms) → IsSource g source → IsSource g result }
    ensures inputs { source_numbers result ≡ source_numbers source }
{
    match source {
        Source::Fixed(value) => Source::Fixed(!value),
        Source::Place(word, place, turned) => Source::Place(word, place, !turned),
        Source::Condition(c, turned) => Source::Condition(c, !turned),
    }
}

/// Where a bit comes from that is set where both are.
fn both(here: Source, a: Source, b: Source) -> Source
    ensures value { (inputs : Assignment) (g : Terms) → source_value inputs g here ≡ (source_value inputs g a && source_value inputs g b) →
        source_value inputs g result ≡ source_value inputs g here }
    ensures there { (g : Terms) → IsSource g here → IsSource g a → IsSource g b → IsSource g result }
    ensures inputs { (g : Terms) (allowed : Node → Bool) → Each (HasOnly g allowed) (source_numbers here) →
        Each (HasOnly g allowed) (source_numbers a) → Each (HasOnly g allowed) (source_numbers b) → Each (HasOnly g allowed) (source_numbers result) }
{
    match (a, b) {
        (Source::Fixed(false), _) | (_, Source::Fixed(false)) => Source::Fixed(false),
        (Source::Fixed(true), _) => b,
        (_, Source::Fixed(true)) => a,
        _ => here,
    }
}

/// Where a bit comes from that is set where one of them is.
fn either(here: Source, a: Source, b: Source) -> Source
    ensures value { (inputs : Assignment) (g : Terms) → source_value inputs g here ≡ (source_value inputs g a || source_value inputs g b) →
        source_value inputs g result ≡ source_value inputs g here }
    ensures there { (g : Terms) → IsSource g here → IsSource g a → IsSource g b → IsSource g result }
    ensures inputs { (g : Terms) (allowed : Node → Bool) → Each (HasOnly g allowed) (source_numbers here) →
        Each (HasOnly g allowed) (source_numbers a) → Each (HasOnly g allowed) (source_numbers b) → Each (HasOnly g allowed) (source_numbers result) }
{
    match (a, b) {
        (Source::Fixed(true), _) | (_, Source::Fixed(true)) => Source::Fixed(true),
        (Source::Fixed(false), _) => b,
        (_, Source::Fixed(false)) => a,
        _ => here,
    }
}

/// Where a bit comes from that is set where they differ.
fn odd(here: Source, a: Source, b: Source) -> Source
    ensures value { (inputs : Assignment) (g : Terms) → source_value inputs g here ≡ not (beq (source_value inputs g a) (source_value inputs g b)) →
        source_value inputs g result ≡ source_value inputs g here }
    ensures there { (g : Terms) → IsSource g here → IsSource g a → IsSource g b → IsSource g result }
    ensures inputs { (g : Terms) (allowed : Node → Bool) → Each (HasOnly g allowed) (source_numbers here) →
        Each (HasOnly g allowed) (source_numbers a) → Each (HasOnly g allowed) (source_numbers b) → Each (HasOnly g allowed) (source_numbers result) }
{
    match (a, b) {
        (Source::Fixed(false), _) => b,
        (_, Source::Fixed(false)) => a,
        (Source::Fixed(true), _) => turned(b),
        (_, Source::Fixed(true)) => turned(a),
        _ => here,
    }
}

/// Where a bit comes from that is chosen of two.
fn choice(here: Source, c: BitId, a: Source, b: Source) -> Source
    ensures value { (inputs : Assignment) (g : Terms) → source_value inputs g here ≡ (if bit_value inputs g c then source_value inputs g a else source_value inputs g b) →
        source_value inputs g result ≡ source_value inputs g here }
    ensures there { (g : Terms) → IsSource g here → HasBit g c → IsSource g a → IsSource g b → IsSource g result }
    ensures inputs { (g : Terms) (allowed : Node → Bool) → Each (HasOnly g allowed) (source_numbers here) → HasOnly g allowed c.number →
        Each (HasOnly g allowed) (source_numbers a) → Each (HasOnly g allowed) (source_numbers b) → Each (HasOnly g allowed) (source_numbers result) }
{
    match (a, b) {
        (Source::Fixed(true), Source::Fixed(true)) => Source::Fixed(true),
        (Source::Fixed(false), Source::Fixed(false)) => Source::Fixed(false),
        (Source::Fixed(true), Source::Fixed(false)) => Source::Condition(c, false),
        (Source::Fixed(false), Source::Fixed(true)) => Source::Condition(c, true),
        _ => here,
    }
}
