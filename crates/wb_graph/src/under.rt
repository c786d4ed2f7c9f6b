//! Which bytes stand under a node that may not be there yet.
ghost use Rattle.std.specs.Prelude.{◌≡◌, ℕ, ◌<◌};
ghost use Rattle.wb_term.specs.declared.nodes.WordNode.TheVariants.{Byte};
ghost use Rattle.wb_term.specs.declared.nodes.Node.TheVariants.{Word, Bit};
ghost use Rattle.wb_term.specs.Terms.{Terms};
ghost use Rattle.wb_graph.specs.Places.{AreNodePlaces, ArePlacesOfTwo};
ghost use Rattle.wb_graph.specs.Functions.{AreRight};

use crate::functions::Functions;
use crate::places::Places;
use wb_term::{BitNode, WordNode};

/// Which bytes stand under a word that may not be there yet.
pub fn word_places(functions: &Functions, node: WordNode) -> Places
    requires { (place : ℕ) → node ≡ Byte place → place < 16 }
    ensures { (g : Terms) → AreRight g functions.now → AreNodePlaces g (Word node) result }
{
    match node {
        WordNode::Const(_) => Places::none(),
        WordNode::Byte(place) => Places::of_byte(place),
        WordNode::Cell(_) => Places::unknown(),
        WordNode::Not(x) | WordNode::Shl(x, _) | WordNode::Shr(x, _) | WordNode::Look(_, x) => {
            functions.places_of(x.number())
        }
        WordNode::And(x, y)
        | WordNode::Or(x, y)
        | WordNode::Xor(x, y)
        | WordNode::High(x, y)
        | WordNode::Low(x, y) => places_of_two(functions, x.number(), y.number()),
        WordNode::Sum(x, y, c) | WordNode::Diff(x, y, c) | WordNode::Ite(c, x, y) => {
            places_of_two(functions, x.number(), y.number()).with(&functions.places_of(c.number()))
        }
    }
}

/// Which bytes stand under a bit that may not be there yet.
pub fn bit_places(functions: &Functions, node: BitNode) -> Places
    ensures { (g : Terms) → AreRight g functions.now → AreNodePlaces g (Bit node) result }
{
    match node {
        BitNode::Known(_) => Places::none(),
        BitNode::Pick(x, _) => functions.places_of(x.number()),
        BitNode::NotB(c) => functions.places_of(c.number()),
        BitNode::AndB(c, d) | BitNode::OrB(c, d) | BitNode::XorB(c, d) => {
            places_of_two(functions, c.number(), d.number())
        }
        BitNode::Same(x, y) => places_of_two(functions, x.number(), y.number()),
        BitNode::IteB(b, c, d) => {
            places_of_two(functions, c.number(), d.number()).with(&functions.places_of(b.number()))
        }
        BitNode::Carry(x, y, c) | BitNode::Borrow(x, y, c) => {
            places_of_two(functions, x.number(), y.number()).with(&functions.places_of(c.number()))
        }
    }
}

/// Which bytes stand under the one or the other of two nodes.
fn places_of_two(functions: &Functions, x: u32, y: u32) -> Places
    ensures { (g : Terms) → AreRight g functions.now → ArePlacesOfTwo g x y result }
{
    functions.places_of(x).with(&functions.places_of(y))
}
