ghost use Rattle.std.specs.Prelude.{◌≡◌, ◌<◌, ◌^◌, Bool, true, [], IfOk, length, slice_index};
ghost use Rattle.wb_term.specs.declared.nodes.Node.{Node};
ghost use Rattle.wb_term.specs.Values.{IsWord, IsBit};
ghost use Rattle.wb_term.specs.Under.{HasOnly};
ghost use Rattle.wb_term.specs.Growth.{Grown, AddsAtMost};
ghost use Rattle.wb_make.specs.Inputs.{BringsOnly};

use wb_term::{BitId, BitNode, Graph, OutOfMemory, WordId, WordNode};

/// The word itself.
pub fn mk_const(graph: &mut Graph, v: u16) -> Result<WordId, OutOfMemory>
    requires room { length graph.old.nodes < 2 ^ 31 }
    ensures value { IfOk result (λ id. IsWord graph.new id (λ _. v)) }
    ensures inputs { IfOk result (λ id. BringsOnly graph.old graph.new [] id.number) }
    ensures grown { Grown graph.old graph.new }
    ensures adds { AddsAtMost graph.old graph.new 1 0 }
{
    graph.word(WordNode::Const(v))
}

/// The input byte of a place.
pub fn mk_byte(graph: &mut Graph, place: u8) -> Result<WordId, OutOfMemory>
    requires room { length graph.old.nodes < 2 ^ 31 }
    requires place { place < 16 }
    ensures value { IfOk result (λ id. IsWord graph.new id (λ inputs. slice_index inputs.bytes place)) }
    ensures inputs { IfOk result (λ id. (allowed : Node → Bool) →
        allowed (Node.Word (WordNode.Byte place)) ≡ true → HasOnly graph.new allowed id.number) }
    ensures grown { Grown graph.old graph.new }
    ensures adds { AddsAtMost graph.old graph.new 1 0 }
{
    graph.word(WordNode::Byte(place))
}

/// The word of a place of the RAM's start.
pub fn mk_cell(graph: &mut Graph, place: u8) -> Result<WordId, OutOfMemory>
    requires room { length graph.old.nodes < 2 ^ 31 }
    ensures value { IfOk result (λ id. IsWord graph.new id (λ inputs. slice_index inputs.cells place)) }
    ensures inputs { IfOk result (λ id. (allowed : Node → Bool) →
        allowed (Node.Word (WordNode.Cell place)) ≡ true → HasOnly graph.new allowed id.number) }
    ensures grown { Grown graph.old graph.new }
    ensures adds { AddsAtMost graph.old graph.new 1 0 }
{
    graph.word(WordNode::Cell(place))
}

/// The bit itself.
pub fn mk_known(graph: &mut Graph, v: bool) -> Result<BitId, OutOfMemory>
    requires room { length graph.old.nodes < 2 ^ 31 }
    ensures value { IfOk result (λ id. IsBit graph.new id (λ _. v)) }
    ensures inputs { IfOk result (λ id. BringsOnly graph.old graph.new [] id.number) }
    ensures grown { Grown graph.old graph.new }
    ensures adds { AddsAtMost graph.old graph.new 1 0 }
{
    graph.bit(BitNode::Known(v))
}
