ghost use Rattle.std.specs.Prelude.{◌≡◌, ◌+◌, ◌≤◌, [], IfOk, OnOk, length};
ghost use Rattle.wb_term.specs.Terms.{Terms, HasWord, HasBit};
ghost use Rattle.wb_fold.specs.Flags.{HasFlags};
ghost use Rattle.wb_fold.specs.Ram.{HasWords};

use std::alloc::Global;
use std::test::Fail;
use wb_fold::{
    OutOfMemory, Pages, SymFlags, alu_terms, mk_byte, mk_const, mk_known, pages_merge,
    pages_select, pages_store, ram_select, ram_store,
};
use wb_term::{BitId, Graph, Inputs, Scratch, WordId};
use wb_word::{Alu, Rom};

fn graph_of(alloc: Global) -> Result<Graph, OutOfMemory>
    ensures { IfOk result (λ graph. graph.nodes ≡ []) }
{
    let mut a = Rom::zero(alloc)?;
    a.set(2, 0x1234);
    let b = Rom::zero(alloc)?;
    Graph::new(alloc, &a, &b)
}

fn inputs_of(alloc: Global, byte: u8) -> Result<Inputs, OutOfMemory> {
    let mut bytes = [0; 16];
    bytes[0] = byte;
    Inputs::new(alloc, &bytes, &[7; 256])
}

/// The value of a word under inputs with a first byte.
fn value_of(alloc: Global, graph: &Graph, id: WordId, byte: u8) -> Result<u16, OutOfMemory>
    requires { HasWord graph.now id }
{
    let _node = graph.word_at(id);
    let mut scratch = Scratch::for_graph(alloc, graph)?;
    Ok(graph.value_word(id, &inputs_of(alloc, byte)?, &mut scratch))
}

/// The value of a bit under inputs with a first byte.
fn bit_value_of(alloc: Global, graph: &Graph, id: BitId, byte: u8) -> Result<bool, OutOfMemory>
    requires { HasBit graph.now id }
{
    let _node = graph.bit_at(id);
    let mut scratch = Scratch::for_graph(alloc, graph)?;
    Ok(graph.value_bit(id, &inputs_of(alloc, byte)?, &mut scratch))
}

/// Flags that are all one bit.
fn alike(bit: BitId) -> SymFlags
    ensures { (g : Terms) → HasBit g bit → HasFlags g result }
{
    SymFlags {
        c: bit,
        z: bit,
        s0: bit,
        s1: bit,
        ov0: bit,
        ov1: bit,
    }
}

/// An addition with all flags clear: the result, and its carry.
fn sum_of(graph: &mut Graph, q: WordId, p: WordId) -> Result<(WordId, BitId), OutOfMemory>
    requires q { HasWord graph.old q }
    requires p { HasWord graph.old p }
    requires room { length graph.old.nodes ≤ 1000 }
    ensures value { IfOk result (λ r. HasWord graph.new r.0) }
    ensures carry { IfOk result (λ r. HasBit graph.new r.1) }
{
    let no = mk_known(graph, false)?;
    let (value, after) = alu_terms(graph, Alu::Add, q, p, no, alike(no))?;
    Ok((value, after.c))
}

/// The result of an addition of FFFE to the byte C3, and its carry.
fn sum_of_bytes(alloc: Global) -> Result<(u16, bool), OutOfMemory> {
    let mut graph = graph_of(alloc)?;
    let q = mk_byte(&mut graph, 0)?;
    let p = mk_const(&mut graph, 0xFFFE)?;
    let (value, carry) = sum_of(&mut graph, q, p)?;
    Ok((
        value_of(alloc, &graph, value, 0xC3)?,
        bit_value_of(alloc, &graph, carry, 0xC3)?,
    ))
}

#[test]
fn operations_work_under_all_inputs(rt: HostRuntime) -> Result<(), Fail> {
    assert_eq!(rt; sum_of_bytes(rt.alloc())?, (0x00C1, true));
    Ok(())
}

/// The constants 0 to 255, whose numbers are these too.
fn constants(alloc: Global, graph: &mut Graph) -> Result<Vec<WordId>, OutOfMemory>
    requires { graph.old.nodes ≡ [] }
    ensures len { IfOk result (λ words. length words.items ≡ 256) }
    ensures there { IfOk result (λ words. HasWords graph.new words.items) }
    ensures few { IfOk result (λ _. length graph.new.nodes ≤ 256) }
{
    let mut words = Vec::with_capacity(alloc, 256)?;
    for at in 0..256u16 {
        let word = mk_const(graph, at)?;
        words.push(word)?;
    }
    Ok(words)
}

/// A graph of these constants, and a RAM of them.
fn begin(alloc: Global) -> Result<(Graph, Pages), OutOfMemory>
    ensures there { IfOk result (λ r. HasWords r.0 r.1) }
    ensures few { IfOk result (λ r. length r.0.nodes ≤ 256) }
{
    let mut graph = graph_of(alloc)?;
    let words = constants(alloc, &mut graph)?;
    let ram = Pages::from_list(alloc, &words)?;
    Ok((graph, ram))
}

/// Stores 9 at a place of pages.
fn store_nine(
    graph: &mut Graph,
    alloc: Global,
    ram: &mut Pages,
    place: WordId,
) -> Result<(), OutOfMemory>
    requires ram { HasWords graph.old ram.old }
    requires place { HasWord graph.old place }
    requires room { length graph.old.nodes ≤ 1000 }
    ensures ram { OnOk result (HasWords graph.new ram.new) }
    ensures place { HasWord graph.new place }
    ensures others { (id : _) → HasWord graph.old id → HasWord graph.new id }
    ensures longer { length graph.new.nodes ≤ length graph.old.nodes + 801 }
{
    let nine = mk_const(graph, 9)?;
    pages_store(graph, alloc, ram, place, nine)
}

/// An entry's value under inputs with a first byte, and its number.
fn entry_of(
    alloc: Global,
    graph: &Graph,
    ram: &Pages,
    place: u8,
    byte: u8,
) -> Result<(u16, u32), OutOfMemory>
    requires { HasWords graph.now ram.now }
{
    let id = ram.get(place);
    Ok((value_of(alloc, graph, id, byte)?, id.number()))
}

/// The value of a load from pages under inputs with a first byte.
fn load_of(
    graph: &mut Graph,
    alloc: Global,
    ram: &Pages,
    place: WordId,
    byte: u8,
) -> Result<u16, OutOfMemory>
    requires ram { HasWords graph.old ram.now }
    requires place { HasWord graph.old place }
    requires room { length graph.old.nodes ≤ 2000 }
{
    let read = pages_select(graph, alloc, ram, place)?;
    value_of(alloc, graph, read, byte)
}

/// An entry of a merge that takes the first of two RAMs.
fn merge_of(
    graph: &mut Graph,
    alloc: Global,
    first: &Pages,
    second: &Pages,
    place: u8,
) -> Result<(u16, u32), OutOfMemory>
    requires first { HasWords graph.old first.now }
    requires second { HasWords graph.old second.now }
    requires room { length graph.old.nodes ≤ 2000 }
{
    let yes = mk_known(graph, true)?;
    let both = pages_merge(graph, alloc, yes, first, second)?;
    entry_of(alloc, graph, &both, place, 0)
}

/// Values under a byte of 7F after a store of 9 there: the load's, and the next entry's.
fn pages_at_byte(alloc: Global) -> Result<(u16, u16), OutOfMemory> {
    let (mut graph, mut ram) = begin(alloc)?;
    let dp = mk_byte(&mut graph, 0)?;
    store_nine(&mut graph, alloc, &mut ram, dp)?;
    let next = entry_of(alloc, &graph, &ram, 0x80, 0x7F)?;
    Ok((load_of(&mut graph, alloc, &ram, dp, 0x7F)?, next.0))
}

/// The value of a load from 20 after a store of 9 there, and the numbers of two other entries.
fn pages_at_constant(alloc: Global) -> Result<(u16, [u32; 2]), OutOfMemory> {
    let (mut graph, mut ram) = begin(alloc)?;
    let place = mk_const(&mut graph, 0x20)?;
    store_nine(&mut graph, alloc, &mut ram, place)?;
    let others = [ram.get(0x21).number(), ram.get(0xFF).number()];
    Ok((load_of(&mut graph, alloc, &ram, place, 0)?, others))
}

/// What a store of 9 at 20 leaves in pages that were shared: the entry of the others, and that of a merge.
fn shared_pages(alloc: Global) -> Result<[(u16, u32); 2], OutOfMemory> {
    let (mut graph, mut first) = begin(alloc)?;
    let second = first.share()?;
    let place = mk_const(&mut graph, 0x20)?;
    store_nine(&mut graph, alloc, &mut first, place)?;
    Ok([
        entry_of(alloc, &graph, &second, 0x20, 0)?,
        merge_of(&mut graph, alloc, &first, &second, 0x20)?,
    ])
}

/// The value of a load at a byte of 7F from a list of the constants.
fn list_load_at_byte(alloc: Global) -> Result<u16, OutOfMemory> {
    let mut graph = graph_of(alloc)?;
    let ram = constants(alloc, &mut graph)?;
    let dp = mk_byte(&mut graph, 0)?;
    let read = ram_select(&mut graph, alloc, &ram, dp)?;
    value_of(alloc, &graph, read, 0x7F)
}

/// Stores the entry 9 of a list of words at a place. The words are in the graph afterwards.
fn store_in_list(
    graph: &mut Graph,
    alloc: Global,
    ram: &mut [WordId],
    dp: WordId,
) -> Result<(), OutOfMemory>
    requires len { length ram.old ≡ 256 }
    requires ram { HasWords graph.old ram.old }
    requires dp { HasWord graph.old dp }
    requires room { length graph.old.nodes ≤ 1000 }
    ensures ram { OnOk result (HasWords graph.new ram.new) }
{
    let nine = ram[9];
    ram_store(graph, alloc, ram, dp, nine)
}

/// The values of the entries 2 and 3 of a list of the constants after a store of 9 at a byte of 02.
fn list_store_at_byte(alloc: Global) -> Result<(u16, u16), OutOfMemory> {
    let mut graph = graph_of(alloc)?;
    let mut ram = constants(alloc, &mut graph)?;
    let dp = mk_byte(&mut graph, 0)?;
    store_in_list(&mut graph, alloc, &mut ram, dp)?;
    let (second, third) = (ram[2], ram[3]);
    Ok((
        value_of(alloc, &graph, second, 0x02)?,
        value_of(alloc, &graph, third, 0x02)?,
    ))
}

#[test]
fn ram_keeps_what_is_stored(rt: HostRuntime) -> Result<(), Fail> {
    assert_eq!(rt; list_load_at_byte(rt.alloc())?, 0x007F);
    assert_eq!(rt; list_store_at_byte(rt.alloc())?, (0x0009, 0x0003));
    assert_eq!(rt; pages_at_byte(rt.alloc())?, (0x0009, 0x0080));
    assert_eq!(rt; pages_at_constant(rt.alloc())?, (0x0009, [0x21, 0xFF]));
    assert_eq!(rt; shared_pages(rt.alloc())?, [(0x20, 0x20), (9, 9)]);
    Ok(())
}
