ghost use Rattle.std.specs.Prelude.{◌≡◌, ◌+◌, ◌<◌, ◌≤◌, ◌^◌, Bool, IfOk, OnOk, OnErr, length, slice_set};
ghost use Rattle.wb_term.specs.declared.nodes.Node.{Node};
ghost use Rattle.wb_term.specs.Terms.{HasWord, HasBit};
ghost use Rattle.wb_term.specs.Values.{IsWord};
ghost use Rattle.wb_term.specs.Under.{HasOnly};
ghost use Rattle.wb_term.specs.Growth.{Grown, AddsAtMost};
ghost use Rattle.wb_fold.specs.Ram.{word_in, HasWords, AreWords, WordsHaveOnly, selected, stored, merged};
ghost use Rattle.wb_fold.specs.Pages.{cells};

use crate::page::Page;
use crate::ram::{ram_select, ram_store};
use std::alloc::Global;
use std::marker::Model;
use std::rc::Rc;
use wb_make::mk_ite;
use wb_term::{BitId, Graph, OutOfMemory, WordId, WordNode};

/// A RAM of 256 words in 16 pages, which equal RAMs share.
#[derive(Drop)]
pub struct Pages {
    pages: Vec<Rc<Page>>,
}

impl Model for Pages {
    ghost use Rattle.std.specs.Prelude.{List};
    ghost use Rattle.wb_term.specs.declared.nodes.WordId.{WordId};
    ghost use Rattle.wb_fold.specs.Pages.{all_cells, ArePages};

    ghost Value = { List WordId };

    ghost view = { λ p. all_cells p.pages.items };

    ghost invariant = { λ p. ArePages p.pages.items };
}

impl Pages {
    /// The pages of a list of 256 words.
    pub fn from_list(alloc: Global, ram: &[WordId]) -> Result<Pages, OutOfMemory>
        requires len { length ram.now ≡ 256 }
        ensures list { IfOk result (λ pages. pages ≡ ram.now) }
        ensures len { IfOk result (λ pages. length pages ≡ 256) }
    {
        let mut pages = Vec::with_capacity(alloc, 16)?;
        for at in 0..16 {
            let page = page_of(alloc, &ram[16 * at..16 * at + 16])?;
            pages.push(page)?;
        }
        Ok(Pages { pages })
    }

    /// The same list. The pages are shared.
    #[tactic(auto, using(crate::proofs::PageLaws::pages_len))]
    pub fn share(&self) -> Result<Pages, OutOfMemory>
        ensures list { IfOk result (λ pages. pages ≡ self.now) }
        ensures len { length self.now ≡ 256 }
    {
        let pages = self.pages.clone()?;
        Ok(Pages { pages })
    }

    /// The entry of an address.
    #[tactic(auto, using(crate::proofs::PageLaws::pages_len))]
    pub fn get(&self, dp: u8) -> WordId
        ensures entry { result ≡ word_in self.now dp }
        ensures len { length self.now ≡ 256 }
    {
        self.pages[usize::from(dp / 16)].cells[usize::from(dp % 16)]
    }

    /// Replaces the entry of an address. One page alone is copied.
    #[tactic(auto, using(crate::proofs::PageLaws::pages_len))]
    fn set(&mut self, alloc: Global, dp: u8, word: WordId) -> Result<(), OutOfMemory>
        ensures entry { OnOk result (self.new ≡ slice_set self.old dp word) }
        ensures refused { OnErr result (self.new ≡ self.old) }
        ensures len { length self.old ≡ 256 }
    {
        let place = usize::from(dp / 16);
        let mut page: Page = *self.pages[place];
        page.cells[usize::from(dp % 16)] = word;
        let copy = Rc::new(alloc, page)?;
        self.pages[place] = copy;
        Ok(())
    }

    /// The words in a list of their own.
    #[tactic(auto, using(crate::proofs::PageLaws::pages_len))]
    fn to_words(&self, alloc: Global) -> Result<Vec<WordId>, OutOfMemory>
        ensures list { IfOk result (λ words. words.items ≡ self.now) }
        ensures len { length self.now ≡ 256 }
    {
        let pages = &self.pages;
        let mut words = Vec::with_capacity(alloc, 256)?;
        for page in pages {
            words.extend_from_slice(&page.cells)?;
        }
        Ok(words)
    }

    /// The pages of a list of 256 words. A page that stands here with the same words is shared.
    fn renewed(&self, alloc: Global, ram: &[WordId]) -> Result<Pages, OutOfMemory>
        requires len { length ram.now ≡ 256 }
        ensures list { IfOk result (λ pages. pages ≡ ram.now) }
        ensures len { IfOk result (λ pages. length pages ≡ 256) }
    {
        let mut pages = Vec::with_capacity(alloc, 16)?;
        for at in 0..16 {
            let page = shared_page(alloc, &ram[16 * at..16 * at + 16], &self.pages[at])?;
            pages.push(page)?;
        }
        Ok(Pages { pages })
    }
}

/// A page of 16 words.
fn page_of(alloc: Global, words: &[WordId]) -> Result<Rc<Page>, OutOfMemory>
    requires len { length words.now ≡ 16 }
    ensures words { IfOk result (λ page. cells page ≡ words.now) }
{
    let mut page = Page {
        cells: [words[0]; 16],
    };
    page.cells.copy_from_slice(words);
    let page = Rc::new(alloc, page)?;
    Ok(page)
}

/// A page of 16 words, which is the given one where that has these.
fn shared_page(alloc: Global, words: &[WordId], given: &Rc<Page>) -> Result<Rc<Page>, OutOfMemory>
    requires len { length words.now ≡ 16 }
    ensures words { IfOk result (λ page. cells page ≡ words.now) }
{
    if given.cells.as_slice() == words {
        let page = given.clone()?;
        return Ok(page);
    }
    page_of(alloc, words)
}

/// The word of a RAM in pages at the low 8 bits of an address.
///
/// A constant address gives the entry itself; another makes a tree of choices.
pub fn pages_select(
    graph: &mut Graph,
    alloc: Global,
    ram: &Pages,
    dp: WordId,
) -> Result<WordId, OutOfMemory>
    requires ram { HasWords graph.old ram.now }
    requires dp { HasWord graph.old dp }
    requires room { length graph.old.nodes + 300 ≤ 2 ^ 31 }
    ensures len { length ram.now ≡ 256 }
    ensures value { IfOk result (λ id. IsWord graph.new id (λ inputs. selected inputs graph.old ram.now dp)) }
    ensures inputs { IfOk result (λ id. (allowed : Node → Bool) → WordsHaveOnly graph.old allowed ram.now →
        HasOnly graph.old allowed dp.number → HasOnly graph.new allowed id.number) }
    ensures grown { Grown graph.old graph.new }
    ensures adds { AddsAtMost graph.old graph.new 300 4080 }
{
    if let WordNode::Const(at) = graph.word_at(dp) {
        return Ok(ram.get((at & 0xFF) as u8));
    }
    let words = ram.to_words(alloc)?;
    ram_select(graph, alloc, &words, dp)
}

/// Stores a word in a RAM in pages at the low 8 bits of an address.
///
/// A constant address replaces the entry itself, and the other pages stay shared; another makes each entry a
/// choice. A refusal leaves the RAM.
pub fn pages_store(
    graph: &mut Graph,
    alloc: Global,
    ram: &mut Pages,
    dp: WordId,
    value: WordId,
) -> Result<(), OutOfMemory>
    requires ram { HasWords graph.old ram.old }
    requires dp { HasWord graph.old dp }
    requires value { HasWord graph.old value }
    requires room { length graph.old.nodes + 800 ≤ 2 ^ 31 }
    ensures len { (length ram.old ≡ 256) × (length ram.new ≡ 256) }
    ensures value { OnOk result (AreWords graph.new ram.new (λ inputs k. stored inputs graph.old ram.old dp value k)) }
    ensures inputs { OnOk result ((allowed : Node → Bool) → WordsHaveOnly graph.old allowed ram.old →
        HasOnly graph.old allowed dp.number → HasOnly graph.old allowed value.number → WordsHaveOnly graph.new allowed ram.new) }
    ensures refused { OnErr result (ram.new ≡ ram.old) }
    ensures grown { Grown graph.old graph.new }
    ensures adds { AddsAtMost graph.old graph.new 800 4606 }
{
    if let WordNode::Const(at) = graph.word_at(dp) {
        ram.set(alloc, (at & 0xFF) as u8, value)?;
        return Ok(());
    }
    let mut words = ram.to_words(alloc)?;
    ram_store(graph, alloc, &mut words, dp, value)?;
    let after = ram.renewed(alloc, &words)?;
    *ram = after;
    Ok(())
}

/// The RAM of one side where a bit is set, else that of the other.
///
/// A page that is equal on both sides is shared, and adds no node.
pub fn pages_merge(
    graph: &mut Graph,
    alloc: Global,
    cond: BitId,
    yes: &Pages,
    no: &Pages,
) -> Result<Pages, OutOfMemory>
    requires cond { HasBit graph.old cond }
    requires yes { HasWords graph.old yes.now }
    requires no { HasWords graph.old no.now }
    requires room { length graph.old.nodes + 256 ≤ 2 ^ 31 }
    ensures len { IfOk result (λ pages. length pages ≡ 256) }
    ensures value { IfOk result (λ pages. AreWords graph.new pages (λ inputs k. merged inputs graph.old cond yes.now no.now k)) }
    ensures inputs { IfOk result (λ pages. (allowed : Node → Bool) → HasOnly graph.old allowed cond.number →
        WordsHaveOnly graph.old allowed yes.now → WordsHaveOnly graph.old allowed no.now → WordsHaveOnly graph.new allowed pages) }
    ensures grown { Grown graph.old graph.new }
    ensures adds { AddsAtMost graph.old graph.new 256 4096 }
{
    let words = merged_words(graph, alloc, cond, yes, no)?;
    yes.renewed(alloc, &words)
}

/// The entries of two RAMs, merged.
fn merged_words(
    graph: &mut Graph,
    alloc: Global,
    cond: BitId,
    yes: &Pages,
    no: &Pages,
) -> Result<Vec<WordId>, OutOfMemory>
    requires cond { HasBit graph.old cond }
    requires yes { HasWords graph.old yes.now }
    requires no { HasWords graph.old no.now }
    requires room { length graph.old.nodes + 256 ≤ 2 ^ 31 }
    ensures len { IfOk result (λ words. length words.items ≡ 256) }
    ensures value { IfOk result (λ words. AreWords graph.new words.items (λ inputs k. merged inputs graph.old cond yes.now no.now k)) }
    ensures inputs { IfOk result (λ words. (allowed : Node → Bool) → HasOnly graph.old allowed cond.number →
        WordsHaveOnly graph.old allowed yes.now → WordsHaveOnly graph.old allowed no.now → WordsHaveOnly graph.new allowed words.items) }
    ensures grown { Grown graph.old graph.new }
    ensures adds { AddsAtMost graph.old graph.new 256 4096 }
{
    let mut words = Vec::with_capacity(alloc, 256)?;
    for at in 0..256u16 {
        let word = mk_ite(graph, cond, yes.get(at as u8), no.get(at as u8))?;
        words.push(word)?;
    }
    Ok(words)
}
