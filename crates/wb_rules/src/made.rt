ghost use Rattle.std.specs.Prelude.{◌≡◌, ◌+◌, ◌<◌, ◌≤◌, ◌^◌, [], IfOk, length};
ghost use Rattle.wb_term.specs.Terms.{Terms, HasWord, HasBit};
ghost use Rattle.wb_rules.specs.Made.{AllThere};

use wb_make::{
    OutOfMemory, mk_and, mk_andb, mk_borrow, mk_byte, mk_carry, mk_cell, mk_const, mk_diff,
    mk_high, mk_ite, mk_iteb, mk_known, mk_low, mk_not, mk_notb, mk_or, mk_orb, mk_pick, mk_same,
    mk_shl, mk_shr, mk_sum, mk_xor, mk_xorb,
};
use wb_term::{BitId, Graph, WordId};

/// A word to work with.
#[derive(Clone, Copy)]
pub enum At {
    /// Two words of the RAM.
    Z,
    W,
    /// The row's constant.
    Y,
    /// The constant 00FF.
    U,
    /// A byte.
    T,
    /// The word made last, and the one before.
    A,
    B,
}

/// A bit to work with.
#[derive(Clone, Copy)]
pub enum On {
    /// 0 and 1.
    C,
    D,
    /// The lowest bits of Z and W.
    F,
    G,
    /// The bit made last, and the one before.
    P,
    Q,
}

/// A constructor of a word.
#[derive(Clone, Copy)]
pub enum WordStep {
    Keep,
    Not(At),
    And(At, At),
    Or(At, At),
    Xor(At, At),
    Sum(At, At, On),
    Diff(At, At, On),
    Ite(On, At, At),
    Shl(At, u8),
    Shr(At, u8),
    High(At, At),
    Low(At, At),
}

/// A constructor of a bit.
#[derive(Clone, Copy)]
pub enum BitStep {
    Still,
    Pick(At, u8),
    NotB(On),
    AndB(On, On),
    OrB(On, On),
    XorB(On, On),
    IteB(On, On, On),
    Same(At, At),
    Carry(At, At, On),
    Borrow(At, At, On),
}

/// The nodes to work with. Those of the beginning have the numbers 0 to 8, in order of the fields.
#[derive(Clone, Copy)]
pub struct Made {
    pub z: WordId,
    pub w: WordId,
    pub y: WordId,
    pub u: WordId,
    pub t: WordId,
    pub c: BitId,
    pub d: BitId,
    pub f: BitId,
    pub g: BitId,
    pub a: WordId,
    pub b: WordId,
    pub p: BitId,
    pub q: BitId,
}

impl Made {
    fn word(&self, at: At) -> WordId
        ensures { (g : Terms) → AllThere g self.now → HasWord g result }
    {
        match at {
            At::Z => self.z,
            At::W => self.w,
            At::Y => self.y,
            At::U => self.u,
            At::T => self.t,
            At::A => self.a,
            At::B => self.b,
        }
    }

    fn bit(&self, on: On) -> BitId
        ensures { (g : Terms) → AllThere g self.now → HasBit g result }
    {
        match on {
            On::C => self.c,
            On::D => self.d,
            On::F => self.f,
            On::G => self.g,
            On::P => self.p,
            On::Q => self.q,
        }
    }

    fn with_word(&self, a: WordId) -> Made
        ensures { (g : Terms) → AllThere g self.now → HasWord g a → AllThere g result }
    {
        let mut made = *self;
        made.b = made.a;
        made.a = a;
        made
    }

    fn with_bit(&self, p: BitId) -> Made
        ensures { (g : Terms) → AllThere g self.now → HasBit g p → AllThere g result }
    {
        let mut made = *self;
        made.q = made.p;
        made.p = p;
        made
    }
}

#[derive(Clone, Copy)]
struct Words {
    z: WordId,
    w: WordId,
    y: WordId,
    u: WordId,
    t: WordId,
}

fn begin_words(graph: &mut Graph, constant: u16) -> Result<Words, OutOfMemory>
    requires empty { graph.old.nodes ≡ [] }
    ensures z { IfOk result (λ m. HasWord graph.new m.z) }
    ensures w { IfOk result (λ m. HasWord graph.new m.w) }
    ensures y { IfOk result (λ m. HasWord graph.new m.y) }
    ensures u { IfOk result (λ m. HasWord graph.new m.u) }
    ensures t { IfOk result (λ m. HasWord graph.new m.t) }
    ensures few { length graph.new.nodes ≤ 5 }
{
    let z = mk_cell(graph, 9)?;
    let w = mk_cell(graph, 10)?;
    let y = mk_const(graph, constant)?;
    let u = mk_const(graph, 0x00FF)?;
    let t = mk_byte(graph, 0)?;
    Ok(Words { z, w, y, u, t })
}

/// What there is to work with at the beginning.
pub fn begin(graph: &mut Graph, constant: u16) -> Result<Made, OutOfMemory>
    requires empty { graph.old.nodes ≡ [] }
    ensures there { IfOk result (λ made. AllThere graph.new made) }
    ensures few { length graph.new.nodes ≤ 9 }
{
    let words = begin_words(graph, constant)?;
    let c = mk_known(graph, false)?;
    let d = mk_known(graph, true)?;
    let f = mk_pick(graph, words.z, 0)?;
    let g = mk_pick(graph, words.w, 0)?;
    Ok(Made {
        z: words.z,
        w: words.w,
        y: words.y,
        u: words.u,
        t: words.t,
        c,
        d,
        f,
        g,
        a: words.z,
        b: words.z,
        p: f,
        q: f,
    })
}

/// The word of a step.
fn made_word(graph: &mut Graph, made: &Made, step: WordStep) -> Result<WordId, OutOfMemory>
    requires there { AllThere graph.old made.now }
    requires room { length graph.old.nodes < 2 ^ 31 }
    ensures word { IfOk result (λ id. HasWord graph.new id) }
    ensures kept { AllThere graph.new made.now }
    ensures longer { length graph.new.nodes ≤ length graph.old.nodes + 1 }
{
    match step {
        WordStep::Keep => Ok(made.a),
        WordStep::Not(x) => mk_not(graph, made.word(x)),
        WordStep::And(x, y) => mk_and(graph, made.word(x), made.word(y)),
        WordStep::Or(x, y) => mk_or(graph, made.word(x), made.word(y)),
        WordStep::Xor(x, y) => mk_xor(graph, made.word(x), made.word(y)),
        WordStep::Sum(x, y, c) => mk_sum(graph, made.word(x), made.word(y), made.bit(c)),
        WordStep::Diff(x, y, c) => mk_diff(graph, made.word(x), made.word(y), made.bit(c)),
        WordStep::Ite(c, x, y) => mk_ite(graph, made.bit(c), made.word(x), made.word(y)),
        WordStep::Shl(x, m) => mk_shl(graph, made.word(x), m & 15),
        WordStep::Shr(x, m) => mk_shr(graph, made.word(x), m & 15),
        WordStep::High(x, y) => mk_high(graph, made.word(x), made.word(y)),
        WordStep::Low(x, y) => mk_low(graph, made.word(x), made.word(y)),
    }
}

/// The bit of a step.
fn made_bit(graph: &mut Graph, made: &Made, step: BitStep) -> Result<BitId, OutOfMemory>
    requires there { AllThere graph.old made.now }
    requires room { length graph.old.nodes < 2 ^ 31 }
    ensures bit { IfOk result (λ id. HasBit graph.new id) }
    ensures kept { AllThere graph.new made.now }
    ensures longer { length graph.new.nodes ≤ length graph.old.nodes + 1 }
{
    match step {
        BitStep::Still => Ok(made.p),
        BitStep::Pick(x, m) => mk_pick(graph, made.word(x), m & 15),
        BitStep::NotB(c) => mk_notb(graph, made.bit(c)),
        BitStep::AndB(c, d) => mk_andb(graph, made.bit(c), made.bit(d)),
        BitStep::OrB(c, d) => mk_orb(graph, made.bit(c), made.bit(d)),
        BitStep::XorB(c, d) => mk_xorb(graph, made.bit(c), made.bit(d)),
        BitStep::IteB(c, d, e) => mk_iteb(graph, made.bit(c), made.bit(d), made.bit(e)),
        BitStep::Same(x, y) => mk_same(graph, made.word(x), made.word(y)),
        BitStep::Carry(x, y, c) => mk_carry(graph, made.word(x), made.word(y), made.bit(c)),
        BitStep::Borrow(x, y, c) => mk_borrow(graph, made.word(x), made.word(y), made.bit(c)),
    }
}

/// The nodes after some words were made.
pub fn after_words(graph: &mut Graph, start: Made, steps: &[WordStep]) -> Result<Made, OutOfMemory>
    requires there { AllThere graph.old start }
    requires room { length graph.old.nodes + length steps.now < 2 ^ 31 }
    ensures there { IfOk result (λ made. AllThere graph.new made) }
    ensures longer { length graph.new.nodes ≤ length graph.old.nodes + length steps.now }
{
    let mut made = start;
    for step in steps {
        let a = made_word(graph, &made, *step)?;
        made = made.with_word(a);
    }
    Ok(made)
}

/// The nodes after some bits were made.
pub fn after_bits(graph: &mut Graph, start: Made, steps: &[BitStep]) -> Result<Made, OutOfMemory>
    requires there { AllThere graph.old start }
    requires room { length graph.old.nodes + length steps.now < 2 ^ 31 }
    ensures there { IfOk result (λ made. AllThere graph.new made) }
    ensures longer { length graph.new.nodes ≤ length graph.old.nodes + length steps.now }
{
    let mut made = start;
    for step in steps {
        let p = made_bit(graph, &made, *step)?;
        made = made.with_bit(p);
    }
    Ok(made)
}
