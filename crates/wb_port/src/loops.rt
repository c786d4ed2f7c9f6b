ghost use Rattle.std.specs.Prelude.{◌≡◌, ◌+◌, ◌%◌, ◌<◌, ◌≢◌, ℕ, true, false, IfSome, is_some};
ghost use Rattle.wb_port.specs.Wait.{instr_touches, instr_raises, instr_tests, instr_is_plain_jump, instr_follow};
ghost use Rattle.wb_port.specs.Wait.{src_touches, dst_touches, src_raises, dst_raises, cond_tests};
ghost use Rattle.wb_port.specs.Wait.{touches, raises_request, is_test, is_plain, follow, follow_times};
ghost use Rattle.wb_port.specs.Wait.{is_poll, to_gate, word_of};

use wb_rom::Image;
use wb_word::{Addr, Cond, Dst, Instr, Src, Word, decode};

/// The most words that a wait loop has.
const LONGEST: u8 = 8;

/// Whether a word touches the host port: it reads or writes DR or the status register, or tests RQM.
#[tactic(auto, unfolding(crate::specs::Wait::touches))]
pub fn touches(word: Word) -> bool
    ensures { result ≡ touches word.value }
{
    touches_port(decode(word))
}

/// Whether a word raises a request: it reads DR with a request, or it writes DR.
#[tactic(auto, unfolding(crate::specs::Wait::raises_request))]
pub fn raises(word: Word) -> bool
    ensures { result ≡ raises_request word.value }
{
    raises_rqm(decode(word))
}

/// Whether a word is a jump on RQM.
#[tactic(auto, unfolding(crate::specs::Wait::is_test))]
pub fn is_test(word: Word) -> bool
    ensures { result ≡ is_test word.value }
{
    tests_rqm(decode(word))
}

/// Where a chip goes from a plain word while RQM is 1: a word that does nothing, a jump always or a jump on
/// RQM. `None` comes where the word there isn't plain.
#[tactic(auto, unfolding(crate::specs::Wait::is_plain, crate::specs::Wait::follow), using(crate::proofs::Steady::nothing))]
pub fn follow(image: &Image, at: Addr) -> Option<Addr>
    ensures plain { is_some result ≡ is_plain (word_of image.now at.value) }
    ensures next { IfSome result (λ next. next.value ≡ follow image.now at.value) }
{
    let word = image.word_at(at);
    if word.value == 0 {
        return Some(after(at));
    }
    follow_jump(decode(word), at)
}

/// Whether an address is a poll: it stands in a wait loop of one to eight plain words with one test of RQM.
pub fn is_poll(image: &Image, at: Addr) -> bool
    ensures { result ≡ is_poll image.now at.value }
{
    let mut here = at;
    let mut tests = 0u8;
    for _walked in 0..LONGEST {
        let Some(next) = follow(image, here) else {
            return false;
        };
        tests += u8::from(is_test(image.word_at(here)));
        if next == at {
            return tests == 1;
        }
        here = next;
    }
    false
}

/// How many words a poll is before the test of its loop, below 8.
pub fn to_gate(image: &Image, at: Addr) -> u8
    requires { is_poll image.now at.value ≡ true }
    ensures value { result ≡ to_gate image.now at.value }
    ensures near { result < 8 }
{
    let mut here = at;
    let mut words = 0;
    while !is_test(image.word_at(here)) {
        let Some(next) = follow(image, here) else {
            unreachable!()
        };
        here = next;
        words += 1;
    }
    words
}

/// The address after another one, 11 bits.
fn after(at: Addr) -> Addr
    ensures { result.value ≡ (at.value + 1) % 2048 }
{
    Addr {
        value: (at.value + 1) & 0x7FF,
    }
}

/// Where a chip goes from a plain jump while RQM is 1.
fn follow_jump(instr: Instr, at: Addr) -> Option<Addr>
    ensures plain { is_some result ≡ instr_is_plain_jump instr }
    ensures next { IfSome result (λ next. next.value ≡ instr_follow instr at.value) }
{
    match instr {
        Instr::Jp {
            cond: Cond::Jmp,
            na,
            ..
        } => Some(na),
        Instr::Jp {
            cond: Cond::Jrqm,
            na,
            ..
        } => Some(na),
        Instr::Jp {
            cond: Cond::Jnrqm,
            ..
        } => Some(after(at)),
        _ => None,
    }
}

fn touches_port(instr: Instr) -> bool
    ensures { result ≡ instr_touches instr }
{
    match instr {
        Instr::Op(op) => reads_port(op.src) || writes_port(op.dst),
        Instr::Rt(op) => reads_port(op.src) || writes_port(op.dst),
        Instr::Jp { cond, .. } => tests_request(cond),
        Instr::Ld { dst, .. } => writes_port(dst),
    }
}

fn raises_rqm(instr: Instr) -> bool
    ensures { result ≡ instr_raises instr }
{
    match instr {
        Instr::Op(op) => asks_host(op.src) || tells_host(op.dst),
        Instr::Rt(op) => asks_host(op.src) || tells_host(op.dst),
        Instr::Jp { .. } => false,
        Instr::Ld { dst, .. } => tells_host(dst),
    }
}

fn tests_rqm(instr: Instr) -> bool
    ensures { result ≡ instr_tests instr }
{
    match instr {
        Instr::Jp { cond, .. } => tests_request(cond),
        _ => false,
    }
}

fn reads_port(src: Src) -> bool
    ensures { result ≡ src_touches src }
{
    match src {
        Src::Dr | Src::Drnf | Src::Sr => true,
        _ => false,
    }
}

fn writes_port(dst: Dst) -> bool
    ensures { result ≡ dst_touches dst }
{
    match dst {
        Dst::Dr | Dst::Sr => true,
        _ => false,
    }
}

fn tests_request(cond: Cond) -> bool
    ensures { result ≡ cond_tests cond }
{
    match cond {
        Cond::Jnrqm | Cond::Jrqm => true,
        _ => false,
    }
}

fn asks_host(src: Src) -> bool
    ensures { result ≡ src_raises src }
{
    match src {
        Src::Dr => true,
        _ => false,
    }
}

fn tells_host(dst: Dst) -> bool
    ensures { result ≡ dst_raises dst }
{
    match dst {
        Dst::Dr => true,
        _ => false,
    }
}
