ghost use Rattle.std.specs.Prelude.{◌≡◌, ◌+◌, ◌/◌, ◌%◌, ◌<◌, ◌≤◌, ◌^◌, ◌++◌, get_or, length, true};
ghost use Rattle.wb_word.specs.declared.codes.Dst.TheVariants as dst;
ghost use Rattle.wb_word.specs.declared.codes.Src.TheVariants as src;
ghost use Rattle.wb_gen.specs.Demo.{body_of, body_sources, body_targets, next_drawn, padded, word_of_bits};

use crate::program::Program;
use wb_word::{Acc, Alu, Dpl, Dst, Instr, Nibble, OpWord, P, Src, Word, encode};

/// The number that is drawn after another.
fn draw_after(number: u64) -> u64
    ensures { result ≡ next_drawn number }
{
    number
        .wrapping_mul(6364136223846793005)
        .wrapping_add(1442695040888963407)
}

/// The source at a place of the list.
fn source_at(place: u64) -> Src
    requires { place < 8 }
    ensures { result ≡ get_or body_sources place src.A }
{
    match place {
        0 => Src::A,
        1 => Src::B,
        2 => Src::Tr,
        3 => Src::Trb,
        4 => Src::K,
        5 => Src::L,
        6 => Src::Sgn,
        _ => Src::Rp,
    }
}

/// The target at a place of the list.
fn target_at(place: u64) -> Dst
    requires { place < 8 }
    ensures { result ≡ get_or body_targets place dst.Non }
{
    match place {
        1 => Dst::Tr,
        2 => Dst::Trb,
        3 => Dst::K,
        4 => Dst::L,
        7 => Dst::A,
        _ => Dst::Non,
    }
}

/// The body word of some drawn bits.
#[tactic(auto, unfolding(crate::specs::Demo::word_of_bits))]
fn body_word(bits: u64) -> Word
    ensures { result.value ≡ word_of_bits bits }
{
    encode(&Instr::Op(OpWord {
        p: P::Idb,
        alu: Alu::from_code((bits & 0xF) as u32),
        acc: Acc::from_code((bits >> 4 & 0x1) as u32),
        dpl: Dpl::DpNop,
        dphm: Nibble { value: 0 },
        rpdec: false,
        src: source_at(bits >> 5 & 0x7),
        dst: target_at(bits >> 8 & 0x7),
    }))
}

/// Writes the body of a number into both programs, into the second with words between that do nothing.
pub(crate) fn write_bodies(number: u64, first: &mut Program, second: &mut Program)
    requires first { length first.old + 64 ≤ 2048 }
    requires second { length second.old + 128 ≤ 2048 }
    ensures first { first.new ≡ first.old ++ body_of number }
    ensures second { second.new ≡ second.old ++ padded true (body_of number) }
    ensures first_length { length first.new ≡ length first.old + 64 }
    ensures second_length { length second.new ≤ length second.old + 128 }
{
    let mut drawn = number;
    let mut followed = true;
    for _ in 0..64u64 {
        drawn = draw_after(drawn);
        let word = body_word(drawn >> 40);
        first.push(word);
        second.push_padded(word, followed);
        followed = !followed;
    }
}
