ghost use Rattle.std.specs.Prelude.{◌≡◌, ◌+◌, ◌-◌, ◌*◌, ◌/◌, ◌%◌, pos, ◌+ℤ◌, ◌-ℤ◌, nat_lt, true, false};
ghost use Rattle.wb_alu.specs.Operation.{alu_result, alu_flags, bit, cut, less, signed, is_outside, flags_after};

use crate::flags::Flags;
use wb_word::Alu;

/// One operation of the ALU, as the data sheet of the µPD77C25 names them.
///
/// `q` is the selected accumulator, `p` the operand, `other_c` the carry of the other accumulator, and
/// `flags` those of the selected one. Which operations take `other_c`, what the shifts fill in and the
/// rules of `s1` and `ov1` are those of the workbench's profile: the chip may differ.
pub fn alu(op: Alu, q: u16, p: u16, other_c: bool, flags: Flags) -> (u16, Flags)
    ensures value { result.0 ≡ alu_result op q p other_c }
    ensures flags { result.1 ≡ alu_flags op q p other_c flags }
{
    match op {
        Alu::Nop => (q, flags),
        Alu::Or => other(q | p, false, flags),
        Alu::And => other(q & p, false, flags),
        Alu::Xor => other(q ^ p, false, flags),
        Alu::Sub => difference(q, p, false, flags),
        Alu::Add => sum(q, p, false, flags),
        Alu::Sbb => difference(q, p, other_c, flags),
        Alu::Adc => sum(q, p, other_c, flags),
        Alu::Dec => difference(q, 1, false, flags),
        Alu::Inc => sum(q, 1, false, flags),
        Alu::Cmp => other(inverted(q), false, flags),
        Alu::Shr1 => other(halved(q), q & 1 == 1, flags),
        Alu::Shl1 => other(doubled(q, other_c), q >> 15 == 1, flags),
        Alu::Shl2 => other(shifted_by_2(q), false, flags),
        Alu::Shl4 => other(shifted_by_4(q), false, flags),
        Alu::Xchg => other(exchanged(q), false, flags),
    }
}

fn other(value: u16, carry: bool, flags: Flags) -> (u16, Flags)
    ensures value { result.0 ≡ value }
    ensures flags { result.1 ≡ flags_after false value carry false flags }
{
    (value, flags.after_other(value, carry))
}

fn sum(q: u16, p: u16, carry: bool, flags: Flags) -> (u16, Flags)
    ensures value { result.0 ≡ cut (q + p + bit carry) }
    ensures flags { result.1 ≡ flags_after true (cut (q + p + bit carry)) (nat_lt 65535 (q + p + bit carry))
        (is_outside (signed q +ℤ signed p +ℤ pos (bit carry))) flags }
{
    let exact = u32::from(q) + u32::from(p) + u32::from(carry);
    let value = (exact & 0xFFFF) as u16;
    (
        value,
        flags.after_arithmetic(value, exact > 0xFFFF, sum_overflows(q, p, carry)),
    )
}

fn sum_overflows(q: u16, p: u16, carry: bool) -> bool
    ensures { result ≡ is_outside (signed q +ℤ signed p +ℤ pos (bit carry)) }
{
    let exact = u32::from(q) + u32::from(p) + u32::from(carry);
    let sign = (exact >> 15) & 1;
    u32::from(q >> 15) != sign && u32::from(p >> 15) != sign
}

fn difference(q: u16, p: u16, borrow: bool, flags: Flags) -> (u16, Flags)
    ensures value { result.0 ≡ less q (p + bit borrow) }
    ensures flags { result.1 ≡ flags_after true (less q (p + bit borrow)) (nat_lt q (p + bit borrow))
        (is_outside (signed q -ℤ signed p -ℤ pos (bit borrow))) flags }
{
    let taken = u32::from(p) + u32::from(borrow);
    let value = (u32::from(q).wrapping_sub(taken) & 0xFFFF) as u16;
    (
        value,
        flags.after_arithmetic(
            value,
            u32::from(q) < taken,
            difference_overflows(q, p, borrow),
        ),
    )
}

fn difference_overflows(q: u16, p: u16, borrow: bool) -> bool
    ensures { result ≡ is_outside (signed q -ℤ signed p -ℤ pos (bit borrow)) }
{
    let taken = u32::from(p) + u32::from(borrow);
    let sign = (u32::from(q).wrapping_sub(taken) >> 15) & 1;
    u32::from(q >> 15) != sign && u32::from(p >> 15) == sign
}

fn inverted(q: u16) -> u16
    ensures { result ≡ 65535 - q }
{
    !q
}

fn halved(q: u16) -> u16
    ensures { result ≡ q / 32768 * 32768 + q / 2 }
{
    (q & 0x8000) + (q >> 1)
}

fn doubled(q: u16, low: bool) -> u16
    ensures { result ≡ cut (q * 2 + bit low) }
{
    (q << 1) + u16::from(low)
}

fn shifted_by_2(q: u16) -> u16
    ensures { result ≡ cut (q * 4 + 3) }
{
    (q << 2) + 3
}

fn shifted_by_4(q: u16) -> u16
    ensures { result ≡ cut (q * 16 + 15) }
{
    (q << 4) + 15
}

fn exchanged(q: u16) -> u16
    ensures { result ≡ q % 256 * 256 + q / 256 }
{
    (q << 8) + (q >> 8)
}
