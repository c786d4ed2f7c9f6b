ghost use Rattle.std.specs.Prelude.{◌≡◌, ℕ, ◌+◌, ◌*◌, ◌<◌, ◌≤◌, ◌^◌, length, slice_index};
ghost use Rattle.wb_rom.specs.ImageBytes.{AreBytes, pair_at, triple_at};

use byteorder::{ByteOrder, LittleEndian};
use wb_word::Rom;

/// Writes a number into two bytes from a place, the low byte first.
fn write_pair(bytes: &mut [u8], at: usize, value: u16)
    requires { at + 2 ≤ length bytes.old }
    ensures len { length bytes.new ≡ length bytes.old }
    ensures before { (k : ℕ) → k < at → slice_index bytes.new k ≡ slice_index bytes.old k }
    ensures each_byte { AreBytes at bytes.old → AreBytes (at + 2) bytes.new }
    ensures value { pair_at bytes.new at ≡ value }
{
    LittleEndian::write_u16(&mut bytes[at..at + 2], value);
}

/// Writes a number into three bytes from a place, the low byte first.
fn write_triple(bytes: &mut [u8], at: usize, value: u32)
    requires at { at + 3 ≤ length bytes.old }
    requires value { value < 2 ^ 24 }
    ensures len { length bytes.new ≡ length bytes.old }
    ensures before { (k : ℕ) → k < at → slice_index bytes.new k ≡ slice_index bytes.old k }
    ensures each_byte { AreBytes at bytes.old → AreBytes (at + 3) bytes.new }
    ensures value { triple_at bytes.new at ≡ value }
{
    write_pair(bytes, at, (value & 0xFFFF) as u16);
    bytes[at + 2] = (value >> 16) as u8;
}

/// Writes the program memory into the first 6144 bytes of a file.
pub(crate) fn write_program(bytes: &mut [u8], prog: &Rom<2048, 24>)
    requires { length bytes.old ≡ 8192 }
    ensures len { length bytes.new ≡ 8192 }
    ensures each_byte { AreBytes 6144 bytes.new }
    ensures words { (k : ℕ) → k < 2048 → slice_index prog.now k ≡ triple_at bytes.new (3 * k) }
{
    for k in 0..2048 {
        write_triple(bytes, 3 * k, prog.get(k));
    }
}

/// Writes the data memory into the last 2048 bytes of a file.
pub(crate) fn write_data(bytes: &mut [u8], drom: &Rom<1024, 16>)
    requires len { length bytes.old ≡ 8192 }
    requires each_byte { AreBytes 6144 bytes.old }
    ensures len { length bytes.new ≡ 8192 }
    ensures each_byte { AreBytes 8192 bytes.new }
    ensures before { (k : ℕ) → k < 6144 → slice_index bytes.new k ≡ slice_index bytes.old k }
    ensures words { (k : ℕ) → k < 1024 → slice_index drom.now k ≡ pair_at bytes.new (6144 + 2 * k) }
{
    for k in 0..1024 {
        write_pair(bytes, 6144 + 2 * k, drom.get(k) as u16);
    }
}
