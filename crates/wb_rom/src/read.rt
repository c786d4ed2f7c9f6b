ghost use Rattle.std.specs.Prelude.{◌≡◌, ℕ, ◌+◌, ◌*◌, ◌<◌, ◌≤◌, ◌^◌, length, slice_index};
ghost use Rattle.wb_word.specs.Table.{IsTable};
ghost use Rattle.wb_rom.specs.ImageBytes.{pair_at, triple_at};

use byteorder::{ByteOrder, LittleEndian};
use wb_word::Rom;

/// The number in two bytes from a place, the low byte first.
fn read_pair(bytes: &[u8], at: usize) -> u16
    requires { at + 2 ≤ length bytes.now }
    ensures { result ≡ pair_at bytes.now at }
{
    LittleEndian::read_u16(&bytes[at..at + 2])
}

/// The number in three bytes from a place, the low byte first.
fn read_triple(bytes: &[u8], at: usize) -> u32
    requires { at + 3 ≤ length bytes.now }
    ensures value { result ≡ triple_at bytes.now at }
    ensures below { result < 2 ^ 24 }
{
    u32::from(read_pair(bytes, at)) + (u32::from(bytes[at + 2]) << 16)
}

/// The program memory takes the words in the first 6144 bytes of a file.
pub(crate) fn read_program(prog: &mut Rom<2048, 24>, bytes: &[u8])
    requires table { IsTable 2048 24 prog.old }
    requires file { length bytes.now ≡ 8192 }
    ensures table { IsTable 2048 24 prog.new }
    ensures words { (k : ℕ) → k < 2048 → slice_index prog.new k ≡ triple_at bytes.now (3 * k) }
{
    for k in 0..2048 {
        prog.set(k, read_triple(bytes, 3 * k));
    }
}

/// The data memory takes the words in the last 2048 bytes of a file.
pub(crate) fn read_data(drom: &mut Rom<1024, 16>, bytes: &[u8])
    requires table { IsTable 1024 16 drom.old }
    requires file { length bytes.now ≡ 8192 }
    ensures table { IsTable 1024 16 drom.new }
    ensures words { (k : ℕ) → k < 1024 → slice_index drom.new k ≡ pair_at bytes.now (6144 + 2 * k) }
{
    for k in 0..1024 {
        drom.set(k, u32::from(read_pair(bytes, 6144 + 2 * k)));
    }
}
