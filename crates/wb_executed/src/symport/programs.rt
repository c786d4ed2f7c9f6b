//! The worked programs, and where each stands at its second request.

/// What DR has at the second request.
#[derive(Clone, Copy)]
pub(super) enum Held {
    /// The first byte.
    Byte,
    /// The first byte, but C4 for C3.
    Changed,
    /// Both bytes, the first one low.
    Word,
    Zero,
}

/// A program, PC at its second request, and what DR has there.
pub(super) type Program = (&'static [u32], u16, Held);

pub(super) const PROGRAMS: [Program; 18] = [
    (ECHO, 5, Held::Byte),
    (SLOW, 6, Held::Byte),
    (CHANGED, 9, Held::Changed),
    (WORK, 8, Held::Byte),
    (PEEK, 5, Held::Byte),
    (FLAG, 5, Held::Byte),
    (SUM, 2, Held::Byte),
    (SUM_SLOW, 2, Held::Byte),
    (WIDE, 4, Held::Word),
    (PRODUCT, 3, Held::Word),
    (PRODUCT_B, 3, Held::Word),
    (CONTROL, 4, Held::Word),
    (LOOP, 6, Held::Byte),
    (LOOP_SLOW, 6, Held::Byte),
    (POWER_A, 2, Held::Zero),
    (POWER_B, 2, Held::Zero),
    (POWER_C, 3, Held::Zero),
    (POWER_D, 3, Held::Zero),
];

/// Programs that go once round the program memory to their second request.
pub(super) const ROUNDS: [Program; 2] = [(EIGHT, 2, Held::Byte), (NINE, 2, Held::Byte)];

/// Sends back each byte that it is sent.
const ECHO: &[u32] = &[
    0xC1_0007, 0x00_0080, 0x97_C008, 0x00_0091, 0x00_0016, 0x97_C014, 0xA0_0004,
];

/// The same, one instruction later.
const SLOW: &[u32] = &[
    0xC1_0007, 0x00_0080, 0x97_C008, 0x00_0091, 0x00_0000, 0x00_0016, 0x97_C018, 0xA0_0004,
];

/// The same, but C4 for C3.
const CHANGED: &[u32] = &[
    0xC1_0007, 0x00_0080, 0x97_C008, 0x00_0091, 0xC0_30C2, 0x13_8010, 0x91_8020, 0x09_0000,
    0x00_0016, 0x97_C024, 0xA0_0004,
];

/// Works between its request and its poll.
const WORK: &[u32] = &[
    0xC1_0007, 0x00_0080, 0x09_8000, 0x09_8000, 0x09_8000, 0x97_C014, 0x00_0091, 0x00_0016,
    0x97_C020, 0xA0_0004,
];

/// Reads its byte before its poll.
const PEEK: &[u32] = &[
    0xC1_0007, 0x00_0080, 0x00_0091, 0x97_C00C, 0x00_0016, 0x97_C014, 0xA0_0004,
];

/// Echoes, with a user flag set in its status register.
const FLAG: &[u32] = &[
    0xC9_0007, 0x00_0080, 0x97_C008, 0x00_0091, 0x00_0016, 0x97_C014, 0xA0_0004,
];

/// Sends the sum of the bytes that it was sent.
const SUM: &[u32] = &[0xC1_0007, 0x00_0026, 0x97_C008, 0x15_8090, 0xA0_0004];

/// The same, two instructions longer.
const SUM_SLOW: &[u32] = &[
    0xC1_0007, 0x00_0026, 0x97_C008, 0x00_0000, 0x15_8090, 0x00_0000, 0xA0_0004,
];

/// Sends back each word that it is sent, in two bytes.
const WIDE: &[u32] = &[
    0x00_0080, 0x97_C004, 0x00_0091, 0x00_0016, 0x97_C010, 0xA0_0000,
];

/// Sends twice the product of two words, in two words. Its second request asks for the second factor.
const PRODUCT: &[u32] = &[
    0x00_0080, 0x97_C004, 0x00_008A, 0x97_C00C, 0x00_009D, 0xC0_0001, 0x21_0000, 0x00_0016,
    0x97_C020, 0xC0_0001, 0x31_0000, 0x00_0016, 0x97_C030, 0xA0_0000,
];

/// The same, through the other accumulator.
const PRODUCT_B: &[u32] = &[
    0x00_0080, 0x97_C004, 0x00_008A, 0x97_C00C, 0x00_009D, 0xC0_0002, 0x21_8000, 0x00_0026,
    0x97_C020, 0xC0_0002, 0x31_8000, 0x00_0026, 0x97_C030, 0xA0_0000,
];

/// Moves the word that it is sent to the status register.
const CONTROL: &[u32] = &[
    0x00_0080, 0x97_C004, 0x00_0097, 0x00_0080, 0x97_C010, 0xA0_000C,
];

/// Waits in a loop of two words.
const LOOP: &[u32] = &[
    0xC1_0007, 0x00_0080, 0x97_8010, 0xA0_0008, 0x00_0091, 0x00_0016, 0x97_C018, 0xA0_0004,
];

/// Takes as long as that loop, and waits at its poll.
const LOOP_SLOW: &[u32] = &[
    0xC1_0007, 0x00_0080, 0x00_0000, 0x97_C008, 0x00_0091, 0x00_0016, 0x97_C018, 0xA0_0004,
];

/// Waits in a loop of eight words.
const EIGHT: &[u32] = &[
    0xC1_0007, 0x00_0080, 0x00_0000, 0x00_0000, 0x00_0000, 0x00_0000, 0x00_0000, 0x00_0000,
    0x00_0000, 0x97_C008,
];

/// Waits in a loop of nine words.
const NINE: &[u32] = &[
    0xC1_0007, 0x00_0080, 0x00_0000, 0x00_0000, 0x00_0000, 0x00_0000, 0x00_0000, 0x00_0000,
    0x00_0000, 0x00_0000, 0x97_C008,
];

/// Sends the first word of the RAM.
const POWER_A: &[u32] = &[0xC1_0007, 0x00_00F6, 0x97_C008, 0xA0_0004];

/// Sends a register, which is zero.
const POWER_B: &[u32] = &[0xC1_0007, 0x00_0006, 0x97_C008, 0xA0_0004];

/// Clears the first word of the RAM, and sends it.
const POWER_C: &[u32] = &[0xC1_0007, 0x00_000F, 0x00_00F6, 0x97_C00C, 0xA0_0004];

/// Clears the first word of the RAM, and sends a register, which is zero.
const POWER_D: &[u32] = &[0xC1_0007, 0x00_000F, 0x00_0006, 0x97_C00C, 0xA0_0004];
