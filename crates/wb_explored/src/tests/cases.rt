//! The programs, and what is tried on each.
use super::oracles::{Answers, Comes, Lie};
use wb_port::{Kind, Power};
use wb_word::Side;

const R: Kind = Kind::Read;

const W: Kind = Kind::Write;

/// A program and what is tried on it.
#[derive(Clone, Copy)]
pub(super) struct Case {
    pub words: &'static [u32],
    pub side: Side,
    pub pace: u16,
    pub power: Power,
    /// The kinds of the dialogues.
    pub kinds: &'static [&'static [Kind]],
    /// What each word of the RAM has at power-up.
    pub cells: &'static [u16],
    /// The bytes that are written.
    pub bytes: Bytes,
}

/// Bytes that are tried.
#[derive(Clone, Copy)]
pub(super) enum Bytes {
    Every,
    /// These, which come to all points.
    These(&'static [u8]),
}

/// All kinds of up to two transfers.
const SHORT: &[&[Kind]] = &[&[], &[R], &[W], &[R, R], &[R, W], &[W, R], &[W, W]];

/// One write.
const ONE: &[&[Kind]] = &[&[W]];

/// Two writes.
const TWO: &[&[Kind]] = &[&[W, W]];

/// Three transfers, of which the first two write.
const LONG: &[&[Kind]] = &[&[W, W, R], &[W, W, W]];

/// Sends back each byte that it is sent.
const ECHO: &[u32] = &[
    0xC1_0007, 0x00_0080, 0x97_C008, 0x00_0091, 0x00_0016, 0x97_C014, 0xA0_0004,
];

/// The same, one instruction later.
const SLOW: &[u32] = &[
    0xC1_0007, 0x00_0080, 0x97_C008, 0x00_0091, 0x00_0000, 0x00_0016, 0x97_C018, 0xA0_0004,
];

/// The same, but C4 for C3.
const CHANGED: &[u32] = &[
    0xC1_0007, 0x00_0080, 0x97_C008, 0x00_0091, 0xC0_30C2, 0x13_8010, 0x91_8020, 0x09_0000,
    0x00_0016, 0x97_C024, 0xA0_0004,
];

/// Works between its request and its poll.
const WORK: &[u32] = &[
    0xC1_0007, 0x00_0080, 0x09_8000, 0x09_8000, 0x09_8000, 0x97_C014, 0x00_0091, 0x00_0016,
    0x97_C020, 0xA0_0004,
];

/// Reads its byte before its poll.
const PEEK: &[u32] = &[
    0xC1_0007, 0x00_0080, 0x00_0091, 0x97_C00C, 0x00_0016, 0x97_C014, 0xA0_0004,
];

/// Echoes, with a user flag set in its status register.
const FLAG: &[u32] = &[
    0xC9_0007, 0x00_0080, 0x97_C008, 0x00_0091, 0x00_0016, 0x97_C014, 0xA0_0004,
];

/// Sends the sum of the bytes that it was sent.
const SUM: &[u32] = &[0xC1_0007, 0x00_0026, 0x97_C008, 0x15_8090, 0xA0_0004];

/// The same, two instructions longer.
const SUM_SLOW: &[u32] = &[
    0xC1_0007, 0x00_0026, 0x97_C008, 0x00_0000, 0x15_8090, 0x00_0000, 0xA0_0004,
];

/// Sends twice the product of two words, in two words.
const PRODUCT: &[u32] = &[
    0x00_0080, 0x97_C004, 0x00_008A, 0x97_C00C, 0x00_009D, 0xC0_0001, 0x21_0000, 0x00_0016,
    0x97_C020, 0xC0_0001, 0x31_0000, 0x00_0016, 0x97_C030, 0xA0_0000,
];

/// The same, through the other accumulator.
const PRODUCT_B: &[u32] = &[
    0x00_0080, 0x97_C004, 0x00_008A, 0x97_C00C, 0x00_009D, 0xC0_0002, 0x21_8000, 0x00_0026,
    0x97_C020, 0xC0_0002, 0x31_8000, 0x00_0026, 0x97_C030, 0xA0_0000,
];

/// Waits in a loop of two words.
const LOOP: &[u32] = &[
    0xC1_0007, 0x00_0080, 0x97_8010, 0xA0_0008, 0x00_0091, 0x00_0016, 0x97_C018, 0xA0_0004,
];

/// Takes as long as that loop, and waits at its poll.
const LOOP_SLOW: &[u32] = &[
    0xC1_0007, 0x00_0080, 0x00_0000, 0x97_C008, 0x00_0091, 0x00_0016, 0x97_C018, 0xA0_0004,
];

/// Waits in a loop of eight words.
const EIGHT: &[u32] = &[
    0xC1_0007, 0x00_0080, 0x00_0000, 0x00_0000, 0x00_0000, 0x00_0000, 0x00_0000, 0x00_0000,
    0x00_0000, 0x97_C008,
];

/// Waits in a loop of nine words, which is none.
const NINE: &[u32] = &[
    0xC1_0007, 0x00_0080, 0x00_0000, 0x00_0000, 0x00_0000, 0x00_0000, 0x00_0000, 0x00_0000,
    0x00_0000, 0x00_0000, 0x97_C008,
];

/// Sends the first word of the RAM.
const POWER_A: &[u32] = &[0xC1_0007, 0x00_00F6, 0x97_C008, 0xA0_0004];

/// Sends a register, which is zero.
const POWER_B: &[u32] = &[0xC1_0007, 0x00_0006, 0x97_C008, 0xA0_0004];

/// Clears the first word of the RAM, and sends it.
const POWER_C: &[u32] = &[0xC1_0007, 0x00_000F, 0x00_00F6, 0x97_C00C, 0xA0_0004];

/// Clears the first word of the RAM, and sends a register, which is zero.
const POWER_D: &[u32] = &[0xC1_0007, 0x00_000F, 0x00_0006, 0x97_C00C, 0xA0_0004];

/// Goes round as often as the low two bits of a byte say.
const TURNS: &[u32] = &[
    0xC1_0007, 0xC0_00CE, 0x00_0080, 0x97_C00C, 0x00_0091, 0x12_0000, 0x91_4024, 0x08_0000,
    0xA0_0018, 0x00_0016, 0x97_C028, 0x00_0080, 0x97_C030, 0xA0_0030,
];

/// Sends one of four bytes, by a chain of compares.
const CASES: &[u32] = &[
    0xC1_0007, 0x00_0080, 0x97_C008, 0x00_0091, 0x08_0000, 0x91_4030, 0x08_0000, 0x91_4038,
    0x08_0000, 0x91_4044, 0xC0_3FC6, 0xA0_0050, 0xC0_0446, 0xA0_0050, 0x00_0000, 0xC0_0886,
    0xA0_0050, 0x00_0000, 0x00_0000, 0xC0_0CC6, 0x97_C050, 0xA0_0050,
];

/// Reads its byte while its request stands, where the byte before was 5A.
const TRAP: &[u32] = &[
    0xC1_0007, 0xC0_168E, 0x00_0080, 0x97_C00C, 0x00_0091, 0x00_0016, 0x13_0000, 0x91_0024,
    0x00_0092, 0x97_C024, 0xA0_0024,
];

/// Goes round without end where it is sent 5A.
const HANG: &[u32] = &[
    0xC1_0007, 0xC0_168E, 0x00_0080, 0x97_C00C, 0x00_0091, 0x13_0000, 0x91_4030, 0x00_0016,
    0x97_C020, 0x00_0080, 0x97_C028, 0xA0_0028, 0xA0_0030,
];

/// Sends back each word that it is sent, in two bytes.
const WIDE: &[u32] = &[
    0x00_0080, 0x97_C004, 0x00_0091, 0x00_0016, 0x97_C010, 0xA0_0000,
];

/// Moves the word that it is sent to the status register.
const CONTROL: &[u32] = &[
    0x00_0080, 0x97_C004, 0x00_0097, 0x00_0080, 0x97_C010, 0xA0_000C,
];

/// Jumps to the next address, or goes on there.
const NEXT: &[u32] = &[
    0xC1_0007, 0x00_0080, 0x97_C008, 0x00_0091, 0x08_0000, 0x91_4018, 0x00_0016, 0x97_C01C,
    0xA0_001C,
];

/// Comes to its poll in two ways.
const LOOPS: &[u32] = &[
    0xC1_0007, 0x00_0080, 0x97_C008, 0x00_0091, 0x08_0000, 0x00_0016, 0x91_4020, 0x00_0000,
    0x97_C01C, 0x00_0080, 0x97_C028, 0xA0_0028,
];

/// Branches on the first word of the RAM.
const CELL: &[u32] = &[
    0xC1_0007, 0x01_0000, 0x91_4014, 0x00_0000, 0x00_0000, 0x00_0016, 0x97_C018, 0xA0_0018,
];

/// Stores where a byte says, and branches on what stands where another says.
const STORE: &[u32] = &[
    0xC1_0007, 0x00_0080, 0x97_C008, 0x00_0094, 0x00_004F, 0x00_0080, 0x97_C018, 0x00_0094,
    0x01_0000, 0x91_402C, 0x00_0000, 0x00_0016, 0x97_C030, 0xA0_0030,
];

/// Branches where a byte and its half add up to 3.
const THREES: &[u32] = &[
    0xC1_0007, 0x00_0080, 0x97_C008, 0x00_009E, 0x00_0001, 0x0B_0000, 0x15_0000, 0xC0_00CE,
    0x13_0000, 0x91_402C, 0x00_0016, 0x97_C02C, 0xA0_0030,
];

/// Branches on each bit of a byte.
const BITS: &[u32] = &[
    0xC1_0007, 0x00_0080, 0x97_C008, 0x00_0091, 0x0B_0000, 0x90_001C, 0x00_0000, 0x0B_0000,
    0x90_0028, 0x00_0000, 0x0B_0000, 0x90_0034, 0x00_0000, 0x0B_0000, 0x90_0040, 0x00_0000,
    0x0B_0000, 0x90_004C, 0x00_0000, 0x0B_0000, 0x90_0058, 0x00_0000, 0x0B_0000, 0x90_0064,
    0x00_0000, 0x0B_0000, 0x90_0070, 0x00_0000, 0x00_0016, 0x97_C074, 0xA0_007C, 0xA0_007C,
];

/// Branches where a byte and its half add up to 2, which they never do.
const ODDS: &[u32] = &[
    0xC1_0007, 0x00_0080, 0x97_C008, 0x00_009E, 0x00_0001, 0x0B_0000, 0x15_0000, 0xC0_008E,
    0x13_0000, 0x91_402C, 0x00_0016, 0x97_C02C, 0xA0_0030,
];

/// Branches where the product of two bytes, doubled, has 1 for its upper word.
const FACTORS: &[u32] = &[
    0xC1_0007, 0x00_0080, 0x97_C008, 0x00_008A, 0x97_C010, 0x00_009D, 0xC0_004E, 0xC0_0001,
    0x21_0000, 0x13_0000, 0x91_4030, 0x00_0016, 0x97_C030, 0xA0_0034,
];

/// Programs without a branch on what is written.
pub(super) const STRAIGHT: [Case; 17] = [
    Case {
        words: ECHO,
        side: Side::A,
        pace: 4,
        power: Power::Zero,
        kinds: SHORT,
        cells: &[0],
        bytes: Bytes::These(&[0x00, 0x5A, 0xFF]),
    },
    Case {
        words: SLOW,
        side: Side::B,
        pace: 5,
        power: Power::Zero,
        kinds: SHORT,
        cells: &[0],
        bytes: Bytes::These(&[0x00, 0x5A, 0xFF]),
    },
    Case {
        words: WORK,
        side: Side::A,
        pace: 6,
        power: Power::Zero,
        kinds: SHORT,
        cells: &[0],
        bytes: Bytes::These(&[0x00, 0x5A, 0xFF]),
    },
    Case {
        words: SUM,
        side: Side::B,
        pace: 4,
        power: Power::Zero,
        kinds: SHORT,
        cells: &[0],
        bytes: Bytes::These(&[0x00, 0x5A, 0xFF]),
    },
    Case {
        words: WIDE,
        side: Side::A,
        pace: 5,
        power: Power::Zero,
        kinds: SHORT,
        cells: &[0],
        bytes: Bytes::These(&[0x00, 0x5A, 0xFF]),
    },
    Case {
        words: WIDE,
        side: Side::B,
        pace: 5,
        power: Power::Zero,
        kinds: LONG,
        cells: &[0],
        bytes: Bytes::These(&[0x00, 0x5A, 0xFF]),
    },
    Case {
        words: PRODUCT,
        side: Side::A,
        pace: 6,
        power: Power::Zero,
        kinds: SHORT,
        cells: &[0],
        bytes: Bytes::These(&[0x00, 0x5A, 0xFF]),
    },
    Case {
        words: LOOP,
        side: Side::A,
        pace: 5,
        power: Power::Zero,
        kinds: SHORT,
        cells: &[0],
        bytes: Bytes::These(&[0x00, 0x5A, 0xFF]),
    },
    Case {
        words: EIGHT,
        side: Side::B,
        pace: 2,
        power: Power::Zero,
        kinds: SHORT,
        cells: &[0],
        bytes: Bytes::These(&[0x00, 0x5A, 0xFF]),
    },
    Case {
        words: POWER_A,
        side: Side::A,
        pace: 4,
        power: Power::Any,
        kinds: SHORT,
        cells: &[0, 0x0001, 0xFFFF],
        bytes: Bytes::These(&[0x00, 0x5A, 0xFF]),
    },
    Case {
        words: POWER_C,
        side: Side::A,
        pace: 4,
        power: Power::Any,
        kinds: SHORT,
        cells: &[0, 0x8000],
        bytes: Bytes::These(&[0x00, 0x5A, 0xFF]),
    },
    Case {
        words: FLAG,
        side: Side::B,
        pace: 4,
        power: Power::Zero,
        kinds: SHORT,
        cells: &[0],
        bytes: Bytes::These(&[0x00, 0x5A, 0xFF]),
    },
    Case {
        words: SUM_SLOW,
        side: Side::A,
        pace: 6,
        power: Power::Zero,
        kinds: SHORT,
        cells: &[0],
        bytes: Bytes::These(&[0x00, 0x5A, 0xFF]),
    },
    Case {
        words: PRODUCT_B,
        side: Side::B,
        pace: 6,
        power: Power::Zero,
        kinds: SHORT,
        cells: &[0],
        bytes: Bytes::These(&[0x00, 0x5A, 0xFF]),
    },
    Case {
        words: LOOP_SLOW,
        side: Side::B,
        pace: 5,
        power: Power::Zero,
        kinds: SHORT,
        cells: &[0],
        bytes: Bytes::These(&[0x00, 0x5A, 0xFF]),
    },
    Case {
        words: POWER_B,
        side: Side::B,
        pace: 4,
        power: Power::Any,
        kinds: SHORT,
        cells: &[0, 0xFFFF],
        bytes: Bytes::These(&[0x00, 0x5A, 0xFF]),
    },
    Case {
        words: POWER_D,
        side: Side::B,
        pace: 4,
        power: Power::Any,
        kinds: SHORT,
        cells: &[0, 0x8000],
        bytes: Bytes::These(&[0x00, 0x5A, 0xFF]),
    },
];

/// Programs that branch on what is written.
pub(super) const BRANCHES: [Case; 7] = [
    Case {
        words: CHANGED,
        side: Side::A,
        pace: 8,
        power: Power::Zero,
        kinds: SHORT,
        cells: &[0],
        bytes: Bytes::These(&[0x00, 0xC3]),
    },
    Case {
        words: TURNS,
        side: Side::A,
        pace: 24,
        power: Power::Zero,
        kinds: SHORT,
        cells: &[0],
        bytes: Bytes::These(&[0x00, 0x01, 0x02, 0x03]),
    },
    Case {
        words: CASES,
        side: Side::B,
        pace: 12,
        power: Power::Zero,
        kinds: SHORT,
        cells: &[0],
        bytes: Bytes::These(&[0x00, 0x01, 0x02, 0x03]),
    },
    Case {
        words: NEXT,
        side: Side::A,
        pace: 6,
        power: Power::Zero,
        kinds: SHORT,
        cells: &[0],
        bytes: Bytes::These(&[0x00, 0x01, 0x02]),
    },
    Case {
        words: LOOPS,
        side: Side::B,
        pace: 8,
        power: Power::Zero,
        kinds: SHORT,
        cells: &[0],
        bytes: Bytes::These(&[0x00, 0x01, 0x02]),
    },
    Case {
        words: CONTROL,
        side: Side::A,
        pace: 6,
        power: Power::Zero,
        kinds: LONG,
        cells: &[0],
        bytes: Bytes::These(&[0x00, 0x04, 0xFF]),
    },
    Case {
        words: ODDS,
        side: Side::A,
        pace: 12,
        power: Power::Zero,
        kinds: SHORT,
        cells: &[0],
        bytes: Bytes::These(&[0x00, 0x01, 0x02, 0x03]),
    },
];

/// Programs that branch on what the RAM has.
pub(super) const STORED: [Case; 4] = [
    Case {
        words: CELL,
        side: Side::A,
        pace: 8,
        power: Power::Any,
        kinds: SHORT,
        cells: &[0, 0x0001],
        bytes: Bytes::These(&[0x00, 0x5A, 0xFF]),
    },
    Case {
        words: CELL,
        side: Side::A,
        pace: 8,
        power: Power::Zero,
        kinds: SHORT,
        cells: &[0],
        bytes: Bytes::These(&[0x00, 0x5A, 0xFF]),
    },
    Case {
        words: STORE,
        side: Side::A,
        pace: 12,
        power: Power::Zero,
        kinds: TWO,
        cells: &[0],
        bytes: Bytes::These(&[0x00, 0x01, 0x02]),
    },
    Case {
        words: STORE,
        side: Side::B,
        pace: 12,
        power: Power::Any,
        kinds: TWO,
        cells: &[0, 0x0001],
        bytes: Bytes::These(&[0x00, 0x01]),
    },
];

/// Programs and paces at which some run overruns or breaches.
pub(super) const HALTS: [Case; 8] = [
    Case {
        words: ECHO,
        side: Side::A,
        pace: 2,
        power: Power::Zero,
        kinds: SHORT,
        cells: &[0],
        bytes: Bytes::These(&[0x00, 0x5A, 0xFF]),
    },
    Case {
        words: ECHO,
        side: Side::A,
        pace: 1,
        power: Power::Zero,
        kinds: SHORT,
        cells: &[0],
        bytes: Bytes::These(&[0x00, 0x5A, 0xFF]),
    },
    Case {
        words: NINE,
        side: Side::B,
        pace: 8,
        power: Power::Zero,
        kinds: SHORT,
        cells: &[0],
        bytes: Bytes::These(&[0x00, 0x5A, 0xFF]),
    },
    Case {
        words: NINE,
        side: Side::A,
        pace: 9,
        power: Power::Zero,
        kinds: SHORT,
        cells: &[0],
        bytes: Bytes::These(&[0x00, 0x5A, 0xFF]),
    },
    Case {
        words: PEEK,
        side: Side::A,
        pace: 4,
        power: Power::Zero,
        kinds: SHORT,
        cells: &[0],
        bytes: Bytes::These(&[0x00, 0x5A, 0xFF]),
    },
    Case {
        words: TRAP,
        side: Side::A,
        pace: 8,
        power: Power::Zero,
        kinds: SHORT,
        cells: &[0],
        bytes: Bytes::These(&[0x00, 0x5A]),
    },
    Case {
        words: HANG,
        side: Side::B,
        pace: 12,
        power: Power::Zero,
        kinds: SHORT,
        cells: &[0],
        bytes: Bytes::These(&[0x00, 0x5A]),
    },
    Case {
        words: CASES,
        side: Side::A,
        pace: 7,
        power: Power::Zero,
        kinds: SHORT,
        cells: &[0],
        bytes: Bytes::These(&[0x00, 0x01, 0x02, 0x03, 0x04]),
    },
];

/// Programs to which each byte is written.
pub(super) const EVERY: [Case; 7] = [
    Case {
        words: CHANGED,
        side: Side::A,
        pace: 8,
        power: Power::Zero,
        kinds: ONE,
        cells: &[0],
        bytes: Bytes::Every,
    },
    Case {
        words: TURNS,
        side: Side::A,
        pace: 24,
        power: Power::Zero,
        kinds: ONE,
        cells: &[0],
        bytes: Bytes::Every,
    },
    Case {
        words: CASES,
        side: Side::A,
        pace: 12,
        power: Power::Zero,
        kinds: ONE,
        cells: &[0],
        bytes: Bytes::Every,
    },
    Case {
        words: BITS,
        side: Side::A,
        pace: 40,
        power: Power::Zero,
        kinds: ONE,
        cells: &[0],
        bytes: Bytes::Every,
    },
    Case {
        words: ODDS,
        side: Side::A,
        pace: 12,
        power: Power::Zero,
        kinds: ONE,
        cells: &[0],
        bytes: Bytes::Every,
    },
    Case {
        words: HANG,
        side: Side::A,
        pace: 12,
        power: Power::Zero,
        kinds: ONE,
        cells: &[0],
        bytes: Bytes::Every,
    },
    Case {
        words: TRAP,
        side: Side::A,
        pace: 8,
        power: Power::Zero,
        kinds: ONE,
        cells: &[0],
        bytes: Bytes::Every,
    },
];

/// The words of a program, the kinds of its dialogues, who answers, and what comes of it.
pub(super) type Row = (&'static [u32], &'static [Kind], Answers, Comes);

/// Where no question is open, or likely values settle it, no oracle is asked.
pub(super) const CHECKED: [Row; 24] = [
    (HANG, &[W], Answers::Search(0), Comes::Layer),
    (THREES, &[W], Answers::Search(0), Comes::Layer),
    (FACTORS, &[W, W], Answers::Search(0), Comes::Spent),
    (FACTORS, &[W, W], Answers::Search(256), Comes::Layer),
    (ODDS, &[W], Answers::Search(0), Comes::Layer),
    (HANG, &[W], Answers::Search(256), Comes::Layer),
    (HANG, &[R], Answers::Search(0), Comes::Layer),
    (THREES, &[W], Answers::Lies(Lie::Spent), Comes::Layer),
    (THREES, &[W], Answers::Lies(Lie::Falsehoods), Comes::Layer),
    (HANG, &[W], Answers::Lies(Lie::NoStep), Comes::Layer),
    (
        FACTORS,
        &[W, W],
        Answers::Lies(Lie::Falsehoods),
        Comes::BadAnswer,
    ),
    (
        FACTORS,
        &[W, W],
        Answers::Lies(Lie::NoValues),
        Comes::BadAnswer,
    ),
    (
        FACTORS,
        &[W, W],
        Answers::Lies(Lie::NoStep),
        Comes::BadAnswer,
    ),
    (
        FACTORS,
        &[W, W],
        Answers::Lies(Lie::EmptyStep),
        Comes::BadAnswer,
    ),
    (
        FACTORS,
        &[W, W],
        Answers::Lies(Lie::Spent),
        Comes::BadAnswer,
    ),
    (ODDS, &[W], Answers::Lies(Lie::Falsehoods), Comes::BadAnswer),
    (ODDS, &[W], Answers::Lies(Lie::NoValues), Comes::BadAnswer),
    (ODDS, &[W], Answers::Lies(Lie::NoStep), Comes::BadAnswer),
    (ODDS, &[W], Answers::Lies(Lie::EmptyStep), Comes::BadAnswer),
    (ODDS, &[W], Answers::Lies(Lie::Spent), Comes::BadAnswer),
    (ECHO, &[W, W], Answers::Lies(Lie::Spent), Comes::Layer),
    (WORK, &[W, W], Answers::Lies(Lie::NoStep), Comes::Layer),
    (
        PRODUCT,
        &[W, W],
        Answers::Lies(Lie::Falsehoods),
        Comes::Layer,
    ),
    (NEXT, &[W, W], Answers::Lies(Lie::Spent), Comes::Layer),
];
