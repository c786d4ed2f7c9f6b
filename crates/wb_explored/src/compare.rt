// Worked comparisons of small images: what each comes to, with the dialogue that shows it.
use crate::tests::enumeration::image_of;
use std::alloc::Global;
use std::process::Abort;
use std::test::Fail;
use wb_compare::{Pace, Question, Spent, Verdict, compare};
use wb_explore::Budget;
use wb_port::{Access, Dialogue, Letter, Power, Shape};
use wb_query::SolverOracle;
use wb_rom::Image;
use wb_word::Side;

/// What a comparison comes to, with the accesses of its dialogue.
enum Wanted {
    Kept,
    Overrun(Side, &'static [Access]),
    Different(&'static [Access]),
    Breach(Side, &'static [Access], u16),
    Points(usize),
}

struct Row {
    a: &'static [u32],
    b: &'static [u32],
    letters: &'static [Letter],
    pace: u16,
    power: Power,
    points: u32,
    conflicts: u64,
    wanted: Wanted,
}

const ECHO: &[u32] = &[
    0xC10007, 0x000080, 0x97C008, 0x000091, 0x000016, 0x97C014, 0xA00004,
];

const SLOW: &[u32] = &[
    0xC10007, 0x000080, 0x97C008, 0x000091, 0x000000, 0x000016, 0x97C018, 0xA00004,
];

const C3: &[u32] = &[
    0xC10007, 0x000080, 0x97C008, 0x000091, 0xC030C2, 0x138010, 0x918020, 0x090000, 0x000016,
    0x97C024, 0xA00004,
];

const WORK: &[u32] = &[
    0xC10007, 0x000080, 0x098000, 0x098000, 0x098000, 0x97C014, 0x000091, 0x000016, 0x97C020,
    0xA00004,
];

const PEEK: &[u32] = &[
    0xC10007, 0x000080, 0x000091, 0x97C00C, 0x000016, 0x97C014, 0xA00004,
];

const FLAG: &[u32] = &[
    0xC90007, 0x000080, 0x97C008, 0x000091, 0x000016, 0x97C014, 0xA00004,
];

const SUM: &[u32] = &[0xC10007, 0x000026, 0x97C008, 0x158090, 0xA00004];

const SUMN: &[u32] = &[
    0xC10007, 0x000026, 0x97C008, 0x000000, 0x158090, 0x000000, 0xA00004,
];

const MULA: &[u32] = &[
    0x000080, 0x97C004, 0x00008A, 0x97C00C, 0x00009D, 0xC00001, 0x210000, 0x000016, 0x97C020,
    0xC00001, 0x310000, 0x000016, 0x97C030, 0xA00000,
];

const MULB: &[u32] = &[
    0x000080, 0x97C004, 0x00008A, 0x97C00C, 0x00009D, 0xC00002, 0x218000, 0x000026, 0x97C020,
    0xC00002, 0x318000, 0x000026, 0x97C030, 0xA00000,
];

const POWA: &[u32] = &[0xC10007, 0x0000F6, 0x97C008, 0xA00004];

const POWB: &[u32] = &[0xC10007, 0x000006, 0x97C008, 0xA00004];

const POWC: &[u32] = &[0xC10007, 0x00000F, 0x0000F6, 0x97C00C, 0xA00004];

const POWD: &[u32] = &[0xC10007, 0x00000F, 0x000006, 0x97C00C, 0xA00004];

/// Answers 11, 22 or 33 to 1, 2 or 3, counting down to it, and 0 to all other bytes.
const COUNTED: &[u32] = &[
    0xC10007, 0x000080, 0x97C008, 0x000091, 0x080000, 0x914034, 0x080000, 0x91403C, 0x080000,
    0x914044, 0xC00006, 0x97C02C, 0xA00004, 0xC00446, 0xA0002C, 0xC00886, 0xA0002C, 0xC00CC6,
    0xA0002C,
];

/// The same, by comparisons with 3, 2 and 1.
const COMPARED: &[u32] = &[
    0xC10007, 0x000080, 0x97C008, 0x00009A, 0xC000C3, 0x0000D1, 0x130030, 0x91405C, 0xC00083,
    0x0000D1, 0x130030, 0x914054, 0xC00043, 0x0000D1, 0x130030, 0x91404C, 0xC00006, 0x97C044,
    0xA00004, 0xC00446, 0xA00044, 0xC00886, 0xA00044, 0xC00CC6, 0xA00044,
];

/// The same but for 34 to 3.
const MISTAKEN: &[u32] = &[
    0xC10007, 0x000080, 0x97C008, 0x00009A, 0xC000C3, 0x0000D1, 0x130030, 0x91405C, 0xC00083,
    0x0000D1, 0x130030, 0x914054, 0xC00043, 0x0000D1, 0x130030, 0x91404C, 0xC00006, 0x97C044,
    0xA00004, 0xC00446, 0xA00044, 0xC00886, 0xA00044, 0xC00D06, 0xA00044,
];

/// Answers the byte.
const WHOLE: &[u32] = &[0xC10007, 0x000080, 0x97C008, 0x000096, 0x97C010, 0xA00004];

/// The same, joined of its two halves.
const JOINED: &[u32] = &[
    0xC10007, 0x000080, 0x97C008, 0x000091, 0x000012, 0xC03C03, 0x120030, 0xC003C3, 0x128030,
    0x110020, 0x000016, 0x97C02C, 0xA00004,
];

/// Answers 1 to 55 and 0 to all other bytes, by a difference.
const TAKEN_AWAY: &[u32] = &[
    0xC10007, 0x000080, 0x97C008, 0x000091, 0xC01543, 0x140030, 0x914028, 0xC00006, 0x97C020,
    0xA00004, 0xC00046, 0xA00020,
];

/// The same, by an exclusive or.
const EXCLUDED: &[u32] = &[
    0xC10007, 0x000080, 0x97C008, 0x000091, 0xC01543, 0x130030, 0x914028, 0xC00006, 0x97C020,
    0xA00004, 0xC00046, 0xA00020,
];

/// Answers 0 to each byte.
const NEVER: &[u32] = &[
    0xC10007, 0x000080, 0x97C008, 0x000091, 0xC00006, 0x97C014, 0xA00004,
];

const X2: &[Letter] = &[Letter::X, Letter::X];

const SUMS: &[Letter] = &[
    Letter::W,
    Letter::W,
    Letter::W,
    Letter::W,
    Letter::W,
    Letter::W,
    Letter::W,
    Letter::W,
    Letter::W,
    Letter::W,
    Letter::W,
    Letter::W,
    Letter::R,
];

const FACTORS: &[Letter] = &[
    Letter::W,
    Letter::W,
    Letter::W,
    Letter::W,
    Letter::R,
    Letter::R,
    Letter::R,
    Letter::R,
];

const TURNS: &[Letter] = &[
    Letter::W,
    Letter::R,
    Letter::W,
    Letter::R,
    Letter::W,
    Letter::R,
    Letter::W,
    Letter::R,
    Letter::W,
    Letter::R,
    Letter::W,
    Letter::R,
    Letter::W,
    Letter::R,
    Letter::W,
    Letter::R,
];

const ROWS: [Row; 23] = [
    Row {
        a: ECHO,
        b: ECHO,
        letters: &[],
        pace: 2,
        power: Power::Zero,
        points: 4096,
        conflicts: 100000,
        wanted: Wanted::Kept,
    },
    Row {
        a: ECHO,
        b: ECHO,
        letters: &[],
        pace: 2,
        power: Power::Zero,
        points: 6,
        conflicts: 0,
        wanted: Wanted::Kept,
    },
    Row {
        a: ECHO,
        b: ECHO,
        letters: &[],
        pace: 2,
        power: Power::Zero,
        points: 5,
        conflicts: 100000,
        wanted: Wanted::Points(6),
    },
    Row {
        a: ECHO,
        b: ECHO,
        letters: &[],
        pace: 1,
        power: Power::Zero,
        points: 4096,
        conflicts: 100000,
        wanted: Wanted::Overrun(Side::A, &[]),
    },
    Row {
        a: ECHO,
        b: ECHO,
        letters: &[Letter::R],
        pace: 2,
        power: Power::Zero,
        points: 4096,
        conflicts: 100000,
        wanted: Wanted::Overrun(Side::A, &[Access::Read]),
    },
    Row {
        a: ECHO,
        b: ECHO,
        letters: &[Letter::R],
        pace: 3,
        power: Power::Zero,
        points: 4096,
        conflicts: 100000,
        wanted: Wanted::Kept,
    },
    Row {
        a: ECHO,
        b: SLOW,
        letters: X2,
        pace: 4,
        power: Power::Zero,
        points: 4096,
        conflicts: 100000,
        wanted: Wanted::Kept,
    },
    Row {
        a: ECHO,
        b: C3,
        letters: X2,
        pace: 7,
        power: Power::Zero,
        points: 4096,
        conflicts: 100000,
        wanted: Wanted::Different(&[Access::Write(0xC3), Access::Read]),
    },
    Row {
        a: ECHO,
        b: WORK,
        letters: X2,
        pace: 6,
        power: Power::Zero,
        points: 4096,
        conflicts: 100000,
        wanted: Wanted::Kept,
    },
    Row {
        a: ECHO,
        b: PEEK,
        letters: &[],
        pace: 3,
        power: Power::Zero,
        points: 4096,
        conflicts: 100000,
        wanted: Wanted::Breach(Side::B, &[], 2),
    },
    Row {
        a: PEEK,
        b: ECHO,
        letters: &[],
        pace: 3,
        power: Power::Zero,
        points: 4096,
        conflicts: 100000,
        wanted: Wanted::Breach(Side::A, &[], 2),
    },
    Row {
        a: ECHO,
        b: FLAG,
        letters: &[],
        pace: 2,
        power: Power::Zero,
        points: 4096,
        conflicts: 100000,
        wanted: Wanted::Different(&[Access::Status]),
    },
    Row {
        a: SUM,
        b: SUMN,
        letters: SUMS,
        pace: 6,
        power: Power::Zero,
        points: 4096,
        conflicts: 0,
        wanted: Wanted::Kept,
    },
    Row {
        a: MULA,
        b: MULB,
        letters: FACTORS,
        pace: 5,
        power: Power::Zero,
        points: 4096,
        conflicts: 100000,
        wanted: Wanted::Kept,
    },
    Row {
        a: ECHO,
        b: SLOW,
        letters: TURNS,
        pace: 4,
        power: Power::Zero,
        points: 142,
        conflicts: 100000,
        wanted: Wanted::Kept,
    },
    Row {
        a: POWA,
        b: POWB,
        letters: &[Letter::R],
        pace: 3,
        power: Power::Zero,
        points: 4096,
        conflicts: 100000,
        wanted: Wanted::Kept,
    },
    Row {
        a: POWA,
        b: POWB,
        letters: &[Letter::R],
        pace: 3,
        power: Power::Any,
        points: 4096,
        conflicts: 100000,
        wanted: Wanted::Different(&[Access::Read]),
    },
    Row {
        a: POWC,
        b: POWD,
        letters: &[Letter::R],
        pace: 4,
        power: Power::Any,
        points: 4096,
        conflicts: 100000,
        wanted: Wanted::Kept,
    },
    Row {
        a: COUNTED,
        b: COMPARED,
        letters: &[Letter::W, Letter::R],
        pace: 20,
        power: Power::Zero,
        points: 4096,
        conflicts: 0,
        wanted: Wanted::Kept,
    },
    Row {
        a: COUNTED,
        b: MISTAKEN,
        letters: &[Letter::W, Letter::R],
        pace: 20,
        power: Power::Zero,
        points: 4096,
        conflicts: 0,
        wanted: Wanted::Different(&[Access::Write(3), Access::Read]),
    },
    Row {
        a: WHOLE,
        b: JOINED,
        letters: &[Letter::W, Letter::R],
        pace: 20,
        power: Power::Zero,
        points: 4096,
        conflicts: 0,
        wanted: Wanted::Kept,
    },
    Row {
        a: TAKEN_AWAY,
        b: EXCLUDED,
        letters: &[Letter::W, Letter::R],
        pace: 20,
        power: Power::Zero,
        points: 4096,
        conflicts: 0,
        wanted: Wanted::Kept,
    },
    Row {
        a: TAKEN_AWAY,
        b: NEVER,
        letters: &[Letter::W, Letter::R],
        pace: 20,
        power: Power::Zero,
        points: 4096,
        conflicts: 0,
        wanted: Wanted::Different(&[Access::Write(0x55), Access::Read]),
    },
];

fn is_wanted(verdict: &Verdict, wanted: &Wanted) -> bool {
    match (verdict, wanted) {
        (Verdict::Equal(Pace::Kept), Wanted::Kept) => true,
        (Verdict::Equal(Pace::Overrun(side, dialogue)), Wanted::Overrun(other, accesses)) => {
            side == other && is_made_of(dialogue, accesses)
        }
        (Verdict::Different(dialogue), Wanted::Different(accesses)) => {
            is_made_of(dialogue, accesses)
        }
        (Verdict::Breach(side, dialogue, at), Wanted::Breach(other, accesses, address)) => {
            side == other && is_made_of(dialogue, accesses) && at.value == *address
        }
        (Verdict::Unknown(Spent::Points(list)), Wanted::Points(count)) => list.len() == *count,
        _ => false,
    }
}

fn is_made_of(dialogue: &Dialogue, accesses: &[Access]) -> bool {
    dialogue.list() == accesses
}

fn check_row(rt: &impl Abort, alloc: Global, row: &Row) -> Result<(), Fail> {
    assert!(rt; row.letters.len() <= 16);
    assert!(rt; 1 <= row.pace && row.pace <= 8191);
    assert!(rt; 1 <= row.points && row.points <= 8192);
    let question = Question {
        n: row.letters.len() as u8,
        k: row.pace,
        shape: Shape::of(row.letters),
        power: row.power,
        budget: Budget {
            points: row.points,
            conflicts: row.conflicts,
        },
    };
    let a = image_of(alloc, row.a)?;
    let b = image_of(alloc, row.b)?;
    let mut oracle = SolverOracle::new(row.conflicts);
    let Ok(verdict) = compare(alloc, &a, &b, &question, &mut oracle) else {
        return Err(Fail::new("no verdict"));
    };
    assert!(rt; is_wanted(&verdict, &row.wanted));
    Ok(())
}

#[test]
fn small_images_compare_as_worked_out(rt: HostRuntime) -> Result<(), Fail> {
    let alloc = rt.alloc();
    for row in &ROWS {
        check_row(&rt, alloc, row)?;
    }
    Ok(())
}
