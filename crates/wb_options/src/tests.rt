//! Numbers and options that were worked by hand.
use crate::question_in;
use std::alloc::Global;
use std::process::Abort;
use std::test::Fail;
use wb_port::{Letter, Power};

/// The number of transfers, the pace and the options, and the numbers of the question with its letters and whether any
/// RAM is meant, if there is a question.
type Asked = (
    &'static str,
    &'static str,
    &'static [&'static str],
    Option<(u8, u16, &'static [Letter], u32, u64, bool)>,
);

const ASKED: [Asked; 16] = [
    ("0", "1", &[], Some((0, 1, &[], 4096, 100_000, false))),
    (
        "3",
        "08191",
        &["power=any", "conflicts=0", "shape=RWX", "points=8192"],
        Some((3, 8191, &[Letter::R, Letter::W, Letter::X], 8192, 0, true)),
    ),
    (
        "1",
        "2",
        &["power=zero", "conflicts=18446744073709551615"],
        Some((1, 2, &[Letter::X], 4096, u64::MAX, false)),
    ),
    (
        "0",
        "2",
        &["shape="],
        Some((0, 2, &[], 4096, 100_000, false)),
    ),
    ("17", "4", &[], None),
    ("2", "0", &[], None),
    ("2", "8192", &[], None),
    ("2", "4", &["shape=R"], None),
    ("2", "4", &["shape=RR", "shape=RR"], None),
    ("2", "4", &["shape=Rw"], None),
    ("2", "4", &["points=9", "points=9"], None),
    ("2", "4", &["points=0"], None),
    ("2", "4", &["conflicts=18446744073709551616"], None),
    ("2", "4", &["speed=1"], None),
    ("2", "4", &["power=all"], None),
    ("2", "4", &["power"], None),
];

fn words_of(alloc: Global, words: &[&str]) -> Result<Vec<String>, Fail> {
    let mut list = Vec::new(alloc);
    for word in words {
        list.push(String::from_str(alloc, word)?)?;
    }
    Ok(list)
}

fn check_asked(rt: &impl Abort, alloc: Global, cases: &[Asked]) -> Result<(), Fail> {
    for (n, k, options, wanted) in cases {
        let words = words_of(alloc, options)?;
        let asked = question_in(n, k, &words);
        assert_eq!(rt; asked.is_some(), wanted.is_some(), "{n} {k}");
        if let (Some(asked), Some((transfers, pace, letters, points, conflicts, any))) = (
            asked, wanted,
        ) {
            let question = asked.question;
            assert_eq!(rt; question.n, *transfers);
            assert_eq!(rt; question.k, *pace);
            assert_eq!(rt; question.budget.points, *points);
            assert_eq!(rt; question.budget.conflicts, *conflicts);
            assert_eq!(rt; question.power == Power::Any, *any);
            assert_eq!(rt; question.shape.len(), letters.len());
            for place in 0..letters.len() {
                assert!(rt; place < question.shape.len());
                assert_eq!(rt; question.shape.letter_at(place), letters[place]);
            }
        }
    }
    Ok(())
}

#[test]
fn questions(rt: HostRuntime) -> Result<(), Fail> {
    check_asked(&rt, rt.alloc(), &ASKED)?;
    Ok(())
}
