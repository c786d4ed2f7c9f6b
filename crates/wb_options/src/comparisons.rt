//! The question of a comparison.
ghost use Rattle.std.specs.Prelude.{◌≡◌, map, string_bytes};
ghost use Rattle.std.specs.Option.{option_map};
ghost use Rattle.wb_compare.specs.Questions.{IsQuestion};
ghost use Rattle.wb_options.specs.Questions.{question_of};

use crate::numbers::number_in;
use crate::options::all_options;
use crate::values::{conflicts_in, points_in, power_in, shape_in};
use wb_compare::Question;
use wb_explore::Budget;

/// A question that can be asked: its numbers are in their ranges, and its shape has a letter for each transfer.
#[derive(Drop)]
pub struct Comparison {
    pub question: Question,
    pub ghost lawful: { IsQuestion question },
}

/// The question of a number of transfers, a pace and options, or `None` where they ask none.
pub fn question_in(n: &str, k: &str, options: &[String]) -> Option<Comparison>
    ensures { option_map (λ comparison. comparison.question) result ≡ question_of n.now k.now (map string_bytes options.now) }
{
    if !all_options(options) {
        return None;
    }
    let n = number_in(n, 0, 16)? as u8;
    let k = number_in(k, 1, 8191)? as u16;
    let shape = shape_in(options, n)?;
    let points = points_in(options)? as u32;
    let conflicts = conflicts_in(options)?;
    let power = power_in(options)?;
    Some(Comparison {
        question: Question {
            n,
            k,
            shape,
            power,
            budget: Budget { points, conflicts },
        },
    })
}
