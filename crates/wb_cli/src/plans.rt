//! The words of a command line, and the plan that they make.
ghost use Rattle.std.specs.Prelude.{◌≡◌, ◌≤◌, ◌∷◌, IfSome, map, string_bytes};
ghost use Rattle.std.specs.Option.{option_map};
ghost use Rattle.wb_cli.specs.Plan.{plan_of, is_file_word, run_of, asm_of, dis_of, trace_of, trace_to, compare_of, compare_by, demo_by};
ghost use Rattle.wb_cli.specs.Planned.{plan_in};

use crate::depths::Depth;
use wb_options::{Comparison, number_in, question_in};

/// What the words after the program's name ask for. File words are in their order.
#[derive(Drop)]
pub enum Plan<'a> {
    /// Runs a script on an image.
    Run(&'a str, &'a str),
    /// Assembles a source.
    Assemble(&'a str),
    /// Lists an image.
    Disassemble(&'a str),
    /// Makes moves on two images, of which so many can be taken back.
    Trace(&'a str, &'a str, &'a str, Depth),
    /// Compares two images.
    Compare(&'a str, &'a str, Comparison),
    /// Makes the demo pair of a number, and compares it.
    Demo(u64),
}

/// The plan of the words, or `None` where they are no command line of this program. This takes no memory.
pub fn planned(words: &[String]) -> Option<Plan<'_>>
    ensures { option_map plan_in result ≡ plan_of (map string_bytes words.now) }
{
    match words {
        [] => None,
        [name, words @ ..] => command_plan(name.as_str(), words),
    }
}

/// The plan of a command, by its name and the words after it.
fn command_plan<'a>(name: &str, words: &'a [String]) -> Option<Plan<'a>>
    ensures { option_map plan_in result ≡ plan_of (name.now ∷ map string_bytes words.now) }
{
    if name == "run" {
        run_plan(words)
    } else if name == "asm" {
        asm_plan(words)
    } else if name == "dis" {
        dis_plan(words)
    } else if name == "trace" {
        trace_plan(words)
    } else if name == "compare" {
        compare_plan(words)
    } else if name == "demo" {
        demo_plan(words)
    } else {
        None
    }
}

fn is_file_word(word: &str) -> bool
    ensures { result ≡ is_file_word word.now }
{
    !word.is_empty()
}

fn run_plan(words: &[String]) -> Option<Plan<'_>>
    ensures { option_map plan_in result ≡ run_of (map string_bytes words.now) }
{
    match words {
        [image, script] if is_file_word(image.as_str()) && is_file_word(script.as_str()) => {
            Some(Plan::Run(image.as_str(), script.as_str()))
        }
        _ => None,
    }
}

fn asm_plan(words: &[String]) -> Option<Plan<'_>>
    ensures { option_map plan_in result ≡ asm_of (map string_bytes words.now) }
{
    match words {
        [source] if is_file_word(source.as_str()) => Some(Plan::Assemble(source.as_str())),
        _ => None,
    }
}

fn dis_plan(words: &[String]) -> Option<Plan<'_>>
    ensures { option_map plan_in result ≡ dis_of (map string_bytes words.now) }
{
    match words {
        [image] if is_file_word(image.as_str()) => Some(Plan::Disassemble(image.as_str())),
        _ => None,
    }
}

fn trace_plan(words: &[String]) -> Option<Plan<'_>>
    ensures { option_map plan_in result ≡ trace_of (map string_bytes words.now) }
{
    match words {
        [first, second, moves, depth] => trace_to(
            first.as_str(),
            second.as_str(),
            moves.as_str(),
            number_in(depth.as_str(), 1, 256),
        ),
        _ => None,
    }
}

/// A trace of this depth, if there is one.
fn trace_to<'a>(
    first: &'a str,
    second: &'a str,
    moves: &'a str,
    depth: Option<u64>,
) -> Option<Plan<'a>>
    requires { IfSome depth (λ number. (1 ≤ number) × (number ≤ 256)) }
    ensures { option_map plan_in result ≡ trace_to first.now second.now moves.now depth }
{
    match depth {
        Some(depth) if is_file_word(first) && is_file_word(second) && is_file_word(moves) => {
            let depth = Depth {
                value: depth as usize,
            };
            Some(Plan::Trace(first, second, moves, depth))
        }
        _ => None,
    }
}

fn compare_plan(words: &[String]) -> Option<Plan<'_>>
    ensures { option_map plan_in result ≡ compare_of (map string_bytes words.now) }
{
    match words {
        [first, second, n, k, options @ ..] => compare_by(
            first.as_str(),
            second.as_str(),
            question_in(n.as_str(), k.as_str(), options),
        ),
        _ => None,
    }
}

/// A comparison by this question, if there is one.
fn compare_by<'a>(
    first: &'a str,
    second: &'a str,
    comparison: Option<Comparison>,
) -> Option<Plan<'a>>
    ensures { option_map plan_in result ≡ compare_by first.now second.now (option_map (λ c. c.question) comparison) }
{
    match comparison {
        Some(comparison) if is_file_word(first) && is_file_word(second) => {
            Some(Plan::Compare(first, second, comparison))
        }
        _ => None,
    }
}

fn demo_plan(words: &[String]) -> Option<Plan<'_>>
    ensures { option_map plan_in result ≡ demo_by (map string_bytes words.now) }
{
    match words {
        [number] => match number_in(number.as_str(), 0, u64::MAX) {
            Some(number) => Some(Plan::Demo(number)),
            None => None,
        },
        _ => None,
    }
}
