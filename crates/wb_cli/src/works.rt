//! What a call comes to: the first step that stops it, or what the work gave.
ghost use Rattle.std.specs.Prelude.{◌≡◌, ◌≤◌, ℕ, List, [], ◌∷◌, IfOk, length, map, string_bytes};
ghost use Rattle.wb_cli.specs.Outcome.{ComesTo, GoesTo, WorksTo};
ghost use Rattle.wb_cli.specs.Plan.{Run, Assemble, Disassemble, Trace, Compare, Demo, plan_of, run_on, assembly_of, listing_of, trace_on, comparison_of, demo_of};
ghost use Rattle.wb_cli.specs.Planned.{plan_in};

use crate::checks::{checked_image, checked_moves, checked_script, checked_source};
use crate::comparing::{compare_images, demonstrate};
use crate::depths::Depth;
use crate::files::{FileWord, Kind, read_one, read_three, read_two};
use crate::outcomes::Outcome;
use crate::plans::{Plan, planned};
use crate::refusals::{Refusal, Stop};
use crate::texts::Text;
use std::alloc::Global;
use wb_base::Shelf;
use wb_options::Comparison;
use wb_session::run_script;
use wb_trace::trace_text;
use wb_word::OutOfMemory;

/// Does what the words ask for: plans them, reads the files, checks them and does the work.
pub fn carried_out<S: Shelf>(
    alloc: Global,
    words: &[String],
    shelf: &mut S,
) -> Result<Result<Outcome, Refusal>, OutOfMemory>
    ensures kept { (n : List ℕ) → S.content shelf.new n ≡ S.content shelf.old n }
    ensures later { S.faults shelf.old ≤ S.faults shelf.new }
    ensures unread { plan_of (map string_bytes words.now) ≡ None → (shelf.new ≡ shelf.old) × (result ≡ Ok (Err Refusal.BadWords)) }
    ensures comes_to { IfOk result (λ came_to. ComesTo (S.content shelf.old) (S.faults shelf.old) (S.faults shelf.new)
        (plan_of (map string_bytes words.now)) came_to) }
{
    match planned(words) {
        None => Ok(Err(Refusal::BadWords)),
        Some(plan) => match work(alloc, shelf, plan) {
            Ok(outcome) => Ok(Ok(outcome)),
            Err(Stop::Refused(refusal)) => Ok(Err(refusal)),
            Err(Stop::OutOfMemory) => Err(OutOfMemory),
        },
    }
}

/// Does what a plan asks for.
fn work<S: Shelf>(alloc: Global, shelf: &mut S, plan: Plan<'_>) -> Result<Outcome, Stop>
    ensures kept { (n : List ℕ) → S.content shelf.new n ≡ S.content shelf.old n }
    ensures later { S.faults shelf.old ≤ S.faults shelf.new }
    ensures goes_to { GoesTo (S.content shelf.old) (S.faults shelf.old) (S.faults shelf.new) (plan_in plan.entry) result }
{
    match plan {
        Plan::Run(image, script) => run(alloc, shelf, image, script),
        Plan::Assemble(source) => build(alloc, shelf, source),
        Plan::Disassemble(image) => list(alloc, shelf, image),
        Plan::Trace(first, second, moves, depth) => {
            trace(alloc, shelf, first, second, moves, depth)
        }
        Plan::Compare(first, second, comparison) => {
            compare(alloc, shelf, first, second, comparison)
        }
        Plan::Demo(number) => demo(alloc, shelf, number),
    }
}

/// Runs the script in one file on the image in another.
fn run<S: Shelf>(alloc: Global, shelf: &mut S, image: &str, script: &str) -> Result<Outcome, Stop>
    ensures kept { (n : List ℕ) → S.content shelf.new n ≡ S.content shelf.old n }
    ensures later { S.faults shelf.old ≤ S.faults shelf.new }
    ensures goes_to { GoesTo (S.content shelf.old) (S.faults shelf.old) (S.faults shelf.new) (run_on image.now script.now) result }
{
    let image = FileWord {
        name: image,
        kind: Kind::Image,
    };
    let script = FileWord {
        name: script,
        kind: Kind::Script,
    };
    let (image_bytes, script_text) = read_two(alloc, shelf, &image, &script)?;
    run_contents(alloc, &image_bytes, &script_text)
}

/// Runs the script in a text on the image in these bytes.
fn run_contents(alloc: Global, image_bytes: &[u8], script_text: &[u8]) -> Result<Outcome, Stop>
    requires { length script_text.now ≤ 1048576 }
    ensures { WorksTo Run (Kind.Image ∷ Kind.Script ∷ []) (image_bytes.now ∷ script_text.now ∷ []) result }
{
    let image = checked_image(alloc, 0, image_bytes)?;
    let script = checked_script(alloc, 1, script_text)?;
    let transcript = run_script(alloc, &image, &script)?;
    Ok(Outcome::Ran(transcript))
}

/// Assembles the source in a file.
fn build<S: Shelf>(alloc: Global, shelf: &mut S, source: &str) -> Result<Outcome, Stop>
    ensures kept { (n : List ℕ) → S.content shelf.new n ≡ S.content shelf.old n }
    ensures later { S.faults shelf.old ≤ S.faults shelf.new }
    ensures goes_to { GoesTo (S.content shelf.old) (S.faults shelf.old) (S.faults shelf.new) (assembly_of source.now) result }
{
    let source = FileWord {
        name: source,
        kind: Kind::Source,
    };
    let source_text = read_one(alloc, shelf, &source)?;
    build_contents(alloc, &source_text)
}

/// Assembles the source in a text.
fn build_contents(alloc: Global, source_text: &[u8]) -> Result<Outcome, Stop>
    requires { length source_text.now ≤ 1048576 }
    ensures { WorksTo Assemble (Kind.Source ∷ []) (source_text.now ∷ []) result }
{
    let image = checked_source(alloc, 0, source_text)?;
    Ok(Outcome::Assembled(image))
}

/// Lists the image in a file.
fn list<S: Shelf>(alloc: Global, shelf: &mut S, image: &str) -> Result<Outcome, Stop>
    ensures kept { (n : List ℕ) → S.content shelf.new n ≡ S.content shelf.old n }
    ensures later { S.faults shelf.old ≤ S.faults shelf.new }
    ensures goes_to { GoesTo (S.content shelf.old) (S.faults shelf.old) (S.faults shelf.new) (listing_of image.now) result }
{
    let image = FileWord {
        name: image,
        kind: Kind::Image,
    };
    let image_bytes = read_one(alloc, shelf, &image)?;
    list_contents(alloc, &image_bytes)
}

/// Lists the image in these bytes.
fn list_contents(alloc: Global, image_bytes: &[u8]) -> Result<Outcome, Stop>
    ensures { WorksTo Disassemble (Kind.Image ∷ []) (image_bytes.now ∷ []) result }
{
    let image = checked_image(alloc, 0, image_bytes)?;
    Ok(Outcome::Listed(image))
}

/// Makes the moves in one file on the images in two others.
fn trace<S: Shelf>(
    alloc: Global,
    shelf: &mut S,
    first: &str,
    second: &str,
    moves: &str,
    depth: Depth,
) -> Result<Outcome, Stop>
    ensures kept { (n : List ℕ) → S.content shelf.new n ≡ S.content shelf.old n }
    ensures later { S.faults shelf.old ≤ S.faults shelf.new }
    ensures goes_to { GoesTo (S.content shelf.old) (S.faults shelf.old) (S.faults shelf.new)
        (trace_on first.now second.now moves.now depth.value) result }
{
    let first = FileWord {
        name: first,
        kind: Kind::Image,
    };
    let second = FileWord {
        name: second,
        kind: Kind::Image,
    };
    let moves = FileWord {
        name: moves,
        kind: Kind::Moves,
    };
    let (first_bytes, second_bytes, moves_text) = read_three(
        alloc, shelf, &first, &second, &moves,
    )?;
    trace_contents(alloc, &first_bytes, &second_bytes, &moves_text, depth)
}

/// Makes the moves in a text on the images in these bytes.
fn trace_contents(
    alloc: Global,
    first_bytes: &[u8],
    second_bytes: &[u8],
    moves_text: &[u8],
    depth: Depth,
) -> Result<Outcome, Stop>
    ensures { WorksTo (Trace depth.value) (Kind.Image ∷ Kind.Image ∷ Kind.Moves ∷ [])
        (first_bytes.now ∷ second_bytes.now ∷ moves_text.now ∷ []) result }
{
    let first = checked_image(alloc, 0, first_bytes)?;
    let second = checked_image(alloc, 1, second_bytes)?;
    let moves = checked_moves(alloc, 2, moves_text)?;
    let text = trace_text(alloc, &first, &second, &moves, depth.value)?;
    Ok(Outcome::Traced(Text::from_vec(text)))
}

/// Compares the images in two files.
fn compare<S: Shelf>(
    alloc: Global,
    shelf: &mut S,
    first: &str,
    second: &str,
    comparison: Comparison,
) -> Result<Outcome, Stop>
    ensures kept { (n : List ℕ) → S.content shelf.new n ≡ S.content shelf.old n }
    ensures later { S.faults shelf.old ≤ S.faults shelf.new }
    ensures goes_to { GoesTo (S.content shelf.old) (S.faults shelf.old) (S.faults shelf.new)
        (comparison_of first.now second.now comparison.question) result }
{
    let first = FileWord {
        name: first,
        kind: Kind::Image,
    };
    let second = FileWord {
        name: second,
        kind: Kind::Image,
    };
    let (first_bytes, second_bytes) = read_two(alloc, shelf, &first, &second)?;
    compare_contents(alloc, &first_bytes, &second_bytes, comparison)
}

/// Compares the images in these bytes.
fn compare_contents(
    alloc: Global,
    first_bytes: &[u8],
    second_bytes: &[u8],
    comparison: Comparison,
) -> Result<Outcome, Stop>
    ensures { WorksTo (Compare comparison.question) (Kind.Image ∷ Kind.Image ∷ [])
        (first_bytes.now ∷ second_bytes.now ∷ []) result }
{
    let first = checked_image(alloc, 0, first_bytes)?;
    let second = checked_image(alloc, 1, second_bytes)?;
    let compared = compare_images(alloc, first, second, comparison)?;
    Ok(Outcome::Compared(compared))
}

/// Makes the demo pair of a number, and compares it. No file is read.
fn demo<S: Shelf>(alloc: Global, shelf: &mut S, number: u64) -> Result<Outcome, Stop>
    ensures kept { (n : List ℕ) → S.content shelf.new n ≡ S.content shelf.old n }
    ensures later { S.faults shelf.old ≤ S.faults shelf.new }
    ensures goes_to { GoesTo (S.content shelf.old) (S.faults shelf.old) (S.faults shelf.new) (demo_of number) result }
{
    let compared = demonstrate(alloc, number)?;
    Ok(Outcome::Demonstrated(number, compared))
}
