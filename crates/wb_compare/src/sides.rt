//! One side: its first layer, and one transfer more.
ghost use Rattle.std.specs.Prelude.{◌≡◌, ◌<◌, [], ◌∷◌, ◌++◌, IfOk, IfErr, OnOk, length, All};
ghost use Rattle.wb_port.specs.Dialogue.{AllowsEach};
ghost use Rattle.wb_port.specs.Points.{image_of};
ghost use Rattle.wb_explore.specs.Explored.{IsOfOther};
ghost use Rattle.wb_explore.specs.Faults.{StillTells};
ghost use Rattle.wb_compare.specs.Endings.{IsEnded, EndTells, ended_by};
ghost use Rattle.wb_compare.specs.Questions.{IsQuestion};
ghost use Rattle.wb_compare.specs.Settled.{plan_of};
ghost use Rattle.wb_compare.specs.Working.{IsWork, HasSpare, IsSideOf, Follows, with_overrun, kept_of};

use crate::endings::{Ended, ending_of};
use crate::facts::run_laws;
use crate::questions::Question;
use crate::working::{Work, keep_overrun};
use std::alloc::Global;
use wb_blast::Place;
use wb_explore::{Layer, extend, first};
use wb_law::different_values_are_no_more;
use wb_port::{Kind, Point};
use wb_query::Oracle;
use wb_rom::Image;
use wb_word::Side;

/// The image of a side.
fn image_of<'a>(a: &'a Image, b: &'a Image, side: Side) -> &'a Image
    ensures { result.now ≡ image_of a.now b.now side }
{
    match side {
        Side::A => a,
        Side::B => b,
    }
}

/// Follows a side from power-up to its first requests.
pub(crate) fn begin_side<O: Oracle>(
    alloc: Global,
    a: &Image,
    b: &Image,
    question: &Question,
    side: Side,
    work: &mut Work,
    oracle: &mut O,
) -> Result<Layer, Ended>
    requires question { IsQuestion question.now }
    requires limit { O.limit_of oracle.old ≡ question.now.budget.conflicts }
    requires work { IsWork a.now b.now question.now work.old }
    requires spare { HasSpare question.now work.old 0 }
    requires fresh { All (IsOfOther (plan_of question.now side [])) work.old.purse.reached }
    ensures follows { IfOk result (Follows a.now b.now question.now side [] work.old work.new) }
    ensures ended { IfErr result (IsEnded a.now b.now question.now (O.is_sound oracle.old)) }
    ensures last { IfErr result (EndTells (O.held oracle.old) (O.given oracle.old) (O.given oracle.new)) }
    ensures sound { O.is_sound oracle.new ≡ O.is_sound oracle.old }
    ensures limit { O.limit_of oracle.new ≡ O.limit_of oracle.old }
    ensures held { O.held oracle.new ≡ O.held oracle.old }
    ensures tells { OnOk result (StillTells (O.held oracle.old) (O.given oracle.old) (O.given oracle.new)) }
{
    run_laws();
    different_values_are_no_more::<Point>();
    different_values_are_no_more::<Place>();
    let image = image_of(a, b, side);
    let begun = first(
        &mut work.graph,
        alloc,
        image,
        side,
        question.k,
        question.power,
        &mut work.purse,
        oracle,
    );
    match begun {
        Ok(layer) => {
            keep_overrun(alloc, work, &layer)?;
            Ok(layer)
        }
        Err(fault) => Err(ending_of(side, fault)),
    }
}

/// Follows a side through one transfer more.
pub(crate) fn extend_side<O: Oracle>(
    alloc: Global,
    a: &Image,
    b: &Image,
    question: &Question,
    layer: &Layer,
    kind: Kind,
    work: &mut Work,
    oracle: &mut O,
) -> Result<Layer, Ended>
    requires question { IsQuestion question.now }
    requires limit { O.limit_of oracle.old ≡ question.now.budget.conflicts }
    requires work { IsWork a.now b.now question.now work.old }
    requires spare { HasSpare question.now work.old 0 }
    requires layer { IsSideOf a.now b.now question.now work.old layer.now.plan.side layer.now.plan.kinds layer.now }
    requires allowed { AllowsEach question.now.shape (layer.now.plan.kinds ++ kind ∷ []) }
    requires fresh { All (IsOfOther (plan_of question.now layer.now.plan.side (layer.now.plan.kinds ++ kind ∷ []))) work.old.purse.reached }
    ensures follows { IfOk result (Follows a.now b.now question.now layer.now.plan.side (layer.now.plan.kinds ++ kind ∷ []) work.old work.new) }
    ensures ended { IfErr result (IsEnded a.now b.now question.now (O.is_sound oracle.old)) }
    ensures last { IfErr result (EndTells (O.held oracle.old) (O.given oracle.old) (O.given oracle.new)) }
    ensures sound { O.is_sound oracle.new ≡ O.is_sound oracle.old }
    ensures limit { O.limit_of oracle.new ≡ O.limit_of oracle.old }
    ensures held { O.held oracle.new ≡ O.held oracle.old }
    ensures tells { OnOk result (StillTells (O.held oracle.old) (O.given oracle.old) (O.given oracle.new)) }
{
    run_laws();
    different_values_are_no_more::<Point>();
    different_values_are_no_more::<Place>();
    let side = layer.side();
    let image = image_of(a, b, side);
    let extended = extend(
        &mut work.graph,
        alloc,
        image,
        layer,
        kind,
        &mut work.purse,
        oracle,
    );
    match extended {
        Ok(longer) => {
            keep_overrun(alloc, work, &longer)?;
            Ok(longer)
        }
        Err(fault) => Err(ending_of(side, fault)),
    }
}
