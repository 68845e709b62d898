// Planning: from two encodings and the settings to a list, or a refusal.
#![tactic(auto)]

ghost use Rattle.std.specs.Prelude.{◌≡◌, Err};
ghost use Rattle.list.specs.Lists.{plan_of};
ghost use Rattle.encoding.specs.Encodings.{channels_of};
ghost use Rattle.plan_stages.specs.Stages.{stage_ops};
ghost use Rattle.planner.specs.Planning.{paper, out_of_range, has_unknown, retired, unsupported, refusal, planned, planned_of};

use encoding::{ColourEncoding, ColourSpace, EnumColourEncoding, Settings};
use list::Plan;
use notation::Answer;

// For what no plan is made.
#[derive(Clone, Copy, Debug, PartialEq, Eq)]
pub enum PlanError {
    // Refusal 1: either side is ICC.
    Icc,
    // Refusal 2: a coordinate or `g` is outside its range.
    OutOfRange,
    // Refusal 15: the transfer function of a side that is not Xyb is Unknown.
    Retired,
    // Refusal 3: the source is Unknown, or the target is Xyb or Unknown.
    Unsupported,
}

// A refused plan is the empty list with width 0: the answer and the list stand side by side, since 01 says what both are.
#[derive(Clone, Copy, Debug)]
pub struct Planned {
    pub answer: Result<(), PlanError>,
    pub plan: Plan,
}

// The stages, one after the other.
fn unmerged(source: EnumColourEncoding, target: EnumColourEncoding, settings: Settings) -> Plan
    ensures { result ≡ plan_of (channels_of source) (stage_ops source target settings) }
{
    let current = plan_stages::decoded(source);
    let reached = plan_stages::converted(current, target);
    let empty = list::empty(encoding::channels(source));
    let linear = plan_stages::decode(empty, source, settings);
    let converted = plan_stages::convert(linear, current, target);
    let mapped = plan_stages::tone_map(converted, reached, target, settings);
    let hlg = plan_stages::pq_to_hlg(mapped, reached, target, settings);
    plan_stages::target_curve(hlg, reached, target, settings)
}

fn is_out_of_range(source: EnumColourEncoding, target: EnumColourEncoding) -> bool
    ensures { result ≡ out_of_range source target }
{
    !encoding::in_range(source) || !encoding::in_range(target)
}

// Only in an Xyb encoding is the curve not looked at.
fn has_unknown(side: EnumColourEncoding) -> bool
    ensures { result ≡ has_unknown side }
{
    side.colour_space != ColourSpace::Xyb && op::is_unknown(side.tf)
}

fn is_retired(source: EnumColourEncoding, target: EnumColourEncoding) -> bool
    ensures { result ≡ retired source target }
{
    has_unknown(source) || has_unknown(target)
}

fn is_unsupported(source: EnumColourEncoding, target: EnumColourEncoding) -> bool
    ensures { result ≡ unsupported source target }
{
    source.colour_space == ColourSpace::Unknown
        || matches!(target.colour_space, ColourSpace::Xyb | ColourSpace::Unknown)
}

// No plan, and why.
pub fn refused(e: PlanError) -> Planned
    ensures { result ≡ refusal (Err e) }
{
    Planned {
        answer: Err(e),
        plan: list::empty(0),
    }
}

fn plan_enum(source: EnumColourEncoding, target: EnumColourEncoding, settings: Settings) -> Planned
    ensures { result ≡ planned source target settings }
{
    if is_out_of_range(source, target) {
        return refused(PlanError::OutOfRange);
    }
    if is_retired(source, target) {
        return refused(PlanError::Retired);
    }
    if encoding::is_equivalent(source, target) {
        return Planned {
            answer: Ok(()),
            plan: list::empty(encoding::channels(source)),
        };
    }
    if is_unsupported(source, target) {
        return refused(PlanError::Unsupported);
    }
    Planned {
        answer: Ok(()),
        plan: list_merge::merge(unmerged(source, target, settings)).plan,
    }
}

pub fn plan(source: ColourEncoding, target: ColourEncoding, settings: Settings) -> Planned
    ensures { result ≡ planned_of source target settings }
{
    match (source, target) {
        (ColourEncoding::Enum(from), ColourEncoding::Enum(to)) => plan_enum(from, to, settings),
        _ => refused(PlanError::Icc),
    }
}

// The paper's answer.
pub fn paper(planning: Result<(), PlanError>) -> Answer
    ensures { result ≡ paper planning }
{
    match planning {
        Ok(()) => Answer::done(0),
        Err(PlanError::Icc) => Answer::refused(1),
        Err(PlanError::OutOfRange) => Answer::refused(2),
        Err(PlanError::Retired) => Answer::refused(15),
        Err(PlanError::Unsupported) => Answer::refused(3),
    }
}
