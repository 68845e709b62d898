// Planning between what numbers mean.
ghost use Rattle.std.specs.Prelude.{◌≡◌};
ghost use Rattle.c_plan.specs.Planned.{beside, planned_by};

use encoding::{ColourEncoding, Settings};
use planner::{PlanError, Planned};

// Where the numbers of one side mean nothing: 1 comes before 2.
fn beside(other: ColourEncoding) -> Planned
    ensures { result ≡ beside other }
{
    match other {
        ColourEncoding::IccProfile => planner::refused(PlanError::Icc),
        ColourEncoding::Enum(_) => planner::refused(PlanError::OutOfRange),
    }
}

pub(crate) fn planned(
    source: Option<ColourEncoding>,
    target: Option<ColourEncoding>,
    settings: Settings,
) -> Planned
    ensures { result ≡ planned_by source target settings }
{
    match (source, target) {
        (Some(from), Some(to)) => planner::plan(from, to, settings),
        (Some(other), None) => beside(other),
        (None, Some(other)) => beside(other),
        (None, None) => planner::refused(PlanError::OutOfRange),
    }
}
