// A list judged, and run on three channels.
// Three slices, as `channels` says.
ghost use Rattle.std.specs.Prelude.{◌≡◌};
ghost use Rattle.channels.specs.Channels.{channels};
ghost use Rattle.run.specs.Refusals.{outcome_of};
ghost use Rattle.run.specs.Run.{ran_of};

use crate::{RunError, applying, outcomes};
use list::Plan;

// Every refusal comes before the first write.
pub(crate) fn run_samples(
    plan: Plan,
    a: &mut [f32],
    b: &mut [f32],
    c: &mut [f32],
) -> Result<u8, RunError>
    ensures value { result ≡ outcome_of plan (channels a.old b.old c.old) }
    ensures c_after { channels a.new b.new c.new ≡ ran_of plan (channels a.old b.old c.old) }
{
    let same = channels::same_lengths(a.len(), b.len(), c.len());
    let width = outcomes::outcome_by(run_check::judge(plan), same)?;
    applying::run_ops(&plan.ops[..plan.count], plan.start, a, b, c);
    Ok(width)
}
