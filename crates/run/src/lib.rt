// Runs a list of ops on three lent channels.
// Three slices, as `channels` says.
#![tactic(auto)]

mod applying;
mod outcomes;
mod running;

ghost use Rattle.std.specs.Prelude.{◌≡◌};
ghost use Rattle.channels.specs.Channels.{channels};
ghost use Rattle.run.specs.Report.{reported_of};
ghost use Rattle.run.specs.Run.{ran_of};

use list::Plan;
pub use outcomes::paper;

// For what a run is refused.
#[derive(Clone, Copy, Debug, PartialEq, Eq)]
pub enum RunError {
    // Refusal 10: the start width is not 1 or 3, the count is above 32, or the end width is false.
    Malformed,
    // Refusal 4: the lent lengths are unequal.
    Unequal,
    // Refusal 5: the op at this position needs another width.
    Misfit { position: usize },
    // Refusal 6: the op at this position is not carried.
    NotCarried { position: usize },
}

// The width that a run ended at, or its refusal; and beside it, as `Stepped` has it, how many samples it left bad, 0 where it is refused.
#[derive(Clone, Copy, Debug, PartialEq, Eq)]
pub struct Ran {
    pub outcome: Result<u8, RunError>,
    pub bad: u64,
}

// The count comes once, after the last op. Within width 0, that of a refused run, there is nothing to count.
pub fn run(plan: Plan, a: &mut [f32], b: &mut [f32], c: &mut [f32]) -> Ran
    ensures value { result ≡ reported_of plan (channels a.old b.old c.old) }
    ensures c_after { channels a.new b.new c.new ≡ ran_of plan (channels a.old b.old c.old) }
{
    let outcome = running::run_samples(plan, a, b, c);
    let bad = bad_samples::count(outcome.unwrap_or(0), a, b, c);
    Ran { outcome, bad }
}
