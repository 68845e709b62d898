// Planning from numbers, and a list written into the caller's bytes: what `planmake` and C's functions on plans rest on.
#![tactic(auto)]

ghost use Rattle.std.specs.Prelude.{◌≡◌, length};
ghost use Rattle.c_plan.specs.Planned.{planned_from};
ghost use Rattle.c_plan.specs.Sent.{widths_told, plan_sent, plan_left};

mod planned; // planned.rt: planning between what numbers mean
mod sent; // sent.rt: a list written into the caller's bytes, and what is told of it

use planned::planned;
pub use sent::{Sent, send, send_and_tell, tell_widths};

// The plan between two encodings, as a block of this version; told are its number, length, start width and end width.
#[tactic(auto, unfolding(crate::specs::Planned::planned_from))]
pub fn rindsaddle_plan(
    source: &[i32; 14],
    target: &[i32; 14],
    settings: &[f32; 14],
    detect_peak: u8,
    from_pq: u8,
    version: u16,
    out: &mut [u8],
    told: &mut [u64; 4],
) -> u8
    ensures value { result ≡ (plan_sent (planned_from source.now target.now settings.now detect_peak from_pq) version (length out.old)).number }
    ensures told_after { told.new ≡ widths_told (plan_sent (planned_from source.now target.now settings.now detect_peak from_pq) version (length out.old)) }
    ensures out_after { out.new ≡ plan_left (planned_from source.now target.now settings.now detect_peak from_pq) version out.old }
{
    let from = encoding_numbers::side_of(source);
    let to = encoding_numbers::side_of(target);
    let with = encoding_numbers::settings_of(settings, detect_peak, from_pq);
    let plan = planned(from, to, with);
    let number = planner::paper(plan.answer).number;
    send_and_tell(number, plan.plan, version, out, told)
}
