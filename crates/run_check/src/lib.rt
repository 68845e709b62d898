// Whether a list can be run: every refusal of a run that the list alone decides.
#![tactic(auto)]

ghost use Rattle.std.specs.Prelude.{◌≡◌, map};
ghost use Rattle.list.specs.Lists.{op_of};
ghost use Rattle.run_check.specs.Judging.{paper, uncarried_from, judge_of};

use list::{CheckError, Plan, Slot};
use notation::Answer;

// For what a list cannot be run.
#[derive(Clone, Copy, Debug, PartialEq, Eq)]
pub enum JudgeError {
    // Refusal 10: the start width is not 1 or 3, the count is above 32, or the end width is false.
    Malformed,
    // Refusal 5: the op at this position needs another width.
    Misfit { position: usize },
    // Refusal 6: the op at this position is not carried.
    NotCarried { position: usize },
}

impl From<CheckError> for JudgeError {
    ghost use Rattle.run_check.specs.Judging.{of_check};

    ghost from_gives = { λ e j. j ≡ of_check e };

    fn from(e: CheckError) -> JudgeError {
        match e {
            CheckError::Malformed => JudgeError::Malformed,
            CheckError::Misfit { position } => JudgeError::Misfit { position },
        }
    }
}

// The paper's answer.
pub fn paper(judgement: Result<u8, JudgeError>) -> Answer
    ensures { result ≡ paper judgement }
{
    match judgement {
        Ok(width) => Answer::done(width),
        Err(JudgeError::Malformed) => Answer::refused(10),
        Err(JudgeError::Misfit { position }) => Answer::refused_at(5, position),
        Err(JudgeError::NotCarried { position }) => Answer::refused_at(6, position),
    }
}

// Where the first op stands that is not carried.
fn first_uncarried(ops: &[Slot]) -> Option<usize>
    ensures { result ≡ uncarried_from 0 (map op_of ops.now) }
{
    for (i, slot) in ops.iter().enumerate() {
        if !op::carried(slot.op) {
            return Some(i);
        }
    }
    None
}

// 10 and 5 by the width check, then 6; else the width that a run of the list ends at.
pub fn judge(plan: Plan) -> Result<u8, JudgeError>
    ensures { result ≡ judge_of plan }
{
    let width = list::check(plan)?;
    match first_uncarried(&plan.ops[..plan.count]) {
        Some(position) => Err(JudgeError::NotCarried { position }),
        None => Ok(width),
    }
}
