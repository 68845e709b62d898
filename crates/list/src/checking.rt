// The width check: whether each op of a list finds the width that it needs.
ghost use Rattle.std.specs.Prelude.{◌≡◌, map};
ghost use Rattle.list.specs.Ends.{end_from};
ghost use Rattle.list.specs.Lists.{op_of};
ghost use Rattle.list.specs.Check.{check_from, check_of};
ghost use Rattle.list.specs.Answer.{paper};

use crate::{CheckError, Plan, Slot, lawful};
use notation::Answer;

// The paper's answer.
pub fn paper(verdict: Result<u8, CheckError>) -> Answer
    ensures { result ≡ paper verdict }
{
    match verdict {
        Ok(end) => Answer::done(end),
        Err(CheckError::Malformed) => Answer::refused(10),
        Err(CheckError::Misfit { position }) => Answer::refused_at(5, position),
    }
}

// Each op in turn finds the width that the one before it gave.
fn check_ops(ops: &[Slot], start: u8) -> Result<u8, CheckError>
    ensures { result ≡ check_from start 0 (map op_of ops.now) }
{
    let mut width = start;
    for (position, slot) in ops.iter().enumerate() {
        if !op::fits(slot.op, width) {
            return Err(CheckError::Misfit { position });
        }
        width = op::gives(slot.op, width);
    }
    Ok(width)
}

// The width that the ops lead to; 0 where one of them needs another.
pub(crate) fn end_of(ops: &[Slot], start: u8) -> u8
    ensures { result ≡ end_from start (map op_of ops.now) }
{
    check_ops(ops, start).unwrap_or(0)
}

// 10 first, then 5 at the first op that needs another width.
pub fn check(plan: Plan) -> Result<u8, CheckError>
    ensures { result ≡ check_of plan }
{
    if !lawful(plan) {
        return Err(CheckError::Malformed);
    }
    check_ops(&plan.ops[..plan.count], plan.start)
}
