// Merging: each longest run of matrices becomes one.
#![tactic(auto)]

ghost use Rattle.std.specs.Prelude.{◌≡◌, map, length};
ghost use Rattle.list.specs.Lists.{op_of, plan_of, Formed, appended};
ghost use Rattle.list_merge.specs.Merge.{merge_ops, paper, merge_of};
ghost use Rattle.list_merge.specs.Steps.{joined_by, held};

use ciexyz::Mat3;
use list::{Plan, Slot};
use notation::Answer;
use op::Op;

// What merging refuses a list for.
#[derive(Clone, Copy, Debug, PartialEq, Eq)]
pub enum MergeError {
    // Refusal 10: the start width is not 1 or 3, the count is above 32, or the end width is false.
    Malformed,
}

// A refused list is the empty list with width 0: the answer and the list stand side by side, since 01 says what both are.
#[derive(Clone, Copy, Debug)]
pub struct Merged {
    pub answer: Result<(), MergeError>,
    pub plan: Plan,
}

// The product of the matrices just before an op, with a matrix more, which is the left operand.
fn joined(run: Option<Mat3>, m: Mat3) -> Option<Mat3>
    ensures { result ≡ joined_by run m }
{
    match run {
        None => Some(m),
        Some(p) => Some(ciexyz::matmul3(m, p)),
    }
}

// The list with what the run became, if there is one.
fn ended(out: Plan, run: Option<Mat3>) -> Plan
    ensures { result ≡ appended out (held run) }
{
    match run {
        None => list::kept(out),
        Some(p) => list::push(out, Op::Matrix(p)),
    }
}

fn merge_ops(ops: &[Slot], start: u8) -> Plan
    requires { Formed start (length ops.now) }
    ensures { result ≡ plan_of start (merge_ops (map op_of ops.now)) }
{
    let mut out = list::empty(start);
    let mut run = None;
    for slot in ops {
        if let Op::Matrix(m) = slot.op {
            run = joined(run, m);
        } else {
            out = list::push(ended(out, run), slot.op);
            run = None;
        }
    }
    ended(out, run)
}

// The merged list, or a refusal by 10.
pub fn merge(plan: Plan) -> Merged
    ensures { result ≡ merge_of plan }
{
    if !list::lawful(plan) {
        return Merged {
            answer: Err(MergeError::Malformed),
            plan: list::empty(0),
        };
    }
    Merged {
        answer: Ok(()),
        plan: merge_ops(&plan.ops[..plan.count], plan.start),
    }
}

// The paper's answer.
pub fn paper(merging: Result<(), MergeError>) -> Answer
    ensures { result ≡ paper merging }
{
    match merging {
        Ok(()) => Answer::done(0),
        Err(MergeError::Malformed) => Answer::refused(10),
    }
}
