// Joining: one list behind another.
#![tactic(auto)]

ghost use Rattle.std.specs.Prelude.{◌≡◌, map, ◌≤◌};
ghost use Rattle.list.specs.Lists.{op_of, appended};
ghost use Rattle.list_join.specs.Join.{meeting, joinable, verdict_of, join_of};

use list::{CheckError, Plan, Slot};

// What joining answers, and the list: of a refused join the empty list with width 0, as 01 says.
#[derive(Clone, Copy, Debug)]
pub struct Joined {
    pub answer: Result<u8, CheckError>,
    pub plan: Plan,
}

// Whether 10 refuses neither list, and both together have at most 32 ops.
fn joinable(first: Plan, second: Plan) -> bool
    ensures { result ≡ joinable first second }
{
    list::lawful(first) && list::lawful(second) && first.count + second.count <= 32
}

// What is answered where the first list ends at this width.
fn meeting(width: u8, first: Plan, second: Plan) -> Result<u8, CheckError>
    requires { first.count ≤ 32 }
    ensures { result ≡ meeting width first second }
{
    if width != second.start {
        let position = first.count;
        return Err(CheckError::Misfit { position });
    }
    match list::check(second) {
        Err(CheckError::Misfit { position }) => Err(CheckError::Misfit {
            position: first.count + position,
        }),
        answer => answer,
    }
}

// 10 first, then 5 in the joined order.
fn verdict_of(first: Plan, second: Plan) -> Result<u8, CheckError>
    ensures { result ≡ verdict_of first second }
{
    if !joinable(first, second) {
        return Err(CheckError::Malformed);
    }
    let width = list::check(first)?;
    meeting(width, first, second)
}

// The list with these ops behind its own, one after the other.
fn with_ops(plan: Plan, ops: &[Slot]) -> Plan
    ensures { result ≡ appended plan (map op_of ops.now) }
{
    let mut out = list::kept(plan);
    for slot in ops {
        out = list::push(out, slot.op);
    }
    out
}

// The first list's ops and then the second's, or a refusal.
pub fn join(first: Plan, second: Plan) -> Joined
    ensures { result ≡ join_of first second }
{
    match verdict_of(first, second) {
        Ok(width) => Joined {
            answer: Ok(width),
            plan: with_ops(first, &second.ops[..second.count]),
        },
        Err(e) => Joined {
            answer: Err(e),
            plan: list::empty(0),
        },
    }
}
