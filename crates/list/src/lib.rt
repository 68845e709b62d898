// Lists of ops: the only place where one is built; and the width check.
#![tactic(auto)]

ghost use Rattle.std.specs.Prelude.{◌≡◌, [], ◌∷◌, ◌++◌, map, ◌≤◌, drop, length};
ghost use Rattle.list.specs.Ends.{end_from};
ghost use Rattle.list.specs.Lists.{op_of, end_of, plan_of, well_formed, lawful, appended};

mod checking; // checking.rt: the width check

pub use checking::{check, paper};
use op::Op;

#[derive(Clone, Copy, Debug, PartialEq)]
pub struct Slot {
    pub op: Op,
}

// A list: a start width, a count, the width that it ends at, and room for thirty-two ops. No Vec: 01 asks for a
// struct by value that holds an array, and nothing here is on the heap. No invariant either: a list may be handed in false, which 10 refuses (`lawful`).
#[derive(Clone, Copy, Debug)]
pub struct Plan {
    pub start: u8,
    pub count: usize,
    pub end: u8,
    pub ops: [Slot; 32],
}

// What the width check refuses a list for.
#[derive(Clone, Copy, Debug, PartialEq, Eq)]
pub enum CheckError {
    // Refusal 10: the start width is not 1 or 3, the count is above 32, or the end width is false.
    Malformed,
    // Refusal 5: the op at this position needs another width.
    Misfit { position: usize },
}

// Whether a list has this start width, 1 or 3, and this count, at most 32; refusal 10 otherwise.
pub fn well_formed(start: u8, count: usize) -> bool
    ensures { result ≡ well_formed start count }
{
    matches!(start, 1 | 3) && count <= 32
}

// The empty list: every slot holds Clip, and it ends where it starts.
pub fn empty(start: u8) -> Plan
    ensures { result ≡ plan_of start [] }
{
    let end = if well_formed(start, 0) { start } else { 0 };
    Plan {
        start,
        count: 0,
        end,
        ops: [Slot { op: Op::Clip }; 32],
    }
}

// The same of a whole list, whose end width must be true.
pub fn lawful(plan: Plan) -> bool
    ensures { result ≡ lawful plan }
{
    well_formed(plan.start, plan.count)
        && plan.end == checking::end_of(&plan.ops[..plan.count], plan.start)
}

// Writes ops over the first of some slots.
fn put_front(slots: &mut [Slot], ops: &[Slot])
    requires { length ops.now ≤ length slots.old }
    ensures { slots.new ≡ ops.now ++ drop (length ops.now) slots.old }
{
    slots[..ops.len()].copy_from_slice(ops);
}

// These ops, with Clip past them.
fn padded(ops: &[Slot], start: u8, end: u8) -> Plan
    requires { (length ops.now ≤ 32) × (end ≡ end_of start (length ops.now) (map op_of ops.now)) }
    ensures { result ≡ plan_of start (map op_of ops.now) }
{
    let mut out = empty(start);
    put_front(&mut out.ops, ops);
    out.count = ops.len();
    out.end = end;
    out
}

// The list as we return it; the empty list with width 0 where 10 refuses it.
pub fn kept(plan: Plan) -> Plan
    ensures { result ≡ appended plan [] }
{
    if !lawful(plan) {
        return empty(0);
    }
    padded(&plan.ops[..plan.count], plan.start, plan.end)
}

// The width that an op leads to; 0 where it needs another.
fn led_to(op: Op, width: u8) -> u8
    ensures { result ≡ end_from width (op ∷ []) }
{
    if op::fits(op, width) {
        op::gives(op, width)
    } else {
        0
    }
}

// The list with one op more; the empty list with width 0 where 10 refuses the list, or the longer one.
pub fn push(plan: Plan, op: Op) -> Plan
    ensures { result ≡ appended plan (op ∷ []) }
{
    if !lawful(plan) || plan.count == 32 {
        return empty(0);
    }
    let mut longer = padded(&plan.ops[..plan.count], plan.start, plan.end);
    longer.ops[plan.count] = Slot { op };
    longer.count = plan.count + 1;
    longer.end = led_to(op, plan.end);
    longer
}
