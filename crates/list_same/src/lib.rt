// Whether two lists are the same: start width, count, end width and ops, value by value, floats by their bits with all NaNs as one.
#![tactic(auto)]

ghost use Rattle.std.specs.Prelude.{◌≡◌, map, length};
ghost use Rattle.list.specs.Lists.{op_of};
ghost use Rattle.list_same.specs.Same.{same_float, same_all, same_curve, same_value, same_cell, same_op, same_list};

use list::{Plan, Slot};
use op::{Curve, Op};
use op_fields::{Cell, Value};

// Whether two curves are the same, as named values: the derived `==`, under a name that promises and contracts go by.
pub fn same_curve(a: Curve, b: Curve) -> bool
    ensures { result ≡ same_curve a b }
{
    a == b
}

// Whether two floats have the same bits, or both are NaN.
fn same_float(a: f32, b: f32) -> bool
    ensures { result ≡ same_float a b }
{
    if a.is_nan() {
        return b.is_nan();
    }
    if b.is_nan() {
        return false;
    }
    a.to_bits() == b.to_bits()
}

fn same_value(a: Value, b: Value) -> bool
    ensures { result ≡ same_value a b }
{
    match (a, b) {
        (Value::Float(x), Value::Float(y)) => same_float(x, y),
        (Value::Flag(x), Value::Flag(y)) => x == y,
        (Value::Curve(x), Value::Curve(y)) => same_curve(x, y),
        _ => false,
    }
}

fn same_cells(a: [Cell; 9], b: [Cell; 9]) -> bool
    ensures { result ≡ same_all same_cell a b }
{
    for i in 0..9usize {
        if !same_value(a[i].0, b[i].0) {
            return false;
        }
    }
    true
}

// Whether two ops have the same kind and values.
fn same_op(a: Op, b: Op) -> bool
    ensures { result ≡ same_op a b }
{
    let p = op_fields::parts_of(a);
    let q = op_fields::parts_of(b);
    p.kind == q.kind && same_cells(p.cells, q.cells)
}

fn same_ops(a: &[Slot], b: &[Slot]) -> bool
    requires { length a.now ≡ length b.now }
    ensures { result ≡ same_all same_op (map op_of a.now) (map op_of b.now) }
{
    for i in 0..a.len() {
        if !same_op(a[i].op, b[i].op) {
            return false;
        }
    }
    true
}

// Whether two lists are the same; slots past the count are not compared, and a count above 32 counts slots that are not there.
pub fn same_list(a: Plan, b: Plan) -> bool
    ensures { result ≡ same_list a b }
{
    if a.start != b.start || a.count != b.count || a.end != b.end {
        return false;
    }
    let count = a.count.min(32);
    same_ops(&a.ops[..count], &b.ops[..count])
}
