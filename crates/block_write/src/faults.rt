// For what a list is not written: a field that the reader would refuse, and the retired curve.
ghost use Rattle.std.specs.Prelude.{◌≡◌, map};
ghost use Rattle.notation.specs.Several.{any};
ghost use Rattle.list.specs.Lists.{op_of};
ghost use Rattle.op.specs.Retired.{is_retired};
ghost use Rattle.op_fields.specs.Parts.{value_of};
ghost use Rattle.block_write.specs.Writing.{bad_value, bad_op};

use list::Slot;
use op::Op;
use op_fields::{Cell, Value};

fn bad_value(value: Value) -> bool
    ensures { result ≡ bad_value value }
{
    match value {
        Value::Float(x) => x.is_nan(),
        Value::Flag(_) => false,
        Value::Curve(c) => op_fields::gamma(c) > block_read::LARGEST_G,
    }
}

fn any_bad_value(cells: &[Cell]) -> bool
    ensures { result ≡ any bad_value (map value_of cells.now) }
{
    cells
        .iter()
        .map(|cell| cell.0)
        .any(|value| bad_value(value))
}

fn bad_op(op: Op) -> bool
    ensures { result ≡ bad_op op }
{
    let parts = op_fields::parts_of(op);
    any_bad_value(&parts.cells[..parts.count])
}

pub(crate) fn any_bad_op(ops: &[Slot]) -> bool
    ensures { result ≡ any bad_op (map op_of ops.now) }
{
    ops.iter().map(|slot| slot.op).any(|op| bad_op(op))
}

pub(crate) fn any_retired(ops: &[Slot]) -> bool
    ensures { result ≡ any is_retired (map op_of ops.now) }
{
    ops.iter().map(|slot| slot.op).any(|op| op::is_retired(op))
}
