// The bytes of a list, each part put behind those before it; a block is never longer than 1,192, so there is always room.
// Each function asks for the room of its own part: no invariant of the buffer says what is still to come.
ghost use Rattle.std.specs.Prelude.{◌≡◌, ◌+◌, ◌≤◌, ◌++◌, false, true, map, length};
ghost use Rattle.notation.specs.Several.{any};
ghost use Rattle.arrayvec.specs.ArrayVec.{array_vec_len};
ghost use Rattle.list.specs.Lists.{op_of, lawful};
ghost use Rattle.op_fields.specs.Parts.{value_of};
ghost use Rattle.op_fields.specs.declared.Value.TheVariants.{Curve as the_curve};
ghost use Rattle.block_write.specs.Bytes.{u32_bytes, value_bytes, joined, op_bytes, head_bytes, block_of};
ghost use Rattle.block_write.specs.Writing.{bad_value, bad_op, bad_list};

use crate::LONGEST;
use arrayvec::ArrayVec;
use list::{Plan, Slot};
use op::{Curve, Op};
use op_fields::{Cell, Value};

type Bytes = ArrayVec<u8, LONGEST>;

fn put_u32(out: &mut Bytes, n: u32)
    requires { array_vec_len out.old + length (u32_bytes n) ≤ 1192 }
    ensures { out.new.items ≡ out.old.items ++ u32_bytes n }
{
    out.try_extend_from_slice(&n.to_le_bytes()).unwrap();
}

fn put_curve(out: &mut Bytes, curve: Curve)
    requires { array_vec_len out.old + length (value_bytes (the_curve curve)) ≤ 1192 }
    ensures { out.new.items ≡ out.old.items ++ value_bytes (the_curve curve) }
{
    out.push(op_fields::curve_number(curve));
    put_u32(out, op_fields::gamma(curve));
}

fn put_value(out: &mut Bytes, value: Value)
    requires room { array_vec_len out.old + length (value_bytes value) ≤ 1192 }
    requires value_value { bad_value value ≡ false }
    ensures { out.new.items ≡ out.old.items ++ value_bytes value }
{
    match value {
        Value::Float(x) => put_u32(out, x.to_bits()),
        Value::Flag(on) => out.push(on as u8),
        Value::Curve(curve) => put_curve(out, curve),
    }
}

fn put_values(out: &mut Bytes, cells: &[Cell])
    requires room { array_vec_len out.old + length (joined value_bytes (map value_of cells.now)) ≤ 1192 }
    requires good { any bad_value (map value_of cells.now) ≡ false }
    ensures { out.new.items ≡ out.old.items ++ joined value_bytes (map value_of cells.now) }
{
    for cell in cells {
        put_value(out, cell.0);
    }
}

fn put_op(out: &mut Bytes, op: Op)
    requires room { array_vec_len out.old + length (op_bytes op) ≤ 1192 }
    requires op_value { bad_op op ≡ false }
    ensures { out.new.items ≡ out.old.items ++ op_bytes op }
{
    let parts = op_fields::parts_of(op);
    out.push(parts.kind);
    put_values(out, &parts.cells[..parts.count]);
}

fn put_ops(out: &mut Bytes, ops: &[Slot])
    requires room { array_vec_len out.old + length (joined op_bytes (map op_of ops.now)) ≤ 1192 }
    requires good { any bad_op (map op_of ops.now) ≡ false }
    ensures { out.new.items ≡ out.old.items ++ joined op_bytes (map op_of ops.now) }
{
    for slot in ops {
        put_op(out, slot.op);
    }
}

fn head_of(version: u16, plan: Plan) -> Bytes
    requires { plan.count ≤ 32 }
    ensures { result.items ≡ head_bytes version plan }
{
    let mut head = ArrayVec::new();
    let mark = block_read::MARK;
    let [low, high] = version.to_le_bytes();
    let count = plan.count as u8;
    let first = [mark[0], mark[1], mark[2], low, high, plan.start, count];
    head.try_extend_from_slice(&first).unwrap();
    if version == 2 {
        head.push(plan.end);
    }
    head
}

#[tactic(auto, using(crate::proofs::Lengths::ops_fit, crate::proofs::Lengths::few))]
pub(crate) fn block_of(version: u16, plan: Plan) -> Bytes
    requires lawful { lawful plan ≡ true }
    requires good { bad_list plan ≡ false }
    ensures { result.items ≡ block_of version plan }
{
    let mut block = head_of(version, plan);
    put_ops(&mut block, &plan.ops[..plan.count]);
    block
}
