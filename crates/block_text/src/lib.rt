// The text of `planlist`: what a plan block holds, or why it is refused, line by line.
// Room and numbers are asked for as `words` says.
#![tactic(auto)]

ghost use Rattle.std.specs.Prelude.{◌≡◌, ◌+◌, ◌<◌, ◌≤◌, ◌++◌, map, length};
ghost use Rattle.arrayvec.specs.ArrayVec.{array_vec_len};
ghost use Rattle.list.specs.Lists.{op_of, Lawful};
ghost use Rattle.block_text.specs.Listing.{first_line, op_line, op_lines, lines, refusal, plan_text, text_of};
ghost use Rattle.buffer.specs.Buffer.{Listed};

mod words; // words.rt: names and numbers

use arrayvec::ArrayVec;
use list::{CheckError, Plan, Slot};
use op::Op;
use words::{Text, put_counted, put_ending, put_number, put_title};

fn put_first_line(out: &mut Text, start: usize, count: usize)
    requires room { array_vec_len out.old + length (first_line start count) ≤ 1024 }
    requires start_bound { (start < 100) × (count < 100) }
    ensures { out.new.items ≡ out.old.items ++ first_line start count }
{
    put_counted(out, b"start ", start);
    put_ending(out, b" ops ", count);
}

fn put_op_line(out: &mut Text, i: usize, op: Op)
    requires room { array_vec_len out.old + length (op_line i op) ≤ 1024 }
    requires i_bound { i < 100 }
    ensures { out.new.items ≡ out.old.items ++ op_line i op }
{
    put_number(out, i);
    out.push(b' ');
    put_title(out, op);
    out.push(b'\n');
}

fn put_op_lines(out: &mut Text, ops: &[Slot])
    requires room { array_vec_len out.old + length (op_lines 0 (map op_of ops.now)) ≤ 1024 }
    requires count_bound { length ops.now ≤ 32 }
    ensures { out.new.items ≡ out.old.items ++ op_lines 0 (map op_of ops.now) }
{
    for (i, slot) in ops.iter().enumerate() {
        put_op_line(out, i, slot.op);
    }
}

// All lines but the last.
#[tactic(auto, using(crate::proofs::Enough::ops_fit, crate::proofs::Enough::all_short))]
fn lines(plan: Plan) -> Text
    requires { Lawful plan }
    ensures value { result.items ≡ lines plan }
    ensures short { array_vec_len result ≤ 912 }
{
    let mut text = ArrayVec::new();
    put_first_line(&mut text, plan.start as usize, plan.count);
    put_op_lines(&mut text, &plan.ops[..plan.count]);
    text
}

fn refusal(number: usize) -> Text
    requires { number < 100 }
    ensures { result.items ≡ refusal number }
{
    let mut text = ArrayVec::new();
    put_ending(&mut text, b"refused ", number);
    text
}

fn plan_text(plan: Plan) -> Text
    ensures { result.items ≡ plan_text plan }
{
    match list::check(plan) {
        Ok(width) => {
            let mut text = lines(plan);
            put_ending(&mut text, b"end ", width as usize);
            text
        }
        Err(CheckError::Malformed) => refusal(10),
        Err(CheckError::Misfit { position }) => {
            let mut text = lines(plan);
            put_ending(&mut text, b"refused 5 at ", position);
            text
        }
    }
}

fn text_of(bytes: &[u8]) -> Text
    ensures { result.items ≡ text_of bytes.now }
{
    let block = block_read::read(bytes);
    match block.answer {
        Ok(()) => plan_text(block.plan),
        refused => refusal(block_read::paper(refused).number as usize),
    }
}

fn put_front(text: Text, out: &mut [u8; 1024]) -> usize
    ensures { Listed text.items out.old out.new result }
{
    out[..text.len()].copy_from_slice(&text);
    text.len()
}

// The text of a list, which need not come from a block, at the front of a buffer that is always large enough; the answer is how long the text is. Into a
// lent array, as C has it.
pub fn list_plan(plan: Plan, out: &mut [u8; 1024]) -> usize
    ensures { Listed (plan_text plan) out.old out.new result }
{
    put_front(plan_text(plan), out)
}

// The same of the list in a plan block, or of why the block is refused.
pub fn list(bytes: &[u8], out: &mut [u8; 1024]) -> usize
    ensures { Listed (text_of bytes.now) out.old out.new result }
{
    put_front(text_of(bytes), out)
}
