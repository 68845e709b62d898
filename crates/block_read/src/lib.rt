// Reads a plan block, and hands back the rest of the caller's slice.
#![tactic(auto)]

ghost use Rattle.std.specs.Prelude.{◌≡◌, ◌≤◌, length, drop, Err};
ghost use Rattle.list.specs.Lists.{Formed};
ghost use Rattle.block_read.specs.Block.{paper, refused_by, known_version, right_mark, head_of, op_in, ops_in, listed, end_told, read_of, RestOf};

mod fields; // fields.rt: the fields of an op

pub use fields::LARGEST_G;
use list::Plan;
use notation::Answer;
use op::Op;

pub const MARK: [u8; 3] = [b'C', b'T', b'P'];

// The mark, the version, the start width and the count.
const HEAD: usize = 7;

// For what a block is not read.
#[derive(Clone, Copy, Debug, PartialEq, Eq)]
pub enum ReadError {
    // 7: the block ends early.
    Short,
    // 8: wrong mark or version.
    WrongMark,
    // 9: an unknown kind of op, a bad field, or a false end width.
    BadOp,
    // 10: the start width is not 1 or 3, or the count is above 32.
    Malformed,
}

// What was read: the version, the list, and how many bytes the block takes; 0, the empty list and none where reading is refused, as 01 says.
#[derive(Clone, Copy, Debug)]
pub struct Block {
    pub answer: Result<(), ReadError>,
    pub version: u16,
    pub plan: Plan,
    pub used: usize,
}

// An op and the bytes that it takes.
#[derive(Clone, Copy)]
struct Found {
    op: Op,
    size: usize,
}

// The paper's answer.
pub fn paper(reading: Result<(), ReadError>) -> Answer
    ensures { result ≡ paper reading }
{
    match reading {
        Ok(()) => Answer::done(0),
        Err(ReadError::Short) => Answer::refused(7),
        Err(ReadError::WrongMark) => Answer::refused(8),
        Err(ReadError::BadOp) => Answer::refused(9),
        Err(ReadError::Malformed) => Answer::refused(10),
    }
}

fn refused_by(e: ReadError) -> Block
    ensures { result ≡ refused_by (Err e) }
{
    Block {
        answer: Err(e),
        version: 0,
        plan: list::empty(0),
        used: 0,
    }
}

// A version stays a number: any may be read or asked for, and what is neither 1 nor 2 is refused by 8.
pub fn known_version(version: u16) -> bool
    ensures { result ≡ known_version version }
{
    matches!(version, 1 | 2)
}

fn right_mark(s: &[u8]) -> bool
    requires { 7 ≤ length s.now }
    ensures { result ≡ right_mark s.now }
{
    &s[..3] == MARK.as_slice() && known_version(fields::u16_at(s, 3))
}

// The bytes before the ops: in version 2 the end width stands behind the count.
fn head_of(version: u16) -> usize
    ensures { result ≡ head_of version }
{
    if version == 2 { HEAD + 1 } else { HEAD }
}

// The op at the front of a slice.
fn read_op(s: &[u8]) -> Result<Found, ReadError>
    ensures { result ≡ op_in s.now }
{
    if s.is_empty() {
        return Err(ReadError::Short);
    }
    // A kind stays a number, as `op_fields` says.
    let kind = s[0];
    if kind > 9 {
        return Err(ReadError::BadOp);
    }
    let layout = op_fields::layout_of(kind);
    let blanks = &layout.cells[..layout.count];
    let size = 1 + fields::payload(blanks);
    if s.len() < size {
        return Err(ReadError::Short);
    }
    let payload = &s[1..size];
    if fields::any_bad(blanks, payload) {
        return Err(ReadError::BadOp);
    }
    Ok(Found {
        op: op_fields::op_by(kind, fields::values_in(blanks, payload)),
        size,
    })
}

// Op by op, each from where the one before it ends.
fn read_ops(s: &[u8], version: u16, start: u8, count: u8) -> Block
    requires { (head_of version ≤ length s.now) × Formed start count }
    ensures { result ≡ listed version start (ops_in count (drop (head_of version) s.now)) }
{
    let mut plan = list::empty(start);
    let mut used = head_of(version);
    for i in 0..count {
        match read_op(&s[used..]) {
            Ok(found) => {
                plan = list::push(plan, found.op);
                used += found.size;
            }
            Err(e) => return refused_by(e),
        }
    }
    Block {
        answer: Ok(()),
        version,
        plan,
        used,
    }
}

// A block of version 2 must tell the end width of its list.
fn end_told(s: &[u8], block: Block) -> Block
    requires { head_of block.version ≤ length s.now }
    ensures { result ≡ end_told s.now block }
{
    if block.version == 2 {
        if s[HEAD] != block.plan.end {
            return refused_by(ReadError::BadOp);
        }
    }
    block
}

pub fn read(bytes: &[u8]) -> Block
    ensures { result ≡ read_of bytes.now }
{
    if bytes.len() < HEAD {
        return refused_by(ReadError::Short);
    }
    if !right_mark(bytes) {
        return refused_by(ReadError::WrongMark);
    }
    let version = fields::u16_at(bytes, 3);
    if bytes.len() < head_of(version) {
        return refused_by(ReadError::Short);
    }
    let start = bytes[5];
    let count = bytes[6];
    if !list::well_formed(start, count as usize) {
        return refused_by(ReadError::Malformed);
    }
    end_told(bytes, read_ops(bytes, version, start, count))
}

// The part of the caller's slice that follows the block; the whole of it where reading is refused.
pub fn rest(bytes: &[u8]) -> &[u8]
    ensures { RestOf bytes.entry result }
{
    let used = read(bytes).used;
    &bytes[used..]
}
