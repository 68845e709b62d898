// Writes a list as a plan block into a lent buffer.
#![tactic(auto)]

ghost use Rattle.std.specs.Prelude.{◌≡◌, length};
ghost use Rattle.block_write.specs.Writing.{paper, length_of, writing_of, left_of};

mod faults; // faults.rt: fields that the reader would refuse
mod laying; // laying.rt: the bytes of a list

use list::Plan;
use notation::Answer;

// No block is longer: a buffer of so many bytes is never too short.
pub const LONGEST: usize = 1192;

// For what a list is not written.
#[derive(Clone, Copy, Debug, PartialEq, Eq)]
pub enum WriteError {
    // 10: the start width is not 1 or 3, the count is above 32, or the end width is false.
    Malformed,
    // 8: no such version.
    WrongVersion,
    // 9: a field that the reader would refuse.
    BadField,
    // 15: an op has the Unknown curve, which is retired.
    Retired,
    // 12: the buffer is too short.
    NoRoom,
}

// The paper's answer.
pub fn paper(writing: Result<usize, WriteError>) -> Answer
    ensures { result ≡ paper writing }
{
    match writing {
        Ok(_) => Answer::done(0),
        Err(WriteError::Malformed) => Answer::refused(10),
        Err(WriteError::WrongVersion) => Answer::refused(8),
        Err(WriteError::BadField) => Answer::refused(9),
        Err(WriteError::Retired) => Answer::refused(15),
        Err(WriteError::NoRoom) => Answer::refused(12),
    }
}

// The length used; 0 where writing is refused.
pub fn length(writing: Result<usize, WriteError>) -> usize
    ensures { result ≡ length_of writing }
{
    writing.unwrap_or(0)
}

// Puts the block of a list, in version 1 or 2, at the front of a buffer; the bytes behind it stay, and a refusal leaves all as it was.
#[tactic(auto, unfolding(crate::specs::Writing::writing_of))]
pub fn write(plan: Plan, version: u16, bytes: &mut [u8]) -> Result<usize, WriteError>
    ensures value { result ≡ writing_of plan version (length bytes.old) }
    ensures bytes_after { bytes.new ≡ left_of plan version bytes.old }
{
    if !list::lawful(plan) {
        return Err(WriteError::Malformed);
    }
    if !block_read::known_version(version) {
        return Err(WriteError::WrongVersion);
    }
    let ops = &plan.ops[..plan.count];
    if faults::any_bad_op(ops) {
        return Err(WriteError::BadField);
    }
    if faults::any_retired(ops) {
        return Err(WriteError::Retired);
    }
    // Laid out apart, since a buffer that is too short stays untouched.
    let block = laying::block_of(version, plan);
    if bytes.len() < block.len() {
        return Err(WriteError::NoRoom);
    }
    bytes[..block.len()].copy_from_slice(&block);
    Ok(block.len())
}
