// Plans and lists as C is handed them. A list crosses the border as a plan block: the bytes that the writer makes and the reader takes.
#![tactic(auto)]

ghost use Rattle.std.specs.Prelude.{◌≡◌, length};
ghost use Rattle.buffer.specs.Buffer.{Listed};
ghost use Rattle.block_text.specs.Listing.{text_of};
ghost use Rattle.block_read.specs.Block.{read_of};
ghost use Rattle.c_plan.specs.Sent.{widths_told};
ghost use Rattle.c_plans.specs.Lists.{first_refusal, read_sent, checked_of, check_told, merge_sent, merge_left, rewrite_sent, rewrite_left, join_sent, join_told, join_left};

use block_read::{Block, ReadError};
use c_plan::{Sent, send, send_and_tell, tell_widths};
use list::CheckError;
use notation::Answer;

fn read_sent(block: Block) -> Sent
    ensures { result ≡ read_sent block }
{
    Sent {
        number: block_read::paper(block.answer).number,
        length: block.used,
        start: block.plan.start,
        end: block.plan.end,
    }
}

// What the reader says of a block; told are number, length used, start width and end width. What lies behind that length is the picture's.
pub fn rindsaddle_read(bytes: &[u8], told: &mut [u64; 4]) -> u8
    ensures value { result ≡ (read_sent (read_of bytes.now)).number }
    ensures told_after { told.new ≡ widths_told (read_sent (read_of bytes.now)) }
{
    let sent = read_sent(block_read::read(bytes));
    tell_widths(told, sent);
    sent.number
}

// The reader's refusal, or else the check's.
fn checked(block: Block) -> Answer
    ensures { result ≡ checked_of block }
{
    c_told::after_reading(block.answer, list::paper(list::check(block.plan)))
}

// What the check says of a block's list; told are number, position, width and the block's version.
pub fn rindsaddle_check(bytes: &[u8], told: &mut [u64; 4]) -> u8
    ensures value { result ≡ (checked_of (read_of bytes.now)).number }
    ensures told_after { told.new ≡ check_told (read_of bytes.now) }
{
    let block = block_read::read(bytes);
    let answer = checked(block);
    c_told::tell_numbers(
        told,
        answer.number as u64,
        answer.position as u64,
        answer.width as u64,
        block.version as u64,
    );
    answer.number
}

// The list of a block merged, as a block of the same version; told are number, length, start width and end width.
pub fn rindsaddle_merge(bytes: &[u8], out: &mut [u8], told: &mut [u64; 4]) -> u8
    ensures value { result ≡ (merge_sent (read_of bytes.now) (length out.old)).number }
    ensures told_after { told.new ≡ widths_told (merge_sent (read_of bytes.now) (length out.old)) }
    ensures out_after { out.new ≡ merge_left (read_of bytes.now) out.old }
{
    let block = block_read::read(bytes);
    let number = block_read::paper(block.answer).number;
    let merged = list_merge::merge(block.plan);
    send_and_tell(number, merged.plan, block.version, out, told)
}

// The list of a block as a block of this version; told are number, length, start width and end width.
pub fn rindsaddle_rewrite(bytes: &[u8], version: u16, out: &mut [u8], told: &mut [u64; 4]) -> u8
    ensures value { result ≡ (rewrite_sent (read_of bytes.now) version (length out.old)).number }
    ensures told_after { told.new ≡ widths_told (rewrite_sent (read_of bytes.now) version (length out.old)) }
    ensures out_after { out.new ≡ rewrite_left (read_of bytes.now) version out.old }
{
    let block = block_read::read(bytes);
    let number = block_read::paper(block.answer).number;
    send_and_tell(number, block.plan, version, out, told)
}

// The first block's refusal, or else the second's, or else joining's.
fn first_refusal(
    first: Result<(), ReadError>,
    second: Result<(), ReadError>,
    verdict: Result<u8, CheckError>,
) -> Answer
    ensures { result ≡ first_refusal first second verdict }
{
    c_told::after_reading(first, c_told::after_reading(second, list::paper(verdict)))
}

// The list of one block behind that of another, as a block of this version; told are number, position, length and end width.
pub fn rindsaddle_join(
    first: &[u8],
    second: &[u8],
    version: u16,
    out: &mut [u8],
    told: &mut [u64; 4],
) -> u8
    ensures value { result ≡ (join_sent (read_of first.now) (read_of second.now) version (length out.old)).number }
    ensures told_after { told.new ≡ join_told (read_of first.now) (read_of second.now) version (length out.old) }
    ensures out_after { out.new ≡ join_left (read_of first.now) (read_of second.now) version out.old }
{
    let one = block_read::read(first);
    let two = block_read::read(second);
    let joined = list_join::join(one.plan, two.plan);
    let answer = first_refusal(one.answer, two.answer, joined.answer);
    let sent = send(answer.number, joined.plan, version, out);
    c_told::tell_numbers(
        told,
        sent.number as u64,
        answer.position as u64,
        sent.length as u64,
        sent.end as u64,
    );
    sent.number
}

// The text of a block's list, or of why it is refused, at the front of the buffer; the answer is its length.
pub fn rindsaddle_text(bytes: &[u8], out: &mut [u8; 1024]) -> usize
    ensures { Listed (text_of bytes.now) out.old out.new result }
{
    block_text::list(bytes, out)
}
