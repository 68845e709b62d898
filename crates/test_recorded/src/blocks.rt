// Plan blocks: n, the n bytes, four to a word; number, bytes of rest, version, the number of writing the list again, start width and list.
use list::Plan;
use test_record::from_word;

// More bytes than a record has room for. Lengths are compared with those that are answered, so that they stay numbers here.
pub(crate) const ROOM: usize = 2048;

// Byte i of these words, the first of each word in its highest two digits.
pub(crate) fn byte_at(words: &[u8], i: usize) -> u8 {
    test_record::word(words, i / 4).to_be_bytes()[i % 4]
}

pub(crate) fn read_bytes(words: &[u8], bytes: &mut [u8]) {
    for (i, byte) in bytes.iter_mut().enumerate() {
        *byte = byte_at(words, i);
    }
}

// Whether both begin with the same n bytes.
pub(crate) fn begin_alike(a: &[u8], b: &[u8], n: usize) -> bool {
    n <= a.len() && n <= b.len() && a[..n] == b[..n]
}

// Whether the rest is what follows the first `used` bytes.
fn follows(rest: &[u8], bytes: &[u8], used: usize) -> bool {
    used <= bytes.len() && rest == &bytes[used..]
}

// Whether the list that was read, written again at the block's own version, gives the first `used` bytes; or is refused by this number, and
// nothing is written.
fn rewrites(plan: Plan, version: u16, number: u32, bytes: &[u8], used: usize) -> bool {
    let mut room = [0xa5u8; ROOM];
    let written = block_write::write(plan, version, &mut room);
    if block_write::paper(written).number as u32 != number {
        return false;
    }
    match written {
        Ok(length) => length == used && begin_alike(&room, bytes, used),
        Err(_) => room == [0xa5; ROOM],
    }
}

// Reads the block and compares what is found with the answer: number, bytes of rest, version, start width and list. Then the list is
// written again, and its number compared too.
fn reads(bytes: &[u8], answer: &[u8]) -> bool {
    let Some(found) = test_record::list_at(answer, 4, 5) else {
        return false;
    };
    let read = block_read::read(bytes);
    let rest = block_read::rest(bytes);
    found.next == test_record::words(answer)
        && block_read::paper(read.answer).number as u32 == test_record::word(answer, 0)
        && rest.len() == test_record::word(answer, 1) as usize
        && read.version as u32 == test_record::word(answer, 2)
        && list_same::same_list(read.plan, found.list)
        && follows(rest, bytes, read.used)
        && rewrites(
            read.plan,
            read.version,
            test_record::word(answer, 3),
            bytes,
            read.used,
        )
}

pub(crate) fn same_block(words: &[u8]) -> bool {
    let n = test_record::word(words, 0) as usize;
    if n > ROOM {
        return false;
    }
    let mut room = [0u8; ROOM];
    let bytes = &mut room[..n];
    read_bytes(from_word(words, 1), bytes);
    reads(bytes, from_word(words, 1 + n.div_ceil(4)))
}
